//! A folder whose files are gone when they are asked for.

use acq_base::{Bytes, Row, Text, TryCopy};
use acq_outside::{Etc, OutError, Place};
use case_words::Refused;
use std::alloc::Global;

/// A folder that lists these files in each parts folder, and has no file when it is asked for one.
#[derive(Drop)]
pub struct Vanishing {
    names: Row<Text>,
}

impl Vanishing {
    /// A folder that lists these names.
    pub fn new(alloc: Global, words: &[&[u8]]) -> Result<Vanishing, Refused> {
        let mut names = Row::new(alloc);
        for word in words {
            names.push(Text::from_bytes(alloc, word)?)?;
        }
        Ok(Vanishing { names })
    }
}

impl Etc for Vanishing {
    ghost use Rattle.std.specs.Prelude.{None};

    ghost faults = { λ _. 0 };

    ghost files = { λ _. None };

    fn names(&mut self, alloc: Global, _place: Place) -> Result<Row<Text>, OutError> {
        Ok(self.names.copy(alloc)?)
    }

    fn read(
        &mut self,
        _alloc: Global,
        _place: Place,
        _name: &Text,
    ) -> Result<Option<Bytes>, OutError> {
        Ok(None)
    }
}
