//! A tree of no files.

use acq_base::Text;
use acq_outside::{Fault, Tree};

/// What each place has but the server's own.
#[derive(Drop)]
pub struct NoFiles;

impl Tree for NoFiles {
    ghost use Rattle.std.specs.Prelude.{[], Some};

    ghost faults = { λ _. 0 };

    ghost files = { λ _. Some [] };

    fn size(&mut self, _path: &Text) -> Result<Option<u64>, Fault> {
        Ok(None)
    }

    fn read_at(&mut self, _path: &Text, _at: u64, _out: &mut [u8]) -> Result<usize, Fault> {
        Ok(0)
    }
}
