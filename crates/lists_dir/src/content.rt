//! The bytes of a file for contracts alone.

ghost use Rattle.std.specs.Prelude.{◌≡◌, ◌++◌, OnOk};

use acq_base::{Bytes, NoMemory};
use std::alloc::Global;
use std::marker::Model;
use std::snapshot::Snapshot;

/// The bytes of a file, of which none is held: contracts see their list, and a program nothing.
#[derive(Drop)]
pub(crate) struct Content {
    first: Snapshot<Bytes>,
    later: Vec<Snapshot<Vec<u8>>>,
}

impl Model for Content {
    ghost use Rattle.std.specs.Prelude.{List, ℕ, ◌++◌};
    ghost use Rattle.std.specs.List.{flat_map};

    ghost Value = { List ℕ };

    ghost view = { λ content. content.first.value ++ flat_map (λ piece. piece.value.items) content.later.items };
}

impl Content {
    /// The content of a file of these bytes.
    pub(crate) fn of(alloc: Global, bytes: &Bytes) -> Content
        ensures { result ≡ bytes.now }
    {
        Content {
            first: Snapshot::of(bytes),
            later: Vec::new(alloc),
        }
    }

    /// Puts a piece behind what there is so far. A piece takes no memory, but the list that counts pieces may ask for some.
    pub(crate) fn grow(&mut self, piece: &Vec<u8>) -> Result<(), NoMemory>
        ensures { OnOk result (self.new ≡ self.old ++ piece.now.items) }
    {
        self.later.push(Snapshot::of(piece))?;
        Ok(())
    }
}
