//! Files that are known by their sums.

ghost use Rattle.std.specs.Prelude.{◌≡◌};

use crate::content::Content;
use acq_base::{Bytes, ListName, Row, Sum, sum_of};
use std::alloc::Global;
use std::marker::Model;

/// A file known by its sum. Contracts see the list of its bytes, and nothing of these is held.
#[derive(Drop)]
pub struct Summed {
    sum: Sum,
    file: Content,
}

impl Model for Summed {
    ghost use Rattle.std.specs.Prelude.{◌≡◌, List, ℕ};
    ghost use Rattle.acq_base.specs.Sum.{sum_of as sum_of_bytes};

    ghost Value = { List ℕ };

    ghost view = { λ summed. summed.file };

    ghost invariant = { λ summed. summed.sum ≡ sum_of_bytes summed.file };
}

impl Summed {
    ghost use Rattle.acq_base.specs.Sum.{sum_of as sum_of_bytes};

    /// The file of bytes that are held elsewhere.
    pub fn of(alloc: Global, bytes: &Bytes) -> Summed
        ensures { result ≡ bytes.now }
    {
        Summed {
            sum: sum_of(bytes.as_slice()),
            file: Content::of(alloc, bytes),
        }
    }

    /// The file of this content, whose sum is known.
    pub(crate) fn known(sum: Sum, file: Content) -> Summed
        requires { sum ≡ sum_of_bytes file }
        ensures { result ≡ file }
    {
        Summed { sum, file }
    }

    /// The file's sum.
    pub fn sum(&self) -> Sum
        ensures { result ≡ sum_of_bytes self.now }
    {
        self.sum
    }
}

/// What is installed of one source: its Release, and its lists under its planned targets' names, each known by its sum.
#[derive(Drop)]
pub struct Installed {
    pub release: Option<Bytes>,
    pub lists: Row<(ListName, Summed)>,
}
