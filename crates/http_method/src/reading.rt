//! A response that is being read.
ghost use Rattle.std.specs.Prelude.{◌≡◌, [], false, IfOk};
ghost use Rattle.acq_outside.specs.Word.{begun};
ghost use Rattle.http_wire.specs.Wire.{Follows, held, wire_state};

use acq_base::{Job, NoMemory, Text, TryCopy, Uri};
use acq_outside::{Fetch, Word};
use http_wire::{State, Wire};
use std::alloc::Global;

/// What stands behind the bytes that a wire has taken.
#[derive(Clone, Copy, Debug, PartialEq, Eq)]
pub enum Behind {
    /// Nothing has come.
    Nothing,
    /// Bytes that don't belong to the response.
    Bytes,
    /// The peer's end.
    End,
}

/// A response that is being read.
#[derive(Drop)]
pub struct Reading {
    pub fetch: Fetch,
    pub wire: Wire,
    pub behind: Behind,
}

/// A host and its port.
#[derive(Drop)]
pub struct Place {
    pub host: Text,
    pub port: u16,
}

/// A word, and what a method keeps behind it: a connection to a place, or the response that is being read.
#[derive(Drop)]
pub struct Said {
    pub word: Word,
    pub kept: Option<Place>,
    pub reading: Option<Reading>,
}

impl Reading {
    /// Nothing of the response has come.
    pub fn new(alloc: Global, job: &Job) -> Result<Reading, NoMemory>
        ensures fetch { IfOk result (λ reading. reading.fetch ≡ begun job.now) }
        ensures behind { IfOk result (λ reading. reading.behind ≡ Behind.Nothing) }
        ensures state { IfOk result (λ reading. wire_state reading.wire ≡ State.More) }
        ensures none { IfOk result (λ reading. held reading.wire ≡ []) }
        ensures follows { IfOk result (λ reading. Follows reading.wire job.now.max job.now.from [] [] false) }
    {
        let wire = Wire::new(alloc, job.max, job.from);
        let at = job.from;
        let job = job.copy(alloc)?;
        Ok(Reading {
            fetch: Fetch { job, at },
            wire,
            behind: Behind::Nothing,
        })
    }
}
