//! A script and its hunks.

use acq_base::{Bytes, NoMemory, Row, TryCopy};
use std::alloc::Global;

/// One change of a file: its lines behind the first `from` up to the line `to` give way to a text.
#[derive(Debug, PartialEq, Drop)]
pub struct Hunk {
    /// How many lines stand before the change.
    pub from: u64,
    /// The last line that gives way, counted from 1, or `from` where none does.
    pub to: u64,
    /// What stands there instead: lines, each with its line feed.
    pub text: Bytes,
    /// The line of the script's command, counted from 1.
    pub at: u64,
}

/// An edit script: hunks from the end of a file to its beginning.
///
/// A sound one has hunks whose `from` is at most their `to`, whose `to` is at most the `from` of the hunk before them,
/// and whose text is empty or ends with a line feed. The reader gives such scripts, and every call that takes one
/// relies on it.
#[derive(Debug, PartialEq, Drop)]
pub struct Script {
    pub hunks: Row<Hunk>,
}

impl TryCopy for Hunk {
    fn copy(&self, alloc: Global) -> Result<Hunk, NoMemory> {
        Ok(Hunk {
            from: self.from,
            to: self.to,
            text: self.text.copy(alloc)?,
            at: self.at,
        })
    }
}

impl TryCopy for Script {
    fn copy(&self, alloc: Global) -> Result<Script, NoMemory> {
        Ok(Script {
            hunks: self.hunks.copy(alloc)?,
        })
    }
}
