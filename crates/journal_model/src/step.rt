//! What a journal says: the steps of a record behind an open gate.

use acq_base::{Row, Text};

/// A step of a record.
#[derive(Debug, Drop)]
pub enum Step {
    /// Moves the list from its place under `partial/` to its name, where it is there.
    Put(Text),
    /// Removes the file of this name.
    Drop(Text),
}

/// What a journal's bytes say.
#[derive(Debug, Drop)]
pub enum JournalState {
    /// The gate is open before a record of these steps.
    Open(Row<Step>),
    /// The gate is open, and the byte at this place of the file can't stand there in a record; the file's length where it
    /// ends too early.
    Damaged(u64),
    /// The gate isn't open, or there is no journal.
    Shut,
}
