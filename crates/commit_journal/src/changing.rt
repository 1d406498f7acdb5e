//! What a commit changes.

use acq_base::{Bytes, ListName, Text};

/// What a list is to hold.
#[derive(Debug, Drop)]
pub enum Content {
    /// These bytes.
    Held(Bytes),
    /// What the file on its way, `partial/NAME`, holds. It is there, and lasts.
    Staged,
}

/// A change of a commit.
#[derive(Debug, Drop)]
pub enum Change {
    /// Puts a list under its name, in place of what is there.
    Put { name: ListName, content: Content },
    /// Removes the file of this name, where it is there.
    Drop { name: Text },
}
