//! What a disk has at one moment, beside what reads give: what a crash leaves of its files, and changes of names.

use acq_base::{Bytes, Row, Text};

/// A file since its last sync.
#[derive(Debug, Drop)]
pub struct FileState {
    /// What reads give.
    pub seen: Bytes,
    /// What a crash leaves of each byte: that byte, or any. It leaves no more bytes than there are cells.
    pub cells: Row<Option<u8>>,
    /// The least length in bytes that a crash leaves.
    pub least: u64,
}

/// A change of names. Files go by the numbers in which they were made.
#[derive(Debug, Drop)]
pub enum NameChange {
    Made(Text, usize),
    Moved(Text, Text),
    Removed(Text),
}
