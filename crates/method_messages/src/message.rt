//! A message as plain data. It touches nothing and takes no memory.

use acq_base::{Row, Text};

/// A message of APT's method interface.
#[derive(Debug, Drop, PartialEq)]
pub struct Message {
    /// What it says: 201 of a fetch that is done, 400 of one that failed, 600 of one that is asked for.
    pub number: u32,
    /// The rest of its first line, as `URI Done`.
    pub text: Text,
    /// The names and values of its fields, in order. A name may stand more than once.
    pub fields: Row<(Text, Text)>,
}
