//! What words ask for. It touches nothing and takes no memory.

use acq_base::{Row, Text};

/// The options of `update`.
#[derive(Debug, PartialEq, Drop)]
pub struct Options {
    /// The values of `-o` and `--option`, in their order, as they were written.
    pub pairs: Row<Text>,
    /// Whether `--together` was given.
    pub together: bool,
}

/// What the words of a command line ask for.
#[derive(Debug, PartialEq, Drop)]
pub enum Request {
    /// `update` with its options.
    Update(Options),
    /// `generate N`.
    Generate(u64),
}
