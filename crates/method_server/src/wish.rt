//! What a request asks for.

use acq_base::{Job, Sha, Text};

/// What a request asks for.
#[derive(Debug, Drop)]
pub struct Wish {
    /// The URI as the request has it.
    pub text: Text,
    /// The whole file, with the most bytes that it may have.
    pub job: Job,
    /// The digest that the file should have, where one is told.
    pub wanted: Option<Sha>,
    /// Where the file goes: over http the name that the request has, and else its path.
    pub name: Text,
}
