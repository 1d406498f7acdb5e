//! What has come of a fetch so far, and what a word leads to.

use crate::filling::Filling;
use acq_base::{Bytes, ListName};
use update_model::Closed;

/// What has come of a fetch so far.
#[derive(Drop)]
pub enum Intake {
    /// The pieces, joined in memory.
    Held(Bytes),
    /// Nothing yet, for the file under `partial/` of this list, which is as it was.
    Unopened(ListName),
    /// The pieces, in a list's file under `partial/`, behind the bytes that the job leaves out.
    Filling(Filling),
}

/// What a word leads to.
#[derive(Drop)]
pub enum Heard {
    /// More is to come.
    More(Intake),
    /// The answer to the whole fetch.
    Last(Closed),
}
