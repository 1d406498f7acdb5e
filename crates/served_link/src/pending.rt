//! A response that is being sent.

use tree_serve::Planned;

/// What is still to be sent of a response.
#[derive(Debug, Drop)]
pub struct Pending {
    /// What is left of it, all of its head included.
    pub planned: Planned,
    /// How many bytes of the head were sent.
    pub done: usize,
}
