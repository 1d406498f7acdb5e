//! What is kept of a list that is asked for by patches.

use crate::editing::{Editing, Installed};
use acq_base::Sum;
use pdiff_index::Step;
use update_model::Wanted;

/// A list whose patch Index is asked for.
#[derive(Drop)]
pub struct Listing {
    pub wanted: Wanted,
    /// The size of its partial file.
    pub part: u64,
    pub installed: Installed,
    /// The sum of the Index.
    pub sum: Sum,
}

/// A list one of whose patches is asked for.
#[derive(Drop)]
pub struct Patching {
    pub wanted: Wanted,
    /// The size of its partial file.
    pub part: u64,
    /// What the patches before have made.
    pub editing: Editing,
    /// The sum of the patch that is asked for.
    pub sum: Sum,
    /// The patches behind it, the next one last.
    pub later: Vec<Step>,
}
