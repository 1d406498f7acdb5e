//! What is installed of a source.

use crate::{Bytes, ListName, Row};

/// What is installed of one source: its Release, and the files under its planned targets' names.
#[derive(Debug, PartialEq, Drop)]
pub struct Old {
    pub release: Option<Bytes>,
    pub lists: Row<(ListName, Bytes)>,
}
