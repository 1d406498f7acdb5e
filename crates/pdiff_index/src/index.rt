//! A patch Index, and the steps that it lists.

use acq_base::{NoMemory, Row, Sum, Text, TryCopy};
use std::alloc::Global;

/// A sum under the name of a patch: in a history that of the file from which the patch leads away, else the patch's.
#[derive(Debug, PartialEq, Drop)]
pub struct Step {
    pub sum: Sum,
    pub name: Text,
}

/// A patch Index.
#[derive(Debug, PartialEq, Drop)]
pub struct Index {
    /// The sum of the file to which the patches lead.
    pub current: Sum,
    /// The files from which patches lead away, oldest first.
    pub history: Row<Step>,
    /// The patches. The reader gives no name twice.
    pub patches: Row<Step>,
    /// Whether each patch leads to the current file in one step.
    pub merged: bool,
}

impl TryCopy for Step {
    fn copy(&self, alloc: Global) -> Result<Step, NoMemory> {
        Ok(Step {
            sum: self.sum,
            name: self.name.copy(alloc)?,
        })
    }
}
