//! A list that a Release names.

use acq_base::{ListName, NoMemory, Sum, Text, TryCopy, Uri};
use std::alloc::Global;

/// A list that a Release names: all that its asks are made of.
#[derive(Debug, PartialEq, Drop)]
pub struct Wanted {
    /// The path below the Release's folder.
    pub path: Text,
    pub name: ListName,
    /// The sum that the Release lists.
    pub sum: Sum,
    pub uri: Uri,
    /// The URI under the digest, where the list is asked for there first.
    pub hashed: Option<Uri>,
    /// The sum of the list's patch Index, where patches are on for the source and the Release lists one.
    pub index: Option<Sum>,
    /// The most patches that may be asked, 0 for no limit.
    pub file_limit: u32,
    /// How many bytes the patches may have together, in percent of the list's, 0 for no limit.
    pub size_limit: u32,
}

impl TryCopy for Wanted {
    fn copy(&self, alloc: Global) -> Result<Wanted, NoMemory> {
        Ok(Wanted {
            path: self.path.copy(alloc)?,
            name: self.name.copy(alloc)?,
            sum: self.sum,
            uri: self.uri.copy(alloc)?,
            hashed: self.hashed.copy(alloc)?,
            index: self.index.copy(alloc)?,
            file_limit: self.file_limit,
            size_limit: self.size_limit,
        })
    }
}
