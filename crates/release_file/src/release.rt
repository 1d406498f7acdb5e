//! What a Release says. It may take memory for copies, and touches nothing else.

use acq_base::{NoMemory, Row, Sum, Text, TryCopy};
use std::alloc::Global;

/// What a Release says of itself. A text of several lines has a line feed between each two.
#[derive(Debug, PartialEq, Drop)]
pub struct Head {
    pub origin: Option<Text>,
    pub label: Option<Text>,
    pub suite: Option<Text>,
    pub codename: Option<Text>,
}

/// A file that a Release lists: its path below the Release's folder, and its sum.
#[derive(Debug, PartialEq, Drop)]
pub struct Listed {
    pub path: Text,
    pub sum: Sum,
}

/// A Release (Debian repository format, "Release" files).
#[derive(Debug, PartialEq, Drop)]
pub struct Release {
    /// When it was made, in seconds since 1970-01-01 00:00:00 UTC.
    pub date: i64,
    /// Until when it says that it is valid, in seconds since 1970-01-01 00:00:00 UTC.
    pub until: Option<i64>,
    /// Whether lists may be asked for under their digests.
    pub by_hash: bool,
    pub head: Head,
    /// The files with their SHA-256 sums, in the order in which it first names each path. No path stands twice.
    pub files: Row<Listed>,
}

impl TryCopy for Head {
    fn copy(&self, alloc: Global) -> Result<Head, NoMemory> {
        Ok(Head {
            origin: self.origin.copy(alloc)?,
            label: self.label.copy(alloc)?,
            suite: self.suite.copy(alloc)?,
            codename: self.codename.copy(alloc)?,
        })
    }
}
