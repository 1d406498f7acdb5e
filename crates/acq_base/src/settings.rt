//! The settings that take effect.

use crate::{ByHash, NoMemory, Row, Text, TryCopy};
use std::alloc::Global;

/// How a Release's dates are judged, in seconds. A `min` or `max` of 0 is none.
#[derive(Clone, Copy, Debug, PartialEq, Eq)]
pub struct Dates {
    /// The least time for which a Release that says until when it is valid counts as valid.
    pub min: u64,
    /// The greatest time for which a Release counts as valid.
    pub max: u64,
    /// How far a Release may be dated ahead of the moment.
    pub future: u64,
}

/// Which kinds of lists are wanted.
#[derive(Clone, Copy, Debug, PartialEq, Eq)]
pub struct Pick {
    pub packages: bool,
    pub sources: bool,
    pub translations: bool,
}

/// The settings of apt.conf(5) that take effect.
#[derive(Debug, PartialEq, Drop)]
pub struct Settings {
    /// The architecture of this system.
    pub arch: Text,
    /// The architectures whose lists are wanted where a source names none.
    pub archs: Row<Text>,
    /// The languages whose translations are wanted.
    pub langs: Row<Text>,
    pub pick: Pick,
    pub dates: Dates,
    /// How often a failed fetch is tried again, 0 to 10.
    pub retries: u32,
    /// What holds of a source that says nothing of it.
    pub by_hash: ByHash,
    /// The same for patches of lists.
    pub pdiffs: bool,
    /// The most patches for one list, 0 for no limit.
    pub file_limit: u32,
    /// The most bytes of patches for one list, in percent of the list, 0 for no limit.
    pub size_limit: u32,
    /// Whether lists of no source are dropped after a run without a kept source.
    pub cleanup: bool,
}

impl TryCopy for Settings {
    fn copy(&self, alloc: Global) -> Result<Settings, NoMemory> {
        Ok(Settings {
            arch: self.arch.copy(alloc)?,
            archs: self.archs.copy(alloc)?,
            langs: self.langs.copy(alloc)?,
            pick: self.pick,
            dates: self.dates,
            retries: self.retries,
            by_hash: self.by_hash,
            pdiffs: self.pdiffs,
            file_limit: self.file_limit,
            size_limit: self.size_limit,
            cleanup: self.cleanup,
        })
    }
}
