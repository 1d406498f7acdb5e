//! What a run tells: of each ask, and in the end of all.

use crate::Verdict2;
use acq_base::{ListName, NoMemory, NotServed, Row, Sum, Text, TryCopy, Uri};
use std::alloc::Global;

/// An answer as the log keeps it.
#[derive(Debug, PartialEq, Drop)]
pub enum Heard {
    /// The sum of the whole file, with the bytes at its front that were at hand.
    Served(Sum),
    /// No file was served.
    Not(NotServed),
}

/// One entry of the log: an ask and its answer.
#[derive(Debug, PartialEq, Drop)]
pub struct Asked {
    /// The source's place in the plan.
    pub source: u32,
    /// The list's path below the Release's folder, or `Release`.
    pub path: Text,
    pub uri: Uri,
    /// How many bytes at the file's front were at hand already.
    pub from: u64,
    /// The number of the method that answered.
    pub lane: u32,
    pub heard: Heard,
}

/// What a run tells.
#[derive(Debug, PartialEq, Drop)]
pub struct RunLog {
    /// What each source came to, in plan order.
    pub verdicts: Row<Verdict2>,
    /// The places of the sources in the plan, in the order in which they were settled.
    pub settled: Row<u32>,
    /// All asks with their answers, in the order in which these came.
    pub asks: Row<Asked>,
    /// The lists that the clean-up removed, partial files left out.
    pub removed: Row<ListName>,
}

impl TryCopy for Heard {
    fn copy(&self, alloc: Global) -> Result<Heard, NoMemory> {
        Ok(match self {
            Heard::Served(sum) => Heard::Served(*sum),
            Heard::Not(end) => Heard::Not(end.copy(alloc)?),
        })
    }
}

impl TryCopy for Asked {
    fn copy(&self, alloc: Global) -> Result<Asked, NoMemory> {
        Ok(Asked {
            source: self.source,
            path: self.path.copy(alloc)?,
            uri: self.uri.copy(alloc)?,
            from: self.from,
            lane: self.lane,
            heard: self.heard.copy(alloc)?,
        })
    }
}
