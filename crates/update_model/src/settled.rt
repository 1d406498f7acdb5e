//! What a source came to, and which of its files change for it.

use crate::{Body, Cause};
use acq_base::{Bytes, ListName, NoMemory, Row, Sum, TryCopy};
use std::alloc::Global;

/// The set of lists that a source has: what its files are known by.
#[derive(Debug, PartialEq, Drop)]
pub struct Held {
    /// The sum of the Release's bytes, its frame included.
    pub release: Sum,
    /// The Release's date, in seconds since 1970-01-01 00:00:00 UTC.
    pub date: i64,
    /// The lists that the Release names, in plan order, each with the sum that it lists.
    pub lists: Row<(ListName, Sum)>,
}

/// What a source came to.
#[derive(Debug, PartialEq, Drop)]
pub enum Verdict2 {
    /// It has a new set, which wasn't there.
    Installed(Held),
    /// It has a new set, which was there already.
    Hit(Held),
    /// It keeps its set, since the Release that came is older than the installed one. The date is that of the Release that
    /// came, in seconds since 1970-01-01 00:00:00 UTC.
    Older(i64),
    /// It keeps its set for a cause.
    Kept(Cause),
}

/// A source whose asks have all ended: what it came to, and which of its files change for it.
#[derive(Debug, PartialEq, Drop)]
pub struct Settled {
    pub verdict: Verdict2,
    /// The Release to put under its name, where one is.
    pub release: Option<Bytes>,
    /// The lists to put under their names.
    pub puts: Row<(ListName, Body)>,
    /// The lists to remove.
    pub drops: Row<ListName>,
}

impl TryCopy for Held {
    fn copy(&self, alloc: Global) -> Result<Held, NoMemory> {
        Ok(Held {
            release: self.release,
            date: self.date,
            lists: self.lists.copy(alloc)?,
        })
    }
}

impl TryCopy for Verdict2 {
    fn copy(&self, alloc: Global) -> Result<Verdict2, NoMemory> {
        Ok(match self {
            Verdict2::Installed(held) => Verdict2::Installed(held.copy(alloc)?),
            Verdict2::Hit(held) => Verdict2::Hit(held.copy(alloc)?),
            Verdict2::Older(date) => Verdict2::Older(*date),
            Verdict2::Kept(cause) => Verdict2::Kept(cause.copy(alloc)?),
        })
    }
}
