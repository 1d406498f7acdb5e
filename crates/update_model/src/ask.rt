//! What is asked at one URI, and how it ended.

use acq_base::{Bytes, NoMemory, NotServed, Sum, TryCopy, Uri};
use std::alloc::Global;

/// What is asked at one URI.
#[derive(Debug, PartialEq, Drop)]
pub struct Ask {
    pub uri: Uri,
    /// The most bytes that the whole file may have.
    pub max: u64,
    /// How many bytes at the file's front are at hand already, so that only those behind them are asked.
    pub from: u64,
    /// Whether the file goes into a partial file as it comes, so that its sum alone is known in the end.
    pub stage: bool,
}

/// A file that came: its bytes, or the sum of the partial file that holds it.
#[derive(Debug, PartialEq, Drop)]
pub enum Body {
    Bytes(Bytes),
    Staged(Sum),
}

/// What a method answered to an ask, all pieces of a file together.
#[derive(Debug, PartialEq, Drop)]
pub enum Closed {
    /// The whole file, with the bytes at its front that were at hand.
    Served(Body),
    /// No file was served.
    Not(NotServed),
}

/// How a trail of asks ended, each at the place to which the one before was moved.
#[derive(Debug, PartialEq, Drop)]
pub enum Ending {
    Served(Body),
    TooBig,
    /// The HTTP status of a refusal.
    Absent(u16),
    /// An eleventh move, a move to no URI of this profile, or one from http to a file.
    Lost,
    /// The peer broke its protocol at this byte of its answer.
    Garbled(u64),
    /// The method failed once more than an ask may be repeated. The lane and the counts are those of the last fault.
    Dead { lane: u32, before: u64, after: u64 },
}

impl TryCopy for Body {
    fn copy(&self, alloc: Global) -> Result<Body, NoMemory> {
        Ok(match self {
            Body::Bytes(bytes) => Body::Bytes(bytes.copy(alloc)?),
            Body::Staged(sum) => Body::Staged(*sum),
        })
    }
}

impl TryCopy for Closed {
    fn copy(&self, alloc: Global) -> Result<Closed, NoMemory> {
        Ok(match self {
            Closed::Served(body) => Closed::Served(body.copy(alloc)?),
            Closed::Not(end) => Closed::Not(end.copy(alloc)?),
        })
    }
}

impl TryCopy for Ask {
    fn copy(&self, alloc: Global) -> Result<Ask, NoMemory> {
        Ok(Ask {
            uri: self.uri.copy(alloc)?,
            max: self.max,
            from: self.from,
            stage: self.stage,
        })
    }
}
