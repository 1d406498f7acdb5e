//! What is asked of a mirror, and what it answers.

use crate::{Bytes, NoMemory, Row, TryCopy, Uri};
use std::alloc::Global;

/// One fetch for a worker. Its URI is sound.
#[derive(Debug, PartialEq, Drop)]
pub struct Job {
    /// The number of the item that asks. An item has one job out at a time.
    pub no: u64,
    pub uri: Uri,
    /// The most bytes that the whole file may have.
    pub max: u64,
    /// How many bytes at the file's front are left out of the answer.
    pub from: u64,
}

/// What a mirror has under a URI: a file, another place, or a refusal with its HTTP status (RFC 9110, section 15).
#[derive(Debug, PartialEq, Drop)]
pub enum Answer {
    /// The file's bytes.
    Served(Bytes),
    /// The place to ask instead, or `None` where that is no URI of this profile.
    Moved(Option<Uri>),
    /// The status of the refusal.
    Absent(u16),
}

/// A mirror: answers under distinct URIs. What isn't listed is absent with status 404.
#[derive(Debug, Drop)]
pub struct Mirror {
    pub rows: Row<(Uri, Answer)>,
}

/// What comes to a job or an ask where no file was served.
#[derive(Debug, PartialEq, Drop)]
pub enum NotServed {
    /// The place to ask instead, or `None` where that is no URI of this profile.
    Moved(Option<Uri>),
    /// The HTTP status of a refusal (RFC 9110, section 15).
    Absent(u16),
    /// More bytes than the job allows.
    TooBig,
    /// The peer broke its protocol at this byte of its answer.
    Garbled(u64),
    /// The method failed, and its count of faults rose from `before` to `after`.
    Fault { before: u64, after: u64 },
}

/// What a method answers to a job.
#[derive(Debug, PartialEq, Drop)]
pub enum Reply {
    /// The file's bytes.
    Served(Bytes),
    /// No file was served.
    Not(NotServed),
    /// Memory ran out.
    NoMemory,
}

impl TryCopy for Job {
    fn copy(&self, alloc: Global) -> Result<Job, NoMemory> {
        Ok(Job {
            no: self.no,
            uri: self.uri.copy(alloc)?,
            max: self.max,
            from: self.from,
        })
    }
}

impl TryCopy for Answer {
    fn copy(&self, alloc: Global) -> Result<Answer, NoMemory> {
        Ok(match self {
            Answer::Served(bytes) => Answer::Served(bytes.copy(alloc)?),
            Answer::Moved(place) => Answer::Moved(place.copy(alloc)?),
            Answer::Absent(status) => Answer::Absent(*status),
        })
    }
}

impl TryCopy for NotServed {
    fn copy(&self, alloc: Global) -> Result<NotServed, NoMemory> {
        Ok(match self {
            NotServed::Moved(place) => NotServed::Moved(place.copy(alloc)?),
            NotServed::Absent(status) => NotServed::Absent(*status),
            NotServed::TooBig => NotServed::TooBig,
            NotServed::Garbled(at) => NotServed::Garbled(*at),
            NotServed::Fault { before, after } => NotServed::Fault {
                before: *before,
                after: *after,
            },
        })
    }
}
