//! Why a source keeps its set.

use acq_base::{NoMemory, Sum, Text, TryCopy};
use hash_gate::Verdict;
use release_file::{Head, HeadField};
use std::alloc::Global;

/// Why a source keeps its former set of lists. A path is the list's below the Release's folder, or `Release`.
#[derive(Debug, PartialEq, Drop)]
pub enum Cause {
    /// There is no Release; the HTTP status of the refusal.
    NoRelease(u16),
    /// The file was moved too often, to no URI of this profile, or from http to a file.
    Redirects(Text),
    /// The Release's bytes are refused, with the number and the line of the refusal.
    BadRelease {
        number: u32,
        line: u64,
    },
    /// The Release was valid until this moment, in seconds since 1970-01-01 00:00:00 UTC.
    Expired(i128),
    /// The Release has this date, in seconds since 1970-01-01 00:00:00 UTC, which is too far ahead of the moment.
    Future(i64),
    /// The Release has more bytes than this.
    TooBig(u64),
    /// There is no such list; the HTTP status of the refusal.
    Missing {
        path: Text,
        status: u16,
    },
    /// The list that came isn't the one that the Release names.
    Differs {
        path: Text,
        wanted: Sum,
        got: Verdict,
    },
    /// The peer broke its protocol at this byte of its answer.
    Garbled {
        path: Text,
        at: u64,
    },
    /// A method failed once more than an ask may be repeated. The lane and the counts are those of the last fault.
    Method {
        path: Text,
        lane: u32,
        before: u64,
        after: u64,
    },
    /// The Release says something else of itself than the installed one, in a field that may not change.
    Changed {
        old: Head,
        new: Head,
        field: HeadField,
    },
}

impl TryCopy for Cause {
    fn copy(&self, alloc: Global) -> Result<Cause, NoMemory> {
        Ok(match self {
            Cause::NoRelease(status) => Cause::NoRelease(*status),
            Cause::Redirects(path) => Cause::Redirects(path.copy(alloc)?),
            Cause::BadRelease { number, line } => Cause::BadRelease {
                number: *number,
                line: *line,
            },
            Cause::Expired(end) => Cause::Expired(*end),
            Cause::Future(date) => Cause::Future(*date),
            Cause::TooBig(limit) => Cause::TooBig(*limit),
            Cause::Missing { path, status } => Cause::Missing {
                path: path.copy(alloc)?,
                status: *status,
            },
            Cause::Differs { path, wanted, got } => Cause::Differs {
                path: path.copy(alloc)?,
                wanted: *wanted,
                got: *got,
            },
            Cause::Garbled { path, at } => Cause::Garbled {
                path: path.copy(alloc)?,
                at: *at,
            },
            Cause::Method {
                path,
                lane,
                before,
                after,
            } => Cause::Method {
                path: path.copy(alloc)?,
                lane: *lane,
                before: *before,
                after: *after,
            },
            Cause::Changed { old, new, field } => Cause::Changed {
                old: old.copy(alloc)?,
                new: new.copy(alloc)?,
                field: *field,
            },
        })
    }
}
