//! What the mirror answers to a job of a board.

use crate::given::{Given, Has};
use crate::refused::Refused;
use acq_base::{Bytes, Job, ListName, NotServed, Text, TryCopy, sum_of};
use std::alloc::Global;
use update_model::{Body, Closed};
use uri_names::{read_uri, uri_text};

/// How often asks at this URI are to fail.
pub fn faults_at(given: &Given, uri: &Text) -> u64 {
    for row in given.faulty.as_slice() {
        if row.0 == *uri {
            return row.1;
        }
    }
    0
}

/// What the mirror has under this URI.
fn had<'a>(given: &'a Given, uri: &Text) -> Option<&'a Has> {
    for row in given.mirror.as_slice() {
        if row.0 == *uri {
            return Some(&row.1);
        }
    }
    None
}

/// The file that a list on its way comes to: so many of the bytes that are there, and those of the file behind them.
fn staged(
    alloc: Global,
    given: &Given,
    from: u64,
    name: &ListName,
    file: &[u8],
) -> Result<Closed, Refused> {
    let kept = from as usize;
    let front = match given.part(alloc, name)? {
        Some(part) => part.as_slice().get(..kept).unwrap_or(&[]),
        None => &[],
    };
    let mut whole = Bytes::new(alloc);
    whole.append(front)?;
    whole.append(file.get(kept..).unwrap_or(&[]))?;
    Ok(Closed::Served(Body::Staged(sum_of(whole.as_slice()))))
}

/// The bytes of a file, as the answer to a job; of one that goes into a partial file, its sum with the front of that.
fn served(
    alloc: Global,
    given: &Given,
    job: &Job,
    list: Option<&ListName>,
    file: &Bytes,
) -> Result<Closed, Refused> {
    let size = file.len() as u64;
    if size > job.max {
        return Ok(Closed::Not(NotServed::TooBig));
    }
    if job.from > 0 && size <= job.from {
        return Ok(Closed::Not(NotServed::Absent(416)));
    }
    match list {
        Some(name) => staged(alloc, given, job.from, name, file.as_slice()),
        None => Ok(Closed::Served(Body::Bytes(file.copy(alloc)?))),
    }
}

/// What the mirror answers to a job, which goes into a list's partial file or into memory. What it hasn't is absent with
/// status 404.
pub fn answer(
    alloc: Global,
    given: &Given,
    job: &Job,
    list: Option<&ListName>,
) -> Result<Closed, Refused> {
    let uri = uri_text(alloc, &job.uri)?;
    match had(given, &uri) {
        Some(has) => answer_of(alloc, given, job, list, has),
        None => Ok(Closed::Not(NotServed::Absent(404))),
    }
}

/// What the mirror answers to a job where it has this.
fn answer_of(
    alloc: Global,
    given: &Given,
    job: &Job,
    list: Option<&ListName>,
    has: &Has,
) -> Result<Closed, Refused> {
    match has {
        Has::File(file) => served(alloc, given, job, list, file),
        Has::Whole(file) if job.from == 0 => served(alloc, given, job, list, file),
        _ => Ok(Closed::Not(not_served(alloc, has)?)),
    }
}

/// What the mirror answers where it has this and serves nothing of it: a file that is given as a whole alone stands for an
/// ask for its rest.
fn not_served(alloc: Global, has: &Has) -> Result<NotServed, Refused> {
    Ok(match has {
        Has::File(_) | Has::Whole(_) => NotServed::Absent(200),
        Has::Moved(Some(place)) => NotServed::Moved(Some(read_uri(alloc, place.as_bytes())?)),
        Has::Moved(None) => NotServed::Moved(None),
        Has::Absent(status) => NotServed::Absent(*status),
        Has::TooBig => NotServed::TooBig,
        Has::Garbled(at) => NotServed::Garbled(*at),
        Has::Letters(_) => return Err(Refused::Methods),
    })
}
