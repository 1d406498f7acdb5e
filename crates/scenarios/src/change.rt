//! The calls of a lists folder as lines say them.

use crate::lines::read_number;
use crate::quoted::read_named;
use crate::refused::Refused;
use acq_base::Text;
use acq_outside::DiskCall;
use std::alloc::Global;

/// A call: `write NAME AT "B"`, `cut NAME LEN`, `sync NAME`, `rename FROM TO`, `remove NAME` or `sync-names`.
pub fn read_change(alloc: Global, rest: &str) -> Result<DiskCall, Refused> {
    match rest.split_once(' ') {
        Some(("write", rest)) => read_write(alloc, rest),
        Some((kind, rest)) => match rest.split_once(' ') {
            Some((name, other)) => read_two(alloc, kind, name, other),
            None => read_one(alloc, kind, rest),
        },
        None if rest == "sync-names" => Ok(DiskCall::SyncNames),
        None => Err(Refused::Line),
    }
}

/// A call behind whose word stands a name alone.
fn read_one(alloc: Global, kind: &str, name: &str) -> Result<DiskCall, Refused> {
    let name = text(alloc, name)?;
    match kind {
        "sync" => Ok(DiskCall::Sync(name)),
        "remove" => Ok(DiskCall::Remove(name)),
        _ => Err(Refused::Line),
    }
}

/// A call behind whose word stand two words.
fn read_two(alloc: Global, kind: &str, name: &str, other: &str) -> Result<DiskCall, Refused> {
    match kind {
        "cut" => read_cut(alloc, name, other),
        "rename" => read_rename(alloc, name, other),
        _ => Err(Refused::Line),
    }
}

fn read_cut(alloc: Global, name: &str, len: &str) -> Result<DiskCall, Refused> {
    let len = read_number(len)?;
    let name = text(alloc, name)?;
    Ok(DiskCall::Cut { name, len })
}

fn read_rename(alloc: Global, from: &str, to: &str) -> Result<DiskCall, Refused> {
    if to.contains(' ') {
        return Err(Refused::Line);
    }
    let from = text(alloc, from)?;
    let to = text(alloc, to)?;
    Ok(DiskCall::Rename { from, to })
}

fn read_write(alloc: Global, rest: &str) -> Result<DiskCall, Refused> {
    let (place, bytes) = read_named(alloc, rest)?;
    let (name, at) = read_place(place)?;
    let name = text(alloc, name)?;
    Ok(DiskCall::Write { name, at, bytes })
}

/// A name, and from which byte on is written.
fn read_place(place: &str) -> Result<(&str, u64), Refused> {
    match place.split_once(' ') {
        Some((name, at)) => Ok((name, read_number(at)?)),
        None => Err(Refused::Line),
    }
}

fn text(alloc: Global, name: &str) -> Result<Text, Refused> {
    Ok(Text::from_bytes(alloc, name.as_bytes())?)
}
