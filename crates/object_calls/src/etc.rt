//! Calls of a configuration folder.

use crate::page::Page;
use crate::words::{Refused, path};
use acq_base::{Row, Text};
use acq_outside::{Etc, Place};
use acq_real::RealEtc;

/// A configuration folder of the operating system.
pub type Real = RealEtc<HostRuntime>;

/// The configuration folder of this path, below the folder `own`.
pub fn open(rt: HostRuntime, own: &str, folder: &Text) -> Result<Real, Refused> {
    let folder = path(rt.alloc(), own, folder)?;
    Ok(RealEtc::new(rt.alloc(), rt, folder.as_str())?)
}

/// Puts what a call answers. The one file of a place has the name `""`.
pub fn answer(
    rt: HostRuntime,
    page: &mut Page,
    etc: &mut Real,
    call: &str,
    words: &[Text],
) -> Result<(), Refused> {
    let alloc = rt.alloc();
    match (call, words) {
        ("names", [at]) => page.put_names(etc.names(alloc, place(at)?).map(sorted)),
        ("read", [at, name]) => page.put_content(etc.read(alloc, place(at)?, name)),
        ("length", [at, name]) => page.put_content_length(etc.read(alloc, place(at)?, name)),
        ("faults", []) => page.put_number(etc.faults()),
        _ => return Err(Refused::NoCall),
    }
    Ok(())
}

/// The place with this path in the folder.
fn place(path: &Text) -> Result<Place, Refused> {
    match path.as_bytes() {
        b"sources.list" => Ok(Place::SourcesList),
        b"sources.list.d" => Ok(Place::SourcesParts),
        b"apt.conf" => Ok(Place::Conf),
        b"apt.conf.d" => Ok(Place::ConfParts),
        _ => Err(Refused::NoCall),
    }
}

fn sorted(names: Row<Text>) -> Row<Text> {
    let mut names = names.into_vec();
    names.sort_unstable();
    Row::from(names)
}
