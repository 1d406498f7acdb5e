//! Where lists are asked for.

use crate::plans::plan_of;
use crate::uris::uri_of;
use acq_base::{Source, Text, Uri, sum_of};
use by_hash::{beside, candidates};
use case_words::{Page, Refused};
use std::alloc::Global;

/// Appends the paths that are asked for the first list of a source, where the Release says that lists lie under their digests or
/// doesn't, and the list that is wanted has these bytes.
pub fn put_asked(
    alloc: Global,
    page: &mut Page,
    source: &[u8],
    said: &[u8],
    list: &[u8],
) -> Result<(), Refused> {
    let plan = plan_of(alloc, source)?;
    match plan.sources.as_slice() {
        [first, ..] => put_candidates(alloc, page, first, matches!(said, b"yes"), list),
        [] => Err(Refused::NoCall),
    }
}

fn put_candidates(
    alloc: Global,
    page: &mut Page,
    source: &Source,
    said: bool,
    list: &[u8],
) -> Result<(), Refused> {
    let [target, ..] = source.targets.as_slice() else {
        return Err(Refused::NoCall);
    };
    let uris = candidates(alloc, source, target, &sum_of(list), said)?;
    for uri in uris.as_slice() {
        put_path(page, uri);
    }
    Ok(())
}

fn put_path(page: &mut Page, uri: &Uri) {
    if !page.is_empty() {
        page.put(" ");
    }
    page.put_name(uri.path.as_bytes());
}

/// Appends the path of the file of another name beside a path.
pub fn put_sibling(
    alloc: Global,
    page: &mut Page,
    path: &[u8],
    name: &[u8],
) -> Result<(), Refused> {
    let mut uri = uri_of(alloc, b"http://m.example:8080/")?;
    uri.path = Text::from_bytes(alloc, path)?;
    put_path(page, &beside(alloc, &uri, name)?);
    Ok(())
}
