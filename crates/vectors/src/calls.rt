//! Which call a line is.

use crate::folder::{self, Folder};
use crate::{copies, lists, places, plans, releases, reports, settings, uris};
use case_words::{Page, Refused, text, views_of, words_of};
use std::alloc::Global;
use uri_names::{read_base, read_uri};

/// What the call of a line answers. A line that puts something into the folder answers nothing.
pub fn answer(alloc: Global, folder: &mut Folder, line: &str) -> Result<Option<String>, Refused> {
    let mut page = Page::new(alloc);
    if put_answer(alloc, folder, &mut page, line)? {
        return Ok(Some(page.finish()?));
    }
    Ok(None)
}

/// Appends what a line answers, and says whether it answers anything.
fn put_answer(
    alloc: Global,
    folder: &mut Folder,
    page: &mut Page,
    line: &str,
) -> Result<bool, Refused> {
    let words = words_of(alloc, line.as_bytes())?;
    let views = views_of(alloc, words.as_slice())?;
    let [first, rest @ ..] = views.as_slice() else {
        return Err(Refused::NoCall);
    };
    let name = text(first)?;
    if folder.takes(alloc, name, rest)? {
        return Ok(false);
    }
    put_called(alloc, folder, page, name, rest)?;
    Ok(true)
}

fn put_called(
    alloc: Global,
    folder: &mut Folder,
    page: &mut Page,
    name: &str,
    rest: &[&[u8]],
) -> Result<(), Refused> {
    match (name, rest) {
        ("configure", [part]) => folder.put_configured(alloc, page, part),
        ("vanishing", names) => folder::put_vanished(alloc, page, names),
        ("settings", steps) => settings::put_steps(alloc, page, steps),
        ("report", [sources, parts @ ..]) => reports::put_told(alloc, page, sources, parts),
        ("fault", words) => reports::put_fault(alloc, page, words),
        ("package", words) => reports::put_package(alloc, page, words),
        _ => put_listed(alloc, page, name, rest),
    }
}

fn put_listed(alloc: Global, page: &mut Page, name: &str, rest: &[&[u8]]) -> Result<(), Refused> {
    match (name, rest) {
        ("entries", [form, text]) => lists::put_entries(alloc, page, form, text),
        ("entries-copied", [form, text]) => lists::put_copied(alloc, page, form, text),
        ("form", [name]) => lists::put_form(alloc, page, name),
        ("plan", [form, text]) => plans::put_told(alloc, page, form, text),
        ("plan-size", [form, text]) => plans::put_size(alloc, page, form, text),
        ("picked", [flags, text]) => plans::put_picked(alloc, page, flags, text),
        ("copies", [list, text, uri]) => copies::put_copies(alloc, page, list, text, uri),
        ("by-hash", [source, said, list]) => places::put_asked(alloc, page, source, said, list),
        ("beside", [path, name]) => places::put_sibling(alloc, page, path, name),
        _ => put_released(alloc, page, name, rest),
    }
}

fn put_released(alloc: Global, page: &mut Page, name: &str, rest: &[&[u8]]) -> Result<(), Refused> {
    match (name, rest) {
        ("release", [text]) => Ok(releases::put_read(alloc, page, text)),
        ("release-file", [text, path]) => releases::put_listed(alloc, page, text, path),
        ("release-date", [date]) => releases::put_date(alloc, page, date),
        ("release-judged", words) => releases::put_judged(alloc, page, words),
        ("release-follows", [flags, old, new]) => {
            releases::put_follows(alloc, page, flags, old, new)
        }
        _ => put_named(alloc, page, name, rest),
    }
}

fn put_named(alloc: Global, page: &mut Page, name: &str, rest: &[&[u8]]) -> Result<(), Refused> {
    match (name, rest) {
        ("without-memory", []) => settings::put_without_memory(page),
        ("uri", [text]) => uris::put_read(alloc, page, read_uri(alloc, text)),
        ("base", [text]) => uris::put_read(alloc, page, read_base(alloc, text)),
        ("redirect", [from, place]) => uris::put_redirect(alloc, page, from, place)?,
        ("names", [text]) => uris::put_names(alloc, page, text)?,
        ("below", [base, path]) => uris::put_below(alloc, page, base, path)?,
        _ => return Err(Refused::NoCall),
    }
    Ok(())
}
