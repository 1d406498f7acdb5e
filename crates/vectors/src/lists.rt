//! Sources lists in both forms, read on an amd64.

use crate::uris::put_uri;
use acq_base::{Row, Text, TryCopy};
use case_words::{Page, Refused, readable, yes_or_no};
use source_lists::{Entry, Form, ListError, counts, read_list, read_sources};
use std::alloc::Global;

/// The form that a word names.
pub fn form_of(word: &[u8]) -> Result<Form, Refused> {
    match word {
        b"lines" => Ok(Form::List),
        b"stanzas" => Ok(Form::Sources),
        _ => Err(Refused::NoCall),
    }
}

/// The entries of a text, read under the name `list`.
pub fn read(alloc: Global, form: Form, text: &[u8], arch: &Text) -> Result<Row<Entry>, ListError> {
    let file = Text::from_bytes(alloc, b"list")?;
    match form {
        Form::List => read_list(alloc, &file, text, arch),
        Form::Sources => read_sources(alloc, &file, text, arch),
    }
}

fn read_on_amd64(alloc: Global, form: Form, text: &[u8]) -> Result<Row<Entry>, ListError> {
    let arch = Text::from_bytes(alloc, b"amd64")?;
    read(alloc, form, text, &arch)
}

/// Appends the entries of a text, each ended by `;`: its line, types, URI, suite, components and options.
pub fn put_entries(
    alloc: Global,
    page: &mut Page,
    form: &[u8],
    text: &[u8],
) -> Result<(), Refused> {
    match read_on_amd64(alloc, form_of(form)?, text) {
        Ok(entries) => put_all(alloc, page, entries.as_slice()),
        Err(refusal) => page.put_refusal(&refusal),
    }
    Ok(())
}

fn put_all(alloc: Global, page: &mut Page, entries: &[Entry]) {
    if entries.is_empty() {
        page.put("no entry");
    }
    for entry in entries {
        put_entry(alloc, page, entry);
        put_options(page, entry);
        page.put(";");
    }
}

fn put_entry(alloc: Global, page: &mut Page, entry: &Entry) {
    let binary = if entry.binary { "b" } else { "" };
    let source = if entry.source { "s" } else { "" };
    page.show(format_args!("{} {binary}{source} ", entry.line));
    put_uri(alloc, page, &entry.uri);
    page.put(" ");
    page.put_name(entry.suite.as_bytes());
    page.put(" ");
    page.put_list(&entry.components);
}

fn put_options(page: &mut Page, entry: &Entry) {
    if let Some(archs) = &entry.archs {
        page.put(" arch=");
        page.put_list(archs);
    }
    if let Some(by_hash) = entry.by_hash {
        page.show(format_args!(" by-hash={by_hash:?}"));
    }
    if let Some(pdiffs) = entry.pdiffs {
        page.put(" pdiffs=");
        page.put(yes_or_no(pdiffs));
    }
}

/// Appends the files under which copies of a text's entries were read, where they are the same entries.
pub fn put_copied(alloc: Global, page: &mut Page, form: &[u8], text: &[u8]) -> Result<(), Refused> {
    let entries = readable(read_on_amd64(alloc, form_of(form)?, text))?;
    let again = entries.copy(alloc)?;
    if again != entries {
        page.put("others ");
    }
    put_files(page, again.as_slice());
    Ok(())
}

fn put_files(page: &mut Page, entries: &[Entry]) {
    for entry in entries {
        page.put_name(entry.file.as_bytes());
        page.put(";");
    }
}

/// Appends the form of a file of sources.list.d with this name.
pub fn put_form(alloc: Global, page: &mut Page, name: &[u8]) -> Result<(), Refused> {
    let name = Text::from_bytes(alloc, name)?;
    page.put(match counts(&name) {
        Some(Form::List) => "lines",
        Some(Form::Sources) => "stanzas",
        None => "passed over",
    });
    Ok(())
}
