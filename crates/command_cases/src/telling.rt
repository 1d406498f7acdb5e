//! What is printed of a case.

use crate::calling::Came;
use crate::counted::Counted;
use crate::folders::{Folder, files, folder};
use crate::objects::Objects;
use crate::steps::Step;
use acq_memory::{MapMethod, MemFiles};
use acq_net::MemPort;
use acq_outside::Method;
use case_words::{Page, Refused};
use std::alloc::Global;

/// Puts a word, a number and the end of a line.
pub fn put_number(page: &mut Page, word: &str, number: u64) {
    page.put(word);
    page.put(" ");
    page.show(number);
    page.put("\n");
}

/// Puts a word, bytes between quotation marks and the end of a line.
fn put_bytes(page: &mut Page, word: &str, bytes: &[u8]) {
    page.put(word);
    page.put(" ");
    page.put_text(bytes);
    page.put("\n");
}

/// Puts a file.
fn put_file(page: &mut Page, word: &str, name: &[u8], content: &[u8]) {
    page.put(word);
    page.put(" ");
    page.put_name(name);
    page.put(" ");
    page.put_text(content);
    page.put("\n");
}

/// Puts a file that isn't there.
fn put_no_file(page: &mut Page, word: &str, name: &[u8]) {
    page.put(word);
    page.put(" ");
    page.put_name(name);
    page.put("\n");
}

/// Puts what a call came to, and what it did to what it was lent.
pub fn put_came(
    alloc: Global,
    page: &mut Page,
    steps: &[Step],
    came: Came,
    it: &mut Objects,
) -> Result<(), Refused> {
    put_number(page, "  status", u64::from(came.status));
    if came.logged {
        page.put("  log\n");
    }
    put_bytes(page, "  wrote", it.out.written().as_slice());
    put_looks(page, steps, &it.aside.files)?;
    put_sent(page, &it.aside.port);
    put_begun(page, it.methods.as_slice());
    put_faults(page, it);
    put_lists(alloc, page, steps, it)?;
    put_place(alloc, page, it)
}

/// Puts each file of the method's that is to be told.
fn put_looks(page: &mut Page, steps: &[Step], files: &MemFiles) -> Result<(), Refused> {
    for step in steps {
        if step.is(b"look") {
            put_look(page, step, files)?;
        }
    }
    Ok(())
}

fn put_look(page: &mut Page, step: &Step, files: &MemFiles) -> Result<(), Refused> {
    let name = step.argument()?;
    match files.file(name) {
        Some(content) => put_file(page, "  file", name.as_bytes(), content.as_slice()),
        None => put_no_file(page, "  no file", name.as_bytes()),
    }
    Ok(())
}

/// Puts what was sent on each connection.
fn put_sent(page: &mut Page, port: &MemPort) {
    for sent in port.sent().as_slice() {
        put_bytes(page, "  sent", sent.as_slice());
    }
}

/// Puts how many fetches were begun of each method.
fn put_begun(page: &mut Page, methods: &[Counted<MapMethod>]) {
    page.put("  begun");
    for method in methods {
        page.put(" ");
        page.show(method.begun());
    }
    page.put("\n");
}

/// Puts the counts of faults that rose, of the objects that tell them.
fn put_faults(page: &mut Page, it: &Objects) {
    for method in it.methods.as_slice() {
        put_some(page, "  faults of a method", method.faults());
    }
    put_some(page, "  faults of the lists folder", it.disk.faults());
    put_some(page, "  faults of the place", it.aside.place.faults());
    put_some(page, "  faults of the port", it.aside.port.faults());
    put_some(page, "  connections lost", it.aside.port.lost());
}

/// Puts a number that isn't 0.
fn put_some(page: &mut Page, word: &str, number: u64) {
    if number > 0 {
        put_number(page, word, number);
    }
}

/// Puts how the lists folder isn't as it was, or that it is.
fn put_lists(
    alloc: Global,
    page: &mut Page,
    steps: &[Step],
    it: &mut Objects,
) -> Result<(), Refused> {
    let before = folder(alloc, steps, b"disk")?;
    let after = files(alloc, &mut it.disk)?;
    let is_new = put_new(page, &before, &after);
    let is_gone = put_gone(page, &before, &after);
    if !is_new && !is_gone {
        page.put("  lists stayed\n");
    }
    Ok(())
}

/// Puts each list that is new or has other bytes. Answers whether there is one.
fn put_new(page: &mut Page, before: &Folder, after: &Folder) -> bool {
    let mut is_put = false;
    for (name, content) in after.iter() {
        if before.get(name) != Some(content) {
            put_file(page, "  list", name.as_bytes(), content.as_slice());
            is_put = true;
        }
    }
    is_put
}

/// Puts each list that is gone. Answers whether there is one.
fn put_gone(page: &mut Page, before: &Folder, after: &Folder) -> bool {
    let mut is_put = false;
    for (name, _) in before.iter() {
        if after.get(name).is_none() {
            put_no_file(page, "  no list", name.as_bytes());
            is_put = true;
        }
    }
    is_put
}

/// Puts the files of the folder for package files.
fn put_place(alloc: Global, page: &mut Page, it: &mut Objects) -> Result<(), Refused> {
    let files = files(alloc, &mut it.aside.place)?;
    for (name, content) in files.iter() {
        put_file(page, "  place", name.as_bytes(), content.as_slice());
    }
    Ok(())
}
