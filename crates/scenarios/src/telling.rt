//! What is printed of a run: what the call came to, and what the lists folder has then.

use crate::given::{Folder, Tell};
use crate::quoted::put_bytes;
use crate::refused::{Refused, finished};
use crate::running::Came;
use acq_base::{NoMemory, NotServed, Text, TryCopy, Uri};
use case_words::Page;
use std::alloc::Global;
use std::collections::BTreeMap;
use update_model::{Asked, Heard, RunLog};
use uri_names::uri_text;

/// Puts a word, a number and the end of a line.
pub fn put_count(page: &mut Page, word: &str, number: u64) {
    page.put(word);
    page.put(" ");
    page.show(number);
    page.put("\n");
}

/// Puts what a call came to.
pub fn put_came(alloc: Global, page: &mut Page, came: &Came, tell: Tell) {
    page.put("status ");
    page.show(came.status);
    page.put("\noutput ");
    put_bytes(page, came.output());
    page.put("\n");
    match &came.log {
        Some(log) => put_log(alloc, page, log, tell),
        None if tell.log => page.put("no log\n"),
        None => {}
    }
    if tell.faults {
        put_count(page, "faults", came.faults);
    }
    if tell.moments {
        put_count(page, "moments", came.moments);
    }
    if tell.lanes {
        put_count(page, "methods", came.methods as u64);
        page.put(if came.late { "late\n" } else { "" });
    }
}

/// Puts the asks of a log.
fn put_log(alloc: Global, page: &mut Page, log: &RunLog, tell: Tell) {
    let asks = log.asks.as_slice();
    if tell.items {
        put_items(alloc, page, asks, tell);
    } else {
        put_asks(alloc, page, asks, tell);
    }
    if tell.log {
        page.put("log\n");
    }
    if tell.lanes {
        put_lanes(page, asks);
    }
}

/// Puts asks in the order in which they were answered.
fn put_asks(alloc: Global, page: &mut Page, asks: &[Asked], tell: Tell) {
    for ask in asks {
        put_ask(alloc, page, ask, tell);
    }
}

/// Puts the numbers of the methods that answered, each once.
fn put_lanes(page: &mut Page, asks: &[Asked]) {
    page.put("lanes");
    for lane in 0..9 {
        if asks.iter().any(|ask| ask.lane == lane) {
            page.put(" ");
            page.show(lane);
        }
    }
    page.put("\n");
}

/// The items that asked, each once: the source's place, and the list's path.
fn items_of(alloc: Global, asks: &[Asked]) -> Result<BTreeMap<u32, BTreeMap<Text, ()>>, NoMemory> {
    let mut items = BTreeMap::new(alloc);
    for ask in asks {
        let mut paths = items.remove(&ask.source).unwrap_or(BTreeMap::new(alloc));
        paths.insert(ask.path.copy(alloc)?, ())?;
        items.insert(ask.source, paths)?;
    }
    Ok(items)
}

/// Puts the asks of each item in the order in which they were answered, source by source and path by path.
fn put_items(alloc: Global, page: &mut Page, asks: &[Asked], tell: Tell) {
    let Ok(items) = items_of(alloc, asks) else {
        page.cut();
        return;
    };
    for (source, paths) in items.iter() {
        for (path, _) in paths.iter() {
            put_item(alloc, page, asks, (*source, path), tell);
        }
    }
}

/// Puts the asks of one item.
fn put_item(alloc: Global, page: &mut Page, asks: &[Asked], item: (u32, &Text), tell: Tell) {
    page.put("item ");
    page.show(item.0);
    page.put(" ");
    page.put_name(item.1.as_bytes());
    page.put("\n");
    for ask in asks {
        if ask.source == item.0 && ask.path.as_bytes() == item.1.as_bytes() {
            put_ask(alloc, page, ask, tell);
        }
    }
}

/// Puts what is asked, and from which byte on.
pub fn put_place(alloc: Global, page: &mut Page, uri: &Uri, from: u64) {
    page.put("ask ");
    match uri_text(alloc, uri) {
        Ok(text) => page.put_name(text.as_bytes()),
        Err(_) => page.cut(),
    }
    page.put(" ");
    page.show(from);
}

/// Puts an ask: its URI, from which byte on it asks, and the fault that it met.
fn put_ask(alloc: Global, page: &mut Page, ask: &Asked, tell: Tell) {
    put_place(alloc, page, &ask.uri, ask.from);
    if tell.faults {
        if let Heard::Not(NotServed::Fault { before, after }) = &ask.heard {
            page.put(" fault ");
            page.show(*before);
            page.put(" ");
            page.show(*after);
        }
    }
    page.put("\n");
}

/// From how many bytes on a file of letters `a` alone is told by their number.
const MANY: usize = 1024;

/// Puts a file of the lists folder.
fn put_file(page: &mut Page, kind: &str, name: &[u8], content: &[u8]) {
    page.put(kind);
    page.put_name(name);
    page.put(" ");
    if content.len() >= MANY && content.iter().all(|byte| *byte == b'a') {
        page.put("letters ");
        page.show(content.len());
    } else {
        put_bytes(page, content);
    }
    page.put("\n");
}

/// Puts the lists of a folder, in the order of their names, and where they are to be told the lists on their way and the
/// journal.
pub fn put_folder(page: &mut Page, folder: &Folder, tell: Tell) {
    for (name, content) in folder.iter() {
        put_told(page, name.as_bytes(), content.as_slice(), tell);
    }
}

/// Puts a file of the lists folder, if it is to be told.
fn put_told(page: &mut Page, name: &[u8], content: &[u8], tell: Tell) {
    if let Some(list) = name.strip_prefix(b"partial/".as_slice()) {
        if tell.partial {
            put_file(page, "partial ", list, content);
        }
    } else if name == b"journal".as_slice() {
        if tell.journal {
            put_file(page, "file ", name, content);
        }
    } else if name != b"lock".as_slice() {
        put_file(page, "list ", name, content);
    }
}

/// Puts the files of a folder in one line.
pub fn put_image(page: &mut Page, folder: &Folder) {
    page.put("image");
    for (name, content) in folder.iter() {
        page.put(" ");
        page.put_name(name.as_bytes());
        page.put(" ");
        put_bytes(page, content.as_slice());
    }
    page.put("\n");
}

/// The files of a folder in one line.
pub fn image(alloc: Global, folder: &Folder) -> Result<String, Refused> {
    let mut page = Page::new(alloc);
    put_image(&mut page, folder);
    finished(page)
}
