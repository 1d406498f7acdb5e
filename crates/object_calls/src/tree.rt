//! Calls of the files that are served.

use crate::page::Page;
use crate::words::{Refused, number};
use acq_base::{NoMemory, Text};
use acq_outside::Tree;
use acq_real::RealTree;
use std::alloc::Global;

/// The files of the operating system.
type Real = RealTree<HostRuntime>;

/// Puts what a call answers. Paths are below the folder `own`.
pub fn answer(
    rt: HostRuntime,
    page: &mut Page,
    tree: &mut Real,
    own: &str,
    call: &str,
    words: &[Text],
) -> Result<(), Refused> {
    let alloc = rt.alloc();
    match (call, words) {
        ("open", []) => {
            *tree = RealTree::new(rt);
            page.put("opened");
        }
        ("size", [path]) => page.put_length(tree.size(&below(alloc, own, path)?)),
        ("read", [path, at]) => read(page, tree, &below(alloc, own, path)?, number(at)?),
        ("faults", []) => page.put_number(tree.faults()),
        _ => return Err(Refused::NoCall),
    }
    Ok(())
}

/// A path below a folder.
pub fn below(alloc: Global, own: &str, path: &Text) -> Result<Text, NoMemory> {
    let mut whole = Text::from_bytes(alloc, own.as_bytes())?;
    whole.push(b'/')?;
    whole.append(path.as_bytes())?;
    Ok(whole)
}

/// Reads into a buffer of four stars.
fn read(page: &mut Page, tree: &mut Real, path: &Text, at: u64) {
    let mut out = *b"****";
    let read = tree.read_at(path, at, &mut out);
    page.put_piece(read, &out);
}
