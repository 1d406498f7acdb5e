//! Files in memory.

use crate::cases::{Argument, Refused, Step, numbers_of};
use crate::page::Page;
use acq_base::{Bytes, Row, Text, TryCopy};
use acq_memory::MemTree;
use acq_outside::{Fault, Tree};
use std::alloc::Global;

/// Puts what a tree answers to steps, one after another: it has the files that steps `file` name, and its calls fail that
/// a step `fail` numbers.
pub fn answer(alloc: Global, page: &mut Page, steps: &[Step]) -> Result<(), Refused> {
    let files = files_of(alloc, steps)?;
    if !MemTree::takes(&files) {
        return Err(Refused::NoCase);
    }
    let mut tree = MemTree::new(files, numbers_of(alloc, steps, "fail")?);
    go_all(page, &mut tree, steps)
}

fn go_all(page: &mut Page, tree: &mut MemTree, steps: &[Step]) -> Result<(), Refused> {
    for step in steps {
        match (step.name.as_str(), step.arguments.as_slice()) {
            ("file" | "fail", _) => {}
            ("size", [Argument::Text(path)]) => put_size(page, tree.size(path)),
            ("read", [Argument::Text(path), Argument::Number(at)]) => read(page, tree, path, *at),
            _ => return Err(Refused::NoCase),
        }
    }
    Ok(())
}

/// The files that steps name.
pub fn files_of(alloc: Global, steps: &[Step]) -> Result<Row<(Text, Bytes)>, Refused> {
    let mut files = Row::new(alloc);
    for step in steps {
        match (step.name.as_str(), step.arguments.as_slice()) {
            ("file", [Argument::Text(path), Argument::Text(content)]) => {
                files.push((path.copy(alloc)?, content.copy(alloc)?.into_bytes()))?
            }
            ("file", _) => return Err(Refused::NoCase),
            _ => {}
        }
    }
    Ok(files)
}

fn put_size(page: &mut Page, size: Result<Option<u64>, Fault>) {
    match size {
        Ok(Some(size)) => page.put_number(" ", size),
        Ok(None) => page.put(" absent"),
        Err(Fault) => page.put(" fault"),
    }
}

/// Reads into a buffer of four stars.
fn read(page: &mut Page, tree: &mut MemTree, path: &Text, at: u64) {
    let mut out = *b"****";
    match tree.read_at(path, at, &mut out) {
        Ok(n) => page.put_number(" ", n as u64),
        Err(Fault) => page.put(" fault"),
    }
    page.put_bytes(" ", &out);
}
