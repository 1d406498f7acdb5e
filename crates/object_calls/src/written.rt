//! Calls of files that are written: those of the system, and files in memory.
ghost use Rattle.std.specs.Prelude.{IfSome, IsTrue};
ghost use Rattle.acq_outside.specs.Files.{CanPut};
ghost use Rattle.acq_memory.specs.MemFiles.{files_of};

use crate::page::Page;
use crate::tree::below;
use crate::words::{Refused, number};
use acq_base::Text;
use acq_memory::MemFiles;
use acq_outside::Files;
use acq_real::RealFiles;
use std::alloc::Global;

/// Puts what a call of the system's files answers. Paths are below the folder `own`.
pub fn answer(
    alloc: Global,
    page: &mut Page,
    files: &mut RealFiles<HostRuntime>,
    own: &str,
    call: &str,
    words: &[Text],
) -> Result<(), Refused> {
    match (call, words) {
        ("put", [path, at, text]) => {
            let at = number(at)?;
            let path = below(alloc, own, path)?;
            page.put_done(files.put(&path, at, text.as_bytes()));
        }
        ("faults", []) => page.put_number(files.faults()),
        _ => return Err(Refused::NoCall),
    }
    Ok(())
}

/// Puts what a call of the files in memory answers.
pub fn memory_answer(
    page: &mut Page,
    files: &mut MemFiles,
    call: &str,
    words: &[Text],
) -> Result<(), Refused> {
    match (call, words) {
        ("put", [name, at, text]) => put(page, files, name, number(at)?, text)?,
        ("content", [name]) => match files.file(name) {
            Some(content) => page.put_bytes(content.as_slice()),
            None => page.put("absent"),
        },
        ("dry", []) => page.put_number(files.dry()),
        _ => return Err(Refused::NoCall),
    }
    Ok(())
}

/// Puts a text at 0 or at the end of its file.
fn put(
    page: &mut Page,
    files: &mut MemFiles,
    name: &Text,
    at: u64,
    text: &Text,
) -> Result<(), Refused> {
    if !may_put(files, name, at) {
        return Err(Refused::NoCall);
    }
    page.put_done(files.put(name, at, text.as_bytes()));
    Ok(())
}

/// Whether a put may begin or go on there.
fn may_put(files: &MemFiles, name: &Text, at: u64) -> bool
    ensures { IsTrue result → CanPut (files_of files.now) name.now at }
{
    match files.file(name) {
        Some(content) => at == 0 || at == content.len() as u64,
        None => at == 0,
    }
}
