//! Calls of a lists folder in memory, each where its conditions hold, and of what stands on such a folder.

ghost use Rattle.acq_outside.specs.Disk.{IsName};

use crate::page::Page;
use crate::words::{Refused, number, short};
use acq_base::{ListName, Text, TryCopy, read_sum};
use acq_outside::{Disk, Fault, is_name, read_whole, write_whole};
use commit_journal::{JournalError, open_journal};
use lists_dir::verify;
use std::alloc::Global;

/// Puts what a call answers.
pub fn answer<D: Disk>(
    alloc: Global,
    page: &mut Page,
    disk: &mut D,
    call: &str,
    words: &[Text],
) -> Result<(), Refused> {
    match (call, words) {
        ("names", []) => page.put_names(disk.names(alloc)),
        ("hold", []) => page.put_held(disk.hold()),
        ("sync-names", []) => page.put_done(disk.sync_names()),
        ("open", []) => open(alloc, page, disk),
        ("rename", [from, to]) => rename(page, disk, from.as_bytes(), to.as_bytes())?,
        ("verify", [name, digest, size]) => verified(alloc, page, disk, name, digest, size)?,
        (_, [name, rest @ ..]) if is_name(name.as_bytes()) => {
            named(alloc, page, disk, call, name.as_bytes(), rest)?
        }
        _ => return Err(Refused::NoCall),
    }
    Ok(())
}

/// Puts what a call about one file answers.
fn named<D: Disk>(
    alloc: Global,
    page: &mut Page,
    disk: &mut D,
    call: &str,
    name: &[u8],
    words: &[Text],
) -> Result<(), Refused>
    requires { IsName name.now }
{
    match (call, words) {
        ("size", []) => page.put_length(disk.size(name)),
        ("content", []) => page.put_content(read_whole(alloc, disk, name)),
        ("length", []) => page.put_content_length(read_whole(alloc, disk, name)),
        ("sync", []) => page.put_done(disk.sync(name)),
        ("remove", []) => page.put_done(disk.remove(name)),
        ("whole", [text]) => page.put_done(write_whole(disk, name, text.as_bytes())),
        ("read", [at, most]) => read(alloc, page, disk, name, number(at)?, short(most)?)?,
        ("write", [at, text]) => write(page, disk, name, number(at)?, text.as_bytes())?,
        ("cut", [len]) => cut(page, disk, name, number(len)?)?,
        _ => return Err(Refused::NoCall),
    }
    Ok(())
}

/// Reads into a buffer of stars.
fn read<D: Disk>(
    alloc: Global,
    page: &mut Page,
    disk: &mut D,
    name: &[u8],
    at: u64,
    most: u16,
) -> Result<(), Refused>
    requires { IsName name.now }
{
    let mut out = vec![in alloc; b'*'; usize::from(most)]?;
    let read = disk.read_at(name, at, out.as_mut_slice());
    page.put_piece(read, out.as_slice());
    Ok(())
}

/// Puts the first eight bytes of a file.
pub fn put_front<D: Disk>(page: &mut Page, disk: &mut D, name: &[u8]) -> Result<(), Refused> {
    if !is_name(name) {
        return Err(Refused::NoCall);
    }
    let mut out = [0u8; 8];
    match disk.read_at(name, 0, &mut out) {
        Ok(bytes) => page.put_bytes(&out[..bytes.min(8)]),
        Err(Fault) => page.put("fault"),
    }
    Ok(())
}

fn rename<D: Disk>(page: &mut Page, disk: &mut D, from: &[u8], to: &[u8]) -> Result<(), Refused> {
    if !is_name(from) || !is_name(to) {
        return Err(Refused::NoCall);
    }
    page.put_done(disk.rename(from, to));
    Ok(())
}

/// Writes within the file or at its end.
#[tactic(auto, using(acq_outside::proofs::FileMaps::sized_within))]
fn write<D: Disk>(
    page: &mut Page,
    disk: &mut D,
    name: &[u8],
    at: u64,
    content: &[u8],
) -> Result<(), Refused>
    requires { IsName name.now }
{
    match disk.size(name) {
        Ok(Some(len)) if at <= len => page.put_done(disk.write_at(name, at, content)),
        Ok(_) => return Err(Refused::NoCall),
        Err(Fault) => page.put("fault"),
    }
    Ok(())
}

/// Cuts within the file.
#[tactic(auto, using(acq_outside::proofs::FileMaps::cut_within))]
fn cut<D: Disk>(page: &mut Page, disk: &mut D, name: &[u8], len: u64) -> Result<(), Refused>
    requires { IsName name.now }
{
    match disk.size(name) {
        Ok(Some(size)) if len <= size => page.put_done(disk.cut(name, len)),
        Ok(None) if len == 0 => page.put_done(disk.cut(name, 0)),
        Ok(_) => return Err(Refused::NoCall),
        Err(Fault) => page.put("fault"),
    }
    Ok(())
}

/// Opens the journal, and puts the place of its damage, if it has any.
fn open<D: Disk>(alloc: Global, page: &mut Page, disk: &mut D) {
    match open_journal(alloc, disk) {
        Ok(_) => page.put("opened"),
        Err(JournalError::BadJournal(at)) => {
            page.put("damaged at ");
            page.put_number(at);
        }
        Err(JournalError::DiskFault) => page.put("fault"),
        Err(JournalError::NoMemory) => page.fall_short(),
    }
}

/// Puts whether the list of this name is the one of this digest and size.
fn verified<D: Disk>(
    alloc: Global,
    page: &mut Page,
    disk: &mut D,
    name: &Text,
    digest: &Text,
    size: &Text,
) -> Result<(), Refused> {
    let Ok(sum) = read_sum(digest.as_bytes(), size.as_bytes()) else {
        return Err(Refused::NoCall);
    };
    let name = ListName(name.copy(alloc)?);
    if !is_name(name.0.as_bytes()) {
        return Err(Refused::NoCall);
    }
    page.put(match verify(disk, &name, &sum) {
        Ok(true) => "fits",
        Ok(false) => "differs",
        Err(Fault) => "fault",
    });
    Ok(())
}
