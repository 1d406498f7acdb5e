//! Calls of a lists folder, one by one, and what a crash may leave behind them.

use crate::folder::files_of;
use crate::given::Folder;
use crate::objects::disk_of;
use crate::refused::Refused;
use crate::telling::{image, put_image};
use acq_base::{NoMemory, Row};
use acq_memory::MemDisk;
use acq_outside::{Disk, DiskCall, Fault, is_name};
use case_words::Page;
use std::alloc::Global;

/// The most bytes of a choice of which all are tried.
const MOST: u8 = 12;

/// Does a call, where its conditions hold.
fn make(disk: &mut MemDisk, call: &DiskCall) -> Result<(), Fault> {
    match call {
        DiskCall::Write { name, at, bytes } => write(disk, name.as_bytes(), *at, bytes.as_slice()),
        DiskCall::Cut { name, len } => cut(disk, name.as_bytes(), *len),
        DiskCall::Sync(name) => sync(disk, name.as_bytes()),
        DiskCall::Rename { from, to } => rename(disk, from.as_bytes(), to.as_bytes()),
        DiskCall::Remove(name) => remove(disk, name.as_bytes()),
        DiskCall::SyncNames => disk.sync_names(),
    }
}

#[tactic(auto, using(acq_outside::proofs::FileMaps::sized_within))]
fn write<D: Disk>(disk: &mut D, name: &[u8], at: u64, bytes: &[u8]) -> Result<(), Fault> {
    if !is_name(name) {
        return Err(Fault);
    }
    match disk.size(name)? {
        Some(len) if at <= len => disk.write_at(name, at, bytes),
        _ => Err(Fault),
    }
}

/// Cuts a file, or makes an empty one where there is none so long.
#[tactic(auto, using(acq_outside::proofs::FileMaps::cut_within))]
fn cut<D: Disk>(disk: &mut D, name: &[u8], len: u64) -> Result<(), Fault> {
    if !is_name(name) {
        return Err(Fault);
    }
    match disk.size(name)? {
        Some(size) if len <= size => disk.cut(name, len),
        _ => disk.cut(name, 0),
    }
}

fn sync<D: Disk>(disk: &mut D, name: &[u8]) -> Result<(), Fault> {
    if !is_name(name) {
        return Err(Fault);
    }
    disk.sync(name)
}

fn rename<D: Disk>(disk: &mut D, from: &[u8], to: &[u8]) -> Result<(), Fault> {
    if !is_name(from) || !is_name(to) {
        return Err(Fault);
    }
    disk.rename(from, to)
}

fn remove<D: Disk>(disk: &mut D, name: &[u8]) -> Result<(), Fault> {
    if !is_name(name) {
        return Err(Fault);
    }
    disk.remove(name)
}

/// A lists folder after these calls.
fn disk_after(alloc: Global, folder: &Folder, calls: &[DiskCall]) -> Result<MemDisk, Refused> {
    let mut disk = disk_of(alloc, folder, false, Row::new(alloc))?;
    make_all(&mut disk, calls)?;
    Ok(disk)
}

/// Does these calls, of which each may be made.
fn make_all(disk: &mut MemDisk, calls: &[DiskCall]) -> Result<(), Refused> {
    for call in calls {
        if make(disk, call).is_err() {
            return Err(Refused::Call);
        }
    }
    Ok(())
}

/// What a crash leaves of a folder after these calls, by one choice. No call of a disk that crashed is to fail any more.
pub fn crash_by(
    alloc: Global,
    page: &mut Page,
    folder: &Folder,
    calls: &[DiskCall],
    choice: &Row<u8>,
) -> Result<Folder, Refused> {
    let disk = disk_after(alloc, folder, calls)?;
    let left = files_of(alloc, &mut disk.with_fuse(0).crashed(choice)?)?;
    put_image(page, &left);
    Ok(left)
}

/// So many bits of a number as a choice.
fn choice(alloc: Global, bits: u32, width: u8) -> Result<Row<u8>, NoMemory> {
    let mut row = Row::new(alloc);
    let mut rest = bits;
    for _ in 0..width {
        row.push((rest & 1) as u8)?;
        rest >>= 1;
    }
    Ok(row)
}

/// Puts all that a crash leaves of a folder after these calls by the choices of so many bits, each once and in order.
pub fn crash_all(
    alloc: Global,
    page: &mut Page,
    folder: &Folder,
    calls: &[DiskCall],
    width: u8,
) -> Result<(), Refused> {
    if width > MOST {
        return Err(Refused::Line);
    }
    let mut images = Vec::new(alloc);
    for bits in 0..(1u32 << width) {
        images.push(image_by(alloc, folder, calls, bits, width)?)?;
    }
    images.sort_unstable();
    images.dedup();
    for image in &images {
        page.put(image.as_str());
    }
    Ok(())
}

/// What a crash leaves of a folder after these calls by so many bits of a number, in one line.
fn image_by(
    alloc: Global,
    folder: &Folder,
    calls: &[DiskCall],
    bits: u32,
    width: u8,
) -> Result<String, Refused> {
    let choice = choice(alloc, bits, width)?;
    let left = left_by(alloc, folder, calls, &choice)?;
    image(alloc, &left)
}

/// What a crash leaves of a folder after these calls by one choice, where it leaves the calls that are to fail.
fn left_by(
    alloc: Global,
    folder: &Folder,
    calls: &[DiskCall],
    choice: &Row<u8>,
) -> Result<Folder, Refused> {
    let disk = disk_after(alloc, folder, calls)?;
    files_of(alloc, &mut disk.crashed(choice)?)
}
