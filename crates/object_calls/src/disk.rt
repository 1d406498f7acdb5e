//! Calls of a disk over the operating system.

use crate::page::Page;
use crate::words::{Refused, number, path, short};
use acq_base::Text;
use acq_outside::{Disk, is_name, read_whole, write_whole};
use acq_real::RealDisk;
use std::alloc::{AllocError, Global};
use std::mem;

/// A disk over the operating system.
type Real = RealDisk<HostRuntime>;

/// A disk, and a second one whose turn comes by `change`.
#[derive(Drop)]
pub struct Disks {
    rt: HostRuntime,
    disk: Real,
    other: Real,
}

impl Disks {
    /// Disks over this folder.
    pub fn new(rt: HostRuntime, own: &str) -> Result<Disks, AllocError> {
        let alloc = rt.alloc();
        Ok(Disks {
            rt,
            disk: RealDisk::new(alloc, rt, own)?,
            other: RealDisk::new(alloc, rt, own)?,
        })
    }

    /// Puts what a call answers. A folder to be opened is below the folder `own`.
    pub fn answer(
        &mut self,
        page: &mut Page,
        own: &str,
        call: &str,
        words: &[Text],
    ) -> Result<(), Refused> {
        match (call, words) {
            ("open", [folder]) => {
                self.disk = open(self.rt, own, folder)?;
                page.put("opened");
                Ok(())
            }
            ("change", []) => {
                mem::swap(&mut self.disk, &mut self.other);
                page.put("changed");
                Ok(())
            }
            _ => look(self.rt.alloc(), page, &mut self.disk, call, words),
        }
    }
}

fn open(rt: HostRuntime, own: &str, folder: &Text) -> Result<Real, Refused> {
    let folder = path(rt.alloc(), own, folder)?;
    Ok(RealDisk::new(rt.alloc(), rt, folder.as_str())?)
}

/// Puts what a call that changes no file answers.
fn look(
    alloc: Global,
    page: &mut Page,
    disk: &mut Real,
    call: &str,
    words: &[Text],
) -> Result<(), Refused> {
    match (call, words) {
        ("size", [name]) => page.put_length(disk.size(name.as_bytes())),
        ("read", [name, at, most]) => read(alloc, page, disk, name, number(at)?, short(most)?)?,
        ("names", []) => page.put_names(disk.names(alloc)),
        ("content", [name]) => content(alloc, page, disk, name)?,
        ("faults", []) => page.put_number(disk.faults()),
        ("hold", []) => page.put_held(disk.hold()),
        _ => change(page, disk, call, words)?,
    }
    Ok(())
}

/// Puts what a call that changes files or syncs them answers.
fn change(page: &mut Page, disk: &mut Real, call: &str, words: &[Text]) -> Result<(), Refused> {
    let done = match (call, words) {
        ("whole", [name, content]) if is_name(name.as_bytes()) => {
            write_whole(disk, name.as_bytes(), content.as_bytes())
        }
        ("write", [name, at, content]) => {
            disk.write_at(name.as_bytes(), number(at)?, content.as_bytes())
        }
        ("cut", [name, len]) => disk.cut(name.as_bytes(), number(len)?),
        ("sync", [name]) => disk.sync(name.as_bytes()),
        ("rename", [from, to]) => disk.rename(from.as_bytes(), to.as_bytes()),
        ("remove", [name]) => disk.remove(name.as_bytes()),
        ("sync-names", []) => disk.sync_names(),
        _ => return Err(Refused::NoCall),
    };
    page.put_done(done);
    Ok(())
}

/// Reads into a buffer of stars.
fn read(
    alloc: Global,
    page: &mut Page,
    disk: &mut Real,
    name: &Text,
    at: u64,
    most: u16,
) -> Result<(), Refused> {
    let mut out = vec![in alloc; b'*'; usize::from(most)]?;
    let read = disk.read_at(name.as_bytes(), at, out.as_mut_slice());
    page.put_piece(read, out.as_slice());
    Ok(())
}

/// A file's whole content.
fn content(alloc: Global, page: &mut Page, disk: &mut Real, name: &Text) -> Result<(), Refused> {
    if !is_name(name.as_bytes()) {
        return Err(Refused::NoCall);
    }
    page.put_content(read_whole(alloc, disk, name.as_bytes()));
    Ok(())
}
