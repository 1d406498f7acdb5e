//! A folder of the operating system as a disk.
ghost use Rattle.std.specs.Prelude.{◌≡◌, ◌≤◌, ◌<◌, ◌^◌, [], length, All, AllPairs, None, false, IfOk, IsErr, OnOk, MatchResult};
ghost use Rattle.std.proofs.Common.{refl};
ghost use Rattle.std.specs.Ordering.{nat_cmp};
ghost use Rattle.std.specs.declared.cmp.Ordering.TheVariants.{Less};
ghost use Rattle.std.specs.Cmp.Lexicographic.{slice_cmp};
ghost use Rattle.acq_outside.specs.Disk.{IsName};
ghost use Rattle.acq_outside.specs.Frame.{CountsOnly};
ghost use Rattle.acq_real.specs.Folder.{IsInside};
ghost use Rattle.acq_real.specs.RealDisk.{StaysInside, StaysInsideCounting, faults_of, folder_of};

use crate::listing::list;
use crate::opened::Kept;
use acq_base::{Row, Text};
use acq_outside::{Disk, Fault, HoldError, OutError};
use std::alloc::{AllocError, Global};
use std::fs::File;
use std::io;
use std::io::ErrorKind;
use std::rt::Files;

mod calls;

/// A folder of the operating system. As long as nobody else changes that folder, it works below it alone, and on plain
/// files alone: any other name is a fault, and so is a folder in place of a file, or in place of `partial` anything but a
/// folder. A link is no file: it isn't read, and a file that is moved to its name takes its place.
///
/// `partial` is this user's alone: where it isn't at the first look, it is taken over, or else a fault, and where it isn't
/// any more at a later one, it is a fault. A file in it that somebody else could have changed counts as none, and one that
/// is cut to nothing is made anew, so that nobody has it open.
///
/// The hold is a write lock over the whole file `lock`, which excludes apt's and is excluded by it.
///
/// What stands at a path is looked up first and used by a further call of the system. Another process that puts a link
/// in its place between the two is found out where the file is opened. Whether `partial` is a folder is looked up by each
/// call until one found it so, whenever names are listed or synced, and where a file in it that is to be read, measured,
/// synced, moved or removed is absent. Another process that puts a link in its place between two looks leads the calls out
/// of the folder, so nobody else may be allowed to change it.
///
/// The file in `partial` that was last read, written, cut or synced, and the last one beside it, stay open and serve the
/// next such calls with their names, until such a call has another name or fails, or the disk moves the file, puts one in
/// its place or removes it.
///
/// A sync of names syncs `partial` each time, and the folder itself only where a name in it may have changed since its last
/// sync by this disk.
#[derive(Drop)]
pub struct RealDisk<R: Drop> {
    rt: R,
    folder: String,
    is_made: bool,
    faults: u64,
    times_held: u64,
    lock: Option<File>,
    kept: Kept,
}

impl<R: Files<File = File> + AllocGlobal + Clone + Drop> RealDisk<R> {
    /// The disk of the folder with this path. Its first call makes the folder where the parent is there, and `partial`
    /// in it.
    pub fn new(alloc: Global, rt: R, folder: &str) -> Result<RealDisk<R>, AllocError>
        ensures faults { IfOk result (λ disk. faults_of disk ≡ 0) }
        ensures folder { IfOk result (λ disk. folder_of disk ≡ folder.now) }
    {
        Ok(RealDisk {
            rt,
            folder: String::from_str(alloc, folder)?,
            is_made: false,
            faults: 0,
            times_held: 0,
            lock: None,
            kept: Kept::nothing(),
        })
    }

    /// How often it failed.
    pub fn faults(&self) -> u64
        ensures { result ≡ faults_of self.now }
    {
        self.faults
    }

    /// The answer of the system, an error of it as a fault that is counted.
    fn counted<T: Drop>(&mut self, done: io::Result<T>) -> Result<T, Fault>
        ensures frame { StaysInside self.old self.new result }
        ensures answer { MatchResult result (λ value. done ≡ Ok value) (λ _. IsErr done) }
    {
        match done {
            Ok(value) => Ok(value),
            Err(_) => {
                self.faults = self.faults.saturating_add(1);
                Err(Fault)
            }
        }
    }
}

impl<R: Files<File = File> + AllocGlobal + Clone + Drop> Disk for RealDisk<R> {
    ghost faults = { λ disk. disk.faults };

    ghost tells = { λ _. false };

    ghost files = { λ _ _. None };

    ghost trace = { λ _. [] };

    ghost held = { λ disk. disk.times_held };

    ghost sound = { λ _. tt };

    ghost shown = { λ _. refl };

    // Beside what the trait says: a name that may lead out of the folder is a fault, no such name is listed, and the
    // folder stays.

    fn hold(&mut self) -> Result<(), HoldError>
        ensures frame { CountsOnly HoldError.Fault self.old.faults self.new.faults result }
        ensures holds { CountsOnly HoldError.Held self.old.times_held self.new.times_held result }
        ensures folder { folder_of self.new ≡ folder_of self.old }
    {
        let locked = self.lock_folder();
        if self.counted(locked)? {
            return Ok(());
        }
        self.times_held = self.times_held.saturating_add(1);
        Err(HoldError::Held)
    }

    fn names(&mut self, alloc: Global) -> Result<Row<Text>, OutError>
        ensures frame { StaysInsideCounting OutError.Fault self.old self.new result }
        ensures few { IfOk result (λ names. length names < 2 ^ 31) }
        ensures named { IfOk result (λ names. All IsName names) }
        ensures inside { IfOk result (λ names. All IsInside names) }
        ensures sorted { IfOk result (AllPairs (λ a b. slice_cmp nat_cmp a b ≡ Less)) }
    {
        match self.entries(alloc) {
            Ok(entries) => Ok(list(alloc, entries.as_slice())?),
            Err(error) if error.kind() == ErrorKind::OutOfMemory => Err(OutError::NoMemory),
            Err(_) => {
                self.faults = self.faults.saturating_add(1);
                Err(OutError::Fault)
            }
        }
    }

    fn size(&mut self, name: &[u8]) -> Result<Option<u64>, Fault>
        ensures frame { StaysInside self.old self.new result }
        ensures inside { OnOk result (IsInside name.now) }
    {
        let size = self.size_of(name);
        self.counted(size)
    }

    fn read_at(&mut self, name: &[u8], at: u64, out: &mut [u8]) -> Result<usize, Fault>
        ensures frame { StaysInside self.old self.new result }
        ensures within { IfOk result (λ n. n ≤ length out.old) }
        ensures inside { OnOk result (IsInside name.now) }
    {
        let read = self.read(name, at, out);
        self.counted(read)
    }

    fn write_at(&mut self, name: &[u8], at: u64, bytes: &[u8]) -> Result<(), Fault>
        ensures frame { StaysInside self.old self.new result }
        ensures inside { OnOk result (IsInside name.now) }
    {
        let written = self.write(name, at, bytes);
        self.counted(written)
    }

    fn cut(&mut self, name: &[u8], len: u64) -> Result<(), Fault>
        ensures frame { StaysInside self.old self.new result }
        ensures inside { OnOk result (IsInside name.now) }
    {
        let cut = self.shorten(name, len);
        self.counted(cut)
    }

    fn sync(&mut self, name: &[u8]) -> Result<(), Fault>
        ensures frame { StaysInside self.old self.new result }
        ensures inside { OnOk result (IsInside name.now) }
    {
        let synced = self.sync_one(name);
        self.counted(synced)
    }

    fn rename(&mut self, from: &[u8], to: &[u8]) -> Result<(), Fault>
        ensures frame { StaysInside self.old self.new result }
        ensures inside { OnOk result (IsInside from.now × IsInside to.now) }
    {
        let moved = self.move_one(from, to);
        self.counted(moved)
    }

    fn remove(&mut self, name: &[u8]) -> Result<(), Fault>
        ensures frame { StaysInside self.old self.new result }
        ensures inside { OnOk result (IsInside name.now) }
    {
        let removed = self.remove_one(name);
        self.counted(removed)
    }

    fn sync_names(&mut self) -> Result<(), Fault>
        ensures frame { StaysInside self.old self.new result }
    {
        let synced = self.sync_all();
        self.counted(synced)
    }
}
