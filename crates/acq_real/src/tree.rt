//! The files of the operating system, as they are served.
ghost use Rattle.std.specs.Prelude.{◌≡◌, ◌≤◌, None, IfOk, length};
ghost use Rattle.acq_real.specs.RealTree.{faults_of};

use crate::answer::{counted, unless};
use crate::folder::read_some;
use acq_base::{Text, TryCopy};
use acq_outside::{Fault, Tree};
use std::alloc::Global;
use std::fs::{File, Metadata};
use std::io::ErrorKind;
use std::rt::Files;
use std::{fs, io};

/// A file that is kept open, its path, and the length that was found there before it was opened.
#[derive(Drop)]
struct Kept {
    path: Text,
    file: File,
    len: u64,
}

/// The plain files of the operating system. A path is taken as it stands, and links are followed: what is no plain file in
/// the end isn't there, and neither is a path that isn't UTF-8.
///
/// The file whose size was last told, or that was last read, stays open, so that a further read of the same path goes on
/// with the same file. A call of `size` opens it anew.
#[derive(Drop)]
pub struct RealTree<R: Drop> {
    rt: R,
    open: Option<Kept>,
    faults: u64,
}

impl<R: Files<File = File> + AllocGlobal + Clone + Drop> RealTree<R> {
    /// The files of this system.
    pub fn new(rt: R) -> RealTree<R>
        ensures { faults_of result ≡ 0 }
    {
        RealTree {
            rt,
            open: None,
            faults: 0,
        }
    }

    /// How often it failed.
    pub fn faults(&self) -> u64
        ensures { result ≡ faults_of self.now }
    {
        self.faults
    }

    /// The length of the file at a path in bytes. It is opened anew, to be read.
    fn length(&mut self, path: &Text) -> io::Result<Option<u64>>
        ensures { faults_of self.new ≡ faults_of self.old }
    {
        // The former file isn't kept where this one can't be opened.
        self.open = None;
        self.open = open(&self.rt, self.rt.alloc(), path)?;
        match &self.open {
            Some(open) => Ok(Some(open.len)),
            None => Ok(None),
        }
    }

    /// Reads bytes of a file that is kept open, or is opened first.
    fn read(&mut self, path: &Text, at: u64, out: &mut [u8]) -> io::Result<usize>
        ensures same { faults_of self.new ≡ faults_of self.old }
        ensures within { IfOk result (λ n. n ≤ length out.old) }
    {
        if !is_of(&self.open, path) {
            self.open = open(&self.rt, self.rt.alloc(), path)?;
        }
        match &self.open {
            Some(open) => read_some(&open.file, at, out),
            None => Ok(0),
        }
    }
}

impl<R: Files<File = File> + AllocGlobal + Clone + Drop> Tree for RealTree<R> {
    ghost faults = { λ tree. faults_of tree };

    ghost files = { λ _. None };

    fn size(&mut self, path: &Text) -> Result<Option<u64>, Fault> {
        let size = self.length(path);
        counted(&mut self.faults, size)
    }

    fn read_at(&mut self, path: &Text, at: u64, out: &mut [u8]) -> Result<usize, Fault> {
        let read = self.read(path, at, out);
        counted(&mut self.faults, read)
    }
}

/// Whether the file that is kept open is the one of this path.
fn is_of(open: &Option<Kept>, path: &Text) -> bool {
    match open {
        Some(open) => open.path == *path,
        None => false,
    }
}

/// What is at a path, links followed, if it is a plain file. Where a part of the path is missing, no folder or too long,
/// nothing is there.
fn find_plain(rt: &impl Files, path: &str) -> io::Result<Option<Metadata>> {
    match fs::metadata(rt, path) {
        Ok(found) if found.is_file() => Ok(Some(found)),
        Ok(_) => Ok(None),
        Err(error) if is_absence(error.kind()) => Ok(None),
        Err(error) => Err(error),
    }
}

/// Whether an error says that nothing is at a path.
fn is_absence(kind: ErrorKind) -> bool {
    kind == ErrorKind::NotFound
        || kind == ErrorKind::NotADirectory
        || kind == ErrorKind::InvalidFilename
}

/// Opens the file at a path, if there is one.
fn open(rt: &impl Files<File = File>, alloc: Global, path: &Text) -> io::Result<Option<Kept>> {
    let Ok(name) = str::from_utf8(path.as_bytes()) else {
        return Ok(None);
    };
    let Some(found) = find_plain(rt, name)? else {
        return Ok(None);
    };
    let Some(file) = unless(ErrorKind::NotFound, File::open(rt, name))? else {
        return Ok(None);
    };
    match path.copy(alloc) {
        Ok(path) => Ok(Some(Kept {
            path,
            file,
            len: found.len(),
        })),
        Err(_) => Err(io::Error::from(ErrorKind::OutOfMemory)),
    }
}
