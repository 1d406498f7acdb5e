//! Files of the operating system that a call writes.
ghost use Rattle.std.specs.Prelude.{◌≡◌, nat_eq, false, true, None};
ghost use Rattle.std.specs.Fs.{asks_append, asks_create, asks_create_new, asks_truncate, asks_write};

use crate::answer::counted;
use acq_base::Text;
use acq_outside::{Fault, Files};
use std::fs::{File, OpenOptions};
use std::io::ErrorKind;
use std::os::unix::fs::FileExt;
use std::{io, rt};

/// The files of the operating system, to be written. A name is a path and is taken as it stands, and links are followed.
/// A path that isn't UTF-8 is a fault, and so is one at which no file can be made or written.
#[derive(Drop)]
pub struct RealFiles<R: Drop> {
    rt: R,
    faults: u64,
}

impl<R: rt::Files<File = File> + Drop> RealFiles<R> {
    ghost use Rattle.acq_real.specs.RealFiles.{faults_of};

    /// The files of this system.
    pub fn new(rt: R) -> RealFiles<R>
        ensures { faults_of result ≡ 0 }
    {
        RealFiles { rt, faults: 0 }
    }

    /// How often it failed.
    pub fn faults(&self) -> u64
        ensures { result ≡ faults_of self.now }
    {
        self.faults
    }
}

impl<R: rt::Files<File = File> + Drop> Files for RealFiles<R> {
    ghost faults = { λ files. files.faults };

    ghost files = { λ _. None };

    fn put(&mut self, name: &Text, at: u64, bytes: &[u8]) -> Result<(), Fault> {
        let written = write(&self.rt, name.as_bytes(), at, bytes);
        counted(&mut self.faults, written)
    }
}

/// Writes bytes from a place on to the file at a path.
fn write(rt: &impl rt::Files<File = File>, path: &[u8], at: u64, bytes: &[u8]) -> io::Result<()> {
    let Ok(path) = str::from_utf8(path) else {
        return Err(io::Error::from(ErrorKind::InvalidFilename));
    };
    let file = way_to_write(at).open(rt, path)?;
    file.write_all_at(bytes, at)
}

/// How a file is opened to be written from a place on: at 0 it is made or emptied, and else it has to be there. One that
/// is there is never refused, and what is written isn't moved to its end.
fn way_to_write(at: u64) -> OpenOptions
    ensures writes { asks_write result ≡ true }
    ensures makes { asks_create result ≡ nat_eq at 0 }
    ensures empties { asks_truncate result ≡ nat_eq at 0 }
    ensures in_place { asks_append result ≡ false }
    ensures takes_present { asks_create_new result ≡ false }
{
    let mut way = OpenOptions::new();
    way.write(true);
    way.create(at == 0);
    way.truncate(at == 0);
    way
}
