//! A folder of the operating system as the configuration folder.
ghost use Rattle.std.specs.Prelude.{◌≡◌, IfOk, MatchResult, IsErr};
ghost use Rattle.acq_outside.specs.Frame.{CountsOnly};
ghost use Rattle.acq_real.specs.RealEtc.{faults_of, folder_of};

use crate::etc_folder;
use acq_base::{Bytes, Row, Text};
use acq_outside::{Etc, OutError, Place};
use std::alloc::{AllocError, Global};
use std::fs::File;
use std::io;
use std::io::ErrorKind;
use std::rt::Files;

/// A folder of the operating system with `sources.list`, `sources.list.d`, `apt.conf` and `apt.conf.d`.
///
/// Links are followed. What isn't a plain file in the end isn't there, and neither is a name that isn't UTF-8. What can't
/// be looked at, read or listed for another reason than that it isn't there is a fault, as a file without permission is,
/// or a file in place of a folder; and so it is where the folder itself isn't there. A file is looked at first and opened
/// by a further call of the system.
#[derive(Drop)]
pub struct RealEtc<R: Drop> {
    rt: R,
    folder: String,
    faults: u64,
}

impl<R: Files<File = File> + AllocGlobal + Clone + Drop> RealEtc<R> {
    /// The configuration folder with this path. It is looked for by each call, and not yet.
    pub fn new(alloc: Global, rt: R, folder: &str) -> Result<RealEtc<R>, AllocError>
        ensures faults { IfOk result (λ etc. faults_of etc ≡ 0) }
        ensures folder { IfOk result (λ etc. folder_of etc ≡ folder.now) }
    {
        Ok(RealEtc {
            rt,
            folder: String::from_str(alloc, folder)?,
            faults: 0,
        })
    }

    /// How often it failed.
    pub fn faults(&self) -> u64
        ensures { result ≡ faults_of self.now }
    {
        self.faults
    }

    /// The answer of the system: want of memory as such, and any other error of it as a fault that is counted.
    fn counted<T: Drop>(&mut self, done: io::Result<T>) -> Result<T, OutError>
        ensures frame { CountsOnly OutError.Fault self.old.faults self.new.faults result }
        ensures folder { folder_of self.new ≡ folder_of self.old }
        ensures answer { MatchResult result (λ value. done ≡ Ok value) (λ _. IsErr done) }
    {
        match done {
            Ok(value) => Ok(value),
            Err(error) if error.kind() == ErrorKind::OutOfMemory => Err(OutError::NoMemory),
            Err(_) => {
                self.faults = self.faults.saturating_add(1);
                Err(OutError::Fault)
            }
        }
    }
}

impl<R: Files<File = File> + AllocGlobal + Clone + Drop> Etc for RealEtc<R> {
    ghost use Rattle.std.specs.Prelude.{None};

    ghost faults = { λ etc. etc.faults };

    ghost files = { λ _. None };

    fn names(&mut self, alloc: Global, place: Place) -> Result<Row<Text>, OutError>
        ensures frame { CountsOnly OutError.Fault self.old.faults self.new.faults result }
        ensures folder { folder_of self.new ≡ folder_of self.old }
    {
        let names = etc_folder::names(&self.rt, alloc, self.folder.as_str(), place);
        self.counted(names)
    }

    fn read(&mut self, alloc: Global, place: Place, name: &Text) -> Result<Option<Bytes>, OutError>
        ensures frame { CountsOnly OutError.Fault self.old.faults self.new.faults result }
        ensures folder { folder_of self.new ≡ folder_of self.old }
    {
        let bytes = etc_folder::read(&self.rt, alloc, self.folder.as_str(), place, name);
        self.counted(bytes)
    }
}
