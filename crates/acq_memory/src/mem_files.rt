//! Files in memory that a call writes.
ghost use Rattle.std.specs.Prelude.{◌≡◌, OnErr, OnOk};
ghost use Rattle.acq_outside.specs.Files.{after_put};
ghost use Rattle.acq_memory.specs.Held.{files_in};

use crate::failing::Failing;
use crate::held::{Held, front, put};
use acq_base::{Bytes, NoMemory, Row, Text, TryCopy};
use acq_outside::{Fault, Files};
use std::alloc::Global;
use std::collections::BTreeMap;

/// Files in memory, by name.
#[derive(Debug, Drop)]
pub struct MemFiles {
    alloc: Global,
    held: Held,
    failing: Failing,
}

impl MemFiles {
    ghost use Rattle.std.specs.Prelude.{◌≡◌, option_copied};
    ghost use Rattle.acq_memory.specs.Failing.{fresh};
    ghost use Rattle.acq_memory.specs.MemFiles.{failing_of, files_of, no_files};

    /// There are no files yet. `failing` holds the numbers of the calls that are to fail, counted from 1.
    pub fn new(alloc: Global, failing: Row<u64>) -> MemFiles
        ensures files { files_of result ≡ no_files }
        ensures failing { failing_of result ≡ fresh failing }
    {
        MemFiles {
            alloc,
            held: BTreeMap::new(alloc),
            failing: Failing::new(failing),
        }
    }

    /// A file's bytes, `None` where there is no such file.
    pub fn file(&self, name: &Text) -> Option<&Bytes>
        ensures { option_copied result ≡ files_of self.now name.now }
    {
        self.held.get(name)
    }

    /// How many of its faults were for want of memory.
    pub fn dry(&self) -> u64
        ensures { result ≡ (failing_of self.now).dry }
    {
        self.failing.dry
    }
}

impl Files for MemFiles {
    ghost use Rattle.std.specs.Prelude.{◌≡◌, IsErr, IsTrue, OnErr, OnOk};
    ghost use Rattle.acq_outside.specs.Files.{CanPut, Put};
    ghost use Rattle.acq_outside.specs.Frame.{Counts};
    ghost use Rattle.acq_memory.specs.Failing.{FailsAsListed, FailsDryAlone};
    ghost use Rattle.acq_memory.specs.MemFiles.{failing_of, faults_of, files_of, told_files};

    ghost faults = { faults_of };

    ghost files = { told_files };

    fn put(&mut self, name: &Text, at: u64, bytes: &[u8]) -> Result<(), Fault>
        requires { CanPut (files_of self.old) name.now at }
        ensures frame { Counts (faults_of self.old) (faults_of self.new) result }
        ensures ok { OnOk result (Put (told_files self.old) name.now at bytes.now (told_files self.new)) }

        // A listed call fails, and another one for want of memory alone. Either changes nothing.
        ensures err { OnErr result (told_files self.new ≡ told_files self.old) }
        ensures listed { FailsAsListed (failing_of self.old) (failing_of self.new) result }
        ensures others { FailsDryAlone (failing_of self.old) (failing_of self.new) result }
    {
        self.failing.call()?;
        match put_in(self.alloc, &mut self.held, name, at, bytes) {
            Ok(()) => Ok(()),
            Err(NoMemory) => Err(self.failing.run_dry()),
        }
    }
}

/// Puts bytes behind the first `at` bytes of a file, which is made where it is missing. Without memory nothing is changed.
fn put_in(
    alloc: Global,
    held: &mut Held,
    name: &Text,
    at: u64,
    bytes: &[u8],
) -> Result<(), NoMemory>
    ensures ok { OnOk result (files_in held.new ≡ after_put (files_in held.old) name.now at bytes.now) }
    ensures err { OnErr result (files_in held.new ≡ files_in held.old) }
{
    let mut content = match held.get(name) {
        Some(content) => front(alloc, content.as_slice(), at)?,
        None => Bytes::new(alloc),
    };
    content.append(bytes)?;
    put(held, name.copy(alloc)?, content)
}
