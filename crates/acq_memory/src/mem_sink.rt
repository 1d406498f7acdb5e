//! An output in memory.
ghost use Rattle.std.specs.Prelude.{◌≡◌, ℕ, ◌++◌, take, OnOk, OnErr};

use crate::failing::Failing;
use acq_base::{Bytes, NoMemory, Row};
use acq_outside::{Fault, Sink};
use std::alloc::Global;

/// A sink that keeps what is written to it.
#[derive(Debug, Drop)]
pub struct MemSink {
    written: Bytes,
    failing: Failing,
}

impl MemSink {
    ghost use Rattle.std.specs.Prelude.{◌≡◌, []};
    ghost use Rattle.acq_memory.specs.Failing.{fresh};
    ghost use Rattle.acq_memory.specs.MemSink.{written_to, failing_of};

    /// An empty sink. `failing` holds the numbers of its calls that are to fail, counted from 1.
    pub fn new(alloc: Global, failing: Row<u64>) -> MemSink
        ensures written { written_to result ≡ [] }
        ensures failing { failing_of result ≡ fresh failing }
    {
        MemSink {
            written: Bytes::new(alloc),
            failing: Failing::new(failing),
        }
    }

    /// The bytes written so far.
    pub fn written(&self) -> &Bytes
        ensures { result.now ≡ written_to self.now }
    {
        &self.written
    }

    /// How many of its faults were for want of memory.
    pub fn dry(&self) -> u64
        ensures { result ≡ (failing_of self.now).dry }
    {
        self.failing.dry
    }
}

impl Sink for MemSink {
    ghost use Rattle.std.specs.Prelude.{◌≡◌, IsTrue, Some, IsErr, OnOk, OnErr};
    ghost use Rattle.acq_outside.specs.Frame.{Counts};
    ghost use Rattle.acq_outside.specs.Sink.{Wrote, WrotePart};
    ghost use Rattle.acq_memory.specs.Failing.{is_listed, counted, FailsDryAlone};
    ghost use Rattle.acq_memory.specs.MemSink.{written_to, failing_of, faults_of};

    ghost faults = { faults_of };

    ghost written = { λ sink. Some (written_to sink) };

    fn write(&mut self, bytes: &[u8]) -> Result<(), Fault>
        ensures frame { Counts (faults_of self.old) (faults_of self.new) result }
        ensures ok { OnOk result (Wrote (Some (written_to self.old)) bytes.now (Some (written_to self.new))) }
        ensures err { OnErr result (WrotePart (Some (written_to self.old)) bytes.now (Some (written_to self.new))) }

        // A listed call fails and writes nothing. Another one fails for want of memory alone.
        ensures listed { IsTrue (is_listed (failing_of self.old)) → IsErr result × (failing_of self.new ≡ counted (failing_of self.old)) × (written_to self.new ≡ written_to self.old) }
        ensures others { FailsDryAlone (failing_of self.old) (failing_of self.new) result }
    {
        self.failing.call()?;
        match append(&mut self.written, bytes) {
            Ok(()) => Ok(()),
            Err(NoMemory) => Err(self.failing.run_dry()),
        }
    }
}

/// Appends bytes one by one. Without memory a front of them is appended.
fn append(row: &mut Bytes, bytes: &[u8]) -> Result<(), NoMemory>
    ensures ok { OnOk result (row.new ≡ row.old ++ bytes.now) }
    ensures err { OnErr result ((n : ℕ) × (row.new ≡ row.old ++ take n bytes.now)) }
{
    for byte in bytes {
        row.push(*byte)?;
    }
    Ok(())
}
