//! The standard output.
ghost use Rattle.std.specs.Prelude.{None, OnOk};
ghost use Rattle.std.specs.Io.KnownBytes.{Appends};

use acq_outside::{Fault, Sink};
use std::io;
use std::io::Write;

/// The standard output.
#[derive(Drop)]
pub struct RealSink<R: Drop> {
    rt: R,
    faults: u64,
}

impl<R: Print + Drop> RealSink<R> {
    ghost use Rattle.std.specs.Prelude.{◌≡◌};
    ghost use Rattle.acq_real.specs.RealSink.{faults_of};

    /// The standard output of this system. It has not failed yet.
    pub fn new(rt: R) -> RealSink<R>
        ensures { faults_of result ≡ 0 }
    {
        RealSink { rt, faults: 0 }
    }
}

impl<R: Print + Drop> Sink for RealSink<R> {
    ghost faults = { λ sink. sink.faults };

    ghost written = { λ _. None };

    fn write(&mut self, bytes: &[u8]) -> Result<(), Fault> {
        match put(&mut io::writer(&self.rt), bytes) {
            Ok(()) => Ok(()),
            Err(_) => {
                self.faults = self.faults.saturating_add(1);
                Err(Fault)
            }
        }
    }
}

/// Writes all bytes, and hands on what the writer holds back.
fn put<W: Write>(writer: &mut W, bytes: &[u8]) -> io::Result<()>
    ensures { OnOk result (Appends (W.contents writer.old) (W.contents writer.new) bytes.now) }
{
    writer.write_all(bytes)?;
    writer.flush()
}
