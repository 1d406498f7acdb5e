//! The standard input.
ghost use Rattle.std.specs.Prelude.{◌≤◌, IfOk, length};
ghost use Rattle.std.specs.Io.KnownBytes.{ReadConsumes};

use crate::answer::{counted, unless};
use acq_outside::{Fault, Inlet};
use std::io;
use std::io::{ErrorKind, Read};

/// The standard input, or what another reader of the system gives.
#[derive(Drop)]
pub struct RealInlet<R: Drop> {
    reader: R,
    faults: u64,
    /// How often the end was given.
    ends: u64,
}

impl<R: Read + Drop> RealInlet<R> {
    ghost use Rattle.std.specs.Prelude.{◌≡◌};
    ghost use Rattle.acq_real.specs.RealInlet.{ends_of, faults_of, reader_of};

    /// The input from this reader, which is `rt.stdin()` for the standard input. It has not failed yet, nor
    /// given an end.
    pub fn new(reader: R) -> RealInlet<R>
        ensures reader { reader_of result ≡ reader }
        ensures faults { faults_of result ≡ 0 }
        ensures ends { ends_of result ≡ 0 }
    {
        RealInlet {
            reader,
            faults: 0,
            ends: 0,
        }
    }

    /// How often it failed.
    pub fn faults(&self) -> u64
        ensures { result ≡ faults_of self.now }
    {
        self.faults
    }
}

impl<R: Read + Drop> Inlet for RealInlet<R> {
    ghost use Rattle.std.specs.Prelude.{◌≡◌, ◌<◌, ◌≤◌, None, IfOk, length};
    ghost use Rattle.acq_outside.specs.Frame.{GivesBy};
    ghost use Rattle.acq_real.specs.RealInlet.{ends_of, faults_of, reader_of};

    ghost faults = { faults_of };

    ghost ends = { ends_of };

    ghost left = { λ _. None };

    fn read(&mut self, out: &mut [u8]) -> Result<usize, Fault>
        requires { 0 < length out.old }

        ensures frame { GivesBy faults_of ends_of self.old self.new result }

        ensures within { IfOk result (λ n. n ≤ length out.old) }
        ensures room { length out.new ≡ length out.old }

        // What the reader's known bytes lose is what is given, and a fault loses none.
        ensures bytes { ReadConsumes (R.remaining (reader_of self.old)) (R.remaining (reader_of self.new)) result out.new }
    {
        let read = read_some(&mut self.reader, out);
        let n = counted(&mut self.faults, read)?;
        if n == 0 {
            self.ends = self.ends.saturating_add(1);
        }
        Ok(n)
    }
}

/// One read that a signal doesn't end.
#[tactic(auto, using(crate::proofs::KnownReads::kept_on, crate::proofs::KnownReads::read_on))]
fn read_some<R: Read>(reader: &mut R, out: &mut [u8]) -> io::Result<usize>
    ensures within { IfOk result (λ n. n ≤ length out.old) }
    ensures bytes { ReadConsumes (R.remaining reader.old) (R.remaining reader.new) result out.new }
{
    for _ in 0..u64::MAX {
        if let Some(n) = unless(ErrorKind::Interrupted, reader.read(out))? {
            return Ok(n);
        }
    }
    Err(io::Error::from(ErrorKind::Interrupted))
}
