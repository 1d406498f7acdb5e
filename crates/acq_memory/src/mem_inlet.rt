//! An input in memory.
use crate::failing::Failing;
use crate::held::read_from;
use acq_base::{Bytes, Row};
use acq_outside::{Fault, Inlet};

/// An input whose bytes are in memory.
#[derive(Debug, Drop)]
pub struct MemInlet {
    bytes: Bytes,
    /// How many of them were read.
    at: u64,
    /// How often the end was given.
    ends: u64,
    failing: Failing,
}

impl MemInlet {
    ghost use Rattle.std.specs.Prelude.{◌≡◌};
    ghost use Rattle.acq_memory.specs.Failing.{fresh};
    ghost use Rattle.acq_memory.specs.MemInlet.{ends_of, failing_of, left_of};

    /// An input of these bytes. `failing` holds the numbers of its calls that are to fail, counted from 1.
    pub fn new(bytes: Bytes, failing: Row<u64>) -> MemInlet
        ensures left { left_of result ≡ bytes }
        ensures ends { ends_of result ≡ 0 }
        ensures failing { failing_of result ≡ fresh failing }
    {
        MemInlet {
            bytes,
            at: 0,
            ends: 0,
            failing: Failing::new(failing),
        }
    }

    /// How many of its faults were for want of memory. Nothing raises it, since reads take none.
    pub fn dry(&self) -> u64
        ensures { result ≡ (failing_of self.now).dry }
    {
        self.failing.dry
    }
}

impl Inlet for MemInlet {
    ghost use Rattle.std.specs.Prelude.{◌≡◌, ◌↔◌, ◌<◌, ◌≤◌, Some, IfOk, IsErr, IsTrue, OnErr, length, min, take};
    ghost use Rattle.acq_outside.specs.Count.{one_more};
    ghost use Rattle.acq_outside.specs.Frame.{GivesBy};
    ghost use Rattle.acq_outside.specs.Inlet.{Gave, IsSpent};
    ghost use Rattle.acq_memory.specs.Failing.{counted, is_listed};
    ghost use Rattle.acq_memory.specs.MemInlet.{ends_of, failing_of, faults_of, left_of, told_left};

    ghost faults = { faults_of };

    ghost ends = { ends_of };

    ghost left = { told_left };

    #[tactic(auto, using(crate::proofs::ReadOn::given))]
    fn read(&mut self, out: &mut [u8]) -> Result<usize, Fault>
        requires { 0 < length out.old }

        ensures frame { GivesBy faults_of ends_of self.old self.new result }

        ensures within { IfOk result (λ n. n ≤ length out.old) }
        ensures room { length out.new ≡ length out.old }
        ensures gave { IfOk result (λ n. Gave (told_left self.old) (take n out.new) (told_left self.new)) }
        ensures spent { IfOk result (λ n. n ≡ 0 → IsSpent (told_left self.old)) }
        ensures err { OnErr result (told_left self.new ≡ told_left self.old) }

        // It fills `out` as far as its bytes reach, and each end that it gives is one more. A listed call fails, and no
        // other one does.
        ensures filled { IfOk result (λ n. n ≡ min (length (left_of self.old)) (length out.old)) }
        ensures once { IfOk result (λ n. n ≡ 0 → ends_of self.new ≡ one_more (ends_of self.old)) }
        ensures counted { failing_of self.new ≡ counted (failing_of self.old) }
        ensures listed { IsErr result ↔ IsTrue (is_listed (failing_of self.old)) }
    {
        self.failing.call()?;
        let n = read_from(self.bytes.as_slice(), self.at, out);
        self.at += n as u64;
        if n == 0 {
            self.ends = self.ends.saturating_add(1);
        }
        Ok(n)
    }
}
