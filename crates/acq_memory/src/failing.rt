//! Which calls of an object in memory fail. Each object that can fail keeps one of these, a method one for `begin` and
//! one for `more`, and nothing else counts its faults.
ghost use Rattle.std.specs.Prelude.{◌≡◌};
ghost use Rattle.acq_memory.specs.Failing.{is_past};

use acq_base::Row;
use acq_outside::Fault;

/// Which calls of an object in memory are to fail, and how its calls went so far.
#[derive(Debug, Drop)]
pub struct Failing {
    /// The numbers of the calls that are to fail, counted from 1.
    pub listed: Row<u64>,
    /// The number of the last call that may be done, where later ones are all to fail.
    pub last: Option<u64>,
    /// How many calls were made.
    pub calls: u64,
    /// How many calls were a fault.
    pub faults: u64,
    /// How many of these faults were for want of memory.
    pub dry: u64,
}

impl Failing {
    ghost use Rattle.std.specs.Prelude.{◌≡◌, ◌≤◌, is_err};
    ghost use Rattle.acq_outside.specs.Count.{Rose};
    ghost use Rattle.acq_outside.specs.Frame.{Counts};
    ghost use Rattle.acq_memory.specs.Failing.{fresh, fused, is_listed, counted, starved};

    /// No call is made yet.
    pub fn new(listed: Row<u64>) -> Failing
        ensures { result ≡ fresh listed }
    {
        Failing {
            listed,
            last: None,
            calls: 0,
            faults: 0,
            dry: 0,
        }
    }

    /// Lets so many further calls be done, and then none.
    pub fn set_fuse(&mut self, calls: u64)
        ensures { self.new ≡ fused self.old calls }
    {
        self.last = Some(self.calls.saturating_add(calls));
    }

    /// Counts a call, which is a fault exactly where its number is listed or past the last that may be done.
    pub fn call(&mut self) -> Result<(), Fault>
        ensures answer { is_err result ≡ is_listed self.old }
        ensures after { self.new ≡ counted self.old }
        ensures frame { Counts self.old.faults self.new.faults result }
    {
        self.calls = self.calls.saturating_add(1);
        if self.listed.as_slice().contains(&self.calls) || is_past(self.last, self.calls) {
            self.faults = self.faults.saturating_add(1);
            return Err(Fault);
        }
        Ok(())
    }

    /// Counts a fault by want of memory.
    pub fn run_dry(&mut self) -> Fault
        ensures after { self.new ≡ starved self.old }
        ensures count { self.old.faults ≤ self.new.faults }
        ensures fault { Rose self.old.faults self.new.faults }
    {
        self.faults = self.faults.saturating_add(1);
        self.dry = self.dry.saturating_add(1);
        Fault
    }
}

/// Whether a call of this number comes behind the last that may be done.
fn is_past(last: Option<u64>, number: u64) -> bool
    ensures { result ≡ is_past last number }
{
    match last {
        Some(last) => last < number,
        None => false,
    }
}
