//! Calls of a connection in memory that are to fail.
ghost use Rattle.acq_net.specs.Calls.{fresh_calls};

use acq_base::Row;
use acq_outside::Fault;

/// How the calls of an object in memory went, and which of them are to fail.
#[derive(Debug, Drop)]
pub struct Calls {
    /// The numbers of the calls that are to fail, counted from 1.
    listed: Row<u64>,
    made: u64,
    pub faults: u64,
    /// How many faults were for want of memory.
    pub dry: u64,
}

impl Calls {
    ghost use Rattle.std.specs.Prelude.{◌≡◌, is_err};
    ghost use Rattle.acq_outside.specs.Frame.{Counts};
    ghost use Rattle.acq_net.specs.Calls.{CountsOne, counted, is_listed, starved, unconnected};

    /// No call was made yet.
    pub fn new(listed: Row<u64>) -> Calls
        ensures { result ≡ fresh_calls listed }
    {
        Calls {
            listed,
            made: 0,
            faults: 0,
            dry: 0,
        }
    }

    /// Counts a call, which is a fault exactly where its number is listed.
    pub fn call(&mut self) -> Result<(), Fault>
        ensures answer { is_err result ≡ is_listed self.old }
        ensures after { self.new ≡ counted self.old }
        ensures frame { Counts self.old.faults self.new.faults result }
    {
        self.made = self.made.saturating_add(1);
        if self.listed.as_slice().contains(&self.made) {
            self.faults = self.faults.saturating_add(1);
            return Err(Fault);
        }
        Ok(())
    }

    /// Counts a fault by want of memory.
    pub fn run_dry(&mut self) -> Fault
        ensures after { self.new ≡ starved self.old }
        ensures frame { CountsOne self.old.faults self.new.faults }
    {
        self.faults = self.faults.saturating_add(1);
        self.dry = self.dry.saturating_add(1);
        Fault
    }

    /// Counts a fault of a call for want of a connection, or of a port number at which peers could make one.
    pub fn fail_unconnected(&mut self) -> Fault
        ensures after { self.new ≡ unconnected self.old }
        ensures frame { CountsOne self.old.faults self.new.faults }
    {
        self.faults = self.faults.saturating_add(1);
        Fault
    }
}
