//! A disk in memory.
use crate::failing::Failing;
use crate::history::History;
use crate::start::{are_names, names_differ};
use acq_base::{Bytes, NoMemory, Row, Text};
use acq_outside::{DiskCall, Fault};
use std::alloc::Global;

mod calls;

/// A disk in memory. It keeps the files that it began with and the list of its changes.
#[derive(Debug, Drop)]
pub struct MemDisk {
    alloc: Global,
    history: History,
    held: bool,
    times_held: u64,
    failing: Failing,
}

impl MemDisk {
    ghost use Rattle.std.specs.Prelude.{◌≡◌, ◌↔◌, [], false, IsTrue, IfOk, OnOk, OnErr, MatchResult};
    ghost use Rattle.acq_outside.specs.Choice.{image_of};
    ghost use Rattle.acq_outside.specs.Frame.{Counts};
    ghost use Rattle.acq_outside.specs.Crash.{newest, trace_of};
    ghost use Rattle.acq_memory.specs.Failing.{fresh, fused, starved};
    ghost use Rattle.acq_outside.specs.History.{IsStart, files_of, changed, after_change};
    ghost use Rattle.acq_memory.specs.Held.{IsNamed};
    ghost use Rattle.acq_memory.specs.MemDisk.{past_of, failing_of, held_of, times_held};

    /// Whether a disk may begin with these files.
    pub fn takes(files: &Row<(Text, Bytes)>) -> bool
        ensures { IsTrue result ↔ IsStart files.now }
    {
        are_names(files.as_slice()) && names_differ(files.as_slice())
    }

    /// A disk that begins with these files: names that a disk may have, no two the same, and their bytes. `held` says
    /// whether another process holds it. `failing` holds the numbers of its calls that are to fail, counted from 1.
    pub fn new(
        alloc: Global,
        files: Row<(Text, Bytes)>,
        held: bool,
        failing: Row<u64>,
    ) -> Result<MemDisk, NoMemory>
        requires { IsStart files }
        ensures past { IfOk result (λ disk. past_of disk ≡ record { start = files; changes = [] }) }
        ensures held { IfOk result (λ disk. held_of disk ≡ held) }
        ensures times_held { IfOk result (λ disk. times_held disk ≡ 0) }
        ensures failing { IfOk result (λ disk. failing_of disk ≡ fresh failing) }
    {
        Ok(MemDisk {
            alloc,
            history: History::new(alloc, files)?,
            held,
            times_held: 0,
            failing: Failing::new(failing),
        })
    }

    /// The same disk, of which so many further calls are done and then each is a fault that changes nothing.
    pub fn with_fuse(self, calls: u64) -> MemDisk
        ensures past { past_of result ≡ past_of self }
        ensures held { held_of result ≡ held_of self }
        ensures times_held { times_held result ≡ times_held self }
        ensures failing { failing_of result ≡ fused (failing_of self) calls }
    {
        let mut disk = self;
        disk.failing.set_fuse(calls);
        disk
    }

    /// What a crash leaves of it now, as a fresh disk, which nobody holds and of which no call is to fail. The choice says
    /// what is left, byte by byte and again from its first byte where it ends; an empty one counts as one 0.
    ///
    /// Of each pending change of names it reads a byte: 0 leaves the change out. Then of each file it reads two bytes for
    /// each of its bytes: the first ends the file where it is 0 and the file may end there, and the second is the byte
    /// where it may be any.
    pub fn crashed(self, choice: &Row<u8>) -> Result<MemDisk, NoMemory>
        ensures files { IfOk result (λ disk. files_of (past_of disk) ≡ image_of (newest (trace_of (past_of self))) choice.now) }
        ensures no_changes { IfOk result (λ disk. (past_of disk).changes ≡ []) }
        ensures held { IfOk result (λ disk. held_of disk ≡ false) }
        ensures times_held { IfOk result (λ disk. times_held disk ≡ 0) }
        ensures failing { IfOk result (λ disk. failing_of disk ≡ fresh []) }
    {
        let files = self.history.crashed(self.alloc, choice.as_slice())?;
        MemDisk::new(self.alloc, files, false, Row::new(self.alloc))
    }

    /// How many of its faults were for want of memory that its call can't name.
    pub fn dry(&self) -> u64
        ensures { result ≡ (failing_of self.now).dry }
    {
        self.failing.dry
    }

    /// How often it failed.
    pub fn faults(&self) -> u64
        ensures { result ≡ (failing_of self.now).faults }
    {
        self.failing.faults
    }

    /// Does this change within a call that is counted.
    #[tactic(auto, using(crate::proofs::HeldFiles::files_of_changed))]
    fn apply(&mut self, change: DiskCall) -> Result<(), Fault>
        requires { IsNamed change }
        ensures held { times_held self.new ≡ times_held self.old }
        ensures holder { held_of self.new ≡ held_of self.old }
        ensures change { OnOk result (past_of self.new ≡ changed (past_of self.old) change) }
        ensures files { OnOk result (files_of (past_of self.new) ≡ after_change (files_of (past_of self.old)) change) }
        ensures failed { OnErr result (past_of self.new ≡ past_of self.old) }
        ensures counted { MatchResult result (λ _. failing_of self.new ≡ failing_of self.old) (λ _. failing_of self.new ≡ starved (failing_of self.old)) }
        ensures frame { Counts (failing_of self.old).faults (failing_of self.new).faults result }
    {
        match self.history.apply(self.alloc, change) {
            Ok(()) => Ok(()),
            Err(NoMemory) => Err(self.failing.run_dry()),
        }
    }
}
