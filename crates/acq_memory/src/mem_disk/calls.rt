//! The calls of a disk in memory.
ghost use Rattle.std.specs.Prelude.{◌≡◌, ◌≤◌, length, option_copied, option_map};
ghost use Rattle.acq_outside.specs.Disk.{IsRead};

use crate::MemDisk;
use crate::changes::{cut_change, remove_change, rename_change, sync_change, write_change};
use crate::held::read_from;
use acq_base::{Bytes, NoMemory, Row, Text};
use acq_outside::{Disk, DiskCall, Fault, HoldError, OutError};
use std::alloc::Global;

/// More names than `names` gives.
const MOST_NAMES: usize = 2_147_483_648;

impl Disk for MemDisk {
    ghost use Rattle.std.specs.Prelude.{◌≡◌, ◌≤◌, ◌<◌, ◌^◌, [], true, false, length, All, IsTrue, IsOkUnless, Ok, Err, IfOk, OnOk, OnErr, IsSomeAnd, if◌then◌else◌, option_map, unwrap_or};
    ghost use Rattle.acq_outside.specs.Crash.{Goes, trace_of};
    ghost use Rattle.acq_outside.specs.Disk.{IsName, IsNames, IsRead, IsTornWrite, IsTornCut, IsDoneOrNot, after_write, after_cut, after_rename, after_remove};
    ghost use Rattle.acq_memory.specs.Failing.{is_listed, counted, FailsAsListed, FailsDryAlone};
    ghost use Rattle.acq_outside.specs.Frame.{CountsOnly, StaysBy, ReadsBy, ReadsCountingBy};
    ghost use Rattle.acq_outside.specs.History.{files_of, changed};
    ghost use Rattle.acq_outside.proofs.Traces.{trace_sound, trace_shown};
    ghost use Rattle.acq_memory.specs.MemDisk.{past_of, failing_of, faults_of, files_in, trace_in, held_of, times_held};

    ghost faults = { faults_of };

    ghost tells = { λ _. true };

    ghost files = { files_in };

    ghost trace = { trace_in };

    ghost held = { times_held };

    ghost sound = { λ disk. trace_sound (past_of disk) };

    ghost shown = { λ disk. trace_shown (past_of disk) };

    fn hold(&mut self) -> Result<(), HoldError>
        ensures frame { CountsOnly HoldError.Fault (faults_of self.old) (faults_of self.new) result }
        ensures holds { CountsOnly HoldError.Held (times_held self.old) (times_held self.new) result }
        ensures telling { true ≡ true }
        ensures same { files_of (past_of self.new) ≡ files_of (past_of self.old) }
        ensures still { trace_of (past_of self.new) ≡ trace_of (past_of self.old) }

        // A listed call fails. Any other one finds the disk held exactly where it was made so.
        ensures past { past_of self.new ≡ past_of self.old }
        ensures counted { failing_of self.new ≡ counted (failing_of self.old) }
        ensures listed { IsTrue (is_listed (failing_of self.old)) → result ≡ Err HoldError.Fault }
        ensures others { is_listed (failing_of self.old) ≡ false → result ≡ (if held_of self.old then Err HoldError.Held else Ok tt) }
        ensures holder { held_of self.new ≡ held_of self.old }
    {
        self.failing.call()?;
        if self.held {
            self.times_held = self.times_held.saturating_add(1);
            return Err(HoldError::Held);
        }
        Ok(())
    }

    fn names(&mut self, alloc: Global) -> Result<Row<Text>, OutError>
        ensures frame { ReadsCountingBy OutError.Fault faults_of times_held (λ _. true) files_in trace_in self.old self.new result }
        ensures few { IfOk result (λ names. length names < 2 ^ 31) }
        ensures named { IfOk result (λ names. All IsName names) }
        ensures told { IsTrue true → IfOk result (IsNames (files_of (past_of self.old))) }

        // A listed call fails, and no other one does but for want of memory.
        ensures past { past_of self.new ≡ past_of self.old }
        ensures counted { failing_of self.new ≡ counted (failing_of self.old) }
        ensures listed { IsTrue (is_listed (failing_of self.old)) → result ≡ Err OutError.Fault }
        ensures others { is_listed (failing_of self.old) ≡ false → IsOkUnless result OutError.NoMemory }
        ensures holder { held_of self.new ≡ held_of self.old }
    {
        self.failing.call()?;
        let names = self.history.names(alloc)?;
        if names.len() >= MOST_NAMES {
            return Err(OutError::NoMemory);
        }
        Ok(names)
    }

    fn size(&mut self, name: &[u8]) -> Result<Option<u64>, Fault>
        requires { IsName name.now }
        ensures frame { ReadsBy faults_of times_held (λ _. true) files_in trace_in self.old self.new result }
        ensures told { IsTrue true → IfOk result (λ size. size ≡ option_map length (files_of (past_of self.old) name.now)) }

        // A listed call fails, and another one for want of memory alone.
        ensures past { past_of self.new ≡ past_of self.old }
        ensures listed { FailsAsListed (failing_of self.old) (failing_of self.new) result }
        ensures others { FailsDryAlone (failing_of self.old) (failing_of self.new) result }
        ensures holder { held_of self.new ≡ held_of self.old }
    {
        self.failing.call()?;
        match Text::from_bytes(self.alloc, name) {
            Ok(name) => Ok(size_of(self.history.get(&name))),
            Err(NoMemory) => Err(self.failing.run_dry()),
        }
    }

    fn read_at(&mut self, name: &[u8], at: u64, out: &mut [u8]) -> Result<usize, Fault>
        requires { IsName name.now }
        ensures frame { ReadsBy faults_of times_held (λ _. true) files_in trace_in self.old self.new result }
        ensures within { IfOk result (λ n. n ≤ length out.old) }
        ensures told { IsTrue true → IfOk result (λ n. IsRead (files_of (past_of self.old) name.now) at n out.old out.new) }

        // A listed call fails, and another one for want of memory alone.
        ensures past { past_of self.new ≡ past_of self.old }
        ensures listed { FailsAsListed (failing_of self.old) (failing_of self.new) result }
        ensures others { FailsDryAlone (failing_of self.old) (failing_of self.new) result }
        ensures holder { held_of self.new ≡ held_of self.old }
    {
        self.failing.call()?;
        match Text::from_bytes(self.alloc, name) {
            Ok(name) => Ok(read_some(self.history.get(&name), at, out)),
            Err(NoMemory) => Err(self.failing.run_dry()),
        }
    }

    #[tactic(auto, using(crate::proofs::Torn::untouched_write, crate::proofs::Trace::noted_step))]
    fn write_at(&mut self, name: &[u8], at: u64, bytes: &[u8]) -> Result<(), Fault>
        requires name { IsName name.now }
        requires there { IsTrue true → IsSomeAnd (files_of (past_of self.old) name.now) (λ content. at ≤ length content) }
        ensures frame { StaysBy faults_of times_held (λ _. true) self.old self.new result }
        ensures step { Goes (DiskCall.Write name.now at bytes.now) (trace_of (past_of self.old)) (trace_of (past_of self.new)) result }
        ensures ok { IsTrue true → OnOk result (files_of (past_of self.new) ≡ after_write (files_of (past_of self.old)) name.now at bytes.now) }
        ensures err { IsTrue true → OnErr result (IsTornWrite (files_of (past_of self.old)) (files_of (past_of self.new)) name.now at (length bytes.now)) }

        // A listed call fails, and another one for want of memory alone. One that fails changes nothing.
        ensures change { OnOk result (past_of self.new ≡ changed (past_of self.old) (DiskCall.Write name.now at bytes.now)) }
        ensures failed { OnErr result (past_of self.new ≡ past_of self.old) }
        ensures listed { FailsAsListed (failing_of self.old) (failing_of self.new) result }
        ensures others { FailsDryAlone (failing_of self.old) (failing_of self.new) result }
        ensures holder { held_of self.new ≡ held_of self.old }
    {
        self.failing.call()?;
        match write_change(self.alloc, name, at, bytes) {
            Ok(change) => {
                self.apply(change)?;
                Ok(())
            }
            Err(NoMemory) => Err(self.failing.run_dry()),
        }
    }

    #[tactic(auto, using(crate::proofs::Torn::untouched_cut, crate::proofs::Trace::noted_step))]
    fn cut(&mut self, name: &[u8], len: u64) -> Result<(), Fault>
        requires name { IsName name.now }
        requires within { IsTrue true → len ≤ length (unwrap_or (files_of (past_of self.old) name.now) []) }
        ensures frame { StaysBy faults_of times_held (λ _. true) self.old self.new result }
        ensures step { Goes (DiskCall.Cut name.now len) (trace_of (past_of self.old)) (trace_of (past_of self.new)) result }
        ensures ok { IsTrue true → OnOk result (files_of (past_of self.new) ≡ after_cut (files_of (past_of self.old)) name.now len) }
        ensures err { IsTrue true → OnErr result (IsTornCut (files_of (past_of self.old)) (files_of (past_of self.new)) name.now len) }

        // A listed call fails, and another one for want of memory alone. One that fails changes nothing.
        ensures change { OnOk result (past_of self.new ≡ changed (past_of self.old) (DiskCall.Cut name.now len)) }
        ensures failed { OnErr result (past_of self.new ≡ past_of self.old) }
        ensures listed { FailsAsListed (failing_of self.old) (failing_of self.new) result }
        ensures others { FailsDryAlone (failing_of self.old) (failing_of self.new) result }
        ensures holder { held_of self.new ≡ held_of self.old }
    {
        self.failing.call()?;
        match cut_change(self.alloc, name, len) {
            Ok(change) => {
                self.apply(change)?;
                Ok(())
            }
            Err(NoMemory) => Err(self.failing.run_dry()),
        }
    }

    #[tactic(auto, using(crate::proofs::Trace::noted_step))]
    fn sync(&mut self, name: &[u8]) -> Result<(), Fault>
        requires { IsName name.now }
        ensures frame { StaysBy faults_of times_held (λ _. true) self.old self.new result }
        ensures step { Goes (DiskCall.Sync name.now) (trace_of (past_of self.old)) (trace_of (past_of self.new)) result }
        ensures same { files_of (past_of self.new) ≡ files_of (past_of self.old) }

        // A listed call fails, and another one for want of memory alone. One that fails changes nothing.
        ensures change { OnOk result (past_of self.new ≡ changed (past_of self.old) (DiskCall.Sync name.now)) }
        ensures failed { OnErr result (past_of self.new ≡ past_of self.old) }
        ensures listed { FailsAsListed (failing_of self.old) (failing_of self.new) result }
        ensures others { FailsDryAlone (failing_of self.old) (failing_of self.new) result }
        ensures holder { held_of self.new ≡ held_of self.old }
    {
        self.failing.call()?;
        match sync_change(self.alloc, name) {
            Ok(change) => {
                self.apply(change)?;
                Ok(())
            }
            Err(NoMemory) => Err(self.failing.run_dry()),
        }
    }

    #[tactic(auto, using(crate::proofs::Trace::noted_step))]
    fn rename(&mut self, from: &[u8], to: &[u8]) -> Result<(), Fault>
        requires from { IsName from.now }
        requires to { IsName to.now }
        ensures frame { StaysBy faults_of times_held (λ _. true) self.old self.new result }
        ensures step { Goes (DiskCall.Rename from.now to.now) (trace_of (past_of self.old)) (trace_of (past_of self.new)) result }
        ensures ok { IsTrue true → OnOk result (files_of (past_of self.new) ≡ after_rename (files_of (past_of self.old)) from.now to.now) }
        ensures err { IsTrue true → OnErr result (IsDoneOrNot (files_of (past_of self.old)) (files_of (past_of self.new)) (after_rename (files_of (past_of self.old)) from.now to.now)) }

        // A listed call fails, and another one for want of memory alone. One that fails changes nothing.
        ensures change { OnOk result (past_of self.new ≡ changed (past_of self.old) (DiskCall.Rename from.now to.now)) }
        ensures failed { OnErr result (past_of self.new ≡ past_of self.old) }
        ensures listed { FailsAsListed (failing_of self.old) (failing_of self.new) result }
        ensures others { FailsDryAlone (failing_of self.old) (failing_of self.new) result }
        ensures holder { held_of self.new ≡ held_of self.old }
    {
        self.failing.call()?;
        match rename_change(self.alloc, from, to) {
            Ok(change) => {
                self.apply(change)?;
                Ok(())
            }
            Err(NoMemory) => Err(self.failing.run_dry()),
        }
    }

    #[tactic(auto, using(crate::proofs::Trace::noted_step))]
    fn remove(&mut self, name: &[u8]) -> Result<(), Fault>
        requires { IsName name.now }
        ensures frame { StaysBy faults_of times_held (λ _. true) self.old self.new result }
        ensures step { Goes (DiskCall.Remove name.now) (trace_of (past_of self.old)) (trace_of (past_of self.new)) result }
        ensures ok { IsTrue true → OnOk result (files_of (past_of self.new) ≡ after_remove (files_of (past_of self.old)) name.now) }
        ensures err { IsTrue true → OnErr result (IsDoneOrNot (files_of (past_of self.old)) (files_of (past_of self.new)) (after_remove (files_of (past_of self.old)) name.now)) }

        // A listed call fails, and another one for want of memory alone. One that fails changes nothing.
        ensures change { OnOk result (past_of self.new ≡ changed (past_of self.old) (DiskCall.Remove name.now)) }
        ensures failed { OnErr result (past_of self.new ≡ past_of self.old) }
        ensures listed { FailsAsListed (failing_of self.old) (failing_of self.new) result }
        ensures others { FailsDryAlone (failing_of self.old) (failing_of self.new) result }
        ensures holder { held_of self.new ≡ held_of self.old }
    {
        self.failing.call()?;
        match remove_change(self.alloc, name) {
            Ok(change) => {
                self.apply(change)?;
                Ok(())
            }
            Err(NoMemory) => Err(self.failing.run_dry()),
        }
    }

    #[tactic(auto, using(crate::proofs::Trace::noted_step))]
    fn sync_names(&mut self) -> Result<(), Fault>
        ensures frame { StaysBy faults_of times_held (λ _. true) self.old self.new result }
        ensures step { Goes DiskCall.SyncNames (trace_of (past_of self.old)) (trace_of (past_of self.new)) result }
        ensures same { files_of (past_of self.new) ≡ files_of (past_of self.old) }

        // A listed call fails, and another one for want of memory alone. One that fails changes nothing.
        ensures change { OnOk result (past_of self.new ≡ changed (past_of self.old) (DiskCall.SyncNames)) }
        ensures failed { OnErr result (past_of self.new ≡ past_of self.old) }
        ensures listed { FailsAsListed (failing_of self.old) (failing_of self.new) result }
        ensures others { FailsDryAlone (failing_of self.old) (failing_of self.new) result }
        ensures holder { held_of self.new ≡ held_of self.old }
    {
        self.failing.call()?;
        self.apply(DiskCall::SyncNames)?;
        Ok(())
    }
}

/// The length of a content, if there is one.
fn size_of(content: Option<&Bytes>) -> Option<u64>
    ensures { result ≡ option_map length (option_copied content.entry) }
{
    content.map(|bytes| bytes.len() as u64)
}

/// Reads bytes of a content, if there is one, into the front of `out` and answers how many.
fn read_some(content: Option<&Bytes>, at: u64, out: &mut [u8]) -> usize
    ensures within { result ≤ length out.old }
    ensures read { IsRead (option_copied content.entry) at result out.old out.new }
{
    match content {
        Some(bytes) => read_from(bytes.as_slice(), at, out),
        None => 0,
    }
}
