//! Opening a journal that a stop may have left in any state.
ghost use Rattle.std.specs.Prelude.{◌≡◌, ◌≢◌, ℕ, [], IsTrue, IfOk, OnOk, Err, true};
ghost use Rattle.acq_outside.specs.Stays.{Reads, ReadsCounting, Stays, StaysCounting};
ghost use Rattle.acq_outside.specs.States.{IsNow, Since, From};
ghost use Rattle.journal_model.specs.Names.{journal};
ghost use Rattle.journal_model.specs.Reading.{journal_state_in};
ghost use Rattle.journal_model.specs.Rest.{IsIdle, IsSynced, IsAtRest};
ghost use Rattle.journal_model.specs.Reopen.{installed_now};
ghost use Rattle.commit_journal.specs.Opening.{Recovers, KeepsFilesBut, IsOfOpening, Finds, Opens, is_open};
ghost use Rattle.commit_journal.specs.Phases.{NoNamePending, IsJournalSynced, IsFirst, IsFirstOf, IsOfCommit, NamesSteps};
ghost use Rattle.commit_journal.specs.Moves.{Recovering};

use crate::JournalError;
use crate::making::make_new;
use crate::recovery::recover;
use acq_outside::{Disk, Fault, OutError, read_whole};
use journal_model::{JournalState, read_journal};
use std::alloc::Global;

/// A journal that is open for commits.
#[derive(Debug, Drop)]
pub struct Journal {
    // An opening alone makes one.
    opened: (),
}

/// The first byte of a journal.
#[derive(Clone, Copy, Debug, PartialEq, Eq)]
pub enum FirstByte {
    /// It is 0.
    Shut,
    /// It is 1.
    Open,
    /// It is neither, or there is none.
    Other,
}

/// Makes all names lasting.
fn sync_found_names<D: Disk>(disk: &mut D) -> Result<(), Fault>
    ensures frame { Stays D.Disk disk.old disk.new result }
    ensures same { D.files disk.new ≡ D.files disk.old }
    ensures moves { Recovering (IsOfCommit []) NoNamePending D.Disk disk.old disk.new result }
{
    disk.sync_names()
}

/// Makes what reads give of the journal lasting.
fn sync_found_journal<D: Disk>(disk: &mut D) -> Result<(), Fault>
    requires { IsNow NoNamePending (D.trace disk.old) }
    ensures frame { Stays D.Disk disk.old disk.new result }
    ensures same { D.files disk.new ≡ D.files disk.old }
    ensures moves { Recovering (IsOfCommit []) IsJournalSynced D.Disk disk.old disk.new result }
{
    disk.sync(b"journal".as_slice())
}

#[tactic(auto, using(crate::proofs::Recovers::onwards))]
fn sync_found<D: Disk>(disk: &mut D) -> Result<(), Fault>
    ensures frame { Stays D.Disk disk.old disk.new result }
    ensures same { D.files disk.new ≡ D.files disk.old }
    ensures moves { Recovering (IsOfCommit []) IsJournalSynced D.Disk disk.old disk.new result }
{
    sync_found_names(disk)?;
    sync_found_journal(disk)
}

/// The journal's first byte. It takes no memory.
fn first_byte<D: Disk>(disk: &mut D) -> Result<FirstByte, Fault>
    ensures frame { Reads D.Disk disk.old disk.new result }
    ensures told { IsTrue (D.tells disk.old) → IfOk result (λ first. IsFirst first (D.files disk.old journal)) }
{
    let mut gate = [7];
    let n = disk.read_at(b"journal".as_slice(), 0, &mut gate)?;
    Ok(first_of(n, gate[0]))
}

/// What a byte that was read says, or none.
fn first_of(n: usize, gate: u8) -> FirstByte
    ensures { IsFirstOf n gate result }
{
    if n == 0 {
        return FirstByte::Other;
    }
    match gate {
        0 => FirstByte::Shut,
        1 => FirstByte::Open,
        _ => FirstByte::Other,
    }
}

/// What the whole journal says.
#[tactic(auto, using(crate::proofs::Turns::gate_named))]
fn read_state<D: Disk>(alloc: Global, disk: &mut D) -> Result<JournalState, JournalError>
    ensures frame { ReadsCounting JournalError.DiskFault D.Disk disk.old disk.new result }
    ensures told { IsTrue (D.tells disk.old) → IfOk result (λ gate. gate ≡ journal_state_in (D.files disk.old journal)) }
    ensures named { IfOk result NamesSteps }
    ensures undamaged { (at : ℕ) → result ≢ Err (JournalError.BadJournal at) }
{
    match read_whole(alloc, disk, b"journal".as_slice()) {
        Err(OutError::Fault) => Err(JournalError::DiskFault),
        Err(OutError::NoMemory) => Err(JournalError::NoMemory),
        Ok(None) => Ok(JournalState::Shut),
        Ok(Some(bytes)) => Ok(read_journal(alloc, bytes.as_slice())?),
    }
}

/// What an open gate asks for.
#[tactic(auto, using(crate::proofs::Recovers::onwards))]
fn act_on_open_gate<D: Disk>(alloc: Global, disk: &mut D) -> Result<(), JournalError>
    requires { IsNow IsJournalSynced (D.trace disk.old) }

    ensures frame { StaysCounting JournalError.DiskFault D.Disk disk.old disk.new result }
    ensures finds { Finds D.Disk disk.old disk.new result }

    ensures moments { Since (D.trace disk.old) (D.trace disk.new) (From Recovers (D.trace disk.old)) }
    ensures others { IsTrue (D.tells disk.old) → is_open (D.files disk.old journal) ≡ true
        → KeepsFilesBut (IsOfOpening (D.files disk.old journal)) (D.trace disk.old) (D.trace disk.new) }
    ensures done { OnOk result (IsNow IsIdle (D.trace disk.new)) }
{
    let gate = read_state(alloc, disk)?;
    match gate {
        JournalState::Damaged(at) => Err(JournalError::BadJournal(at)),
        JournalState::Open(steps) => {
            recover(disk, steps.as_slice())?;
            Ok(())
        }
        JournalState::Shut => {
            make_new(disk)?;
            Ok(())
        }
    }
}

/// Opens a journal, but for what follows from its moments.
#[tactic(auto, using(crate::proofs::Recovers::onwards))]
fn open_whole<D: Disk>(alloc: Global, disk: &mut D) -> Result<Journal, JournalError>
    ensures frame { StaysCounting JournalError.DiskFault D.Disk disk.old disk.new result }
    ensures opens { Opens D.Disk disk.old disk.new result }
{
    sync_found(disk)?;
    let found = first_byte(disk)?;
    match found {
        FirstByte::Shut => Ok(Journal { opened: () }),
        FirstByte::Open => {
            act_on_open_gate(alloc, disk)?;
            Ok(Journal { opened: () })
        }
        FirstByte::Other => {
            make_new(disk)?;
            Ok(Journal { opened: () })
        }
    }
}

/// Opens a journal, whatever a stop has left: carries out an open record, and leaves the journal there and shut. A
/// journal that is missing, empty, or whose first byte is neither 0 nor 1, is made anew.
///
/// `BadJournal` comes just where the first byte is 1 and the others are no record. Where it isn't 1, no memory is taken.
pub fn open_journal<D: Disk>(alloc: Global, disk: &mut D) -> Result<Journal, JournalError>
    ensures frame { StaysCounting JournalError.DiskFault D.Disk disk.old disk.new result }
    ensures opens { Opens D.Disk disk.old disk.new result }

    ensures synced { IsNow IsSynced (D.trace disk.old) → IsNow IsSynced (D.trace disk.new) }
    ensures rests { IsNow IsSynced (D.trace disk.old)
        → OnOk result (IsNow (IsAtRest (installed_now (D.trace disk.old))) (D.trace disk.new)) }
{
    open_whole(alloc, disk)
}
