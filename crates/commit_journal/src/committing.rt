//! A prepared commit is made: the gate before its record is opened, the record carried out, and the gate shut.
ghost use Rattle.std.specs.Prelude.{◌≡◌, ◌≤◌, ◌+◌, length, [], OnOk, OnErr, Err};
ghost use Rattle.acq_outside.specs.Stays.{Stays};
ghost use Rattle.acq_outside.specs.States.{IsNow, Since};
ghost use Rattle.journal_model.specs.Spelling.{all_steps};
ghost use Rattle.journal_model.specs.Rest.{IsIdle, IsSynced, part_bytes};
ghost use Rattle.commit_journal.specs.Opening.{KeepsFilesBut};
ghost use Rattle.commit_journal.specs.Changes.{filled_all, steps_in};
ghost use Rattle.commit_journal.specs.Commits.{IsPrepared, CrashLeavesBeforeOrAfter, CommitsAtWrite, IsAtRestAfter, KeepsUnchangedFiles, ReadsAllGone, HasMoreStates};
ghost use Rattle.commit_journal.specs.Phases.{IsCarrying, IsOfCommit};
ghost use Rattle.commit_journal.specs.Turning.{IsOpening, IsGateWritten, CommitsOnceSynced, IsGateSynced};
ghost use Rattle.commit_journal.specs.Moves.{Recovering};

use crate::recovery::recover;
use crate::{Journal, JournalError, Prepared};
use acq_outside::{Disk, Fault};

/// Writes the gate's byte as 1.
fn write_gate<D: Disk>(disk: &mut D, prepared: &Prepared) -> Result<(), Fault>
    requires { IsNow (IsPrepared prepared.now.groups) (D.trace disk.old) }

    ensures frame { Stays D.Disk disk.old disk.new result }

    ensures moments { Since (D.trace disk.old) (D.trace disk.new)
        (CrashLeavesBeforeOrAfter prepared.now.groups (filled_all (part_bytes (D.trace disk.old)) prepared.now.groups) (D.trace disk.old)) }
    ensures once { length (D.trace disk.new) ≤ length (D.trace disk.old) + 1 }
    ensures later { OnOk result (HasMoreStates (D.trace disk.old) (D.trace disk.new)) }
    ensures synced { IsNow IsSynced (D.trace disk.old) → IsNow IsSynced (D.trace disk.new) }
    ensures others { KeepsFilesBut (IsOfCommit (all_steps (steps_in prepared.now.groups))) (D.trace disk.old) (D.trace disk.new) }
    ensures over { OnOk result (IsNow
        (IsGateWritten prepared.now.groups (filled_all (part_bytes (D.trace disk.old)) prepared.now.groups) (D.trace disk.old))
        (D.trace disk.new)) }
    ensures done { OnOk result (IsNow (IsOpening prepared.now.groups) (D.trace disk.new)) }
{
    disk.write_at(b"journal".as_slice(), 0, &[1])
}

/// Makes the open gate lasting.
fn sync_open_gate<D: Disk>(disk: &mut D, prepared: &Prepared) -> Result<(), Fault>
    requires { IsNow (IsOpening prepared.now.groups) (D.trace disk.old) }

    ensures frame { Stays D.Disk disk.old disk.new result }

    ensures moves { Recovering (IsOfCommit (all_steps (steps_in prepared.now.groups)))
        (IsCarrying (all_steps (steps_in prepared.now.groups)) []) D.Disk disk.old disk.new result }
    ensures opens { Since (D.trace disk.old) (D.trace disk.new) (CommitsOnceSynced prepared.now.groups (D.trace disk.old)) }
    ensures new { OnOk result (IsNow (CommitsOnceSynced prepared.now.groups (D.trace disk.old)) (D.trace disk.new)) }
{
    disk.sync(b"journal".as_slice())
}

/// Opens the gate before the record.
#[tactic(auto, using(crate::proofs::Others::others_on))]
fn open_gate<D: Disk>(disk: &mut D, prepared: &Prepared) -> Result<(), Fault>
    requires { IsNow (IsPrepared prepared.now.groups) (D.trace disk.old) }

    ensures frame { Stays D.Disk disk.old disk.new result }

    ensures moments { Since (D.trace disk.old) (D.trace disk.new)
        (CrashLeavesBeforeOrAfter prepared.now.groups (filled_all (part_bytes (D.trace disk.old)) prepared.now.groups) (D.trace disk.old)) }
    ensures turns { CommitsAtWrite prepared.now.groups (filled_all (part_bytes (D.trace disk.old)) prepared.now.groups)
        (D.trace disk.old) (D.trace disk.new) }
    ensures later { OnOk result (HasMoreStates (D.trace disk.old) (D.trace disk.new)) }
    ensures synced { IsNow IsSynced (D.trace disk.old) → IsNow IsSynced (D.trace disk.new) }
    ensures others { KeepsFilesBut (IsOfCommit (all_steps (steps_in prepared.now.groups))) (D.trace disk.old) (D.trace disk.new) }
    ensures over { OnOk result (IsNow
        (IsGateSynced prepared.now.groups (filled_all (part_bytes (D.trace disk.old)) prepared.now.groups) (D.trace disk.old))
        (D.trace disk.new)) }
    ensures done { OnOk result (IsNow (IsCarrying (all_steps (steps_in prepared.now.groups)) []) (D.trace disk.new)) }
{
    write_gate(disk, prepared)?;
    sync_open_gate(disk, prepared)
}

/// Carries out the record behind the open gate, and shuts the gate.
#[tactic(auto, using(crate::proofs::Opens::named_steps))]
fn carry_out<D: Disk>(disk: &mut D, prepared: &Prepared) -> Result<(), Fault>
    requires { IsNow (IsCarrying (all_steps (steps_in prepared.now.groups)) []) (D.trace disk.old) }
    ensures frame { Stays D.Disk disk.old disk.new result }
    ensures moves { Recovering (IsOfCommit (all_steps (steps_in prepared.now.groups))) IsIdle D.Disk disk.old disk.new result }
    ensures gone { OnOk result (IsNow (ReadsAllGone prepared.now.groups) (D.trace disk.new)) }
{
    recover(disk, prepared.steps.as_slice())
}

/// Makes a commit whose record `prepare` has just laid down. All its changes are made or none is, whenever it is stopped:
/// before the gate is open a crash leaves the lists before the commit, and from then on, once the journal is opened
/// again, those after it. It takes no memory.
///
/// What it moves to its name or removes is no file's any more. The disk stands as that `prepare` left it. `DiskFault` only
/// where the disk's count of faults rose; the journal must then be opened again.
pub fn commit<D: Disk>(
    _journal: &mut Journal,
    disk: &mut D,
    prepared: Prepared,
) -> Result<(), JournalError>
    requires ready { IsNow (IsPrepared prepared.groups) (D.trace disk.old) }

    ensures frame { Stays D.Disk disk.old disk.new result }

    ensures only { OnErr result (result ≡ Err JournalError.DiskFault) }

    ensures moments { Since (D.trace disk.old) (D.trace disk.new)
        (CrashLeavesBeforeOrAfter prepared.groups (filled_all (part_bytes (D.trace disk.old)) prepared.groups) (D.trace disk.old)) }
    ensures turns { CommitsAtWrite prepared.groups (filled_all (part_bytes (D.trace disk.old)) prepared.groups)
        (D.trace disk.old) (D.trace disk.new) }
    ensures rests { OnOk result (IsNow
        (IsAtRestAfter prepared.groups (filled_all (part_bytes (D.trace disk.old)) prepared.groups) (D.trace disk.old)) (D.trace disk.new)) }
    ensures idle { OnOk result (IsNow IsIdle (D.trace disk.new)) }
    ensures later { OnOk result (HasMoreStates (D.trace disk.old) (D.trace disk.new)) }
    ensures synced { IsNow IsSynced (D.trace disk.old) → IsNow IsSynced (D.trace disk.new) }
    ensures others { KeepsUnchangedFiles prepared.groups (D.trace disk.old) (D.trace disk.new) }
    ensures gone { OnOk result (IsNow (ReadsAllGone prepared.groups) (D.trace disk.new)) }
{
    open_gate(disk, &prepared)?;
    carry_out(disk, &prepared)?;
    Ok(())
}
