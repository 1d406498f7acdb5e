//! One commit, from its changes to its end.
ghost use Rattle.std.specs.Prelude.{◌≡◌, ◌≢◌, ℕ, OnOk, OnErr, IsErrOf, Err};
ghost use Rattle.acq_outside.specs.States.{IsNow};
ghost use Rattle.acq_outside.specs.Stays.{StaysCounting};
ghost use Rattle.journal_model.specs.Rest.{IsIdle, IsSynced, part_bytes};
ghost use Rattle.commit_journal.specs.Changes.{filled_all, CanRecord, AreAllStaged};
ghost use Rattle.commit_journal.specs.Commits.{KeepsUnchangedFiles, ReadsAllGone};
ghost use Rattle.commit_journal.specs.Runs.{HasCommitted};
ghost use Rattle.list_commits.specs.Made.{IsCommitStopped};

use acq_base::Row;
use acq_outside::Disk;
use commit_journal::{Change, Journal, JournalError, commit, prepare};
use std::alloc::Global;

/// Makes one commit of these groups of changes: it is prepared, and then made. Whenever it is stopped, a crash leaves the
/// lists before it or those after it, whole.
///
/// What it moves to its name or removes is no file's any more. The changes can be recorded, each staged file is there and
/// lasts, and the journal is open for commits. `DiskFault` only where the disk's count of faults rose, and never
/// `BadJournal`. Without memory nothing was changed.
pub fn commit_groups<D: Disk>(
    alloc: Global,
    journal: &mut Journal,
    disk: &mut D,
    groups: Row<Row<Change>>,
) -> Result<(), JournalError>
    requires changes { CanRecord groups }
    requires staged { IsNow (AreAllStaged groups) (D.trace disk.old) }
    requires idle { IsNow IsIdle (D.trace disk.old) }

    ensures frame { StaysCounting JournalError.DiskFault D.Disk disk.old disk.new result }
    ensures undamaged { (at : ℕ) → result ≢ Err (JournalError.BadJournal at) }
    ensures dry { IsErrOf result JournalError.NoMemory → D.trace disk.new ≡ D.trace disk.old }

    ensures synced { IsNow IsSynced (D.trace disk.old) → IsNow IsSynced (D.trace disk.new) }
    ensures idle { OnOk result (IsNow IsIdle (D.trace disk.new)) }
    ensures others { KeepsUnchangedFiles groups (D.trace disk.old) (D.trace disk.new) }
    ensures gone { OnOk result (IsNow (ReadsAllGone groups) (D.trace disk.new)) }
    ensures done { OnOk result (HasCommitted (filled_all (part_bytes (D.trace disk.old)) groups) (D.trace disk.old) (D.trace disk.new)) }
    ensures stopped { OnErr result (IsCommitStopped (filled_all (part_bytes (D.trace disk.old)) groups) (D.trace disk.old) (D.trace disk.new)) }
{
    let prepared = prepare(alloc, journal, disk, groups)?;
    commit(journal, disk, prepared)?;
    Ok(())
}
