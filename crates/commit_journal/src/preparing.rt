//! A commit is prepared: all that it puts is laid under `partial/`, and its record behind the shut gate.
ghost use Rattle.std.specs.Prelude.{◌≡◌, ◌≢◌, ◌∷◌, OnOk, IfOk, IsErrOf, Err, ℕ};
ghost use Rattle.acq_outside.specs.Stays.{Stays, StaysCounting};
ghost use Rattle.acq_outside.specs.States.{IsNow, Since};
ghost use Rattle.journal_model.specs.Rest.{IsSynced, KeptAtRestSince, part_bytes};
ghost use Rattle.commit_journal.specs.Changes.{filled_all, all_changes};
ghost use Rattle.commit_journal.specs.Commits.{CanPrepare, IsPrepared, CrashKeepsInstalled, PreparedAfter, KeepsUnchangedFiles};
ghost use Rattle.commit_journal.specs.Laying.{AreFilledFrom, HasRecordSynced};
ghost use Rattle.commit_journal.specs.Moves.{Resting};

use crate::filling::fill_all;
use crate::noting::write_record;
use crate::recording::{all_steps, record_of};
use crate::{Change, Journal, JournalError, Prepared};
use acq_base::Row;
use acq_outside::{Disk, Fault};
use journal_model::body_bytes;
use std::alloc::Global;

/// Lays what the changes put, and then their record.
fn write_parts_and_record<D: Disk>(
    disk: &mut D,
    groups: &[Row<Change>],
    body: &[u8],
) -> Result<(), Fault>
    requires { CanPrepare groups.now (D.trace disk.old) }
    ensures frame { Stays D.Disk disk.old disk.new result }
    ensures moves { Resting (KeepsUnchangedFiles groups.now) (HasRecordSynced (0 ∷ body.now)) D.Disk disk.old disk.new result }
    ensures filled { OnOk result (IsNow (AreFilledFrom (part_bytes (D.trace disk.old)) (all_changes groups.now)) (D.trace disk.new)) }
{
    fill_all(disk, groups)?;
    write_record(disk, body)
}

/// Prepares a commit of these groups of changes: what they hold is written under `partial/`, and the record into the
/// journal behind its shut gate. Whenever it is stopped, the lists are those before it. All memory of the commit is
/// taken here, before the first call of the disk.
///
/// There are fewer than 2^32 groups and 2^32 changes, a record may have their names, and no name is changed twice, a Put
/// counting the name under which it is on its way. Each staged file is there and lasts. The disk is idle.
/// `DiskFault` only where the disk's count of faults rose.
pub fn prepare<D: Disk>(
    alloc: Global,
    _journal: &mut Journal,
    disk: &mut D,
    groups: Row<Row<Change>>,
) -> Result<Prepared, JournalError>
    requires { CanPrepare groups (D.trace disk.old) }

    ensures frame { StaysCounting JournalError.DiskFault D.Disk disk.old disk.new result }
    ensures undamaged { (at : ℕ) → result ≢ Err (JournalError.BadJournal at) }
    ensures dry { IsErrOf result JournalError.NoMemory → D.trace disk.new ≡ D.trace disk.old }

    ensures dry_files { IsErrOf result JournalError.NoMemory → D.files disk.new ≡ D.files disk.old }
    ensures record { IfOk result (λ prepared. prepared.groups ≡ groups) }

    ensures moments { Since (D.trace disk.old) (D.trace disk.new) (CrashKeepsInstalled (D.trace disk.old)) }
    ensures rests { Since (D.trace disk.old) (D.trace disk.new) (KeptAtRestSince (D.trace disk.old)) }
    ensures synced { IsNow IsSynced (D.trace disk.old) → IsNow IsSynced (D.trace disk.new) }
    ensures can_commit { OnOk result (IsNow (IsPrepared groups) (D.trace disk.new)) }
    ensures ready { OnOk result (IsNow (PreparedAfter groups (D.trace disk.old)) (D.trace disk.new)) }
    ensures bytes { OnOk result (filled_all (part_bytes (D.trace disk.new)) groups ≡ filled_all (part_bytes (D.trace disk.old)) groups) }
    ensures others { KeepsUnchangedFiles groups (D.trace disk.old) (D.trace disk.new) }
{
    let rows = record_of(alloc, groups.as_slice())?;
    let body = body_bytes(alloc, rows.as_slice())?;
    let steps = all_steps(alloc, groups.as_slice())?;
    write_parts_and_record(disk, groups.as_slice(), body.as_slice())?;
    Ok(Prepared { groups, steps })
}
