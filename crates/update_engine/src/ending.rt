//! The end of a run: what is left to be committed, and the clean-up.
ghost use Rattle.std.specs.Prelude.{◌≡◌, ◌≢◌, ◌++◌, [], ℕ, Bool, Err, IfErr, IfOk, None, OnErr, OnOk, not, true, false};
ghost use Rattle.std.specs.List.{list_all};
ghost use Rattle.acq_outside.specs.States.{IsNow};
ghost use Rattle.acq_outside.specs.Stays.{StaysCounting};
ghost use Rattle.board_model.specs.Boards.{first_ready, is_finished, log_of};
ghost use Rattle.board_model.specs.Jobs.{NoneAsks};
ghost use Rattle.commit_journal.specs.Changes.{AreAllStaged, CanRecord, filled_all};
ghost use Rattle.commit_journal.specs.Commits.{KeepsUnchangedFiles, ReadsAllGone};
ghost use Rattle.commit_journal.specs.Runs.{HasCommitted};
ghost use Rattle.journal_model.specs.Rest.{IsIdle, IsSynced, part_bytes};
ghost use Rattle.list_commits.specs.Made.{IsCommitStopped};
ghost use Rattle.list_commits.specs.RecordLaws.{group_of};
ghost use Rattle.run_model.specs.Runs.{is_kept};
ghost use Rattle.update_core.specs.BoardRefinement.{board_of};
ghost use Rattle.update_engine.specs.Session.{EndsWithLog, CommitsAll, MayCommit, LeavesUncommitted, OnlySettles, StopsWhileEnding, names_to_remove, with_removed};

use crate::gathering::gather;
use crate::settling::install_all;
use acq_base::{NoMemory, Row, Text};
use acq_outside::Disk;
use commit_journal::{Change, Journal};
use list_commits::{commit_groups, drops_of, loose_names, removed_of};
use run_jobs::RunError;
use std::alloc::Global;
use update_core::Board;
use update_model::{RunLog, Verdict2};

/// Settles what is ready once no item asks: one by one it is committed, and together its changes are for one commit.
///
/// `DiskFault` only where the disk's count of faults rose, and never `BadJournal`.
pub fn settle_last<D: Disk>(
    alloc: Global,
    together: bool,
    disk: &mut D,
    journal: &mut Journal,
    board: &mut Board,
) -> Result<Row<Row<Change>>, RunError>
    requires { MayCommit (board_of board.old) (D.trace disk.old) }

    ensures frame { StaysCounting RunError.DiskFault D.Disk disk.old disk.new result }
    ensures undamaged { (at : ℕ) → result ≢ Err (RunError.BadJournal at) }

    ensures none { OnOk result (first_ready (board_of board.new).slots ≡ None) }
    ensures only { OnOk result (OnlySettles (board_of board.old) (board_of board.new)) }

    ensures bare { together ≡ true → D.trace disk.new ≡ D.trace disk.old }
    ensures leaves { IfOk result (LeavesUncommitted together (board_of board.old) (board_of board.new) (D.trace disk.old) (D.trace disk.new)) }
    ensures idle { OnOk result (IsNow IsIdle (D.trace disk.new)) }
    ensures stops { (cleanup : Bool) → IfErr result (λ error. StopsWhileEnding error together cleanup (board_of board.old) (D.trace disk.old) (D.trace disk.new)) }
{
    if together {
        let groups = gather(alloc, board)?;
        return Ok(groups);
    }
    install_all(alloc, disk, journal, board)?;
    Ok(Row::new(alloc))
}

/// The log of a board on which nothing is asked and no source is ready.
pub fn end_board<D: Disk>(board: Board, disk: &D) -> RunLog
    requires stands { MayCommit (board_of board) (D.trace disk.now) }
    requires quiet { NoneAsks (board_of board) }
    requires none { first_ready (board_of board).slots ≡ None }
    ensures finished { is_finished (board_of board) ≡ true }
    ensures log { result ≡ log_of (board_of board) }
{
    let _disk = disk;
    board.into_log()
}

/// Whether no source is kept for a cause.
fn none_is_kept(verdicts: &[Verdict2]) -> bool
    ensures { result ≡ list_all (λ verdict. not (is_kept verdict)) verdicts.now }
{
    verdicts.iter().all(|verdict| !is_kept_for(verdict))
}

/// Whether a source is kept for a cause.
fn is_kept_for(verdict: &Verdict2) -> bool
    ensures { result ≡ is_kept verdict.now }
{
    match verdict {
        Verdict2::Kept(_) => true,
        _ => false,
    }
}

/// Adds the removal of these names, which belong to no source, where they are to go and there are any; the log tells those
/// of lists.
pub fn add_clean_up(
    alloc: Global,
    cleanup: bool,
    loose: Row<Text>,
    log: &mut RunLog,
    groups: &mut Row<Row<Change>>,
) -> Result<(), NoMemory>
    requires { log.old.removed ≡ [] }
    ensures groups { OnOk result (groups.new ≡ groups.old ++ group_of (names_to_remove cleanup log.old.verdicts loose)) }
    ensures log { OnOk result (log.new ≡ with_removed log.old (names_to_remove cleanup log.old.verdicts loose)) }
{
    if !cleanup || !none_is_kept(log.verdicts.as_slice()) || loose.is_empty() {
        return Ok(());
    }
    log.removed = removed_of(alloc, loose.as_slice())?;
    groups.push(drops_of(alloc, loose)?)?;
    Ok(())
}

/// Commits what is left, if anything is.
///
/// The changes can be recorded, each staged file is there and lasts, and the journal is open for commits. `DiskFault` only
/// where the disk's count of faults rose, and never `BadJournal`.
pub fn commit_last<D: Disk>(
    alloc: Global,
    disk: &mut D,
    journal: &mut Journal,
    groups: Row<Row<Change>>,
) -> Result<(), RunError>
    requires changes { CanRecord groups }
    requires staged { IsNow (AreAllStaged groups) (D.trace disk.old) }
    requires idle { IsNow IsIdle (D.trace disk.old) }

    ensures frame { StaysCounting RunError.DiskFault D.Disk disk.old disk.new result }
    ensures undamaged { (at : ℕ) → result ≢ Err (RunError.BadJournal at) }

    ensures some { OnErr result (groups ≢ []) }
    ensures dry { result ≡ Err RunError.NoMemory → D.trace disk.new ≡ D.trace disk.old }

    ensures synced { IsNow IsSynced (D.trace disk.old) → IsNow IsSynced (D.trace disk.new) }
    ensures idle { OnOk result (IsNow IsIdle (D.trace disk.new)) }
    ensures none { groups ≡ [] → D.trace disk.new ≡ D.trace disk.old }
    ensures others { groups ≢ [] → KeepsUnchangedFiles groups (D.trace disk.old) (D.trace disk.new) }
    ensures gone { groups ≢ [] → OnOk result (IsNow (ReadsAllGone groups) (D.trace disk.new)) }
    ensures done { groups ≢ [] → OnOk result (HasCommitted (filled_all (part_bytes (D.trace disk.old)) groups) (D.trace disk.old) (D.trace disk.new)) }
    ensures stopped { OnErr result (IsCommitStopped (filled_all (part_bytes (D.trace disk.old)) groups) (D.trace disk.old) (D.trace disk.new)) }
{
    if groups.is_empty() {
        return Ok(());
    }
    commit_groups(alloc, journal, disk, groups)?;
    Ok(())
}

/// The end of a run on whose board no item asks: what is ready is settled and committed, then the clean-up.
///
/// `DiskFault` only where the disk's count of faults rose, and never `BadJournal`.
pub fn end_run<D: Disk>(
    alloc: Global,
    together: bool,
    cleanup: bool,
    disk: &mut D,
    journal: &mut Journal,
    board: Board,
) -> Result<RunLog, RunError>
    requires stands { MayCommit (board_of board) (D.trace disk.old) }
    requires quiet { NoneAsks (board_of board) }

    ensures frame { StaysCounting RunError.DiskFault D.Disk disk.old disk.new result }
    ensures undamaged { (at : ℕ) → result ≢ Err (RunError.BadJournal at) }

    ensures asks { IfOk result (λ log. log.asks ≡ (board_of board).asks) }
    ensures idle { OnOk result (IsNow IsIdle (D.trace disk.new)) }
    ensures ends { IfOk result (EndsWithLog cleanup (board_of board) (D.trace disk.old)) }
    ensures stops { IfErr result (λ error. StopsWhileEnding error together cleanup (board_of board) (D.trace disk.old) (D.trace disk.new)) }
    ensures ended { IfOk result (CommitsAll together cleanup (board_of board) (D.trace disk.old) (D.trace disk.new)) }
{
    let mut board = board;
    let mut groups = settle_last(alloc, together, disk, journal, &mut board)?;
    let loose = loose_names(alloc, disk, board.sources())?;
    let mut log = end_board(board, disk);
    add_clean_up(alloc, cleanup, loose, &mut log, &mut groups)?;
    commit_last(alloc, disk, journal, groups)?;
    Ok(log)
}
