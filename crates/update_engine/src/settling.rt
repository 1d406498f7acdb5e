//! Sources that are ready are settled, and their new sets committed.
ghost use Rattle.std.specs.Prelude.{◌≡◌, ◌≢◌, ◌∷◌, [], ℕ, Err, IfErr, IfOk, IsSome, None, OnOk, Some, slice_get};
ghost use Rattle.acq_base.specs.declared.plan.Source.{Source as AnySource};
ghost use Rattle.acq_outside.specs.States.{IsNow};
ghost use Rattle.acq_outside.specs.Stays.{StaysCounting};
ghost use Rattle.board_model.specs.Boards.{first_ready};
ghost use Rattle.journal_model.specs.Rest.{IsIdle};
ghost use Rattle.list_commits.specs.Changes.{changes_for};
ghost use Rattle.run_model.specs.Runs.{is_installed};
ghost use Rattle.update_core.specs.BoardRefinement.{board_of};
ghost use Rattle.update_engine.specs.Session.{KeepsRunGoing, HasSettled, MayCommit, OnlySettles, StopsBetweenAsks};

use acq_base::{NoMemory, Row};
use acq_outside::Disk;
use commit_journal::{Change, Journal};
use list_commits::{changes_of, commit_groups};
use run_jobs::RunError;
use std::alloc::Global;
use update_core::Board;
use update_model::{Settled, Verdict2};

/// Whether a new set is installed.
pub fn is_new(verdict: &Verdict2) -> bool
    ensures { result ≡ is_installed verdict.now }
{
    match verdict {
        Verdict2::Installed(_) => true,
        _ => false,
    }
}

/// The changes of a source that was settled.
pub fn changes_from(
    alloc: Global,
    board: &Board,
    place: u32,
    settled: Settled,
) -> Result<Row<Change>, NoMemory>
    requires { IsSome (slice_get (board_of board.now).config.sources place) }
    ensures { (source : AnySource) → slice_get (board_of board.now).config.sources place ≡ Some source
        → IfOk result (λ changes. changes ≡ changes_for source settled) }
{
    let Some(source) = board.sources().get(place as usize) else {
        unreachable!()
    };
    changes_of(alloc, source, settled)
}

/// These changes as one group.
fn one_group(alloc: Global, changes: Row<Change>) -> Result<Row<Row<Change>>, NoMemory>
    ensures { IfOk result (λ groups. groups ≡ changes ∷ []) }
{
    let mut groups = Row::new(alloc);
    groups.push(changes)?;
    Ok(groups)
}

/// Settles the first source that is ready, and commits its new set, where it has one.
///
/// `DiskFault` only where the disk's count of faults rose, and never `BadJournal`.
pub fn install_ready<D: Disk>(
    alloc: Global,
    disk: &mut D,
    journal: &mut Journal,
    board: &mut Board,
    place: u32,
) -> Result<(), RunError>
    requires ready { first_ready (board_of board.old).slots ≡ Some place }
    requires stands { MayCommit (board_of board.old) (D.trace disk.old) }

    ensures frame { StaysCounting RunError.DiskFault D.Disk disk.old disk.new result }
    ensures undamaged { (at : ℕ) → result ≢ Err (RunError.BadJournal at) }

    ensures settled { OnOk result (HasSettled place (board_of board.old) (board_of board.new)) }

    ensures idle { OnOk result (IsNow IsIdle (D.trace disk.new)) }
    ensures goes { OnOk result (KeepsRunGoing (board_of board.old) (board_of board.new) (D.trace disk.old) (D.trace disk.new)) }
    ensures stops { IfErr result (λ error. StopsBetweenAsks error (board_of board.old) (D.trace disk.old) (D.trace disk.new)) }
{
    let settled = board.settle(alloc, place)?;
    if !is_new(&settled.verdict) {
        drop(settled);
        return Ok(());
    }
    let changes = changes_from(alloc, board, place, settled)?;
    let groups = one_group(alloc, changes)?;
    commit_groups(alloc, journal, disk, groups)?;
    Ok(())
}

/// Settles the sources that are ready, one by one, and commits the new set of each that has one.
///
/// `DiskFault` only where the disk's count of faults rose, and never `BadJournal`.
#[tactic(auto, using(crate::proofs::Stepping::goes_nowhere, crate::proofs::OnBoards::only_none))]
pub fn install_all<D: Disk>(
    alloc: Global,
    disk: &mut D,
    journal: &mut Journal,
    board: &mut Board,
) -> Result<(), RunError>
    requires { MayCommit (board_of board.old) (D.trace disk.old) }

    ensures frame { StaysCounting RunError.DiskFault D.Disk disk.old disk.new result }
    ensures undamaged { (at : ℕ) → result ≢ Err (RunError.BadJournal at) }

    ensures none { OnOk result (first_ready (board_of board.new).slots ≡ None) }
    ensures only { OnOk result (OnlySettles (board_of board.old) (board_of board.new)) }

    ensures idle { OnOk result (IsNow IsIdle (D.trace disk.new)) }
    ensures goes { OnOk result (KeepsRunGoing (board_of board.old) (board_of board.new) (D.trace disk.old) (D.trace disk.new)) }
    ensures stops { IfErr result (λ error. StopsBetweenAsks error (board_of board.old) (D.trace disk.old) (D.trace disk.new)) }
{
    'ready: while let Some(place) = board.ready() {
        install_ready(alloc, disk, journal, board, place)?;
    }
    Ok(())
}
