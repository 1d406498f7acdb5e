//! The loop of a run over its lanes.
ghost use Rattle.std.specs.Prelude.{◌≡◌, ◌≢◌, ℕ, List, false, true, is_some, Err, IfErr, None, OnOk};
ghost use Rattle.std.specs.List.{list_any};
ghost use Rattle.acq_outside.specs.States.{Since, IsNow};
ghost use Rattle.acq_outside.specs.Stays.{StaysCounting};
ghost use Rattle.board_model.specs.Boards.{first_ready};
ghost use Rattle.board_model.specs.Jobs.{NoneAsks};
ghost use Rattle.journal_model.specs.Rest.{IsIdle, KeptAtRestSince};
ghost use Rattle.update_core.specs.BoardRefinement.{board_of};
ghost use Rattle.lane_jobs.specs.Begins.{HasBegun};
ghost use Rattle.lane_jobs.specs.Going.{KeepsLanes, MayAskOver, run_lanes};
ghost use Rattle.update_engine.specs.Session.{KeepsRunGoing, RunGoesOn, MayCommit, OnlySettles, StopsBetweenAsks, StopsWhileAsking};

use crate::settling::install_all;
use acq_outside::{Disk, Method};
use commit_journal::Journal;
use kept_hooks::Judge;
use lane_jobs::{Transfers, ask_some};
use lane_pool::Lanes;
use run_jobs::RunError;
use std::alloc::Global;
use std::sync::Wait;
use update_core::Board;

/// Asks until nothing is asked any more, and no job is out. One by one each source is committed as soon as it is ready, while the
/// jobs of others are out; together nothing is committed here, and no list and no journal is touched.
///
/// `DiskFault` only where the disk's count of faults rose, and never `BadJournal`.
#[tactic(auto, using(crate::proofs::Stepping::far_nowhere, crate::proofs::Stepping::lanes_stay))]
pub fn ask_until_done<R: Wait, D: Disk, M: Method + Send + 'static>(
    rt: &R,
    alloc: Global,
    judge: &Judge,
    together: bool,
    disk: &mut D,
    journal: &mut Journal,
    lanes: &mut Lanes<M>,
    jobs: &mut Transfers,
    board: &mut Board,
) -> Result<(), RunError>
    requires ready { MayAskOver (run_lanes lanes.old jobs.old (board_of board.old)) (D.trace disk.old) }
    requires change { judge.now.change ≡ (board_of board.old).config.change }

    ensures frame { StaysCounting RunError.DiskFault D.Disk disk.old disk.new result }
    ensures undamaged { (at : ℕ) → result ≢ Err (RunError.BadJournal at) }
    ensures methods { KeepsLanes lanes.old lanes.new }

    ensures begins { (first : List ℕ) → HasBegun first (run_lanes lanes.old jobs.old (board_of board.old))
        → OnOk result (HasBegun first (run_lanes lanes.new jobs.new (board_of board.new))) }
    ensures quiet { OnOk result (list_any is_some jobs.new.rows ≡ false) }
    ensures unsettled { together ≡ true → OnOk result ((board_of board.new).settled ≡ (board_of board.old).settled) }
    ensures none { OnOk result (NoneAsks (board_of board.new)) }
    ensures config { OnOk result ((board_of board.new).config ≡ (board_of board.old).config) }

    ensures bare { together ≡ true → Since (D.trace disk.old) (D.trace disk.new) (KeptAtRestSince (D.trace disk.old)) }
    ensures idle { OnOk result (IsNow IsIdle (D.trace disk.new)) }
    ensures stops { IfErr result (λ error. StopsWhileAsking error (run_lanes lanes.old jobs.old (board_of board.old))
        (D.trace disk.old) (D.trace disk.new)) }
    ensures goes { OnOk result (RunGoesOn (run_lanes lanes.old jobs.old (board_of board.old))
        (run_lanes lanes.new jobs.new (board_of board.new)) (D.trace disk.old) (D.trace disk.new)) }
{
    for _ in rt.forever() {
        install_between(alloc, together, disk, journal, board)?;
        if !ask_some(rt, alloc, judge, disk, lanes, jobs, board)? {
            return Ok(());
        }
    }
    unreachable!()
}

/// One by one, settles the sources that are ready and commits their new sets, so that none waits while more is asked;
/// together does nothing.
fn install_between<D: Disk>(
    alloc: Global,
    together: bool,
    disk: &mut D,
    journal: &mut Journal,
    board: &mut Board,
) -> Result<(), RunError>
    requires { MayCommit (board_of board.old) (D.trace disk.old) }

    ensures frame { StaysCounting RunError.DiskFault D.Disk disk.old disk.new result }
    ensures undamaged { (at : ℕ) → result ≢ Err (RunError.BadJournal at) }

    ensures unsettled { together ≡ true → OnOk result ((board_of board.new).settled ≡ (board_of board.old).settled) }
    ensures none { together ≡ false → OnOk result (first_ready (board_of board.new).slots ≡ None) }
    ensures only { OnOk result (OnlySettles (board_of board.old) (board_of board.new)) }

    ensures bare { together ≡ true → D.trace disk.new ≡ D.trace disk.old }
    ensures idle { OnOk result (IsNow IsIdle (D.trace disk.new)) }
    ensures goes { OnOk result (KeepsRunGoing (board_of board.old) (board_of board.new) (D.trace disk.old) (D.trace disk.new)) }
    ensures stops { IfErr result (λ error. StopsBetweenAsks error (board_of board.old) (D.trace disk.old) (D.trace disk.new)) }
{
    if together {
        return Ok(());
    }
    install_all(alloc, disk, journal, board)?;
    Ok(())
}
