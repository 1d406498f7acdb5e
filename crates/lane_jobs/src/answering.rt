//! Jobs that no worker answers.
ghost use Rattle.std.specs.Prelude.{◌≡◌, ◌≢◌, ℕ, false, true, is_some, length, List, Err, IfOk, None, OnOk};
ghost use Rattle.std.specs.List.{list_any};
ghost use Rattle.acq_outside.specs.States.{Since};
ghost use Rattle.acq_outside.specs.Stays.{StaysCounting};
ghost use Rattle.journal_model.specs.Rest.{KeptAtRestSince};
ghost use Rattle.update_core.specs.BoardRefinement.{board_of};
ghost use Rattle.run_jobs.specs.Running.{SameBoard};
ghost use Rattle.lane_jobs.specs.Begins.{AsksOwn, HasBegun};
ghost use Rattle.lane_jobs.specs.Going.{IsUnused, JobsGoOn, KeepsLanes, KeepsWholeFiles, MayAskOver, run_lanes};
ghost use Rattle.lane_jobs.specs.JobsOut.{with_row};

use crate::own::fetch_own;
use crate::transfers::{Transfer, Transfers, first_intake};
use acq_outside::{Disk, Method};
use kept_hooks::Judge;
use lane_pool::Lanes;
use run_jobs::RunError;
use std::alloc::Global;
use update_core::Board;

/// Fetches the job that is out from a lane, if one is, by the coordinator's own method and from its beginning, whatever has come
/// of it, and takes its answer in.
pub fn fetch_left<D: Disk, M: Method + Send + 'static>(
    alloc: Global,
    judge: &Judge,
    disk: &mut D,
    lanes: &mut Lanes<M>,
    jobs: &mut Transfers,
    board: &mut Board,
    lane: u32,
) -> Result<(), RunError>
    requires ready { MayAskOver (run_lanes lanes.old jobs.old (board_of board.old)) (D.trace disk.old) }
    requires change { judge.now.change ≡ (board_of board.old).config.change }
    requires unused { IsUnused lane (run_lanes lanes.old jobs.old (board_of board.old)) }

    ensures frame { StaysCounting RunError.DiskFault D.Disk disk.old disk.new result }
    ensures undamaged { (at : ℕ) → result ≢ Err (RunError.BadJournal at) }
    ensures methods { KeepsLanes lanes.old lanes.new }
    ensures rows { OnOk result (jobs.new ≡ with_row lane None jobs.old) }
    ensures same { OnOk result (SameBoard (board_of board.old) (board_of board.new)) }
    ensures moments { Since (D.trace disk.old) (D.trace disk.new) (KeptAtRestSince (D.trace disk.old)) }
    ensures others { KeepsWholeFiles (D.trace disk.old) (D.trace disk.new) }
    ensures goes { OnOk result (JobsGoOn (run_lanes lanes.old jobs.old (board_of board.old))
        (run_lanes lanes.new jobs.new (board_of board.new)) (D.trace disk.old) (D.trace disk.new)) }
    ensures asks { OnOk result (AsksOwn lanes.old lanes.new (board_of board.old).asks (board_of board.new).asks) }
{
    let Some(Transfer { job, intake: _ }) = jobs.take(lane) else {
        return Ok(());
    };
    let first = first_intake(alloc, board, job.no)?;
    let closed = fetch_own(alloc, disk, lanes, &job, first)?;
    board.absorb(alloc, judge, disk, 0, job.no, closed)?;
    Ok(())
}

/// Fetches all jobs that are out so, where no worker is used any more.
pub fn fetch_rest<D: Disk, M: Method + Send + 'static>(
    alloc: Global,
    judge: &Judge,
    disk: &mut D,
    lanes: &mut Lanes<M>,
    jobs: &mut Transfers,
    board: &mut Board,
) -> Result<(), RunError>
    requires ready { MayAskOver (run_lanes lanes.old jobs.old (board_of board.old)) (D.trace disk.old) }
    requires change { judge.now.change ≡ (board_of board.old).config.change }
    requires alone { jobs.old.alone ≡ true }

    ensures frame { StaysCounting RunError.DiskFault D.Disk disk.old disk.new result }
    ensures undamaged { (at : ℕ) → result ≢ Err (RunError.BadJournal at) }
    ensures methods { KeepsLanes lanes.old lanes.new }
    ensures none { OnOk result (list_any is_some jobs.new.rows ≡ false) }
    ensures same { OnOk result (SameBoard (board_of board.old) (board_of board.new)) }
    ensures moments { Since (D.trace disk.old) (D.trace disk.new) (KeptAtRestSince (D.trace disk.old)) }
    ensures others { KeepsWholeFiles (D.trace disk.old) (D.trace disk.new) }
    ensures goes { OnOk result (JobsGoOn (run_lanes lanes.old jobs.old (board_of board.old))
        (run_lanes lanes.new jobs.new (board_of board.new)) (D.trace disk.old) (D.trace disk.new)) }
    ensures begins { (first : List ℕ) → HasBegun first (run_lanes lanes.old jobs.old (board_of board.old))
        → OnOk result (HasBegun first (run_lanes lanes.new jobs.new (board_of board.new))) }
{
    for lane in 0..jobs.lanes() {
        fetch_left(alloc, judge, disk, lanes, jobs, board, lane)?;
    }
    Ok(())
}
