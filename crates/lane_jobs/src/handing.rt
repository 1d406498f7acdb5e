//! Jobs go out.
ghost use Rattle.std.specs.Prelude.{◌≡◌, ◌≢◌, ◌<◌, ℕ, false, true, is_some, length, suc, List, Err, IfOk, None, OnOk};
ghost use Rattle.std.specs.List.{list_any};
ghost use Rattle.acq_outside.specs.States.{Since};
ghost use Rattle.acq_outside.specs.Stays.{StaysCounting};
ghost use Rattle.journal_model.specs.Rest.{KeptAtRestSince};
ghost use Rattle.update_core.specs.BoardRefinement.{board_of};
ghost use Rattle.run_jobs.specs.Running.{SameBoard};
ghost use Rattle.acq_base.specs.Uri.{IsSound};
ghost use Rattle.acq_outside.specs.Word.{CanBegin, begun};
ghost use Rattle.board_model.specs.Boards.{issued, issued_job};
ghost use Rattle.lane_jobs.specs.Begins.{HasBegun};
ghost use Rattle.lane_jobs.specs.Going.{IsHandedOver, JobsGoOn, KeepsLanes, KeepsWholeFiles, MayAskOver, NoneGoesOutBelow, run_lanes};

use crate::answering::fetch_left;
use crate::transfers::{Transfer, Transfers, first_intake};
use acq_base::{Job, TryCopy};
use acq_outside::{Disk, Method};
use kept_hooks::Judge;
use lane_pool::Lanes;
use run_jobs::RunError;
use std::alloc::Global;
use std::sync::Wait;
use update_core::Board;

/// Hands a job to the worker of a lane; whether it took it. None does where no worker is used any more.
fn hand_over<R: Wait, M: Method + Send + 'static>(
    rt: &R,
    lanes: &mut Lanes<M>,
    jobs: &Transfers,
    lane: u32,
    job: Job,
) -> bool
    requires sound { IsSound job.uri }
    requires from { CanBegin job }
    ensures { IsHandedOver jobs.now.alone (suc lane) (begun job) lanes.old lanes.new result }
{
    if jobs.is_alone() || lane >= jobs.lanes() {
        return false;
    }
    match lanes.give(rt, lane + 1, job) {
        Ok(()) => true,
        Err(_) => false,
    }
}

/// Hands the next job of a lane out, if one waits; where no worker takes it, it is fetched and its answer taken in. Whether there
/// was one.
fn hand_out<R: Wait, D: Disk, M: Method + Send + 'static>(
    rt: &R,
    alloc: Global,
    judge: &Judge,
    disk: &mut D,
    lanes: &mut Lanes<M>,
    jobs: &mut Transfers,
    board: &mut Board,
    lane: u32,
) -> Result<bool, RunError>
    requires ready { MayAskOver (run_lanes lanes.old jobs.old (board_of board.old)) (D.trace disk.old) }
    requires change { judge.now.change ≡ (board_of board.old).config.change }
    requires few { lane < length jobs.old.rows }

    ensures frame { StaysCounting RunError.DiskFault D.Disk disk.old disk.new result }
    ensures undamaged { (at : ℕ) → result ≢ Err (RunError.BadJournal at) }
    ensures methods { KeepsLanes lanes.old lanes.new }
    ensures rows { OnOk result (length jobs.new.rows ≡ length jobs.old.rows) }
    ensures same { OnOk result (SameBoard (board_of board.old) (board_of board.new)) }
    ensures none { IfOk result (λ went. went ≡ false → (issued_job (board_of board.old) lane ≡ None)
        × (board_of board.new ≡ issued (board_of board.old) lane)) }
    ensures moments { Since (D.trace disk.old) (D.trace disk.new) (KeptAtRestSince (D.trace disk.old)) }
    ensures others { KeepsWholeFiles (D.trace disk.old) (D.trace disk.new) }
    ensures goes { OnOk result (JobsGoOn (run_lanes lanes.old jobs.old (board_of board.old))
        (run_lanes lanes.new jobs.new (board_of board.new)) (D.trace disk.old) (D.trace disk.new)) }
    ensures begins { (first : List ℕ) → HasBegun first (run_lanes lanes.old jobs.old (board_of board.old))
        → OnOk result (HasBegun first (run_lanes lanes.new jobs.new (board_of board.new))) }
{
    let Some(job) = board.issue(alloc, lane)? else {
        return Ok(false);
    };
    let copy = job.copy(alloc)?;
    let intake = first_intake(alloc, board, job.no)?;
    jobs.put(lane, Transfer { job, intake });
    if !hand_over(rt, lanes, jobs, lane, copy) {
        fetch_left(alloc, judge, disk, lanes, jobs, board, lane)?;
    }
    Ok(true)
}

/// Hands a job out from each lane that has none out; whether there was one.
pub fn hand_all<R: Wait, D: Disk, M: Method + Send + 'static>(
    rt: &R,
    alloc: Global,
    judge: &Judge,
    disk: &mut D,
    lanes: &mut Lanes<M>,
    jobs: &mut Transfers,
    board: &mut Board,
) -> Result<bool, RunError>
    requires ready { MayAskOver (run_lanes lanes.old jobs.old (board_of board.old)) (D.trace disk.old) }
    requires change { judge.now.change ≡ (board_of board.old).config.change }

    ensures frame { StaysCounting RunError.DiskFault D.Disk disk.old disk.new result }
    ensures undamaged { (at : ℕ) → result ≢ Err (RunError.BadJournal at) }
    ensures methods { KeepsLanes lanes.old lanes.new }
    ensures rows { OnOk result (length jobs.new.rows ≡ length jobs.old.rows) }
    ensures same { OnOk result (SameBoard (board_of board.old) (board_of board.new)) }
    ensures none { IfOk result (λ went. went ≡ false → NoneGoesOutBelow (length jobs.old.rows) (board_of board.new)) }
    ensures moments { Since (D.trace disk.old) (D.trace disk.new) (KeptAtRestSince (D.trace disk.old)) }
    ensures others { KeepsWholeFiles (D.trace disk.old) (D.trace disk.new) }
    ensures goes { OnOk result (JobsGoOn (run_lanes lanes.old jobs.old (board_of board.old))
        (run_lanes lanes.new jobs.new (board_of board.new)) (D.trace disk.old) (D.trace disk.new)) }
    ensures begins { (first : List ℕ) → HasBegun first (run_lanes lanes.old jobs.old (board_of board.old))
        → OnOk result (HasBegun first (run_lanes lanes.new jobs.new (board_of board.new))) }
{
    let mut went = false;
    for lane in 0..jobs.lanes() {
        if hand_out(rt, alloc, judge, disk, lanes, jobs, board, lane)? {
            went = true;
        }
    }
    Ok(went)
}
