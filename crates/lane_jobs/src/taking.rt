//! Words come in.
ghost use Rattle.std.specs.Prelude.{◌≡◌, ◌≢◌, ℕ, false, true, is_some, length, List, Err, IfOk, None, OnOk};
ghost use Rattle.std.specs.List.{list_any};
ghost use Rattle.acq_outside.specs.States.{Since};
ghost use Rattle.acq_outside.specs.Stays.{StaysCounting};
ghost use Rattle.journal_model.specs.Rest.{KeptAtRestSince};
ghost use Rattle.update_core.specs.BoardRefinement.{board_of};
ghost use Rattle.run_jobs.specs.Running.{SameBoard};
ghost use Rattle.lane_pool.specs.Pool.{IsWordTaken, Pool};
ghost use Rattle.lane_jobs.specs.Begins.{HasBegun};
ghost use Rattle.lane_jobs.specs.Going.{IsDue, JobsGoOn, KeepsLanes, KeepsWholeFiles, MayAskOver, run_lanes};

use crate::answering::fetch_rest;
use crate::transfers::{Transfer, Transfers};
use acq_outside::{Disk, Method};
use job_fetch::{Heard, hear};
use kept_hooks::Judge;
use lane_pool::{Lanes, Told};
use run_jobs::RunError;
use std::alloc::Global;
use std::sync::Wait;
use update_core::Board;

/// Takes in the next word that a worker says to a job that is out. Where none comes, no worker is used any more, and the coordinator
/// fetches what is out.
pub fn take_word<R: Wait, D: Disk, M: Method + Send + 'static>(
    rt: &R,
    alloc: Global,
    judge: &Judge,
    disk: &mut D,
    lanes: &mut Lanes<M>,
    jobs: &mut Transfers,
    board: &mut Board,
) -> Result<(), RunError>
    requires ready { MayAskOver (run_lanes lanes.old jobs.old (board_of board.old)) (D.trace disk.old) }
    requires change { judge.now.change ≡ (board_of board.old).config.change }

    ensures frame { StaysCounting RunError.DiskFault D.Disk disk.old disk.new result }
    ensures undamaged { (at : ℕ) → result ≢ Err (RunError.BadJournal at) }
    ensures methods { KeepsLanes lanes.old lanes.new }
    ensures alone { OnOk result (jobs.new.alone ≡ true → list_any is_some jobs.new.rows ≡ false) }
    ensures same { OnOk result (SameBoard (board_of board.old) (board_of board.new)) }
    ensures moments { Since (D.trace disk.old) (D.trace disk.new) (KeptAtRestSince (D.trace disk.old)) }
    ensures others { KeepsWholeFiles (D.trace disk.old) (D.trace disk.new) }
    ensures goes { OnOk result (JobsGoOn (run_lanes lanes.old jobs.old (board_of board.old))
        (run_lanes lanes.new jobs.new (board_of board.new)) (D.trace disk.old) (D.trace disk.new)) }
    ensures begins { (first : List ℕ) → HasBegun first (run_lanes lanes.old jobs.old (board_of board.old))
        → OnOk result (HasBegun first (run_lanes lanes.new jobs.new (board_of board.new))) }
{
    if !jobs.is_alone() {
        if let Some(told) = lanes.take(rt) {
            return take_in(alloc, judge, disk, lanes, jobs, board, told);
        }
        jobs.go_alone();
    }
    fetch_rest(alloc, judge, disk, lanes, jobs, board)
}

/// Takes in a word that was taken of the lanes: a piece goes to where the others of its job are, and any other word is the job's
/// answer.
fn take_in<D: Disk, M: Method + Send + 'static>(
    alloc: Global,
    judge: &Judge,
    disk: &mut D,
    lanes: &Lanes<M>,
    jobs: &mut Transfers,
    board: &mut Board,
    told: Told,
) -> Result<(), RunError>
    requires due { IsDue told lanes.now jobs.old (board_of board.old) (D.trace disk.old) }
    requires change { judge.now.change ≡ (board_of board.old).config.change }

    ensures frame { StaysCounting RunError.DiskFault D.Disk disk.old disk.new result }
    ensures undamaged { (at : ℕ) → result ≢ Err (RunError.BadJournal at) }
    ensures used { jobs.new.alone ≡ jobs.old.alone }
    ensures same { OnOk result (SameBoard (board_of board.old) (board_of board.new)) }
    ensures moments { Since (D.trace disk.old) (D.trace disk.new) (KeptAtRestSince (D.trace disk.old)) }
    ensures others { KeepsWholeFiles (D.trace disk.old) (D.trace disk.new) }
    ensures goes { (before : Pool) → IsWordTaken before told lanes.now → jobs.old.alone ≡ false
        → OnOk result (JobsGoOn (run_lanes before jobs.old (board_of board.old)) (run_lanes lanes.now jobs.new (board_of board.new))
        (D.trace disk.old) (D.trace disk.new)) }
    ensures begins { (before : Pool) → IsWordTaken before told lanes.now → jobs.old.alone ≡ false
        → (first : List ℕ) → HasBegun first (run_lanes before jobs.old (board_of board.old))
        → OnOk result (HasBegun first (run_lanes lanes.now jobs.new (board_of board.new))) }
{
    let Some(Transfer { job, intake }) = jobs.take(told.lane - 1) else {
        unreachable!()
    };
    let heard = hear(disk, &job, intake, told.word)?;
    match heard {
        Heard::More(intake) => jobs.put(told.lane - 1, Transfer { job, intake }),
        Heard::Last(closed) => board.absorb(alloc, judge, disk, told.lane, job.no, closed)?,
    }
    Ok(())
}
