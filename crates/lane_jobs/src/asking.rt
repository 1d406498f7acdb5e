//! A step of a run over several lanes.
ghost use Rattle.std.specs.Prelude.{◌≡◌, ◌≢◌, ℕ, false, true, is_some, length, List, Err, IfOk, None, OnOk};
ghost use Rattle.std.specs.List.{list_any};
ghost use Rattle.acq_outside.specs.States.{Since};
ghost use Rattle.acq_outside.specs.Stays.{StaysCounting};
ghost use Rattle.journal_model.specs.Rest.{KeptAtRestSince};
ghost use Rattle.update_core.specs.BoardRefinement.{board_of};
ghost use Rattle.run_jobs.specs.Running.{SameBoard};
ghost use Rattle.board_model.specs.Jobs.{NoneAsks};
ghost use Rattle.lane_jobs.specs.Begins.{HasBegun};
ghost use Rattle.lane_jobs.specs.Going.{JobsGoOn, KeepsLanes, KeepsWholeFiles, MayAskOver, run_lanes};

use crate::handing::hand_all;
use crate::taking::take_word;
use crate::transfers::Transfers;
use acq_outside::{Disk, Method};
use kept_hooks::Judge;
use lane_pool::Lanes;
use run_jobs::RunError;
use std::alloc::Global;
use std::sync::Wait;
use update_core::Board;

/// Hands a job out from each lane that has none out, and takes a worker's next word in; whether there was a job or one was out.
/// With none no job is out, and nothing is asked any more. Once workers are given up, since no word came of a lane, no job is
/// out behind the call (`alone`). No file changes but those in the folder of lists on their way.
///
/// It waits for a word where one is owed. `DiskFault` only where the disk's count of faults rose, and never `BadJournal`.
pub fn ask_some<R: Wait, D: Disk, M: Method + Send + 'static>(
    rt: &R,
    alloc: Global,
    judge: &Judge,
    disk: &mut D,
    lanes: &mut Lanes<M>,
    jobs: &mut Transfers,
    board: &mut Board,
) -> Result<bool, RunError>
    requires ready { MayAskOver (run_lanes lanes.old jobs.old (board_of board.old)) (D.trace disk.old) }
    requires change { judge.now.change ≡ (board_of board.old).config.change }

    ensures frame { StaysCounting RunError.DiskFault D.Disk disk.old disk.new result }
    ensures undamaged { (at : ℕ) → result ≢ Err (RunError.BadJournal at) }
    ensures methods { KeepsLanes lanes.old lanes.new }
    ensures same { OnOk result (SameBoard (board_of board.old) (board_of board.new)) }
    ensures none { IfOk result (λ more. more ≡ false → NoneAsks (board_of board.new)) }
    ensures quiet { IfOk result (λ more. more ≡ false → list_any is_some jobs.new.rows ≡ false) }
    ensures alone { OnOk result (jobs.new.alone ≡ true → list_any is_some jobs.new.rows ≡ false) }
    ensures moments { Since (D.trace disk.old) (D.trace disk.new) (KeptAtRestSince (D.trace disk.old)) }
    ensures others { KeepsWholeFiles (D.trace disk.old) (D.trace disk.new) }
    ensures goes { OnOk result (JobsGoOn (run_lanes lanes.old jobs.old (board_of board.old))
        (run_lanes lanes.new jobs.new (board_of board.new)) (D.trace disk.old) (D.trace disk.new)) }
    ensures begins { (first : List ℕ) → HasBegun first (run_lanes lanes.old jobs.old (board_of board.old))
        → OnOk result (HasBegun first (run_lanes lanes.new jobs.new (board_of board.new))) }
{
    let went = hand_all(rt, alloc, judge, disk, lanes, jobs, board)?;
    if jobs.has_out() {
        take_word(rt, alloc, judge, disk, lanes, jobs, board)?;
        return Ok(true);
    }
    Ok(went)
}
