//! The beginning of a run over an open journal.
ghost use Rattle.std.specs.Prelude.{◌≡◌, ◌≤◌, [], Bool, IfOk};
ghost use Rattle.acq_base.specs.Plan.{IsSound};
ghost use Rattle.acq_outside.specs.Stays.{ReadsCounting};
ghost use Rattle.update_core.specs.BoardRefinement.{board_of};
ghost use Rattle.update_engine.specs.Run.{run_of};
ghost use Rattle.update_engine.specs.Session.{StartsRun};

use crate::reading::read_sizes;
use acq_base::{Plan, Settings, sources_are_planned};
use acq_outside::{Disk, OutError};
use lists_dir::installed;
use release_file::Change;
use std::alloc::Global;
use std::thread::Threads;
use update_core::Board;

/// A new board with so many lanes, beside what is installed, of which so many threads take the sums, and what is on its way.
/// Nothing is changed.
///
/// The plan is sound; `now` is the moment of the run in seconds since 1970-01-01 00:00:00 UTC. `Fault` only where the disk's
/// count of faults rose.
pub fn begin_run<R: Threads + Sync, D: Disk>(
    rt: &R,
    alloc: Global,
    disk: &mut D,
    plan: Plan,
    settings: Settings,
    change: Change,
    now: i64,
    lanes: u32,
    threads: usize,
) -> Result<Board, OutError>
    requires plan { IsSound plan }
    requires lanes { 1 ≤ lanes }
    ensures frame { ReadsCounting OutError.Fault D.Disk disk.old disk.new result }
    ensures unasked { IfOk result (λ board. (board_of board).asks ≡ []) }
    ensures starts { (together : Bool) → IfOk result (λ board. StartsRun (run_of plan settings change now together) lanes (D.trace disk.old) (board_of board)) }
{
    sources_are_planned();
    let olds = installed(rt, alloc, disk, plan.sources.as_slice(), threads)?;
    let sizes = read_sizes(alloc, disk, plan.sources.as_slice())?;
    Ok(Board::new(alloc, plan, olds, sizes, settings, change, now, lanes)?)
}
