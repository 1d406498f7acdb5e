//! A run.
ghost use Rattle.std.specs.Prelude.{◌≤◌, vec_len, IfOk};
ghost use Rattle.acq_base.specs.Plan.{IsSound};
ghost use Rattle.acq_outside.specs.Stays.{StaysCounting};
ghost use Rattle.lane_jobs.specs.Going.{KeepsLanes};
ghost use Rattle.update_engine.specs.Run.{KeepsMethods, Runs, RunsBetween, TellsBegins, engine, engine_over, run_of};
ghost use Rattle.update_engine.specs.Session.{IsNewPool};

use crate::beginning::begin_run;
use crate::ending::end_run;
use crate::looping::ask_until_done;
use acq_base::{Plan, Settings};
use acq_outside::{Disk, Method};
use commit_journal::open_journal;
use kept_hooks::Judge;
use lane_jobs::Transfers;
use lane_pool::{Lanes, start};
use run_jobs::RunError;
use std::alloc::Global;
use std::sync::Wait;
use std::thread::Threads;
use update_model::RunLog;

/// Updates the lists of a plan over these methods, the first as the coordinator's own and each other one a worker's: opens the
/// journal, reads what is installed, fetches what is asked, several jobs at once, and commits each source's new set as it is
/// ready, or all together at the end; the clean-up comes last. The methods are back in their order, whatever it answers.
///
/// The plan is sound, and there are 1 to 9 methods. `now` is the moment of the run in seconds since 1970-01-01 00:00:00 UTC.
/// `DiskFault` only where the disk's count of faults rose; `BadJournal` just where an opening of the journal tells it, and
/// then no file has changed.
pub fn run_update<
    R: Threads + Wait + Copy + Send + Sync + 'static,
    D: Disk,
    M: Method + Send + 'static,
>(
    rt: &R,
    alloc: Global,
    plan: Plan,
    settings: Settings,
    now: i64,
    together: bool,
    disk: &mut D,
    methods: &mut Vec<M>,
    judge: &Judge,
) -> Result<RunLog, RunError>
    requires methods { (1 ≤ vec_len methods.old) × (vec_len methods.old ≤ 9) }
    requires plan { IsSound plan }

    ensures frame { StaysCounting RunError.DiskFault D.Disk disk.old disk.new result }
    ensures methods { KeepsMethods (engine D.Disk M.Method disk.old methods.old.items) (engine D.Disk M.Method disk.new methods.new.items) }
    ensures run { Runs D.Disk M.Method (run_of plan settings judge.now.change now together)
        disk.old disk.new methods.old.items methods.new.items result }
{
    let workers = (methods.len() - 1) as u32;
    let mut lanes = start(rt, alloc, methods)?;
    let result = run_over(
        rt,
        alloc,
        plan,
        settings,
        now,
        together,
        disk,
        &mut lanes,
        workers.max(1),
        workers as usize,
        judge,
    );
    *methods = lanes.finish(rt);
    result
}

/// Does so over lanes on which nothing was asked yet, with so many queues of hosts and so many workers.
#[tactic(auto, using(crate::proofs::Stepping::lanes_stay))]
fn run_over<R: Threads + Wait + Sync, D: Disk, M: Method + Send + 'static>(
    rt: &R,
    alloc: Global,
    plan: Plan,
    settings: Settings,
    now: i64,
    together: bool,
    disk: &mut D,
    lanes: &mut Lanes<M>,
    queues: u32,
    workers: usize,
    judge: &Judge,
) -> Result<RunLog, RunError>
    requires plan { IsSound plan }
    requires queues { 1 ≤ queues }
    requires lanes { IsNewPool lanes.old }

    ensures frame { StaysCounting RunError.DiskFault D.Disk disk.old disk.new result }
    ensures methods { KeepsLanes lanes.old lanes.new }
    ensures begins { IfOk result (λ log. TellsBegins lanes.old.begins lanes.new.begins log.asks) }
    ensures run { RunsBetween D.Disk (run_of plan settings judge.now.change now together) disk.old disk.new
        (engine_over D.Disk disk.old lanes.old) (engine_over D.Disk disk.new lanes.new) result }
{
    let cleanup = settings.cleanup;
    let mut journal = open_journal(alloc, disk)?;
    let mut board = begin_run(
        rt,
        alloc,
        disk,
        plan,
        settings,
        judge.change,
        now,
        queues,
        workers,
    )?;
    let mut jobs = Transfers::new(alloc, queues)?;
    ask_until_done(
        rt,
        alloc,
        judge,
        together,
        disk,
        &mut journal,
        lanes,
        &mut jobs,
        &mut board,
    )?;
    let log = end_run(alloc, together, cleanup, disk, &mut journal, board)?;
    Ok(log)
}
