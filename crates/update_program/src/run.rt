//! The run of what is configured, and its report.

ghost use Rattle.std.specs.Prelude.{◌≡◌, ◌≢◌, ◌≤◌, vec_len, IsSome};
ghost use Rattle.acq_base.specs.Plan.{IsSound};
ghost use Rattle.acq_outside.specs.Count.{Rose};
ghost use Rattle.update_engine.specs.Run.{KeepsMethods, engine};
ghost use Rattle.update_program.specs.Ending.{RunsAt};
ghost use Rattle.update_program.specs.Objects.{objects};
ghost use Rattle.update_program.specs.Said.{BlamesOutput};

use crate::Ran;
use crate::say::{write_fault, write_fixed, write_report};
use acq_base::TryCopy;
use acq_outside::{Disk, Method, Sink};
use configuration::Configured;
use kept_hooks::Judge;
use release_file::{Head, is_allowed};
use report_text::FaultLine;
use run_jobs::RunError;
use std::alloc::Global;
use std::sync::Wait;
use std::thread::Threads;
use update_engine::run_update;

/// Runs what is configured and tells what became of it.
///
/// `now` is the moment of the run in seconds since 1970-01-01 00:00:00 UTC.
#[tactic(auto, using(update_engine::proofs::Lists::none_fall, crate::proofs::Damage::told_at, crate::proofs::Damage::none_told))]
pub fn run_plan<
    R: Threads + Wait + Copy + Send + Sync + 'static,
    D: Disk,
    M: Method + Send + 'static,
    S: Sink,
>(
    rt: &R,
    alloc: Global,
    it: Configured,
    together: bool,
    now: i64,
    disk: &mut D,
    methods: &mut Vec<M>,
    out: &mut S,
) -> Ran
    requires methods { (1 ≤ vec_len methods.old) × (vec_len methods.old ≤ 9) }
    requires plan { IsSound it.plan }
    ensures methods { KeepsMethods (engine D.Disk M.Method disk.old methods.old.items) (engine D.Disk M.Method disk.new methods.new.items) }
    ensures held { D.held disk.new ≡ D.held disk.old }
    ensures disk_fault { result.status.0 ≡ 102 → Rose (D.faults disk.old) (D.faults disk.new) }
    ensures quiet_disk { IsSome result.log → D.faults disk.new ≡ D.faults disk.old }
    ensures dry_disk { result.status.0 ≡ 103 → D.faults disk.new ≡ D.faults disk.old }
    ensures output { BlamesOutput (S.faults out.old) (S.faults out.new) result.status.0 }
    ensures not_held { result.status.0 ≢ 104 }
    ensures no_etc_fault { result.status.0 ≢ 106 }
    ensures ended { RunsAt it together now (objects D.Disk M.Method S.Sink disk.old methods.old.items out.old)
        (objects D.Disk M.Method S.Sink disk.new methods.new.items out.new) result.log result.status.0 }
{
    let Configured {
        plan,
        settings,
        change,
    } = it;
    let Ok(kept) = plan.copy(alloc) else {
        return Ran::without_log(write_fixed(out, &FaultLine::Memory));
    };
    let may_follow = move |old: &Head, new: &Head| is_allowed(&change, old, new);
    let Ok(test) = Box::new(alloc, may_follow) else {
        return Ran::without_log(write_fixed(out, &FaultLine::Memory));
    };
    let judge = Judge::new(test, change);
    match run_update(
        rt, alloc, plan, settings, now, together, disk, methods, &judge,
    ) {
        Ok(log) => Ran {
            status: write_report(alloc, &kept, &log, out),
            log: Some(log),
        },
        Err(RunError::DiskFault) => Ran::without_log(write_fixed(out, &FaultLine::Disk)),
        Err(RunError::BadJournal(at)) => {
            Ran::without_log(write_fault(alloc, out, &FaultLine::Journal(at)))
        }
        Err(RunError::NoMemory) => Ran::without_log(write_fixed(out, &FaultLine::Memory)),
    }
}
