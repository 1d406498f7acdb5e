//! The hold on the lists folder, and the moment of a run.

ghost use Rattle.std.specs.Prelude.{◌≡◌, ◌≢◌, ◌≤◌, vec_len, IsSome};
ghost use Rattle.acq_base.specs.Plan.{IsSound};
ghost use Rattle.acq_outside.specs.Count.{Rose};
ghost use Rattle.update_engine.specs.Run.{KeepsMethods, engine};
ghost use Rattle.update_program.specs.Ending.{EndsRun};
ghost use Rattle.update_program.specs.Objects.{span};
ghost use Rattle.update_program.specs.Said.{BlamesOutput, ReadsOnce};

use crate::Ran;
use crate::run::run_plan;
use crate::say::write_fixed;
use acq_outside::{Clock, Disk, HoldError, Method, Sink};
use configuration::Configured;
use report_text::FaultLine;
use std::alloc::Global;
use std::sync::Wait;
use std::thread::Threads;

/// Takes the hold, reads the moment, and runs what is configured.
#[tactic(auto, using(update_engine::proofs::Lists::none_fall, crate::proofs::Endings::with_time))]
pub fn run_with_hold<
    R: Threads + Wait + Copy + Send + Sync + 'static,
    D: Disk,
    M: Method + Send + 'static,
    C: Clock,
    S: Sink,
>(
    rt: &R,
    alloc: Global,
    it: Configured,
    together: bool,
    disk: &mut D,
    methods: &mut Vec<M>,
    clock: &mut C,
    out: &mut S,
) -> Ran
    requires methods { (1 ≤ vec_len methods.old) × (vec_len methods.old ≤ 9) }
    requires plan { IsSound it.plan }
    ensures methods { KeepsMethods (engine D.Disk M.Method disk.old methods.old.items) (engine D.Disk M.Method disk.new methods.new.items) }
    ensures moment { ReadsOnce (C.given clock.old) (C.given clock.new) result.log }
    ensures disk_fault { result.status.0 ≡ 102 → Rose (D.faults disk.old) (D.faults disk.new) }
    ensures quiet_disk { IsSome result.log → D.faults disk.new ≡ D.faults disk.old }
    ensures dry_disk { result.status.0 ≡ 103 → D.faults disk.new ≡ D.faults disk.old }
    ensures dry_held { result.status.0 ≡ 103 → D.held disk.new ≡ D.held disk.old }
    ensures output { BlamesOutput (S.faults out.old) (S.faults out.new) result.status.0 }
    ensures held_fault { result.status.0 ≡ 104 → Rose (D.held disk.old) (D.held disk.new) }
    ensures quiet_held { IsSome result.log → D.held disk.new ≡ D.held disk.old }
    ensures no_etc_fault { result.status.0 ≢ 106 }
    ensures ended { EndsRun it together (C.last clock.new)
        (span D.Disk M.Method S.Sink disk.old disk.new methods.old methods.new out.old out.new) result }
{
    match disk.hold() {
        Ok(()) => {
            let now = clock.moment();
            run_plan(rt, alloc, it, together, now, disk, methods, out)
        }
        Err(HoldError::Held) => Ran::without_log(write_fixed(out, &FaultLine::Held)),
        Err(HoldError::Fault) => Ran::without_log(write_fixed(out, &FaultLine::Disk)),
    }
}
