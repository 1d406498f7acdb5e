//! The configuration of an update.

ghost use Rattle.std.specs.Prelude.{◌≡◌, ◌≢◌, ◌≤◌, vec_len, IsSome, None};
ghost use Rattle.acq_outside.specs.Count.{Rose};
ghost use Rattle.report_text.specs.Refused.{line_of};
ghost use Rattle.update_engine.specs.Run.{KeepsMethods, engine};
ghost use Rattle.update_program.specs.Asked.{RefusesConfiguration};
ghost use Rattle.update_program.specs.Ending.{EndsUpdate, LeavesDiskAndClock};
ghost use Rattle.update_program.specs.Objects.{output, span};
ghost use Rattle.update_program.specs.Said.{BlamesOutput, ReadsOnce, WritesFault};

use crate::Ran;
use crate::holding::run_with_hold;
use crate::say::{write_fault, write_fixed};
use acq_outside::{Clock, Disk, Etc, Method, Sink};
use command_words::Options;
use configuration::{ConfigurationError, configure};
use report_text::FaultLine;
use std::alloc::Global;
use std::sync::Wait;
use std::thread::Threads;

/// Reads the configuration, and runs what it plans. The headline of the call above follows of how it ended.
#[tactic(auto, using(update_engine::proofs::Lists::none_fall, crate::proofs::Endings::configured_ends, crate::proofs::Endings::refusal_ends))]
pub fn run_options<
    R: Threads + Wait + Copy + Send + Sync + 'static,
    E: Etc,
    D: Disk,
    M: Method + Send + 'static,
    C: Clock,
    S: Sink,
>(
    rt: &R,
    alloc: Global,
    options: &Options,
    etc: &mut E,
    disk: &mut D,
    methods: &mut Vec<M>,
    clock: &mut C,
    out: &mut S,
) -> Ran
    requires { (1 ≤ vec_len methods.old) × (vec_len methods.old ≤ 9) }
    ensures configuration { E.files etc.new ≡ E.files etc.old }
    ensures methods { KeepsMethods (engine D.Disk M.Method disk.old methods.old.items) (engine D.Disk M.Method disk.new methods.new.items) }
    ensures moment { ReadsOnce (C.given clock.old) (C.given clock.new) result.log }
    ensures disk_fault { result.status.0 ≡ 102 → Rose (D.faults disk.old) (D.faults disk.new) }
    ensures quiet_disk { IsSome result.log → D.faults disk.new ≡ D.faults disk.old }
    ensures dry_disk { result.status.0 ≡ 103 → D.faults disk.new ≡ D.faults disk.old }
    ensures dry_held { result.status.0 ≡ 103 → D.held disk.new ≡ D.held disk.old }
    ensures output { BlamesOutput (S.faults out.old) (S.faults out.new) result.status.0 }
    ensures held_fault { result.status.0 ≡ 104 → Rose (D.held disk.old) (D.held disk.new) }
    ensures quiet_held { IsSome result.log → D.held disk.new ≡ D.held disk.old }
    ensures etc_fault { result.status.0 ≡ 106 → Rose (E.faults etc.old) (E.faults etc.new) }
    ensures quiet_etc { IsSome result.log → E.faults etc.new ≡ E.faults etc.old }
    ensures unconfigured { RefusesConfiguration (E.files etc.old) options.now.pairs result.status.0
        → LeavesDiskAndClock D.Disk C.Clock disk.old disk.new clock.old clock.new }
    ensures ended { EndsUpdate (E.files etc.old) (C.last clock.new)
        (span D.Disk M.Method S.Sink disk.old disk.new methods.old methods.new out.old out.new) result options.now }
{
    match configure(alloc, etc, &options.pairs) {
        Ok(it) => run_with_hold(rt, alloc, it, options.together, disk, methods, clock, out),
        Err(ConfigurationError::Fault) => Ran::without_log(write_fixed(out, &FaultLine::Etc)),
        Err(ConfigurationError::NoMemory) => Ran::without_log(write_fixed(out, &FaultLine::Memory)),
        Err(refusal) => refuse(alloc, refusal, out),
    }
}

/// Writes the line of a configuration that is refused.
pub fn refuse<S: Sink>(alloc: Global, refusal: ConfigurationError, out: &mut S) -> Ran
    ensures frame { BlamesOutput (S.faults out.old) (S.faults out.new) result.status.0 }
    ensures no_disk_fault { result.status.0 ≢ 102 }
    ensures not_held { result.status.0 ≢ 104 }
    ensures etc_fault { result.status.0 ≡ 106 → refusal ≡ ConfigurationError.Fault }
    ensures log { result.log ≡ None }
    ensures said { WritesFault (output S.Sink out.old) (output S.Sink out.new) (line_of refusal) result.status.0 }
{
    Ran::without_log(write_fault(alloc, out, &FaultLine::from(refusal)))
}
