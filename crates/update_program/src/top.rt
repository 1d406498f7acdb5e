//! The top call.

ghost use Rattle.std.specs.Prelude.{◌≡◌, ◌≢◌, ◌≤◌, vec_len, IfNone, IsSome};
ghost use Rattle.acq_outside.specs.Count.{Rose};
ghost use Rattle.update_engine.specs.Run.{KeepsMethods, engine};
ghost use Rattle.update_program.specs.Asked.{IfGenerate, IfNoUpdate, IfUpdate, WhereRefused, asked};
ghost use Rattle.update_program.specs.Ending.{EndsUpdate, LeavesDiskAndClock, MakesNoRun, RefusesWords};
ghost use Rattle.update_program.specs.Generated.{IsGenerated};
ghost use Rattle.update_program.specs.Headline.{Headline};
ghost use Rattle.update_program.specs.Objects.{output, span};
ghost use Rattle.update_program.specs.Said.{IsStatus, ReadsOnce};

use crate::Ran;
use crate::generate::generate;
use crate::options::run_options;
use crate::say::write_fixed;
use acq_base::NoMemory;
use acq_outside::{Clock, Disk, Etc, Method, Sink};
use command_words::{Request, read_words};
use report_text::FaultLine;
use std::sync::Wait;
use std::thread::Threads;

/// Carries out what the words of a command line ask for, the program's own name left out.
///
/// `update` reads the configuration, takes the hold on the lists folder, reads the moment, fetches over the methods and
/// commits what was fetched, and writes the report; the first refusal or fault ends it, by one line in place of the report.
/// There are 1 to 9 methods.
///
/// The status is 0 where each source has its new set or keeps a newer one, and 100 where one keeps its set for a cause, both
/// beside a report. Without one it is 100 where words, configuration or journal are refused, 102 where the lists folder
/// failed, 103 where memory ran out, 104 where another process holds the lists folder, 105 where the output failed, and 106
/// where the configuration folder failed. The log is that of the run, where it came to its end.
#[tactic(auto, using(crate::proofs::Asking::for_any, crate::proofs::Asking::for_any_number, crate::proofs::Asking::for_no_update, update_engine::proofs::Lists::none_fall))]
pub fn update_call<
    R: AllocGlobal + Threads + Wait + Copy + Send + Sync + 'static,
    E: Etc,
    D: Disk,
    M: Method + Send + 'static,
    C: Clock,
    S: Sink,
>(
    rt: &R,
    words: &[String],
    etc: &mut E,
    disk: &mut D,
    methods: &mut Vec<M>,
    clock: &mut C,
    out: &mut S,
) -> Ran
    requires { (1 ≤ vec_len methods.old) × (vec_len methods.old ≤ 9) }
    ensures configuration { E.files etc.new ≡ E.files etc.old }
    ensures methods { KeepsMethods (engine D.Disk M.Method disk.old methods.old.items) (engine D.Disk M.Method disk.new methods.new.items) }
    ensures moment { ReadsOnce (C.given clock.old) (C.given clock.new) result.log }
    ensures disk_fault { result.status.0 ≡ 102 → Rose (D.faults disk.old) (D.faults disk.new) }
    ensures sink_fault { result.status.0 ≡ 105 → Rose (S.faults out.old) (S.faults out.new) }
    ensures held_fault { result.status.0 ≡ 104 → Rose (D.held disk.old) (D.held disk.new) }
    ensures etc_fault { result.status.0 ≡ 106 → Rose (E.faults etc.old) (E.faults etc.new) }

    // No fault is swallowed: beside a log no folder failed and none was held, where memory ran out the lists folder neither failed
    // nor was held, and beside each status but 105 the output didn't fail.
    ensures quiet_held { IsSome result.log → D.held disk.new ≡ D.held disk.old }
    ensures quiet_disk { IsSome result.log → D.faults disk.new ≡ D.faults disk.old }
    ensures dry_disk { result.status.0 ≡ 103 → D.faults disk.new ≡ D.faults disk.old }
    ensures dry_held { result.status.0 ≡ 103 → D.held disk.new ≡ D.held disk.old }
    ensures quiet_etc { IsSome result.log → E.faults etc.new ≡ E.faults etc.old }
    ensures quiet_sink { result.status.0 ≢ 105 → S.faults out.new ≡ S.faults out.old }
    ensures status { IfUpdate (asked words.now) (λ options. IsStatus result.log result.status.0) }
    ensures refused { IfNone (asked words.now) (RefusesWords (span D.Disk M.Method S.Sink disk.old disk.new methods.old methods.new out.old out.new) result) }
    ensures no_run { IfNoUpdate (asked words.now) (MakesNoRun (span D.Disk M.Method S.Sink disk.old disk.new methods.old methods.new out.old out.new) result) }
    ensures untouched { IfNoUpdate (asked words.now) ((D.faults disk.new ≡ D.faults disk.old) × (D.held disk.new ≡ D.held disk.old)) }
    ensures unread { IfNoUpdate (asked words.now) ((E.faults etc.new ≡ E.faults etc.old) × (C.given clock.new ≡ C.given clock.old)) }
    ensures unconfigured { IfUpdate (asked words.now) (WhereRefused (E.files etc.old) result.status.0 (LeavesDiskAndClock D.Disk C.Clock disk.old disk.new clock.old clock.new)) }
    ensures generated { IfGenerate (asked words.now) (λ number. IsGenerated number (output S.Sink out.old) (output S.Sink out.new) result.status.0) }
    ensures ended { IfUpdate (asked words.now) (EndsUpdate (E.files etc.old) (C.last clock.new) (span D.Disk M.Method S.Sink disk.old disk.new methods.old methods.new out.old out.new) result) }

    // A stop leaves whole sets, a log shows its run, the lists are as it tells, and over a mirror each new set is the one that
    // its answers define, and so are lists and log, unless a fetch was given up; a source that it serves whole has its set.
    ensures headline { IfUpdate (asked words.now) (Headline (E.files etc.old) (C.last clock.new) (span D.Disk M.Method S.Sink disk.old disk.new methods.old methods.new out.old out.new) result) }
{
    let alloc = rt.alloc();
    match read_words(alloc, words) {
        Ok(Some(Request::Update(options))) => {
            run_options(rt, alloc, &options, etc, disk, methods, clock, out)
        }
        Ok(Some(Request::Generate(number))) => Ran::without_log(generate(rt, alloc, number, out)),
        Ok(None) => Ran::without_log(write_fixed(out, &FaultLine::Words)),
        Err(NoMemory) => Ran::without_log(write_fixed(out, &FaultLine::Memory)),
    }
}
