//! The call that a program makes: an update, or what is asked for beside updates.

ghost use Rattle.std.specs.Prelude.{◌≡◌, ◌≢◌, ◌⊎◌, ◌≤◌, vec_len, IfNone, IsSome, None};
ghost use Rattle.acq_outside.specs.Count.{Rose};
ghost use Rattle.acq_outside.specs.States.{From, Since};
ghost use Rattle.commit_journal.specs.Opening.{Recovers};
ghost use Rattle.update_engine.specs.Run.{KeepsMethods, engine};
ghost use Rattle.update_program.specs.Asked.{IfGenerate, IfNoUpdate, IfUpdate, WhereRefused, asked};
ghost use Rattle.update_program.specs.Downloads.{DownloadsByFirst};
ghost use Rattle.update_program.specs.Ending.{EndsUpdate, LeavesDiskAndClock, MakesNoRun, RefusesWords};
ghost use Rattle.update_program.specs.Generated.{IsGenerated};
ghost use Rattle.update_program.specs.Headline.{Headline};
ghost use Rattle.update_program.specs.Objects.{output, span};
ghost use Rattle.update_program.specs.Said.{IsStatus, ReadsOnce};
ghost use Rattle.update_program.specs.Sides.{IfAside, IfDownload, IfMethod, IfServe, IfUpdating, Otherwise, ServesPort, SpeaksByFirst, side_asked};

use crate::download::download_call;
use crate::method::{asked_scheme, method_call};
use crate::say::write_fixed;
use crate::serve::serve_call;
use crate::top::update_call;
use crate::{Aside, Ran};
use acq_base::NoMemory;
use acq_net::Port;
use acq_outside::{Clock, Disk, Etc, Files, Inlet, Method, Sink, Tree};
use command_words::{Side, read_side};
use report_text::FaultLine;
use std::sync::Wait;
use std::thread::Threads;

/// Carries out what the words of a command line ask for, the program's own name left out: `method file` or `method http`,
/// `serve ROOT PORT N`, word by word, and for all other words what `update_call` does.
///
/// There are 1 to 9 methods; commands beside updates ask the first one. They answer no log, and touch no more of what they are
/// lent than they need. The method's status is 0 where its input was read to its end, 100 where that is no stream of messages,
/// 102 where its files failed, 105 where the output, 107 where the input failed, 109 where more than 2^40 bytes would be read;
/// the server's is 0 behind its N connections and 108 where it couldn't listen or accept; and 103 where memory ran out.
#[tactic(auto, using(crate::proofs::Sides::otherwise, crate::proofs::Sides::for_aside, crate::proofs::Sides::for_no_method, crate::proofs::Sides::for_any_server, crate::proofs::Sides::for_any_package, crate::proofs::Downloading::since_none, crate::proofs::Asking::for_any, crate::proofs::Asking::for_any_number, crate::proofs::Asking::for_no_update, update_engine::proofs::Lists::none_fall))]
pub fn program_call<
    R: AllocGlobal + Threads + Wait + Copy + Send + Sync + 'static,
    E: Etc,
    D: Disk,
    M: Method + Send + 'static,
    C: Clock,
    S: Sink,
    I: Inlet,
    F: Files,
    P: Port,
    T: Tree,
    Q: Disk,
>(
    rt: &R,
    words: &[String],
    etc: &mut E,
    disk: &mut D,
    methods: &mut Vec<M>,
    clock: &mut C,
    out: &mut S,
    aside: &mut Aside<I, F, P, T, Q>,
) -> Ran
    requires { (1 ≤ vec_len methods.old) × (vec_len methods.old ≤ 9) }

    // Whatever the words ask for: the configuration's files stay, and output, hold and configuration folder are blamed for their faults.
    ensures sink_fault { result.status.0 ≡ 105 → Rose (S.faults out.old) (S.faults out.new) }
    ensures configuration { E.files etc.new ≡ E.files etc.old }
    ensures held_fault { result.status.0 ≡ 104 → Rose (D.held disk.old) (D.held disk.new) }
    ensures etc_fault { result.status.0 ≡ 106 → Rose (E.faults etc.old) (E.faults etc.new) }
    ensures quiet_sink { result.status.0 ≢ 105 → S.faults out.new ≡ S.faults out.old }

    // Beside updates: there is no log, each command has its own end, and touches no object of another.
    ensures side_log { IfAside (side_asked words.now) (result.log ≡ None) }
    ensures side_clock { IfAside (side_asked words.now) (clock.new ≡ clock.old) }
    ensures speaks { IfMethod (side_asked words.now) (SpeaksByFirst I.Inlet M.Method F.Files S.Sink aside.old.input aside.new.input
        methods.old methods.new aside.old.files aside.new.files out.old out.new result) }
    ensures method_alone { IfMethod (side_asked words.now) (λ http. (etc.new ≡ etc.old) × (disk.new ≡ disk.old)
        × (aside.new.port ≡ aside.old.port) × (aside.new.tree ≡ aside.old.tree) × (aside.new.place ≡ aside.old.place)) }
    ensures serves { IfServe (side_asked words.now) (ServesPort P.Port T.Tree S.Sink aside.old.port aside.new.port
        aside.old.tree aside.new.tree out.old out.new result) }
    ensures port_fault { IfServe (side_asked words.now)
        (λ root port connections. result.status.0 ≡ 108 → Rose (P.lost aside.old.port) (P.lost aside.new.port)) }
    ensures serve_alone { IfServe (side_asked words.now)
        (λ root port connections. (etc.new ≡ etc.old) × (disk.new ≡ disk.old) × (methods.new ≡ methods.old)) }
    ensures serve_aside { IfServe (side_asked words.now) (λ root port connections. (aside.new.input ≡ aside.old.input)
        × (aside.new.files ≡ aside.old.files) × (aside.new.place ≡ aside.old.place)) }

    ensures downloads { IfDownload (side_asked words.now) (DownloadsByFirst D.Disk Q.Disk M.Method S.Sink (E.files etc.old)
        disk.old disk.new aside.old.place aside.new.place methods.old methods.new out.old out.new result) }
    ensures lists_reopen { IfDownload (side_asked words.now)
        (λ name version. Since (D.trace disk.old) (D.trace disk.new) (From Recovers (D.trace disk.old))) }
    ensures folder_fault { IfDownload (side_asked words.now) (λ name version. result.status.0 ≡ 102
        → Rose (D.faults disk.old) (D.faults disk.new) ⊎ Rose (Q.faults aside.old.place) (Q.faults aside.new.place)) }
    ensures download_alone { IfDownload (side_asked words.now) (λ name version. (aside.new.input ≡ aside.old.input)
        × (aside.new.files ≡ aside.old.files) × (aside.new.port ≡ aside.old.port) × (aside.new.tree ≡ aside.old.tree)) }

    // For all other words it is the call of an update, and touches nothing else.
    ensures aside { Otherwise (side_asked words.now) (aside.new ≡ aside.old) }
    ensures methods { Otherwise (side_asked words.now)
        (KeepsMethods (engine D.Disk M.Method disk.old methods.old.items) (engine D.Disk M.Method disk.new methods.new.items)) }
    ensures moment { Otherwise (side_asked words.now) (ReadsOnce (C.given clock.old) (C.given clock.new) result.log) }
    ensures disk_fault { Otherwise (side_asked words.now)
        (result.status.0 ≡ 102 → Rose (D.faults disk.old) (D.faults disk.new)) }
    // No fault is swallowed: beside a log no folder failed and none was held, where memory ran out the lists folder neither failed
    // nor was held, and beside each status but 105 the output didn't fail.
    ensures quiet_held { Otherwise (side_asked words.now) (IsSome result.log → D.held disk.new ≡ D.held disk.old) }
    ensures quiet_disk { Otherwise (side_asked words.now) (IsSome result.log → D.faults disk.new ≡ D.faults disk.old) }
    ensures dry_disk { Otherwise (side_asked words.now)
        (result.status.0 ≡ 103 → D.faults disk.new ≡ D.faults disk.old) }
    ensures dry_held { Otherwise (side_asked words.now) (result.status.0 ≡ 103 → D.held disk.new ≡ D.held disk.old) }
    ensures quiet_etc { Otherwise (side_asked words.now) (IsSome result.log → E.faults etc.new ≡ E.faults etc.old) }
    ensures status { Otherwise (side_asked words.now)
        (IfUpdate (asked words.now) (λ options. IsStatus result.log result.status.0)) }
    ensures refused { Otherwise (side_asked words.now)
        (IfNone (asked words.now) (RefusesWords (span D.Disk M.Method S.Sink disk.old disk.new methods.old methods.new out.old out.new) result)) }
    ensures no_run { Otherwise (side_asked words.now)
        (IfNoUpdate (asked words.now) (MakesNoRun (span D.Disk M.Method S.Sink disk.old disk.new methods.old methods.new out.old out.new) result)) }
    ensures untouched { Otherwise (side_asked words.now)
        (IfNoUpdate (asked words.now) ((D.faults disk.new ≡ D.faults disk.old) × (D.held disk.new ≡ D.held disk.old))) }
    ensures unread { Otherwise (side_asked words.now)
        (IfNoUpdate (asked words.now) ((E.faults etc.new ≡ E.faults etc.old) × (C.given clock.new ≡ C.given clock.old))) }
    ensures unconfigured { Otherwise (side_asked words.now)
        (IfUpdate (asked words.now) (WhereRefused (E.files etc.old) result.status.0 (LeavesDiskAndClock D.Disk C.Clock disk.old disk.new
        clock.old clock.new))) }
    ensures generated { Otherwise (side_asked words.now)
        (IfGenerate (asked words.now) (λ number. IsGenerated number (output S.Sink out.old) (output S.Sink out.new) result.status.0)) }
    ensures ended { IfUpdating words.now (EndsUpdate (E.files etc.old) (C.last clock.new)
        (span D.Disk M.Method S.Sink disk.old disk.new methods.old methods.new out.old out.new) result) }
    // A stop leaves whole sets, a log shows its run, the lists are as it tells, and over a mirror each new set is the one that
    // its answers define, and so are lists and log, unless a fetch was given up; a source that it serves whole has its set.
    ensures headline { IfUpdating words.now (Headline (E.files etc.old) (C.last clock.new)
        (span D.Disk M.Method S.Sink disk.old disk.new methods.old methods.new out.old out.new) result) }
{
    let alloc = rt.alloc();
    if let Some(http) = asked_scheme(words) {
        return method_call(
            alloc,
            http,
            &mut aside.input,
            methods,
            &mut aside.files,
            out,
        );
    }
    match read_side(alloc, words) {
        Ok(
            Some(
                Side::Serve {
                    root,
                    port,
                    connections,
                },
            ),
        ) => serve_call(
            alloc,
            &root,
            port,
            connections,
            &mut aside.port,
            &mut aside.tree,
            out,
        ),
        Ok(None) => update_call(rt, words, etc, disk, methods, clock, out),
        Ok(Some(Side::Download { name, version })) => download_call(
            alloc,
            &name,
            &version,
            etc,
            disk,
            methods,
            &mut aside.place,
            out,
        ),
        Ok(Some(Side::Method { http: _ })) => unreachable!(),
        Err(NoMemory) => Ran::without_log(write_fixed(out, &FaultLine::Memory)),
    }
}
