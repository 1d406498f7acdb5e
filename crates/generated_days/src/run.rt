//! One update over a mirror in memory.

ghost use Rattle.std.specs.Prelude.{◌≡◌, IfOk, OnOk, false, nat_lt};
ghost use Rattle.std.specs.List.{list_any};
ghost use Rattle.acq_base.specs.Plan.{IsSound};
ghost use Rattle.acq_outside.specs.Crash.{trace_of};
ghost use Rattle.acq_outside.specs.History.{files_of};
ghost use Rattle.acq_memory.specs.MapMethod.{HasSoundAnswers, faults_of};
ghost use Rattle.acq_memory.specs.MemDisk.{past_of};
ghost use Rattle.acq_outside.specs.States.{ToldAs};
ghost use Rattle.generated_days.specs.Clear.{IsClear};
ghost use Rattle.generated_days.specs.Days.{run_at};
ghost use Rattle.generated_days.specs.Told.{TellsDay};
ghost use Rattle.journal_model.specs.Reopen.{installed_now};
ghost use Rattle.journal_model.specs.Rest.{IsAtRest, IsSynced};

use crate::laws::logs_tell_days;
use acq_base::{Mirror, NoMemory, Row};
use acq_memory::{MapMethod, MemDisk};
use acq_outside::Method;
use configuration::Configured;
use kept_hooks::Judge;
use release_file::{Head, is_allowed};
use std::alloc::Global;
use std::sync::Wait;
use std::thread::Threads;
use update_engine::run_update;
use update_model::RunLog;

/// Updates a folder in which nothing is on its way over a mirror, and answers the log. A fault of an object in memory
/// stands for want of memory.
pub fn run_over<R: Threads + Wait + Copy + Send + Sync + 'static>(
    rt: &R,
    alloc: Global,
    it: Configured,
    mirror: Mirror,
    now: i64,
    disk: &mut MemDisk,
) -> Result<RunLog, NoMemory>
    requires answers { HasSoundAnswers mirror.rows }
    requires plan { IsSound it.plan }
    requires synced { ToldAs IsSynced (trace_of (past_of disk.old)) }
    requires clear { IsClear (files_of (past_of disk.old)) }
    ensures day { IfOk result (TellsDay mirror.rows (run_at it now) (installed_now (trace_of (past_of disk.old))) (installed_now (trace_of (past_of disk.new)))) }
    ensures rests { OnOk result (ToldAs (IsAtRest (installed_now (trace_of (past_of disk.new)))) (trace_of (past_of disk.new))) }
{
    logs_tell_days();
    let Configured {
        plan,
        settings,
        change,
    } = it;
    let may_follow = move |old: &Head, new: &Head| is_allowed(&change, old, new);
    let Ok(test) = Box::new(alloc, may_follow) else {
        return Err(NoMemory);
    };
    let judge = Judge::new(test, change);
    let method = MapMethod::new(mirror, Row::new(alloc), Row::new(alloc));
    let mut methods = vec![in alloc; method]?;
    let Ok(log) = run_update(
        rt,
        alloc,
        plan,
        settings,
        now,
        false,
        disk,
        &mut methods,
        &judge,
    ) else {
        return Err(NoMemory);
    };
    check_quiet(methods.as_slice())?;
    Ok(log)
}

/// Whether no method failed.
fn check_quiet(methods: &[MapMethod]) -> Result<(), NoMemory>
    ensures { OnOk result (list_any (λ method. nat_lt 0 (faults_of method)) methods.now ≡ false) }
{
    if has_failed(methods) {
        Err(NoMemory)
    } else {
        Ok(())
    }
}

/// Whether a method failed.
fn has_failed(methods: &[MapMethod]) -> bool
    ensures { result ≡ list_any (λ method. nat_lt 0 (faults_of method)) methods.now }
{
    methods.iter().any(|method| method.faults() > 0)
}
