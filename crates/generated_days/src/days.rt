//! How an update went on each day.

ghost use Rattle.std.specs.Prelude.{◌≡◌, IfOk, OnOk, length};
ghost use Rattle.std.specs.List.{count_by};
ghost use Rattle.acq_base.specs.Plan.{IsSound};
ghost use Rattle.acq_outside.specs.Crash.{trace_of};
ghost use Rattle.acq_memory.specs.MapMethod.{HasSoundAnswers};
ghost use Rattle.acq_memory.specs.MemDisk.{past_of};
ghost use Rattle.acq_outside.specs.States.{ToldAs};
ghost use Rattle.generated_days.specs.Days.{AreDaysOf, IsDayOver, run_at};
ghost use Rattle.journal_model.specs.Reopen.{installed_now};
ghost use Rattle.journal_model.specs.Rest.{IsSynced};
ghost use Rattle.run_model.specs.Runs as runs;

use crate::bytes::bytes_of;
use crate::clear::check_clear;
use crate::configure::configure_by;
use crate::run::run_over;
use acq_base::{Mirror, NoMemory, Row, TryCopy};
use acq_memory::MemDisk;
use configuration::Configured;
use mirror_maker::make;
use std::alloc::Global;
use std::sync::Wait;
use std::thread::Threads;
use update_model::{RunLog, Verdict2};

/// How an update went.
#[derive(Clone, Copy, Debug, PartialEq, Eq)]
pub struct Day {
    /// How many sources got a new set.
    pub installed: u64,
    /// How many asks were made.
    pub asks: u64,
    /// How many bytes the lists have then.
    pub bytes: u64,
}

/// How an update over the mirror of a number goes on its first day, and how one goes on its second. The first begins with
/// no list, and the second with those that the first left.
pub fn both_days<R: Threads + Wait + Copy + Send + Sync + 'static>(
    rt: &R,
    alloc: Global,
    number: u64,
) -> Result<(Day, Day), NoMemory>
    ensures days { IfOk result (λ days. AreDaysOf number days.0 days.1) }
{
    let made = make(alloc, number)?;
    let mut disk = MemDisk::new(alloc, Row::new(alloc), false, Row::new(alloc))?;
    let list = made.list.copy(alloc)?;
    let configured = configure_by(alloc, list)?;
    let first = run_day(rt, alloc, configured, made.first, made.first_now, &mut disk)?;
    let again = configure_by(alloc, made.list)?;
    let second = run_day(rt, alloc, again, made.second, made.second_now, &mut disk)?;
    Ok((first, second))
}

/// One update over a mirror.
fn run_day<R: Threads + Wait + Copy + Send + Sync + 'static>(
    rt: &R,
    alloc: Global,
    it: Configured,
    mirror: Mirror,
    now: i64,
    disk: &mut MemDisk,
) -> Result<Day, NoMemory>
    requires answers { HasSoundAnswers mirror.rows }
    requires plan { IsSound it.plan }
    requires synced { ToldAs IsSynced (trace_of (past_of disk.old)) }
    ensures day { IfOk result (IsDayOver mirror.rows (run_at it now) (installed_now (trace_of (past_of disk.old))) (installed_now (trace_of (past_of disk.new)))) }
    ensures synced { OnOk result (ToldAs IsSynced (trace_of (past_of disk.new))) }
{
    check_clear(alloc, disk)?;
    let log = run_over(rt, alloc, it, mirror, now, disk)?;
    let bytes = bytes_of(alloc, disk)?;
    let installed = count_installed(&log);
    let asks = count_asks(&log);
    Ok(Day {
        installed,
        asks,
        bytes,
    })
}

/// How many sources of a log got a new set.
fn count_installed(log: &RunLog) -> u64
    ensures { result ≡ count_by runs.is_installed log.now.verdicts }
{
    installed_in(log.verdicts.as_slice()) as u64
}

fn installed_in(verdicts: &[Verdict2]) -> usize
    ensures { result ≡ count_by runs.is_installed verdicts.now }
{
    verdicts
        .iter()
        .filter(|verdict| is_installed(verdict))
        .count()
}

fn is_installed(verdict: &Verdict2) -> bool
    ensures { result ≡ runs.is_installed verdict.now }
{
    match verdict {
        Verdict2::Installed(_) => true,
        Verdict2::Hit(_) | Verdict2::Older(_) | Verdict2::Kept(_) => false,
    }
}

/// How many asks a log tells.
fn count_asks(log: &RunLog) -> u64
    ensures { result ≡ length log.now.asks }
{
    log.asks.as_slice().len() as u64
}
