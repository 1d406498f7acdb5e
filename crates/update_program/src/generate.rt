//! `generate N`: an update over the mirror of a number on its first day, and then on its second, all in memory.

ghost use Rattle.std.specs.Prelude.{◌≡◌, ◌≢◌, ◌++◌, IfOk, OnOk};
ghost use Rattle.std.specs.Fmt.{decimal};
ghost use Rattle.generated_days.specs.Days.{AreDaysOf};
ghost use Rattle.update_program.specs.Generated.{IsGenerated, day_text, days_line, days_status};
ghost use Rattle.update_program.specs.Objects.{output};
ghost use Rattle.update_program.specs.Said.{BlamesOutput};

use crate::Status;
use crate::say::{write_fixed, write_text};
use acq_base::{NoMemory, Text};
use acq_outside::Sink;
use generated_days::{Day, both_days};
use report_text::FaultLine;
use std::alloc::Global;
use std::sync::Wait;
use std::thread::Threads;

/// Updates from the mirror of a number on both days, and writes one line. The status is 0 where four sources got a new set
/// on each day, 100 where fewer did, 103 for want of memory and 105 where the output fails.
pub fn generate<R: Threads + Wait + Copy + Send + Sync + 'static, S: Sink>(
    rt: &R,
    alloc: Global,
    number: u64,
    out: &mut S,
) -> Status
    ensures frame { BlamesOutput (S.faults out.old) (S.faults out.new) result.0 }
    ensures days { IsGenerated number (output S.Sink out.old) (output S.Sink out.new) result.0 }
{
    match both_days(rt, alloc, number) {
        Ok((first, second)) => tell_days(alloc, number, &first, &second, out),
        Err(NoMemory) => write_fixed(out, &FaultLine::Memory),
    }
}

/// Writes the line of both days.
fn tell_days<S: Sink>(alloc: Global, number: u64, first: &Day, second: &Day, out: &mut S) -> Status
    requires { AreDaysOf number first.now second.now }
    ensures frame { BlamesOutput (S.faults out.old) (S.faults out.new) result.0 }
    ensures days { IsGenerated number (output S.Sink out.old) (output S.Sink out.new) result.0 }
{
    match line_of(alloc, number, first, second) {
        Ok(line) => write_text(out, line.as_bytes(), status_of(first, second)),
        Err(NoMemory) => write_fixed(out, &FaultLine::Memory),
    }
}

/// 0 where four sources got a new set on each day, else 100.
fn status_of(first: &Day, second: &Day) -> u8
    ensures value { result ≡ days_status first.now second.now }
    ensures written { result ≢ 105 }
{
    if first.installed == 4 && second.installed == 4 {
        0
    } else {
        100
    }
}

/// The line of both days.
fn line_of(alloc: Global, number: u64, first: &Day, second: &Day) -> Result<Text, NoMemory>
    ensures { IfOk result (λ text. text ≡ days_line number first.now second.now) }
{
    let mut text = Text::from_bytes(alloc, b"Generate ")?;
    append_number(alloc, &mut text, number)?;
    text.append(b" first ")?;
    append_day(alloc, &mut text, first)?;
    text.append(b", second ")?;
    append_day(alloc, &mut text, second)?;
    text.append(b"\n")?;
    Ok(text)
}

/// Appends a day's numbers.
fn append_day(alloc: Global, text: &mut Text, day: &Day) -> Result<(), NoMemory>
    ensures { OnOk result (text.new ≡ text.old ++ day_text day.now) }
{
    append_number(alloc, text, day.installed)?;
    text.append(b" installed ")?;
    append_number(alloc, text, day.asks)?;
    text.append(b" asks ")?;
    append_number(alloc, text, day.bytes)?;
    text.append(b" bytes")
}

fn append_number(alloc: Global, text: &mut Text, number: u64) -> Result<(), NoMemory>
    ensures { OnOk result (text.new ≡ text.old ++ decimal number) }
{
    let digits = format!(in alloc; "{number}")?;
    text.append(digits.as_bytes())
}
