//! Lines and reports, written to the output. The one line that stands in place of a report takes memory only where it has
//! something to name.

ghost use Rattle.std.specs.Prelude.{◌≡◌, ◌≢◌, true, length};
ghost use Rattle.std.specs.List.{list_any};
ghost use Rattle.update_program.specs.Objects.{output};
ghost use Rattle.update_program.specs.Said as spec;
ghost use Rattle.update_program.specs.Said.{BlamesOutput, WritesReportOrMemory, Writes, WritesLine, WritesFault, fault_status, is_bare, status_of_verdicts};

use crate::Status;
use acq_base::{NoMemory, Plan};
use acq_outside::Sink;
use report_text::{FaultLine, report};
use std::alloc::Global;
use update_model::{RunLog, Verdict2};

/// Writes a text and answers its status, or 105 where the output fails.
pub fn write_text<S: Sink>(out: &mut S, text: &[u8], status: u8) -> Status
    requires { status ≢ 105 }
    ensures frame { BlamesOutput (S.faults out.old) (S.faults out.new) result.0 }
    ensures said { Writes (output S.Sink out.old) (output S.Sink out.new) text.now status result.0 }
{
    match out.write(text) {
        Ok(()) => Status(status),
        Err(_) => Status(105),
    }
}

/// Writes the line of a fault that has nothing to name, and answers its status. It takes no memory.
#[tactic(auto, using(crate::proofs::Lines::bare_is_fixed))]
pub fn write_fixed<S: Sink>(out: &mut S, fault: &FaultLine) -> Status
    requires { is_bare fault.now ≡ true }
    ensures frame { BlamesOutput (S.faults out.old) (S.faults out.new) result.0 }
    ensures said { WritesLine (output S.Sink out.old) (output S.Sink out.new) fault.now result.0 }
{
    let Some(line) = fault.fixed() else {
        unreachable!()
    };
    write_text(out, line, status_of(fault))
}

/// Writes the line of a fault and answers its status, or `E memory` and 103 where memory for the line ran out.
pub fn write_fault<S: Sink>(alloc: Global, out: &mut S, fault: &FaultLine) -> Status
    ensures frame { BlamesOutput (S.faults out.old) (S.faults out.new) result.0 }
    ensures said { WritesFault (output S.Sink out.old) (output S.Sink out.new) fault.now result.0 }
{
    match fault.text(alloc) {
        Ok(line) => write_text(out, line.as_slice(), status_of(fault)),
        Err(NoMemory) => write_fixed(out, &FaultLine::Memory),
    }
}

/// The status that stands beside the line of a fault.
fn status_of(fault: &FaultLine) -> u8
    ensures value { result ≡ fault_status fault.now }
    ensures written { result ≢ 105 }
{
    match fault {
        FaultLine::Disk => 102,
        FaultLine::Memory => 103,
        FaultLine::Held => 104,
        FaultLine::Etc => 106,
        FaultLine::Port => 108,
        _ => 100,
    }
}

/// Writes the report of a run and answers its status, or `E memory` and 103 where memory for the report ran out.
pub fn write_report<S: Sink>(alloc: Global, plan: &Plan, log: &RunLog, out: &mut S) -> Status
    requires { length log.now.verdicts ≡ length plan.now.sources }
    ensures frame { BlamesOutput (S.faults out.old) (S.faults out.new) result.0 }
    ensures told { WritesReportOrMemory (output S.Sink out.old) (output S.Sink out.new) plan.now log.now result.0 }
{
    match report(alloc, plan, log) {
        Ok(text) => write_text(out, text.as_slice(), report_status(log.verdicts.as_slice())),
        Err(NoMemory) => write_fixed(out, &FaultLine::Memory),
    }
}

/// The status beside a report: 100 where a source keeps its set for a cause, else 0.
fn report_status(verdicts: &[Verdict2]) -> u8
    ensures value { result ≡ status_of_verdicts verdicts.now }
    ensures written { result ≢ 105 }
{
    if keeps_one(verdicts) { 100 } else { 0 }
}

/// Whether a source keeps its set for a cause.
fn keeps_one(verdicts: &[Verdict2]) -> bool
    ensures { result ≡ list_any spec.is_kept verdicts.now }
{
    verdicts.iter().any(|verdict| is_kept(verdict))
}

fn is_kept(verdict: &Verdict2) -> bool
    ensures { result ≡ spec.is_kept verdict.now }
{
    match verdict {
        Verdict2::Installed(_) | Verdict2::Hit(_) | Verdict2::Older(_) => false,
        Verdict2::Kept(_) => true,
    }
}
