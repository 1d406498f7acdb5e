//! A package file that the lists name, fetched and told.

ghost use Rattle.std.specs.Prelude.{◌≡◌, ◌≢◌, None};
ghost use Rattle.acq_base.specs.Uri.{IsSound};
ghost use Rattle.acq_outside.specs.Count.{Rose};
ghost use Rattle.deb_fetch.specs.Filenames.{IsDebName};
ghost use Rattle.update_program.specs.Downloads.{SaysUnfound, TellsFetch, WritesOrMemory};
ghost use Rattle.update_program.specs.Objects.{output};
ghost use Rattle.update_program.specs.Said.{BlamesOutput, WritesFault};
ghost use Rattle.report_text.specs.Packages.{fail_text, got_text};
ghost use Rattle.report_text.specs.declared.fault.FaultLine.TheVariants.{Download as download_line};

use crate::say::{write_fault, write_fixed, write_text};
use crate::{Ran, Status};
use acq_base::{NoMemory, Settings, Text, TryCopy};
use acq_outside::{Disk, Method, Sink};
use deb_fetch::{Deb, DebError, fetch_deb};
use report_text::{FaultLine, fail_line, got_line};
use std::alloc::Global;
use update_model::Cause;

/// Fetches a file into a folder, and tells what became of it.
pub fn fetch_call<M: Method, S: Sink, Q: Disk>(
    alloc: Global,
    deb: &Deb,
    name: &Text,
    version: &Text,
    settings: &Settings,
    method: &mut M,
    place: &mut Q,
    out: &mut S,
) -> Ran
    requires sound { IsSound deb.now.uri }
    requires named { IsDebName deb.now.file.0 }
    ensures log { result.log ≡ None }
    ensures output { BlamesOutput (S.faults out.old) (S.faults out.new) result.status.0 }
    ensures not_held { result.status.0 ≢ 104 }
    ensures no_etc_fault { result.status.0 ≢ 106 }
    ensures disk_fault { result.status.0 ≡ 102 → Rose (Q.faults place.old) (Q.faults place.new) }
    ensures tells { TellsFetch Q.Disk M.Method settings.now name.now version.now deb.now place.old place.new method.old method.new
        (output S.Sink out.old) (output S.Sink out.new) result.status.0 }
{
    match fetch_deb(alloc, place, deb, method, settings) {
        Ok(None) => Ran::without_log(tell_got(alloc, deb, out)),
        Ok(Some(cause)) => Ran::without_log(tell_cause(alloc, name, version, &cause, out)),
        Err(DebError::DiskFault) => Ran::without_log(write_fixed(out, &FaultLine::Disk)),
        // A fetch refuses nothing else than for want of memory.
        Err(_) => Ran::without_log(write_fixed(out, &FaultLine::Memory)),
    }
}

/// Tells a file that stands there.
fn tell_got<S: Sink>(alloc: Global, deb: &Deb, out: &mut S) -> Status
    ensures frame { BlamesOutput (S.faults out.old) (S.faults out.new) result.0 }
    ensures no_fault { result.0 ≢ 102 }
    ensures not_held { result.0 ≢ 104 }
    ensures no_etc_fault { result.0 ≢ 106 }
    ensures said { WritesOrMemory (output S.Sink out.old) (output S.Sink out.new) (got_text deb.now.file deb.now.sum) 0 result.0 }
{
    match got_line(alloc, &deb.file, &deb.sum) {
        Ok(line) => write_text(out, line.as_slice(), 0),
        Err(NoMemory) => write_fixed(out, &FaultLine::Memory),
    }
}

/// Tells why a file doesn't.
fn tell_cause<S: Sink>(
    alloc: Global,
    name: &Text,
    version: &Text,
    cause: &Cause,
    out: &mut S,
) -> Status
    ensures frame { BlamesOutput (S.faults out.old) (S.faults out.new) result.0 }
    ensures no_fault { result.0 ≢ 102 }
    ensures not_held { result.0 ≢ 104 }
    ensures no_etc_fault { result.0 ≢ 106 }
    ensures said { WritesOrMemory (output S.Sink out.old) (output S.Sink out.new) (fail_text name.now version.now cause.now) 100 result.0 }
{
    match fail_line(alloc, name, version, cause) {
        Ok(line) => write_text(out, line.as_slice(), 100),
        Err(NoMemory) => write_fixed(out, &FaultLine::Memory),
    }
}

/// Tells why lists name no file.
pub fn tell_unfound<S: Sink>(
    alloc: Global,
    error: &DebError,
    name: &Text,
    version: &Text,
    out: &mut S,
) -> Status
    ensures frame { BlamesOutput (S.faults out.old) (S.faults out.new) result.0 }
    ensures fault { result.0 ≡ 102 → error.now ≡ DebError.DiskFault }
    ensures not_held { result.0 ≢ 104 }
    ensures no_etc_fault { result.0 ≢ 106 }
    ensures said { SaysUnfound (output S.Sink out.old) (output S.Sink out.new) name.now version.now error.now result.0 }
{
    match error {
        DebError::NotListed(_) => tell_number(alloc, 34, name, version, out),
        DebError::Several(_) => tell_number(alloc, 35, name, version, out),
        DebError::DiskFault => write_fixed(out, &FaultLine::Disk),
        DebError::NoMemory => write_fixed(out, &FaultLine::Memory),
    }
}

/// Tells that no file is found, by the number of the refusal.
fn tell_number<S: Sink>(
    alloc: Global,
    number: u32,
    name: &Text,
    version: &Text,
    out: &mut S,
) -> Status
    ensures frame { BlamesOutput (S.faults out.old) (S.faults out.new) result.0 }
    ensures no_fault { result.0 ≢ 102 }
    ensures not_held { result.0 ≢ 104 }
    ensures no_etc_fault { result.0 ≢ 106 }
    ensures said { WritesFault (output S.Sink out.old) (output S.Sink out.new) (download_line number name.now version.now) result.0 }
{
    let (Ok(name), Ok(version)) = (name.copy(alloc), version.copy(alloc)) else {
        return write_fixed(out, &FaultLine::Memory);
    };
    write_fault(
        alloc,
        out,
        &FaultLine::Download {
            number,
            name,
            version,
        },
    )
}
