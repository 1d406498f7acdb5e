//! `download NAME=VERSION`: the file of a package, as the installed lists name it.

ghost use Rattle.std.specs.Prelude.{◌≡◌, ◌≢◌, ◌⊎◌, ◌≤◌, vec_len, None};
ghost use Rattle.acq_base.specs.Plan.{IsSound};
ghost use Rattle.acq_outside.specs.Count.{Rose};
ghost use Rattle.acq_outside.specs.States.{From, Since};
ghost use Rattle.commit_journal.specs.Opening.{Recovers};
ghost use Rattle.update_program.specs.Downloads.{Downloads, DownloadsByFirst, Finds, LooksIntoLists, OpensLists};
ghost use Rattle.update_program.specs.Objects.{output};
ghost use Rattle.update_program.specs.Said.{BlamesOutput};

use crate::Ran;
use crate::fetch::{fetch_call, tell_unfound};
use crate::options::refuse;
use crate::say::{write_fault, write_fixed};
use acq_base::{Row, Text};
use acq_outside::{Disk, Etc, HoldError, Method, Sink};
use commit_journal::{JournalError, open_journal};
use configuration::{ConfigurationError, Configured, configure};
use deb_fetch::find_deb;
use report_text::FaultLine;
use std::alloc::Global;

/// Fetches the file of this version of this package over the first of the methods.
pub fn download_call<E: Etc, D: Disk, M: Method, S: Sink, Q: Disk>(
    alloc: Global,
    name: &Text,
    version: &Text,
    etc: &mut E,
    disk: &mut D,
    methods: &mut Vec<M>,
    place: &mut Q,
    out: &mut S,
) -> Ran
    requires { 1 ≤ vec_len methods.old }
    ensures log { result.log ≡ None }
    ensures output { BlamesOutput (S.faults out.old) (S.faults out.new) result.status.0 }
    ensures configuration { E.files etc.new ≡ E.files etc.old }
    ensures etc_fault { result.status.0 ≡ 106 → Rose (E.faults etc.old) (E.faults etc.new) }
    ensures held_fault { result.status.0 ≡ 104 → Rose (D.held disk.old) (D.held disk.new) }
    ensures disk_fault { result.status.0 ≡ 102 → Rose (D.faults disk.old) (D.faults disk.new) ⊎ Rose (Q.faults place.old) (Q.faults place.new) }
    ensures lists { Since (D.trace disk.old) (D.trace disk.new) (From Recovers (D.trace disk.old)) }
    ensures downloads { DownloadsByFirst D.Disk Q.Disk M.Method S.Sink (E.files etc.old) disk.old disk.new place.old place.new
        methods.old methods.new out.old out.new result name.now version.now }
{
    download_over(alloc, name, version, etc, disk, &mut methods[0], place, out)
}

/// Reads the configuration, as an update without options does.
#[tactic(auto, using(crate::proofs::Downloading::since_none, crate::proofs::Downloading::configured_downloads, crate::proofs::Downloading::refusal_downloads))]
fn download_over<E: Etc, D: Disk, M: Method, S: Sink, Q: Disk>(
    alloc: Global,
    name: &Text,
    version: &Text,
    etc: &mut E,
    disk: &mut D,
    method: &mut M,
    place: &mut Q,
    out: &mut S,
) -> Ran
    ensures log { result.log ≡ None }
    ensures output { BlamesOutput (S.faults out.old) (S.faults out.new) result.status.0 }
    ensures configuration { E.files etc.new ≡ E.files etc.old }
    ensures etc_fault { result.status.0 ≡ 106 → Rose (E.faults etc.old) (E.faults etc.new) }
    ensures held_fault { result.status.0 ≡ 104 → Rose (D.held disk.old) (D.held disk.new) }
    ensures disk_fault { result.status.0 ≡ 102 → Rose (D.faults disk.old) (D.faults disk.new) ⊎ Rose (Q.faults place.old) (Q.faults place.new) }
    ensures lists { Since (D.trace disk.old) (D.trace disk.new) (From Recovers (D.trace disk.old)) }
    ensures downloads { Downloads D.Disk Q.Disk M.Method (E.files etc.old) name.now version.now disk.old disk.new place.old place.new
        method.old method.new (output S.Sink out.old) (output S.Sink out.new) result.status.0 }
{
    match configure(alloc, etc, &Row::new(alloc)) {
        Ok(it) => look_into_lists(alloc, &it, name, version, disk, method, place, out),
        Err(ConfigurationError::Fault) => Ran::without_log(write_fixed(out, &FaultLine::Etc)),
        Err(ConfigurationError::NoMemory) => Ran::without_log(write_fixed(out, &FaultLine::Memory)),
        Err(refusal) => refuse(alloc, refusal, out),
    }
}

/// Takes the hold on the lists folder.
#[tactic(auto, using(crate::proofs::Downloading::since_none))]
fn look_into_lists<D: Disk, M: Method, S: Sink, Q: Disk>(
    alloc: Global,
    it: &Configured,
    name: &Text,
    version: &Text,
    disk: &mut D,
    method: &mut M,
    place: &mut Q,
    out: &mut S,
) -> Ran
    requires { IsSound it.now.plan }
    ensures log { result.log ≡ None }
    ensures output { BlamesOutput (S.faults out.old) (S.faults out.new) result.status.0 }
    ensures no_etc_fault { result.status.0 ≢ 106 }
    ensures held_fault { result.status.0 ≡ 104 → Rose (D.held disk.old) (D.held disk.new) }
    ensures disk_fault { result.status.0 ≡ 102 → Rose (D.faults disk.old) (D.faults disk.new) ⊎ Rose (Q.faults place.old) (Q.faults place.new) }
    ensures lists { Since (D.trace disk.old) (D.trace disk.new) (From Recovers (D.trace disk.old)) }
    ensures looks { LooksIntoLists D.Disk Q.Disk M.Method it.now name.now version.now disk.old disk.new place.old place.new
        method.old method.new (output S.Sink out.old) (output S.Sink out.new) result.status.0 }
{
    match disk.hold() {
        Ok(()) => open_lists(alloc, it, name, version, disk, method, place, out),
        Err(HoldError::Held) => Ran::without_log(write_fixed(out, &FaultLine::Held)),
        Err(HoldError::Fault) => Ran::without_log(write_fixed(out, &FaultLine::Disk)),
    }
}

/// Opens the journal of the lists.
fn open_lists<D: Disk, M: Method, S: Sink, Q: Disk>(
    alloc: Global,
    it: &Configured,
    name: &Text,
    version: &Text,
    disk: &mut D,
    method: &mut M,
    place: &mut Q,
    out: &mut S,
) -> Ran
    requires { IsSound it.now.plan }
    ensures log { result.log ≡ None }
    ensures output { BlamesOutput (S.faults out.old) (S.faults out.new) result.status.0 }
    ensures not_held { result.status.0 ≢ 104 }
    ensures no_etc_fault { result.status.0 ≢ 106 }
    ensures count { D.faults disk.old ≤ D.faults disk.new }
    ensures disk_fault { result.status.0 ≡ 102 → Rose (D.faults disk.old) (D.faults disk.new) ⊎ Rose (Q.faults place.old) (Q.faults place.new) }
    ensures lists { Since (D.trace disk.old) (D.trace disk.new) (From Recovers (D.trace disk.old)) }
    ensures opens { OpensLists D.Disk Q.Disk M.Method it.now name.now version.now disk.old disk.new place.old place.new
        method.old method.new (output S.Sink out.old) (output S.Sink out.new) result.status.0 }
{
    match open_journal(alloc, disk) {
        Ok(_) => find_and_fetch(alloc, it, name, version, disk, method, place, out),
        Err(JournalError::DiskFault) => Ran::without_log(write_fixed(out, &FaultLine::Disk)),
        Err(JournalError::BadJournal(at)) => {
            Ran::without_log(write_fault(alloc, out, &FaultLine::Journal(at)))
        }
        Err(JournalError::NoMemory) => Ran::without_log(write_fixed(out, &FaultLine::Memory)),
    }
}

/// Looks into the installed lists, and fetches what they name.
fn find_and_fetch<D: Disk, M: Method, S: Sink, Q: Disk>(
    alloc: Global,
    it: &Configured,
    name: &Text,
    version: &Text,
    disk: &mut D,
    method: &mut M,
    place: &mut Q,
    out: &mut S,
) -> Ran
    requires { IsSound it.now.plan }
    ensures log { result.log ≡ None }
    ensures output { BlamesOutput (S.faults out.old) (S.faults out.new) result.status.0 }
    ensures not_held { result.status.0 ≢ 104 }
    ensures no_etc_fault { result.status.0 ≢ 106 }
    ensures count { D.faults disk.old ≤ D.faults disk.new }
    ensures disk_fault { result.status.0 ≡ 102 → Rose (D.faults disk.old) (D.faults disk.new) ⊎ Rose (Q.faults place.old) (Q.faults place.new) }
    ensures still { D.trace disk.new ≡ D.trace disk.old }
    ensures finds { Finds D.Disk Q.Disk M.Method it.now name.now version.now disk.old disk.new place.old place.new
        method.old method.new (output S.Sink out.old) (output S.Sink out.new) result.status.0 }
{
    match find_deb(alloc, disk, &it.plan, name, version) {
        Ok(deb) => fetch_call(alloc, &deb, name, version, &it.settings, method, place, out),
        Err(error) => Ran::without_log(tell_unfound(alloc, &error, name, version, out)),
    }
}
