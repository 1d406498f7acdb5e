//! A package file, asked for until it came or there is a cause why it doesn't. It may take memory.
ghost use Rattle.std.specs.Prelude.{◌≡◌, ◌≤◌, ◌+◌, ◌*◌, false, true, None, IfOk, IsTrue, OnOk};
ghost use Rattle.acq_base.specs.Uri.{IsSound};
ghost use Rattle.acq_outside.specs.Fetches.{Fetches};
ghost use Rattle.acq_outside.specs.States.{IsNow, IsTold};
ghost use Rattle.acq_outside.specs.Stays.{StaysCounting};
ghost use Rattle.item_graph.specs.Refinement.{asked, point_of, retries_of};
ghost use Rattle.item_graph.specs.Single.{file_walk};
ghost use Rattle.item_graph.specs.Sound.{IsSoundAt};
ghost use Rattle.job_fetch.specs.Fetched.{Staging};
ghost use Rattle.journal_model.specs.Names.{IsPutName};
ghost use Rattle.update_model.specs.Points.{start};
ghost use Rattle.deb_fetch.specs.Asking.{AsksWhole, HasAskedFor, HasAskedForNothing, IsUnderWayTo, asks_next};
ghost use Rattle.deb_fetch.specs.Causes as causes;
ghost use Rattle.deb_fetch.specs.Filenames.{IsDebName};
ghost use Rattle.deb_fetch.specs.Landing.{IsReady, IsSettled, Lands};

use crate::Deb;
use acq_base::{Job, ListName, NoMemory, Settings, TryCopy};
use acq_outside::{Disk, Method, OutError};
use item_graph::Item;
use job_fetch::fetch_staged;
use std::alloc::Global;
use update_model::{Ask, Cause, End};

/// Asks for the file at its URI, until it came into the file on its way or there is a cause why it doesn't.
pub fn obtain<D: Disk, M: Method>(
    alloc: Global,
    place: &mut D,
    deb: &Deb,
    method: &mut M,
    settings: &Settings,
) -> Result<Option<Cause>, OutError>
    requires sound { IsSound deb.now.uri }
    requires named { IsDebName deb.now.file.0 }
    requires settled { IsNow IsSettled (D.trace place.old) }

    ensures frame { StaysCounting OutError.Fault D.Disk place.old place.new result }
    ensures method { Fetches M.Method method.old method.new }

    ensures lands { Lands deb.now.file.0 deb.now.sum (D.trace place.old) (D.trace place.new) }
    ensures kept { IsTrue (D.tells place.old) → D.files place.new deb.now.file.0 ≡ D.files place.old deb.now.file.0 }
    ensures ready { IfOk result (λ end. end ≡ None → IsNow (IsReady deb.now.file.0 deb.now.sum) (D.trace place.new)) }

    ensures answer { IsTold (D.trace place.new) → IfOk result (causes.IsAnswerOf (M.world method.old) None deb.now) }
    ensures failed { IfOk result (λ end. causes.IsMethod end
        → causes.HasFailed settings.now.retries (M.faults method.old) (M.faults method.new) deb.now end) }
    ensures route { IfOk result (causes.IsEndOfRoute settings.now.retries deb.now) }
    ensures begins { M.begins method.new ≤ M.begins method.old + 11 * (settings.now.retries + 1) }
{
    let uri = deb.uri.copy(alloc)?;
    let path = deb.path.copy(alloc)?;
    let mut item = Item::for_file(alloc, uri, path, deb.sum, settings)?;
    ask_all(alloc, place, deb, method, settings, &mut item)?;
    Ok(cause_of(item.end()))
}

/// Asks as long as anything is asked.
fn ask_all<D: Disk, M: Method>(
    alloc: Global,
    place: &mut D,
    deb: &Deb,
    method: &mut M,
    settings: &Settings,
    item: &mut Item,
) -> Result<(), OutError>
    requires named { IsDebName deb.now.file.0 }
    requires sound { IsSoundAt (point_of item.old) }
    requires begins { point_of item.old ≡ start settings.now.retries (file_walk deb.now.uri deb.now.path deb.now.sum) }
    requires retries { retries_of item.old ≡ settings.now.retries }

    ensures frame { StaysCounting OutError.Fault D.Disk place.old place.new result }
    ensures method { Fetches M.Method method.old method.new }
    ensures staging { Staging deb.now.file.0 (D.trace place.old) (D.trace place.new) }

    ensures begins { M.begins method.new ≤ M.begins method.old + 11 * (settings.now.retries + 1) }
    ensures none { OnOk result (asked (point_of item.new) ≡ None) }
    ensures under { OnOk result (IsUnderWayTo deb.now settings.now.retries (M.world method.old)
        (M.faults method.old) (M.faults method.new) (D.trace place.new) (point_of item.new)) }
{
    'asks: loop {
        if !ask_once(alloc, place, &deb.file, method, item)? {
            return Ok(());
        }
    }
}

/// Asks once more, if anything is asked.
fn ask_once<D: Disk, M: Method>(
    alloc: Global,
    place: &mut D,
    file: &ListName,
    method: &mut M,
    item: &mut Item,
) -> Result<bool, OutError>
    requires name { IsPutName file.now.0 }
    requires sound { IsSoundAt (point_of item.old) }
    requires whole { AsksWhole (point_of item.old) }

    ensures frame { StaysCounting OutError.Fault D.Disk place.old place.new result }
    ensures method { Fetches M.Method method.old method.new }
    ensures staging { Staging file.now.0 (D.trace place.old) (D.trace place.new) }
    ensures begins { M.begins method.new ≤ M.begins method.old + asks_next (point_of item.old) }

    ensures sound { OnOk result (IsSoundAt (point_of item.new)) }
    ensures retries { OnOk result (retries_of item.new ≡ retries_of item.old) }
    ensures none { IfOk result (λ more. more ≡ false
        → HasAskedForNothing D.Disk M.Method place.old place.new method.old method.new item.old item.new) }
    ensures more { IfOk result (λ b. b ≡ true
        → HasAskedFor M.Method file.now.0 method.old method.new (D.trace place.new) item.old item.new) }
{
    let job = match item.ask() {
        None => return Ok(false),
        Some(ask) => job_of(alloc, ask)?,
    };
    let closed = fetch_staged(alloc, place, method, file, &job)?;
    item.answer(alloc, 0, closed)?;
    Ok(true)
}

/// The job that asks so.
fn job_of(alloc: Global, ask: &Ask) -> Result<Job, NoMemory>
    ensures { IfOk result (λ job. job ≡ record { no = 0; uri = ask.now.uri; max = ask.now.max; from = ask.now.from }) }
{
    Ok(Job {
        no: 0,
        uri: ask.uri.copy(alloc)?,
        max: ask.max,
        from: ask.from,
    })
}

/// Why there is no file, if there is none.
fn cause_of(end: End) -> Option<Cause>
    ensures { result ≡ causes.cause_of end }
{
    match end {
        End::Got(_) | End::Stands => None,
        End::Ended(cause) => Some(cause),
    }
}
