//! One item at a time: what it asks, one answer after another, and what it comes to.

ghost use Rattle.std.specs.Prelude.{IfOk};
ghost use Rattle.item_graph.specs.OldFiles.{IsEnough};
ghost use Rattle.update_model.specs.declared.wanted.Wanted.{Wanted};

use crate::answers::answer;
use crate::beginning::configured;
use crate::ends::put_body;
use crate::given::{Given, Kind};
use crate::refused::{Refused, utf8};
use crate::telling::put_place;
use acq_base::{
    Bytes, Job, ListName, NoMemory, Plan, Row, Settings, Source, Sum, Target, Text, TryCopy,
};
use case_words::Page;
use configuration::Configured;
use item_graph::{Ask, End, Item, OldFile, want};
use release_file::{Release, find_file, read_release};
use report_text::report;
use std::alloc::Global;
use update_model::{Cause, Closed, RunLog, Verdict2};

/// The source's Release that is installed.
fn installed_release(alloc: Global, given: &Given, source: &Source) -> Result<Release, Refused> {
    let Some(bytes) = given.disk.get(&source.release_name.0) else {
        return Err(Refused::Board);
    };
    match read_release(alloc, bytes.as_slice()) {
        Ok(release) => Ok(release),
        Err(_) => Err(Refused::Board),
    }
}

/// The item of the source's first list, by the Release that is installed.
fn list_item(
    alloc: Global,
    given: &Given,
    source: &Source,
    target: &Target,
    settings: &Settings,
) -> Result<Item, Refused> {
    let release = installed_release(alloc, given, source)?;
    item_by(alloc, given, source, target, settings, &release)
}

/// The item of a source's list, by this Release.
fn item_by(
    alloc: Global,
    given: &Given,
    source: &Source,
    target: &Target,
    settings: &Settings,
    release: &Release,
) -> Result<Item, Refused> {
    let Some(sum) = find_file(release, target.path.as_bytes()) else {
        return Err(Refused::Board);
    };
    let part = match given.part(alloc, &target.name)? {
        Some(part) => part.len() as u64,
        None => 0,
    };
    let wanted = want(alloc, source, target, release, settings, sum)?;
    let old = old_file(alloc, given, &target.name.0)?;
    Ok(Item::for_list(alloc, wanted, old, part, settings)?)
}

/// A list's installed file by its bytes, so that patches may be asked for.
fn old_file(alloc: Global, given: &Given, name: &Text) -> Result<Option<OldFile>, NoMemory>
    ensures { IfOk result (λ old. (wanted : Wanted) → IsEnough old wanted) }
{
    match given.installed(alloc, name)? {
        Some(bytes) => Ok(Some(OldFile::Read(bytes))),
        None => Ok(None),
    }
}

/// The item of a list as a single file, of the sum that the Release which is installed lists.
fn single_item(
    alloc: Global,
    given: &Given,
    source: &Source,
    target: &Target,
    settings: &Settings,
) -> Result<Item, Refused> {
    let sum = listed_sum(alloc, given, source, target)?;
    let uri = target.uri.copy(alloc)?;
    let path = target.path.copy(alloc)?;
    Ok(Item::for_file(alloc, uri, path, sum, settings)?)
}

/// The sum of a list in the Release that is installed.
fn listed_sum(
    alloc: Global,
    given: &Given,
    source: &Source,
    target: &Target,
) -> Result<Sum, Refused> {
    let release = installed_release(alloc, given, source)?;
    match find_file(&release, target.path.as_bytes()) {
        Some(sum) => Ok(*sum),
        None => Err(Refused::Board),
    }
}

/// The item of what is given: the first list's, as a single file or not, or where no Release is installed the Release's.
fn item_of(
    alloc: Global,
    given: &Given,
    source: &Source,
    target: &Target,
    settings: &Settings,
) -> Result<Item, Refused> {
    match given.kind {
        Kind::Single => single_item(alloc, given, source, target, settings),
        _ if given.disk.get(&source.release_name.0).is_some() => {
            list_item(alloc, given, source, target, settings)
        }
        _ => Ok(Item::for_release(alloc, source, settings)?),
    }
}

/// Puts what the item of what is given asks of the mirror and comes to.
pub fn put_item(alloc: Global, page: &mut Page, given: &Given) -> Result<(), Refused> {
    let Configured { plan, settings, .. } = configured(alloc, given)?;
    put_first(alloc, page, given, &plan, &settings)
}

/// An item that lies apart: what holds one within takes much memory to prove.
fn boxed(alloc: Global, item: Item) -> Result<Box<Item>, NoMemory> {
    Ok(Box::new(alloc, item)?)
}

/// Puts what the item of a plan's first source asks and comes to.
fn put_first(
    alloc: Global,
    page: &mut Page,
    given: &Given,
    plan: &Plan,
    settings: &Settings,
) -> Result<(), Refused> {
    let Some(source) = plan.sources.as_slice().first() else {
        return Err(Refused::Board);
    };
    let Some(target) = source.targets.as_slice().first() else {
        return Err(Refused::Board);
    };
    let mut item = boxed(alloc, item_of(alloc, given, source, target, settings)?)?;
    walk(alloc, page, given, &target.name, &mut item)?;
    put_end_of(alloc, page, plan, item)
}

/// Puts what an item comes to, where it asks no more.
fn put_end_of(alloc: Global, page: &mut Page, plan: &Plan, item: Box<Item>) -> Result<(), Refused> {
    if item.ask().is_some() {
        return Err(Refused::Endless);
    }
    put_end(alloc, page, plan, Box::into_inner(item).end())
}

/// Answers what an item asks until it asks no more. No scenario needs as many answers as this loop allows.
fn walk(
    alloc: Global,
    page: &mut Page,
    given: &Given,
    name: &ListName,
    item: &mut Item,
) -> Result<(), Refused> {
    for _ in 0..20u32 {
        match item.ask() {
            Some(ask) => {
                let closed = closed(alloc, page, given, name, ask)?;
                item.answer(alloc, 0, closed)?;
            }
            None => break,
        }
    }
    Ok(())
}

/// What the mirror answers to an ask, which is put on the page.
fn closed(
    alloc: Global,
    page: &mut Page,
    given: &Given,
    name: &ListName,
    ask: &Ask,
) -> Result<Closed, Refused> {
    put_line(alloc, page, ask);
    let job = Job {
        no: 0,
        uri: ask.uri.copy(alloc)?,
        max: ask.max,
        from: ask.from,
    };
    answer(
        alloc,
        given,
        &job,
        if ask.stage { Some(name) } else { None },
    )
}

/// Puts a line for an ask, with the most bytes that may come, and whether they go into a partial file.
fn put_line(alloc: Global, page: &mut Page, ask: &Ask) {
    put_place(alloc, page, &ask.uri, ask.from);
    page.put(" most ");
    page.show(ask.max);
    page.put(if ask.stage { " staged\n" } else { "\n" });
}

/// Puts a line for an end.
fn put_end(alloc: Global, page: &mut Page, plan: &Plan, end: End) -> Result<(), Refused> {
    match end {
        End::Got(body) => {
            page.put("got");
            put_body(page, &body);
        }
        End::Stands => page.put("stands"),
        End::Ended(cause) => put_cause(alloc, page, plan, cause)?,
    }
    page.put("\n");
    Ok(())
}

/// Puts the line of a report in which the plan's only source is kept for this cause.
fn put_cause(alloc: Global, page: &mut Page, plan: &Plan, cause: Cause) -> Result<(), Refused> {
    let report = kept_report(alloc, plan, cause)?;
    page.put(first_line(report.as_slice())?);
    Ok(())
}

fn first_line(report: &[u8]) -> Result<&str, Refused> {
    Ok(utf8(report)?.lines().next().unwrap_or(""))
}

/// The report in which the plan's only source is kept for this cause.
fn kept_report(alloc: Global, plan: &Plan, cause: Cause) -> Result<Bytes, Refused> {
    let log = log_of(alloc, cause)?;
    if log.verdicts.len() != plan.sources.len() {
        return Err(Refused::Board);
    }
    Ok(report(alloc, plan, &log)?)
}

/// A log of one source, which is kept for this cause.
fn log_of(alloc: Global, cause: Cause) -> Result<RunLog, NoMemory> {
    let mut verdicts = Row::new(alloc);
    verdicts.push(Verdict2::Kept(cause))?;
    Ok(RunLog {
        verdicts,
        settled: Row::new(alloc),
        asks: Row::new(alloc),
        removed: Row::new(alloc),
    })
}
