//! What runs of the board come to, and whether it is the same under each order of answers.

use crate::beginning::configured;
use crate::board::{Finished, Schedule, finish};
use crate::given::Given;
use crate::refused::{Refused, finished, utf8};
use crate::telling::put_place;
use acq_base::Plan;
use case_words::Page;
use configuration::Configured;
use report_text::report;
use std::alloc::Global;
use update_model::{Body, Settled};

/// What a run came to: of each source the line of the report, its changes, and what was asked for it in order.
fn told(alloc: Global, plan: &Plan, ended: &Finished) -> Result<String, Refused> {
    if ended.log.verdicts.len() != plan.sources.len() {
        return Err(Refused::Board);
    }
    let report = report(alloc, plan, &ended.log)?;
    let mut page = Page::new(alloc);
    put_sources(alloc, &mut page, utf8(report.as_slice())?, ended);
    finished(page)
}

/// Puts what a run came to, by the lines of its report.
fn put_sources(alloc: Global, page: &mut Page, report: &str, ended: &Finished) {
    let mut source: u32 = 0;
    for line in report.lines() {
        if !line.starts_with(' ') && !line.starts_with("Total ") {
            page.put(line);
            page.put("\n");
            put_source(alloc, page, ended, source);
            source = source.wrapping_add(1);
        }
    }
}

/// Puts the changes of a source, and what was asked for it.
fn put_source(alloc: Global, page: &mut Page, ended: &Finished, source: u32) {
    if let Some(settled) = settled_of(ended, source) {
        put_changes(page, settled);
    }
    for ask in ended.log.asks.as_slice() {
        if ask.source == source {
            put_place(alloc, page, &ask.uri, ask.from);
            page.put("\n");
        }
    }
}

/// Puts a line for each list that is put or removed.
fn put_changes(page: &mut Page, settled: &Settled) {
    for list in settled.puts.as_slice() {
        page.put("put");
        put_body(page, &list.1);
        page.put("\n");
    }
    for _ in settled.drops.as_slice() {
        page.put("drop\n");
    }
}

/// Puts the size of a list, and whether it lies in memory and not in a partial file.
pub fn put_body(page: &mut Page, body: &Body) {
    page.put(" ");
    match body {
        Body::Bytes(bytes) => {
            page.show(bytes.len());
            page.put(" in memory");
        }
        Body::Staged(sum) => page.show(sum.size),
    }
}

/// What a run settled of a source.
fn settled_of(ended: &Finished, source: u32) -> Option<&Settled> {
    for settled in ended.settled.as_slice() {
        if settled.0 == source {
            return Some(&settled.1);
        }
    }
    None
}

/// Whether two runs came to the same: each source to the same verdict, puts and drops.
fn are_alike(a: &Finished, b: &Finished) -> bool {
    if a.log.verdicts != b.log.verdicts || a.settled.len() != b.settled.len() {
        return false;
    }
    for settled in a.settled.as_slice() {
        if settled_of(b, settled.0) != Some(&settled.1) {
            return false;
        }
    }
    true
}

/// Puts what runs of the board come to, under each order of answers the same.
pub fn put_board(alloc: Global, page: &mut Page, given: &Given) -> Result<(), Refused> {
    let Configured { plan, .. } = configured(alloc, given)?;
    put_ends(alloc, page, given, &plan)
}

fn put_ends(alloc: Global, page: &mut Page, given: &Given, plan: &Plan) -> Result<(), Refused> {
    let first = finish(alloc, given, Schedule::FirstLane)?;
    let what = told(alloc, plan, &first)?;
    page.put(what.as_str());
    put_others(alloc, page, given, plan, &first, what.as_str())
}

/// Puts a line for each other order of answers under which a run doesn't come to the same.
fn put_others(
    alloc: Global,
    page: &mut Page,
    given: &Given,
    plan: &Plan,
    first: &Finished,
    what: &str,
) -> Result<(), Refused> {
    for schedule in [Schedule::LastLane, Schedule::Held] {
        if !ends_so(alloc, given, plan, schedule, first, what)? {
            page.put("another order of answers comes to another end\n");
        }
    }
    Ok(())
}

/// Whether a run under this order of answers comes to the same as the first, which is told so.
fn ends_so(
    alloc: Global,
    given: &Given,
    plan: &Plan,
    schedule: Schedule,
    first: &Finished,
    what: &str,
) -> Result<bool, Refused> {
    let other = finish(alloc, given, schedule)?;
    Ok(told(alloc, plan, &other)?.as_str() == what && are_alike(first, &other))
}
