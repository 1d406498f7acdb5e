//! Plans of sources lists, with the settings that nothing sets otherwise.
ghost use Rattle.std.specs.Prelude.{◌≡◌};
ghost use Rattle.kept_hooks.specs.Picking.{is_picked};

use crate::lists::{self, form_of};
use acq_base::{Kind, Pick, Plan, Row, Settings, Source, Target};
use apt_conf::{new, settings};
use case_words::{Page, Refused, has, readable, yes_or_no};
use kept_hooks::Picker;
use source_lists::Entry;
use std::alloc::Global;
use target_plan::{PlanError, plan};

fn is_wanted(pick: &Pick, target: &Target) -> bool
    ensures { result ≡ is_picked pick.now target.now }
{
    match target.kind {
        Kind::Packages(_) => pick.packages,
        Kind::Sources => pick.sources,
        Kind::Translation(_) => pick.translations,
    }
}

/// What a picker whose closure looks at the kind answers on a list.
fn picks(alloc: Global, pick: Pick, target: &Target) -> Result<bool, Refused> {
    let test = Box::new(alloc, move |target: &Target| is_wanted(&pick, target))?;
    let picker = Picker::new(test, pick);
    Ok(picker.pick(target))
}

/// The plan of entries, of the lists whose kind is switched on.
fn plan_entries(
    alloc: Global,
    entries: &Row<Entry>,
    settings: &Settings,
) -> Result<Result<Plan, PlanError>, Refused> {
    let pick = settings.pick;
    let test = Box::new(alloc, move |target: &Target| is_wanted(&pick, target))?;
    let picker = Picker::new(test, pick);
    Ok(plan(alloc, entries, settings, &picker))
}

/// The settings that a configuration without a file gives.
pub fn usual(alloc: Global) -> Result<Settings, Refused> {
    readable(settings(alloc, &new(alloc)))
}

/// The plan of a text, or the refusal of the plan.
fn planned(alloc: Global, form: &[u8], text: &[u8]) -> Result<Result<Plan, PlanError>, Refused> {
    let form = form_of(form)?;
    let settings = usual(alloc)?;
    let entries = readable(lists::read(alloc, form, text, &settings.arch))?;
    plan_entries(alloc, &entries, &settings)
}

/// The plan of a text in the one-line form.
pub fn plan_of(alloc: Global, text: &[u8]) -> Result<Plan, Refused> {
    readable(planned(alloc, b"lines", text)?)
}

/// Appends the names of a plan's files, a line for each source, or why there is none.
pub fn put_told(alloc: Global, page: &mut Page, form: &[u8], text: &[u8]) -> Result<(), Refused> {
    match planned(alloc, form, text)? {
        Ok(plan) => put_sources(page, plan.sources.as_slice()),
        Err(refusal) => put_refused(page, &refusal),
    }
    Ok(())
}

fn put_sources(page: &mut Page, sources: &[Source]) {
    for source in sources {
        if !page.is_empty() {
            page.put("\n");
        }
        put_source(page, source);
    }
    if page.is_empty() {
        page.put("no source");
    }
}

fn put_source(page: &mut Page, source: &Source) {
    page.put_name(source.release_name.0.as_bytes());
    for target in source.targets.as_slice() {
        page.put(" ");
        page.put_name(target.name.0.as_bytes());
    }
}

/// Appends a source's base, its suite, and the paths of its lists.
pub fn put_paths(page: &mut Page, source: &Source) {
    page.put_name(source.base.host.as_bytes());
    page.put_name(source.base.path.as_bytes());
    page.put(" ");
    page.put_name(source.suite.as_bytes());
    for target in source.targets.as_slice() {
        page.put(" ");
        page.put_name(target.path.as_bytes());
    }
}

fn put_refused(page: &mut Page, refusal: &PlanError) {
    page.put_refusal(refusal);
    match refusal {
        PlanError::LongName(name) => {
            page.show(format_args!(": {} bytes, ", name.0.len()));
            page.put_name(name.0.as_bytes());
        }
        PlanError::Clash { first, second } => {
            page.show(format_args!(": entries at {} and {}", first.line, second.line));
        }
        PlanError::TooMany | PlanError::NoMemory => {}
    }
}

/// Appends how many sources and lists a plan has.
pub fn put_size(alloc: Global, page: &mut Page, form: &[u8], text: &[u8]) -> Result<(), Refused> {
    match planned(alloc, form, text)? {
        Ok(plan) => put_counts(page, plan.sources.as_slice()),
        Err(refusal) => put_refused(page, &refusal),
    }
    Ok(())
}

fn put_counts(page: &mut Page, sources: &[Source]) {
    let mut lists: u64 = 0;
    for source in sources {
        lists = lists.saturating_add(source.targets.len() as u64);
    }
    page.show(format_args!("sources {}, lists {lists}", sources.len()));
}

/// Appends what a picker with these kinds answers on each list of a plan.
pub fn put_picked(
    alloc: Global,
    page: &mut Page,
    flags: &[u8],
    text: &[u8],
) -> Result<(), Refused> {
    let pick = Pick {
        packages: has(flags, b"packages"),
        sources: has(flags, b"sources"),
        translations: has(flags, b"translations"),
    };
    let plan = plan_of(alloc, text)?;
    for source in plan.sources.as_slice() {
        put_picks(alloc, page, pick, source.targets.as_slice())?;
    }
    Ok(())
}

fn put_picks(
    alloc: Global,
    page: &mut Page,
    pick: Pick,
    targets: &[Target],
) -> Result<(), Refused> {
    for target in targets {
        let picked = yes_or_no(picks(alloc, pick, target)?);
        page.put_name(target.path.as_bytes());
        page.show(format_args!(" {picked};"));
    }
    Ok(())
}
