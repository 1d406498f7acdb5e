//! The plan of entries. It may take memory, and touches nothing else.

ghost use Rattle.std.specs.Prelude.{◌≡◌, ◌≢◌, ◌≤◌, ◌⊎◌, Err, map, length, true, All, AllPairs, OnOk, IfOk};
ghost use Rattle.std.specs.List.{list_any};
ghost use Rattle.acq_base.specs.Plan.{plan_names, IsSound};
ghost use Rattle.acq_base.specs.Settings.{IsSound as IsSoundSettings};
ghost use Rattle.source_lists.specs.Sound.{IsSound as IsSoundEntry};
ghost use Rattle.target_plan.specs.declared.error.PlanError.TheVariants.{NoMemory as OutOfMemory};
ghost use Rattle.target_plan.specs.Drafts as spec;
ghost use Rattle.target_plan.specs.Asked.{IsAskedFor, PlansAll};
ghost use Rattle.target_plan.specs.Planned.{names, HasPicked, HasNames};
ghost use Rattle.target_plan.specs.Planning.{plan_of, GivesDrafts};
ghost use Rattle.target_plan.specs.Seen.{seen_entry, seen_group};

use crate::PlanError;
use crate::checks::{File, append_files, check_clashes, check_count};
use crate::draft::{Draft, Planned, draft_source};
use crate::groups::{Group, by_source};
use crate::overfull::is_overfull;
use acq_base::{NoMemory, Plan, Row, Settings, Source, Target, TryCopy};
use kept_hooks::Picker;
use source_lists::Entry;
use std::alloc::Global;
use uri_names::files_below_are_sound;

/// The plan of these entries: the sources in the order in which the entries first name them, each with its lists in plan
/// order, as far as the picker has them (sources.list(5)).
///
/// The first of three refusals comes that holds: `LongName`, where a list name has more than 240 bytes; `Clash`, where
/// two sources have a file of one name; `TooMany`, where sources and lists together are more than 4,096. The only other
/// error is `NoMemory`. Its time grows as n log n with the number n of lists that the entries give.
#[tactic(auto, unfolding(crate::specs::Planning::plan_of, crate::specs::Planning::refusal_of, crate::specs::Drafts::drafts_of))]
pub fn plan(
    alloc: Global,
    entries: &Row<Entry>,
    settings: &Settings,
    picker: &Picker,
) -> Result<Plan, PlanError>
    ensures value { (result ≡ Err OutOfMemory) ⊎ (result ≡ plan_of picker.now.pick settings.now entries.now) }
    // A source is planned exactly where some entry names it.
    ensures each_entry { IfOk result (λ plan. All (λ entry. list_any (λ source. names source entry) plan.sources ≡ true) entries.now) }
    ensures each_source { IfOk result (λ plan. All (λ source. list_any (names source) entries.now ≡ true) plan.sources) }
    // A source's targets are those that some entry asks for that names the source, of the kinds that are switched on. Of two with
    // one list name one is enough.
    ensures asked { IfOk result (λ plan. All (λ source. All (IsAskedFor settings.now entries.now source) source.targets) plan.sources) }
    ensures complete { IfOk result (λ plan. All (PlansAll picker.now.pick settings.now entries.now) plan.sources) }
    ensures picked { IfOk result (λ plan. All (HasPicked picker.now.pick) plan.sources) }
    ensures named { IfOk result (λ plan. All HasNames plan.sources) }
    // No two of its sources and lists have one name.
    ensures distinct { IfOk result (λ plan. AllPairs (λ a b. a ≢ b) (plan_names plan)) }
    ensures short { IfOk result (λ plan. All (λ name. length name ≤ 240) (plan_names plan)) }
    ensures few { IfOk result (λ plan. length (plan_names plan) ≤ 4096) }
    // What the readers give has a sound plan.
    ensures sound { All IsSoundEntry entries.now → IsSoundSettings settings.now → IfOk result IsSound }
{
    if is_overfull(alloc, entries.as_slice(), settings, picker)? {
        return Err(PlanError::TooMany);
    }
    let groups = by_source(alloc, entries.as_slice())?;
    let drafts = drafts(alloc, groups.as_slice(), settings, picker)?;
    let files = files(alloc, drafts.as_slice())?;
    check_clashes(alloc, files.as_slice())?;
    check_count(files.as_slice())?;
    files_below_are_sound();
    Ok(Plan {
        sources: sources(alloc, drafts.as_slice())?,
    })
}

/// The draft of each source, unless a name is too long.
fn drafts(
    alloc: Global,
    groups: &[Group<&Entry>],
    settings: &Settings,
    picker: &Picker,
) -> Result<Vec<Draft>, PlanError>
    ensures { GivesDrafts (map (spec.draft_of picker.now.pick settings.now) (map (seen_group seen_entry) groups.now)) result }
{
    let mut drafts = Vec::new(alloc);
    for group in groups {
        drafts.push(draft_source(alloc, group, settings, picker)?)?;
    }
    Ok(drafts)
}

/// The files of all sources, in plan order.
#[tactic(auto, unfolding(crate::specs::Drafts::files_in))]
fn files(alloc: Global, drafts: &[Draft]) -> Result<Vec<File>, NoMemory>
    ensures { IfOk result (λ files. files.items ≡ spec.files_in drafts.now) }
{
    let mut files = Vec::new(alloc);
    for draft in drafts {
        append_files(alloc, draft, &mut files)?;
    }
    Ok(files)
}

/// The sources with their lists.
fn sources(alloc: Global, drafts: &[Draft]) -> Result<Row<Source>, NoMemory>
    ensures { IfOk result (λ sources. sources ≡ map spec.finished drafts.now) }
{
    let mut sources = Row::new(alloc);
    for draft in drafts {
        sources.push(finished(alloc, draft)?)?;
    }
    Ok(sources)
}

#[tactic(auto, unfolding(crate::specs::Drafts::finished))]
fn finished(alloc: Global, draft: &Draft) -> Result<Source, NoMemory>
    ensures { IfOk result (λ source. source ≡ spec.finished draft.now) }
{
    let mut source = draft.source.copy(alloc)?;
    source.targets = targets(alloc, draft.lists.as_slice())?;
    Ok(source)
}

fn targets(alloc: Global, lists: &[Planned]) -> Result<Row<Target>, NoMemory>
    ensures { IfOk result (λ targets. targets ≡ map spec.target_in lists.now) }
{
    let mut targets = Row::new(alloc);
    for planned in lists {
        targets.push(planned.target.copy(alloc)?)?;
    }
    Ok(targets)
}
