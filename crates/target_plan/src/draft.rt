//! One source of a plan, drafted. It may take memory, and touches nothing else.

ghost use Rattle.std.specs.Prelude.{◌≡◌, IfOk, map};
ghost use Rattle.target_plan.specs.Drafts as spec;
ghost use Rattle.target_plan.specs.Groups.{first_of_each as first_of_each_of};
ghost use Rattle.target_plan.specs.Planning.{GivesDraft};
ghost use Rattle.target_plan.specs.Seen.{seen_entry, seen_group};

use crate::checks::{check_name, check_names};
use crate::groups::Group;
use crate::offers::{Offer, is_exact, offers, place_of};
use crate::places::enter;
use crate::{Place, PlanError};
use acq_base::{ByHash, NoMemory, Row, Settings, Source, Target, Text, TryCopy, Uri};
use kept_hooks::Picker;
use source_lists::Entry;
use std::alloc::Global;
use std::collections::BTreeMap;
use uri_names::{below, list_name};

/// A list that is planned, and where the entry stands that first gave it.
#[derive(Drop)]
pub struct Planned {
    pub target: Target,
    pub origin: Place,
}

impl TryCopy for Planned {
    fn copy(&self, alloc: Global) -> Result<Planned, NoMemory> {
        Ok(Planned {
            target: self.target.copy(alloc)?,
            origin: self.origin.copy(alloc)?,
        })
    }
}

/// A source whose lists are still beside it.
#[derive(Drop)]
pub struct Draft {
    pub source: Source,
    /// Where its first entry stands.
    pub origin: Place,
    pub lists: Row<Planned>,
}

/// The draft of a source, of a first entry and all its entries. A name of a file that is too long is refused.
#[tactic(auto, unfolding(crate::specs::Drafts::draft_of))]
pub fn draft_source(
    alloc: Global,
    group: &Group<&Entry>,
    settings: &Settings,
    picker: &Picker,
) -> Result<Draft, PlanError>
    ensures { GivesDraft (spec.draft_of picker.now.pick settings.now (seen_group seen_entry group.now)) result }
{
    let (first, entries) = group;
    let source = source(alloc, first, entries.as_slice(), settings)?;
    check_name(alloc, &source.release_name)?;
    let offered = offers(alloc, settings, first.suite.as_bytes(), entries.as_slice())?;
    let lists = lists(alloc, first, offered.as_slice(), picker)?;
    check_names(alloc, lists.as_slice())?;
    Ok(Draft {
        source,
        origin: place_of(alloc, first)?,
        lists,
    })
}

/// A source without its lists.
#[tactic(auto, unfolding(crate::specs::Drafts::source_of))]
fn source(
    alloc: Global,
    first: &Entry,
    entries: &[&Entry],
    settings: &Settings,
) -> Result<Source, NoMemory>
    ensures { IfOk result (λ source. source ≡ spec.source_of settings.now first.now (map seen_entry entries.now)) }
{
    let release = file_uri(alloc, first, b"Release")?;
    Ok(Source {
        base: first.uri.copy(alloc)?,
        suite: first.suite.copy(alloc)?,
        release_name: list_name(alloc, &release)?,
        release,
        by_hash: by_hash(settings.by_hash, entries),
        pdiffs: pdiffs(settings.pdiffs, entries),
        targets: Row::new(alloc),
    })
}

/// The by-hash of the first entry that sets it, or else the setting's.
#[tactic(auto, unfolding(crate::specs::Drafts::by_hash_of))]
fn by_hash(setting: ByHash, entries: &[&Entry]) -> ByHash
    ensures { result ≡ spec.by_hash_of setting (map seen_entry entries.now) }
{
    for entry in entries {
        if let Some(by_hash) = entry.by_hash {
            return by_hash;
        }
    }
    setting
}

/// The same of patches.
#[tactic(auto, unfolding(crate::specs::Drafts::pdiffs_of))]
fn pdiffs(setting: bool, entries: &[&Entry]) -> bool
    ensures { result ≡ spec.pdiffs_of setting (map seen_entry entries.now) }
{
    for entry in entries {
        if let Some(pdiffs) = entry.pdiffs {
            return pdiffs;
        }
    }
    setting
}

/// The folder of a source's Release below its base: an exact path, of which `/` is the base itself, or `dists/SUITE/`.
#[tactic(auto, unfolding(crate::specs::Drafts::folder_of))]
fn folder(alloc: Global, suite: &[u8]) -> Result<Text, NoMemory>
    ensures { IfOk result (λ folder. folder ≡ spec.folder_of suite.now) }
{
    if suite == b"/".as_slice() {
        return Ok(Text::new(alloc));
    }
    if is_exact(suite) {
        return Text::from_bytes(alloc, suite);
    }
    let mut folder = Text::from_bytes(alloc, b"dists/")?;
    folder.append(suite)?;
    folder.append(b"/")?;
    Ok(folder)
}

/// The URI of a file in that folder.
fn file_uri(alloc: Global, first: &Entry, path: &[u8]) -> Result<Uri, NoMemory>
    ensures { IfOk result (λ uri. uri ≡ spec.file_uri first.now path.now) }
{
    let mut whole = folder(alloc, first.suite.as_bytes())?;
    whole.append(path)?;
    below(alloc, &first.uri, whole.as_bytes())
}

/// The lists of these offers that are picked; of those of one name the first.
#[tactic(auto, unfolding(crate::specs::Drafts::lists_of))]
fn lists(
    alloc: Global,
    first: &Entry,
    offers: &[Offer],
    picker: &Picker,
) -> Result<Row<Planned>, NoMemory>
    ensures { IfOk result (λ lists. lists ≡ spec.lists_of picker.now.pick first.now offers.now) }
{
    let picked = picked(alloc, first, offers, picker)?;
    first_of_each(alloc, picked.as_slice())
}

/// The lists of these offers that are picked.
pub fn picked(
    alloc: Global,
    first: &Entry,
    offers: &[Offer],
    picker: &Picker,
) -> Result<Vec<Planned>, NoMemory>
    ensures { IfOk result (λ lists. lists.items ≡ spec.picked_of picker.now.pick first.now offers.now) }
{
    let mut lists = Vec::new(alloc);
    for offer in offers {
        let planned = plan_list(alloc, first, offer)?;
        if picker.pick(&planned.target) {
            lists.push(planned)?;
        }
    }
    Ok(lists)
}

/// Of lists of one name the first.
fn first_of_each(alloc: Global, lists: &[Planned]) -> Result<Row<Planned>, NoMemory>
    ensures { IfOk result (λ firsts. firsts ≡ first_of_each_of spec.is_same_name lists.now) }
{
    let mut places = BTreeMap::new(alloc);
    let mut firsts = Row::new(alloc);
    for planned in lists {
        let name = planned.target.name.0.copy(alloc)?;
        let found = enter(&mut places, name, firsts.len())?;
        if found.is_none() {
            firsts.push(planned.copy(alloc)?)?;
        }
    }
    Ok(firsts)
}

fn plan_list(alloc: Global, first: &Entry, offer: &Offer) -> Result<Planned, NoMemory>
    ensures { IfOk result (λ planned. planned ≡ spec.planned_of first.now offer.now) }
{
    let uri = file_uri(alloc, first, offer.path.as_bytes())?;
    let name = list_name(alloc, &uri)?;
    Ok(Planned {
        target: Target {
            path: offer.path.copy(alloc)?,
            uri,
            name,
            kind: offer.kind.copy(alloc)?,
        },
        origin: offer.origin.copy(alloc)?,
    })
}
