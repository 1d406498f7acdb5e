//! The lists that entries offer, component by component. It may take memory, and touches nothing else.

ghost use Rattle.std.specs.Prelude.{◌≡◌, ◌++◌, IfOk, OnOk, map};
ghost use Rattle.target_plan.specs.Offers as spec;
ghost use Rattle.target_plan.specs.Seen.{seen_entry, seen_mention, seen_group};

use crate::Place;
use crate::architectures::{Asked, asked_architectures};
use crate::groups::{Group, Mention, by_component};
use acq_base::{Kind, NoMemory, Settings, Text, TryCopy};
use source_lists::Entry;
use std::alloc::Global;

/// A list that an entry gives.
#[derive(Drop)]
pub struct Offer {
    /// Where it is below the folder of the source's Release.
    pub path: Text,
    pub kind: Kind,
    pub origin: Place,
}

/// Whether a suite is the exact path of a folder, which ends in `/` (sources.list(5)).
pub fn is_exact(suite: &[u8]) -> bool
    ensures { result ≡ spec.is_exact suite.now }
{
    suite.ends_with(b"/")
}

/// Where an entry stands.
pub fn place_of(alloc: Global, entry: &Entry) -> Result<Place, NoMemory>
    ensures { IfOk result (λ place. place ≡ spec.place_of entry.now) }
{
    Ok(Place {
        file: entry.file.copy(alloc)?,
        line: entry.line,
    })
}

/// What a source's entries offer, in plan order. The same list may come more than once.
#[tactic(auto, unfolding(crate::specs::Offers::offers_of))]
pub fn offers(
    alloc: Global,
    settings: &Settings,
    suite: &[u8],
    entries: &[&Entry],
) -> Result<Vec<Offer>, NoMemory>
    ensures { IfOk result (λ offers. offers.items ≡ spec.offers_of settings.now suite.now (map seen_entry entries.now)) }
{
    if is_exact(suite) {
        exact_offers(alloc, settings, entries)
    } else {
        suite_offers(alloc, settings, entries)
    }
}

/// What the entries of an exact path offer.
#[tactic(auto, unfolding(crate::specs::Offers::exact_offers))]
fn exact_offers(
    alloc: Global,
    settings: &Settings,
    entries: &[&Entry],
) -> Result<Vec<Offer>, NoMemory>
    ensures { IfOk result (λ offers. offers.items ≡ spec.exact_offers settings.now (map seen_entry entries.now)) }
{
    let mut offers = Vec::new(alloc);
    for entry in entries {
        exact_packages(alloc, settings, entry, &mut offers)?;
    }
    for entry in entries {
        exact_sources(alloc, entry, &mut offers)?;
    }
    Ok(offers)
}

fn exact_packages(
    alloc: Global,
    settings: &Settings,
    entry: &Entry,
    offers: &mut Vec<Offer>,
) -> Result<(), NoMemory>
    ensures { OnOk result (offers.new.items ≡ offers.old.items ++ spec.exact_packages settings.now entry.now) }
{
    if entry.binary {
        offers.push(Offer {
            path: Text::from_bytes(alloc, b"Packages")?,
            kind: Kind::Packages(settings.arch.copy(alloc)?),
            origin: place_of(alloc, entry)?,
        })?;
    }
    Ok(())
}

fn exact_sources(alloc: Global, entry: &Entry, offers: &mut Vec<Offer>) -> Result<(), NoMemory>
    ensures { OnOk result (offers.new.items ≡ offers.old.items ++ spec.exact_sources entry.now) }
{
    if entry.source {
        offers.push(Offer {
            path: Text::from_bytes(alloc, b"Sources")?,
            kind: Kind::Sources,
            origin: place_of(alloc, entry)?,
        })?;
    }
    Ok(())
}

/// What entries offer component by component, in the order in which they first name these.
#[tactic(auto, unfolding(crate::specs::Offers::suite_offers))]
fn suite_offers(
    alloc: Global,
    settings: &Settings,
    entries: &[&Entry],
) -> Result<Vec<Offer>, NoMemory>
    ensures { IfOk result (λ offers. offers.items ≡ spec.suite_offers settings.now (map seen_entry entries.now)) }
{
    let mentions = mentions(alloc, entries)?;
    let groups = by_component(alloc, mentions.as_slice())?;
    let mut offers = Vec::new(alloc);
    for group in groups.as_slice() {
        component_offers(alloc, settings, group, &mut offers)?;
    }
    Ok(offers)
}

/// Each component that an entry names, with the entry.
#[tactic(auto, unfolding(crate::specs::Offers::mentions_in))]
fn mentions<'a>(alloc: Global, entries: &[&'a Entry]) -> Result<Vec<Mention<'a>>, NoMemory>
    ensures { IfOk result (λ mentions. map seen_mention mentions.items ≡ spec.mentions_in (map seen_entry entries.now)) }
{
    let mut mentions = Vec::new(alloc);
    for entry in entries {
        mention_all(entry, &mut mentions)?;
    }
    Ok(mentions)
}

fn mention_all<'a>(entry: &'a Entry, mentions: &mut Vec<Mention<'a>>) -> Result<(), NoMemory>
    ensures { OnOk result (map seen_mention mentions.new.items ≡ map seen_mention mentions.old.items ++ spec.mentions_of entry.now) }
{
    for component in entry.components.as_slice() {
        mentions.push(Mention { component, entry })?;
    }
    Ok(())
}

/// What the entries that name a component offer of it: binary packages, source packages, translations.
#[tactic(auto, unfolding(crate::specs::Offers::component_offers))]
pub fn component_offers(
    alloc: Global,
    settings: &Settings,
    group: &Group<Mention<'_>>,
    offers: &mut Vec<Offer>,
) -> Result<(), NoMemory>
    ensures { OnOk result (offers.new.items
        ≡ offers.old.items ++ spec.component_offers settings.now (seen_group seen_mention group.now)) }
{
    let (first, mentions) = group;
    let component = first.component.as_bytes();
    all_packages(alloc, settings, component, mentions.as_slice(), offers)?;
    all_sources(alloc, component, mentions.as_slice(), offers)?;
    all_translations(alloc, settings, component, mentions.as_slice(), offers)?;
    Ok(())
}

#[tactic(auto, unfolding(crate::specs::Offers::packages_offers))]
fn all_packages(
    alloc: Global,
    settings: &Settings,
    component: &[u8],
    mentions: &[Mention<'_>],
    offers: &mut Vec<Offer>,
) -> Result<(), NoMemory>
    ensures { OnOk result (offers.new.items
        ≡ offers.old.items ++ spec.packages_offers settings.now component.now (map seen_mention mentions.now)) }
{
    let asked = asked_architectures(alloc, settings, mentions)?;
    for asked in asked.as_slice() {
        offers.push(packages_offer(alloc, component, asked)?)?;
    }
    Ok(())
}

#[tactic(auto, unfolding(crate::specs::Offers::sources_offers))]
fn all_sources(
    alloc: Global,
    component: &[u8],
    mentions: &[Mention<'_>],
    offers: &mut Vec<Offer>,
) -> Result<(), NoMemory>
    ensures { OnOk result (offers.new.items ≡ offers.old.items ++ spec.sources_offers component.now (map seen_mention mentions.now)) }
{
    for mention in mentions {
        if mention.entry.source {
            offers.push(sources_offer(alloc, component, mention.entry)?)?;
            return Ok(());
        }
    }
    Ok(())
}

#[tactic(auto, unfolding(crate::specs::Offers::translation_offers))]
fn all_translations(
    alloc: Global,
    settings: &Settings,
    component: &[u8],
    mentions: &[Mention<'_>],
    offers: &mut Vec<Offer>,
) -> Result<(), NoMemory>
    ensures { OnOk result (offers.new.items
        ≡ offers.old.items ++ spec.translation_offers settings.now component.now (map seen_mention mentions.now)) }
{
    for mention in mentions {
        if mention.entry.binary {
            translations(alloc, settings, component, mention.entry, offers)?;
            return Ok(());
        }
    }
    Ok(())
}

fn packages_offer(alloc: Global, component: &[u8], asked: &Asked<'_>) -> Result<Offer, NoMemory>
    ensures { IfOk result (λ offer. offer ≡ spec.packages_of component.now asked.now.entry.now asked.now.arch.now) }
{
    let mut path = Text::from_bytes(alloc, component)?;
    path.append(b"/binary-")?;
    path.append(asked.arch.as_bytes())?;
    path.append(b"/Packages")?;
    Ok(Offer {
        path,
        kind: Kind::Packages(asked.arch.copy(alloc)?),
        origin: place_of(alloc, asked.entry)?,
    })
}

fn sources_offer(alloc: Global, component: &[u8], entry: &Entry) -> Result<Offer, NoMemory>
    ensures { IfOk result (λ offer. offer ≡ spec.sources_of component.now entry.now) }
{
    let mut path = Text::from_bytes(alloc, component)?;
    path.append(b"/source/Sources")?;
    Ok(Offer {
        path,
        kind: Kind::Sources,
        origin: place_of(alloc, entry)?,
    })
}

/// Appends the descriptions in each language.
fn translations(
    alloc: Global,
    settings: &Settings,
    component: &[u8],
    entry: &Entry,
    offers: &mut Vec<Offer>,
) -> Result<(), NoMemory>
    ensures { OnOk result (offers.new.items
        ≡ offers.old.items ++ map (spec.translation_of component.now entry.now) settings.now.langs) }
{
    for language in settings.langs.as_slice() {
        offers.push(translation_offer(alloc, component, entry, language)?)?;
    }
    Ok(())
}

fn translation_offer(
    alloc: Global,
    component: &[u8],
    entry: &Entry,
    language: &Text,
) -> Result<Offer, NoMemory>
    ensures { IfOk result (λ offer. offer ≡ spec.translation_of component.now entry.now language.now) }
{
    let mut path = Text::from_bytes(alloc, component)?;
    path.append(b"/i18n/Translation-")?;
    path.append(language.as_bytes())?;
    Ok(Offer {
        path,
        kind: Kind::Translation(language.copy(alloc)?),
        origin: place_of(alloc, entry)?,
    })
}
