//! Whether sources and lists are too many, told from their names alone. It may take memory, and touches nothing else.
//!
//! Only where no name is too long and no two files have one name are they told to be too many. What isn't so plain as
//! that each source has one entry, whose suite is no exact path, is left to the drafts. So no source is looked up here.

ghost use Rattle.std.specs.Prelude.{◌≡◌, ◌≢◌, ◌∷◌, [], IfOk, IfSome, fold, map, length, true, Some, AllPairs, ◌<◌};
ghost use Rattle.acq_base.specs.Uri.{port_text};
ghost use Rattle.target_plan.specs.declared.error.PlanError.TheVariants.{TooMany};
ghost use Rattle.target_plan.specs.Drafts as drafts;
ghost use Rattle.target_plan.specs.Drafts.{is_same_source};
ghost use Rattle.target_plan.specs.Groups.{together};
ghost use Rattle.target_plan.specs.Marks as spec;
ghost use Rattle.target_plan.specs.Offers as offered;
ghost use Rattle.target_plan.specs.Planning.{refusal_of};

use crate::checks::{LONGEST_NAME, MOST_FILES};
use crate::draft::picked;
use crate::groups::{Mention, one};
use crate::marks::{Mark, START, are_distinct, is_plain, over, over_escaped};
use crate::offers::{Offer, component_offers, is_exact};
use acq_base::{NoMemory, Scheme, Settings, Text, TryCopy, Uri};
use kept_hooks::Picker;
use source_lists::Entry;
use std::alloc::Global;
use uri_names::list_name;

/// Whether the sources of these entries and their lists are too many for a plan, and nothing else is wrong with them.
pub fn is_overfull(
    alloc: Global,
    entries: &[Entry],
    settings: &Settings,
    picker: &Picker,
) -> Result<bool, NoMemory>
    ensures { IfOk result (λ over. over ≡ true
        → refusal_of (drafts.files_in (drafts.drafts_of picker.now.pick settings.now entries.now)) ≡ Some TooMany) }
{
    if !are_alone(alloc, entries)? {
        return Ok(false);
    }
    let Some(model) = entries.first() else {
        return Ok(false);
    };
    let Some(tails) = tails(alloc, model, settings, picker)? else {
        return Ok(false);
    };
    let mut digests = Vec::new(alloc);
    for entry in entries {
        if !mark_source(
            alloc,
            entry,
            settings,
            picker,
            model,
            tails.as_slice(),
            &mut digests,
        )? {
            return Ok(false);
        }
    }
    if digests.len() <= MOST_FILES {
        return Ok(false);
    }
    Ok(are_distinct(digests))
}

/// Whether no two of these entries are told to be of one source.
fn are_alone(alloc: Global, entries: &[Entry]) -> Result<bool, NoMemory>
    ensures { IfOk result (λ alone. alone ≡ true → together is_same_source entries.now ≡ map spec.alone entries.now) }
{
    let mut digests = Vec::new(alloc);
    for entry in entries {
        let Some(folder) = folder_mark(alloc, entry)? else {
            return Ok(false);
        };
        digests.push(folder.digest)?;
    }
    Ok(are_distinct(digests))
}

/// Appends the digests of the files of an entry's source, where that has no other entry, is plain, and no name is too long.
/// These are the tails of a model.
fn mark_source(
    alloc: Global,
    entry: &Entry,
    settings: &Settings,
    picker: &Picker,
    model: &Entry,
    tails_of_model: &[Text],
    digests: &mut Vec<u64>,
) -> Result<bool, NoMemory>
    requires { spec.AreTails picker.now.pick settings.now model.now tails_of_model.now }
    ensures { IfOk result (λ all. all ≡ true
        → spec.AreMarked (spec.names_of picker.now.pick settings.now (spec.alone entry.now)) digests.old.items digests.new.items) }
{
    let Some(folder) = folder_mark(alloc, entry)? else {
        return Ok(false);
    };
    if !are_apart(alloc, entry.components.as_slice())? {
        return Ok(false);
    }
    if is_alike(model, entry) {
        return mark_files(folder, entry.components.as_slice(), tails_of_model, digests);
    }
    let Some(tails) = tails(alloc, entry, settings, picker)? else {
        return Ok(false);
    };
    mark_files(
        folder,
        entry.components.as_slice(),
        tails.as_slice(),
        digests,
    )
}

/// Whether two entries offer the same of each component.
fn is_alike(a: &Entry, b: &Entry) -> bool
    ensures { result ≡ true → spec.IsAlike a.now b.now }
{
    a.binary == b.binary && a.source == b.source && a.archs.is_none() && b.archs.is_none()
}

/// The mark of the names in a source's folder, where that is no exact path and no dot segments are in it.
fn folder_mark(alloc: Global, first: &Entry) -> Result<Option<Mark>, NoMemory>
    ensures { IfOk result (λ found. IfSome found (spec.IsFolderMark first.now)) }
{
    let suite = first.suite.as_bytes();
    let path = first.uri.path.as_bytes();
    if is_exact(suite) || !is_plain(path) || !is_plain(suite) {
        return Ok(None);
    }
    let head = head_mark(alloc, &first.uri)?;
    Ok(Some(over_folder(head, path, suite)))
}

/// The mark behind what stands in list names for a path and `dists/SUITE/`.
fn over_folder(head: Mark, path: &[u8], suite: &[u8]) -> Mark
    ensures { result ≡ spec.behind_folder head path.now suite.now }
{
    let base = over_escaped(head, path);
    let dists = over_escaped(base, b"dists/");
    over_escaped(over_escaped(dists, suite), b"/")
}

/// The mark of what stands before a URI's path in its list name.
#[tactic(auto, unfolding(crate::specs::Marks::head_of_parts), using(crate::proofs::FolderMark::mark_behind))]
fn head_mark(alloc: Global, uri: &Uri) -> Result<Mark, NoMemory>
    ensures { IfOk result (λ mark. mark ≡ spec.mark_of (spec.head_of uri.now)) }
{
    match uri.scheme {
        Scheme::Http => over_port(alloc, over_escaped(START, uri.host.as_bytes()), uri.port),
        Scheme::File => Ok(START),
    }
}

/// The mark behind what stands in list names for `:` and the port, or for nothing where that is http's own.
fn over_port(alloc: Global, front: Mark, port: u16) -> Result<Mark, NoMemory>
    ensures { IfOk result (λ mark. mark ≡ fold spec.step front (spec.escaped (port_text port))) }
{
    if port == 80 {
        return Ok(front);
    }
    let written = format!(in alloc; ":{port}")?;
    Ok(over_escaped(front, written.as_bytes()))
}

/// Whether no two of these components are told to be the same.
fn are_apart(alloc: Global, components: &[Text]) -> Result<bool, NoMemory>
    ensures { IfOk result (λ apart. apart ≡ true → AllPairs (λ a b. a ≢ b) components.now) }
{
    if components.len() <= 1 {
        return Ok(true);
    }
    let mut digests = Vec::new(alloc);
    for component in components {
        digests.push(over(START, component.as_bytes()).digest)?;
    }
    Ok(are_distinct(digests))
}

/// What stands behind a component in the names of the lists that an entry gives of it, where no dot segments are in it.
fn tails(
    alloc: Global,
    entry: &Entry,
    settings: &Settings,
    picker: &Picker,
) -> Result<Option<Vec<Text>>, NoMemory>
    ensures { IfOk result (λ found. IfSome found (λ tails. spec.AreTails picker.now.pick settings.now entry.now tails.items)) }
{
    let offers = bare_offers(alloc, settings, entry)?;
    let picked = picked(alloc, entry, offers.as_slice(), picker)?;
    let mut tails = Vec::new(alloc);
    for planned in picked.as_slice() {
        if !is_plain(planned.target.path.as_bytes()) {
            return Ok(None);
        }
        tails.push(escaped(alloc, &planned.target.path)?)?;
    }
    Ok(Some(tails))
}

/// What an entry offers of a component without a name.
fn bare_offers(alloc: Global, settings: &Settings, entry: &Entry) -> Result<Vec<Offer>, NoMemory>
    ensures { IfOk result (λ offers. offers.items ≡ spec.bare_offers settings.now entry.now) }
{
    let component = Text::new(alloc);
    let mention = Mention {
        component: &component,
        entry,
    };
    let mut offers = Vec::new(alloc);
    component_offers(
        alloc,
        settings,
        &(mention, one(alloc, mention)?),
        &mut offers,
    )?;
    Ok(offers)
}

/// What stands in a list name for a part of a path.
#[tactic(auto, unfolding(acq_base::specs::Uri::name_of_parts))]
fn escaped(alloc: Global, path: &Text) -> Result<Text, NoMemory>
    ensures { IfOk result (λ text. text ≡ spec.escaped path.now) }
{
    let uri = Uri {
        scheme: Scheme::File,
        host: Text::new(alloc),
        port: 0,
        path: path.copy(alloc)?,
    };
    Ok(list_name(alloc, &uri)?.0)
}

/// Appends the digests of a Release and of the lists of each component, where these have no dot segments and no name is
/// too long.
fn mark_files(
    folder: Mark,
    components: &[Text],
    tails: &[Text],
    digests: &mut Vec<u64>,
) -> Result<bool, NoMemory>
    ensures { IfOk result (λ all. all ≡ true → spec.MarksFiles folder components.now tails.now digests.old.items digests.new.items) }
{
    let release = over(folder, b"Release");
    if release.size > LONGEST_NAME as u64 {
        return Ok(false);
    }
    digests.push(release.digest)?;
    for component in components {
        let component = component.as_bytes();
        if !is_plain(component) || !mark_lists(over_escaped(folder, component), tails, digests)? {
            return Ok(false);
        }
    }
    Ok(true)
}

/// Appends the digests of a component's lists, where no name is too long.
fn mark_lists(front: Mark, tails: &[Text], digests: &mut Vec<u64>) -> Result<bool, NoMemory>
    ensures { IfOk result (λ all. all ≡ true → spec.MarksLists front tails.now digests.old.items digests.new.items) }
{
    for tail in tails {
        let mark = over(front, tail.as_bytes());
        if mark.size > LONGEST_NAME as u64 {
            return Ok(false);
        }
        digests.push(mark.digest)?;
    }
    Ok(true)
}
