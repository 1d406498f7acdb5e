//! Entries in groups, in the order in which each is first named. It may take memory, and touches nothing else.

ghost use Rattle.std.specs.Prelude.{◌≡◌, ◌<◌, IfOk, OnOk, IfSome, length, map, ◌∷◌, []};
ghost use Rattle.target_plan.specs.Drafts.{is_same_source};
ghost use Rattle.target_plan.specs.Groups.{together, entered};
ghost use Rattle.target_plan.specs.Offers.{is_same_component, mentions_in};
ghost use Rattle.target_plan.specs.Seen.{key_of, seen, seen_entry, seen_mention, seen_group};

use crate::places::enter;
use acq_base::{NoMemory, Scheme, Text, TryCopy};
use source_lists::Entry;
use std::alloc::Global;
use std::collections::BTreeMap;

/// An item, and all that are of one group with it, in order.
pub type Group<T> = (T, Vec<T>);

/// A component that an entry names.
#[derive(Clone, Copy)]
pub struct Mention<'a> {
    pub component: &'a Text,
    pub entry: &'a Entry,
}

/// What makes entries those of one source: the base URI, by its parts, and the suite.
#[derive(PartialEq, Eq, PartialOrd, Ord, Drop)]
pub struct SourceKey {
    pub is_file: bool,
    pub host: Text,
    pub port: u16,
    pub path: Text,
    pub suite: Text,
}

fn source_key(alloc: Global, entry: &Entry) -> Result<SourceKey, NoMemory>
    ensures { IfOk result (λ key. key ≡ key_of entry.now) }
{
    Ok(SourceKey {
        is_file: entry.uri.scheme == Scheme::File,
        host: entry.uri.host.copy(alloc)?,
        port: entry.uri.port,
        path: entry.uri.path.copy(alloc)?,
        suite: entry.suite.copy(alloc)?,
    })
}

/// The entries of each source, in the order in which the sources are first named.
pub fn by_source(alloc: Global, entries: &[Entry]) -> Result<Vec<Group<&Entry>>, NoMemory>
    ensures { IfOk result (λ groups. map (seen_group seen_entry) groups.items ≡ together is_same_source entries.now) }
{
    let mut places = BTreeMap::new(alloc);
    let mut groups = Vec::new(alloc);
    for entry in entries {
        let found = enter(&mut places, source_key(alloc, entry)?, groups.len())?;
        add(alloc, &mut groups, found, entry)?;
    }
    Ok(groups)
}

/// The mentions of each component, in the order in which the components are first named.
pub fn by_component<'a>(
    alloc: Global,
    mentions: &[Mention<'a>],
) -> Result<Vec<Group<Mention<'a>>>, NoMemory>
    ensures { IfOk result (λ groups. map (seen_group seen_mention) groups.items
        ≡ together is_same_component (map seen_mention mentions.now)) }
{
    let mut places = BTreeMap::new(alloc);
    let mut groups = Vec::new(alloc);
    for mention in mentions {
        let found = enter(&mut places, mention.component.copy(alloc)?, groups.len())?;
        add(alloc, &mut groups, found, *mention)?;
    }
    Ok(groups)
}

/// Puts an item into the group at a place, or into a new one.
fn add<T: Copy + Drop>(
    alloc: Global,
    groups: &mut Vec<Group<T>>,
    found: Option<usize>,
    item: T,
) -> Result<(), NoMemory>
    requires { IfSome found (λ at. at < length groups.old.items) }
    ensures { OnOk result (map (seen_group seen) groups.new.items ≡ entered found item (map (seen_group seen) groups.old.items)) }
{
    match found {
        Some(at) => groups[at].1.push(item)?,
        None => groups.push((item, one(alloc, item)?))?,
    }
    Ok(())
}

/// One item.
pub fn one<T: Drop>(alloc: Global, item: T) -> Result<Vec<T>, NoMemory>
    ensures { IfOk result (λ items. items.items ≡ item ∷ []) }
{
    let mut items = Vec::new(alloc);
    items.push(item)?;
    Ok(items)
}
