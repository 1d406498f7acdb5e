//! The architectures that entries ask for. It may take memory, and touches nothing else.

ghost use Rattle.std.specs.Prelude.{◌≡◌, ◌++◌, IfOk, OnOk, map};
ghost use Rattle.target_plan.specs.Groups.{first_of_each};
ghost use Rattle.target_plan.specs.Offers as spec;
ghost use Rattle.target_plan.specs.Seen.{seen_asked, seen_mention};

use crate::groups::Mention;
use crate::places::enter;
use acq_base::{NoMemory, Settings, Text, TryCopy};
use source_lists::Entry;
use std::alloc::Global;
use std::collections::BTreeMap;

/// An architecture that an entry asks for.
#[derive(Clone, Copy)]
pub struct Asked<'a> {
    pub arch: &'a Text,
    pub entry: &'a Entry,
}

/// The architectures that entries of the type `deb` ask for, in the order in which they are first asked for.
pub fn asked_architectures<'a>(
    alloc: Global,
    settings: &'a Settings,
    mentions: &[Mention<'a>],
) -> Result<Vec<Asked<'a>>, NoMemory>
    ensures { IfOk result (λ asked. map seen_asked asked.items
        ≡ first_of_each spec.is_same_arch (spec.asked_in settings.now (map seen_mention mentions.now))) }
{
    let asked = asked_in(alloc, settings, mentions)?;
    first_asked(alloc, asked.as_slice())
}

/// Each architecture that an entry asks for. The same may come more than once.
#[tactic(auto, unfolding(crate::specs::Offers::asked_in))]
fn asked_in<'a>(
    alloc: Global,
    settings: &'a Settings,
    mentions: &[Mention<'a>],
) -> Result<Vec<Asked<'a>>, NoMemory>
    ensures { IfOk result (λ asked. map seen_asked asked.items ≡ spec.asked_in settings.now (map seen_mention mentions.now)) }
{
    let mut asked = Vec::new(alloc);
    for mention in mentions {
        ask_all(settings, mention.entry, &mut asked)?;
    }
    Ok(asked)
}

/// Appends the architectures that an entry of the type `deb` names, or the setting's.
fn ask_all<'a>(
    settings: &'a Settings,
    entry: &'a Entry,
    asked: &mut Vec<Asked<'a>>,
) -> Result<(), NoMemory>
    ensures { OnOk result (map seen_asked asked.new.items
        ≡ map seen_asked asked.old.items ++ spec.asked_by_entry settings.now entry.now) }
{
    if !entry.binary {
        return Ok(());
    }
    for arch in architectures(settings, entry) {
        asked.push(Asked { arch, entry })?;
    }
    Ok(())
}

/// The architectures that an entry names, or the setting's.
fn architectures<'a>(settings: &'a Settings, entry: &'a Entry) -> &'a [Text]
    ensures { result.now ≡ spec.architectures settings.entry.now entry.entry.now }
{
    match &entry.archs {
        Some(archs) => archs.as_slice(),
        None => settings.archs.as_slice(),
    }
}

/// Of those of one architecture the first.
fn first_asked<'a>(alloc: Global, asked: &[Asked<'a>]) -> Result<Vec<Asked<'a>>, NoMemory>
    ensures { IfOk result (λ firsts. map seen_asked firsts.items ≡ first_of_each spec.is_same_arch (map seen_asked asked.now)) }
{
    let mut places = BTreeMap::new(alloc);
    let mut firsts = Vec::new(alloc);
    for item in asked {
        let found = enter(&mut places, item.arch.copy(alloc)?, firsts.len())?;
        if found.is_none() {
            firsts.push(*item)?;
        }
    }
    Ok(firsts)
}
