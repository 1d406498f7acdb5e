//! One stanza of the deb822 form.

ghost use Rattle.std.specs.Prelude.{◌≡◌, ◌⊎◌, ◌++◌, Err, All, IfOk, OnOk};
ghost use Rattle.source_lists.specs.Sound.{IsReadBase, IsSound};
ghost use Rattle.source_lists.specs.Stanzas as spec;

use crate::fields::{components_of, enabled_of, options_of, suites_of, types_of, uris_of};
use crate::options::Options;
use crate::values::Types;
use crate::{Entry, ListError};
use acq_base::{NoMemory, Row, Text, TryCopy, Uri};
use deb822_text::{Field, Paragraph, find};
use std::alloc::Global;

/// What an enabled stanza says.
#[derive(Debug, Drop)]
pub struct Stanza {
    pub types: Types,
    pub uris: Row<Uri>,
    pub suites: Row<Text>,
    pub components: Row<Text>,
    pub options: Options,
}

/// Adds the entries of a stanza: none where it is disabled, and else one for each URI and, within it, each suite.
#[tactic(auto, unfolding(crate::specs::Stanzas::stanza_entries, crate::specs::Stanzas::enabled_entries))]
pub fn add_stanza(
    alloc: Global,
    file: &Text,
    arch: &Text,
    paragraph: &Paragraph,
    entries: &mut Row<Entry>,
) -> Result<(), ListError>
    ensures value { spec.Adds result entries.old entries.new (spec.stanza_entries file.now arch.now paragraph.now) }
    ensures sound { All IsSound entries.old → OnOk result (All IsSound entries.new) }
{
    if !enabled_of(alloc, find(paragraph, b"Enabled"))? {
        return Ok(());
    }
    let stanza = read_stanza(alloc, arch, paragraph)?;
    add_entries(
        alloc,
        file,
        first_at(paragraph.fields.as_slice()),
        &stanza,
        entries,
    )?;
    Ok(())
}

/// What an enabled stanza says, its fields judged in order.
#[tactic(auto, unfolding(crate::specs::Stanzas::stanza_of))]
fn read_stanza(alloc: Global, arch: &Text, paragraph: &Paragraph) -> Result<Stanza, ListError>
    ensures value { (result ≡ Err ListError.NoMemory) ⊎ (result ≡ spec.stanza_of arch.now paragraph.now.fields) }
    ensures sound { IfOk result (λ stanza. All IsReadBase stanza.uris) }
{
    let first = first_at(paragraph.fields.as_slice());
    let types = types_of(alloc, first, find(paragraph, b"Types"))?;
    let uris = uris_of(alloc, first, find(paragraph, b"URIs"))?;
    let suites = suites_of(alloc, arch, first, find(paragraph, b"Suites"))?;
    let components = components_of(
        alloc,
        first,
        suites.as_slice(),
        find(paragraph, b"Components"),
    )?;
    let options = options_of(alloc, paragraph)?;
    Ok(Stanza {
        types,
        uris,
        suites,
        components,
        options,
    })
}

/// The line of the first field, 0 where there is none.
fn first_at(fields: &[Field]) -> u64
    ensures { result ≡ spec.first_at fields.now }
{
    match fields {
        [first, ..] => first.at,
        [] => 0,
    }
}

/// Adds an entry for each URI and, within it, each suite.
#[tactic(auto, unfolding(crate::specs::Stanzas::entries_for))]
fn add_entries(
    alloc: Global,
    file: &Text,
    at: u64,
    stanza: &Stanza,
    entries: &mut Row<Entry>,
) -> Result<(), NoMemory>
    ensures { OnOk result (entries.new ≡ entries.old ++ spec.entries_for file.now at stanza.now) }
{
    for uri in stanza.uris.as_slice() {
        add_suites(alloc, file, at, stanza, uri, entries)?;
    }
    Ok(())
}

/// Adds an entry of this URI for each suite.
fn add_suites(
    alloc: Global,
    file: &Text,
    at: u64,
    stanza: &Stanza,
    uri: &Uri,
    entries: &mut Row<Entry>,
) -> Result<(), NoMemory>
    ensures { OnOk result (entries.new ≡ entries.old ++ spec.entries_of_uri file.now at stanza.now uri.now) }
{
    for suite in stanza.suites.as_slice() {
        entries.push(new_entry(alloc, file, at, stanza, uri, suite)?)?;
    }
    Ok(())
}

/// The entry of this URI and this suite.
fn new_entry(
    alloc: Global,
    file: &Text,
    at: u64,
    stanza: &Stanza,
    uri: &Uri,
    suite: &Text,
) -> Result<Entry, NoMemory>
    ensures { IfOk result (λ entry. entry ≡ spec.entry_for file.now at stanza.now uri.now suite.now) }
{
    Ok(Entry {
        file: file.copy(alloc)?,
        line: at,
        binary: stanza.types.binary,
        source: stanza.types.source,
        uri: uri.copy(alloc)?,
        suite: suite.copy(alloc)?,
        components: stanza.components.copy(alloc)?,
        archs: stanza.options.archs.copy(alloc)?,
        by_hash: stanza.options.by_hash,
        pdiffs: stanza.options.pdiffs,
    })
}
