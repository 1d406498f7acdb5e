//! The fields of a stanza.

ghost use Rattle.std.specs.Prelude.{◌≡◌, ◌⊎◌, Err, All, IfOk, option_copied};
ghost use Rattle.std.specs.List.{flat_map};
ghost use Rattle.acq_base.specs.Words.{is_blank, words as words_of};
ghost use Rattle.source_lists.specs.Sound.{IsReadBase};
ghost use Rattle.source_lists.specs.Stanzas as spec;
ghost use Rattle.source_lists.specs.Steps.{each};
ghost use Rattle.source_lists.specs.Values.{base_at as base_of, suite_at as suite_of, by_hash_of as by_hash_in, boolean_of as boolean_in};

use crate::ListError;
use crate::options::Options;
use crate::suites::suite_at;
use crate::values::{
    Types, architectures, base_at, boolean_of, by_hash_of, components_at, types_at,
};
use acq_base::{ByHash, NoMemory, Row, Text, Uri, words};
use deb822_text::{Field, Paragraph, find};
use std::alloc::Global;

/// The words of a field, on all its lines.
#[tactic(auto, unfolding(crate::specs::Stanzas::field_words))]
fn field_words(alloc: Global, field: &Field) -> Result<Row<Text>, NoMemory>
    ensures { IfOk result (λ found. found ≡ spec.field_words field.now) }
{
    line_words(alloc, field.lines.as_slice())
}

/// The words of all these lines.
fn line_words(alloc: Global, lines: &[Text]) -> Result<Row<Text>, NoMemory>
    ensures { IfOk result (λ found. found ≡ flat_map (words_of is_blank) lines.now) }
{
    let mut found = Vec::new(alloc);
    for line in lines {
        let mut more = words(alloc, line.as_bytes())?.into_vec();
        found.append(&mut more)?;
    }
    Ok(Row::from(found))
}

/// The line of a field, or that of the stanza's first field where it isn't there.
fn line_of(first: u64, field: Option<&Field>) -> u64
    ensures { result ≡ spec.line_of first (option_copied field.entry) }
{
    match field {
        Some(field) => field.at,
        None => first,
    }
}

/// The words of a field, none where it isn't there.
fn words_in(alloc: Global, field: Option<&Field>) -> Result<Row<Text>, NoMemory>
    ensures { IfOk result (λ found. found ≡ spec.words_in (option_copied field.entry)) }
{
    match field {
        Some(field) => field_words(alloc, field),
        None => Ok(Row::new(alloc)),
    }
}

/// The words of a field that must be there, with at least one.
#[tactic(auto, unfolding(crate::specs::Stanzas::some_words))]
fn some_words(alloc: Global, first: u64, field: Option<&Field>) -> Result<Row<Text>, ListError>
    ensures { (result ≡ Err ListError.NoMemory) ⊎ (result ≡ spec.some_words first (option_copied field.entry)) }
{
    let found = words_in(alloc, field)?;
    if found.is_empty() {
        return Err(ListError::BadLine(line_of(first, field)));
    }
    Ok(found)
}

/// The types that a field names.
#[tactic(auto, unfolding(crate::specs::Stanzas::types_of))]
pub fn types_of(alloc: Global, first: u64, field: Option<&Field>) -> Result<Types, ListError>
    ensures { (result ≡ Err ListError.NoMemory) ⊎ (result ≡ spec.types_of first (option_copied field.entry)) }
{
    let found = some_words(alloc, first, field)?;
    types_at(line_of(first, field), found.as_slice())
}

/// The base URIs that a field names.
#[tactic(auto, unfolding(crate::specs::Stanzas::uris_of))]
pub fn uris_of(alloc: Global, first: u64, field: Option<&Field>) -> Result<Row<Uri>, ListError>
    ensures value { (result ≡ Err ListError.NoMemory) ⊎ (result ≡ spec.uris_of first (option_copied field.entry)) }
    ensures sound { IfOk result (All IsReadBase) }
{
    let found = some_words(alloc, first, field)?;
    bases_at(alloc, line_of(first, field), found.as_slice())
}

/// The base URIs that words of this line are.
fn bases_at(alloc: Global, at: u64, words: &[Text]) -> Result<Row<Uri>, ListError>
    ensures value { (result ≡ Err ListError.NoMemory) ⊎ (result ≡ each (base_of at) words.now) }
    ensures sound { IfOk result (All IsReadBase) }
{
    let mut bases = Row::new(alloc);
    for word in words {
        bases.push(base_at(alloc, at, word.as_bytes())?)?;
    }
    Ok(bases)
}

/// The suites that a field names, on a machine of this architecture.
#[tactic(auto, unfolding(crate::specs::Stanzas::suites_of))]
pub fn suites_of(
    alloc: Global,
    arch: &Text,
    first: u64,
    field: Option<&Field>,
) -> Result<Row<Text>, ListError>
    ensures { (result ≡ Err ListError.NoMemory) ⊎ (result ≡ spec.suites_of arch.now first (option_copied field.entry)) }
{
    let found = some_words(alloc, first, field)?;
    suites_at(
        alloc,
        arch.as_bytes(),
        line_of(first, field),
        found.as_slice(),
    )
}

/// The suites that words of this line are.
fn suites_at(alloc: Global, arch: &[u8], at: u64, words: &[Text]) -> Result<Row<Text>, ListError>
    ensures { (result ≡ Err ListError.NoMemory) ⊎ (result ≡ each (suite_of arch.now at) words.now) }
{
    let mut suites = Row::new(alloc);
    for word in words {
        suites.push(suite_at(alloc, arch, at, word.as_bytes())?)?;
    }
    Ok(suites)
}

/// The components that a field names for these suites, none where it isn't there.
#[tactic(auto, unfolding(crate::specs::Stanzas::components_of))]
pub fn components_of(
    alloc: Global,
    first: u64,
    suites: &[Text],
    field: Option<&Field>,
) -> Result<Row<Text>, ListError>
    ensures { (result ≡ Err ListError.NoMemory) ⊎ (result ≡ spec.components_of first suites.now (option_copied field.entry)) }
{
    components_at(line_of(first, field), suites, words_in(alloc, field)?)
}

/// The architectures that a field names.
#[tactic(auto, unfolding(crate::specs::Stanzas::architectures_of))]
fn architectures_of(alloc: Global, field: &Field) -> Result<Row<Text>, ListError>
    ensures { (result ≡ Err ListError.NoMemory) ⊎ (result ≡ spec.architectures_of field.now) }
{
    match architectures(field_words(alloc, field)?) {
        Some(archs) => Ok(archs),
        None => Err(ListError::BadLine(field.at)),
    }
}

/// What a field says of fetching lists under their digests.
#[tactic(auto, unfolding(crate::specs::Stanzas::hashes_of))]
fn hashes_of(alloc: Global, field: &Field) -> Result<ByHash, ListError>
    ensures { (result ≡ Err ListError.NoMemory) ⊎ (result ≡ spec.hashes_of field.now) }
{
    let found = field_words(alloc, field)?;
    only_hash(found.as_slice()).ok_or(ListError::BadLine(field.at))
}

fn only_hash(words: &[Text]) -> Option<ByHash>
    ensures { result ≡ spec.only by_hash_in words.now }
{
    match words {
        [word] => by_hash_of(word.as_bytes()),
        _ => None,
    }
}

/// What a field of one boolean says.
#[tactic(auto, unfolding(crate::specs::Stanzas::truth_of))]
fn truth_of(alloc: Global, field: &Field) -> Result<bool, ListError>
    ensures { (result ≡ Err ListError.NoMemory) ⊎ (result ≡ spec.truth_of field.now) }
{
    let found = field_words(alloc, field)?;
    only_boolean(found.as_slice()).ok_or(ListError::BadLine(field.at))
}

fn only_boolean(words: &[Text]) -> Option<bool>
    ensures { result ≡ spec.only boolean_in words.now }
{
    match words {
        [word] => boolean_of(word.as_bytes()),
        _ => None,
    }
}

/// Whether a stanza counts.
#[tactic(auto, unfolding(crate::specs::Stanzas::enabled_of))]
pub fn enabled_of(alloc: Global, field: Option<&Field>) -> Result<bool, ListError>
    ensures { (result ≡ Err ListError.NoMemory) ⊎ (result ≡ spec.enabled_of (option_copied field.entry)) }
{
    match field {
        Some(field) => truth_of(alloc, field),
        None => Ok(true),
    }
}

/// What the fields Architectures, By-Hash and PDiffs of a stanza say, judged in this order.
#[tactic(auto, unfolding(crate::specs::Stanzas::options_of))]
pub fn options_of(alloc: Global, stanza: &Paragraph) -> Result<Options, ListError>
    ensures { (result ≡ Err ListError.NoMemory) ⊎ (result ≡ spec.options_of stanza.now.fields) }
{
    let archs = match find(stanza, b"Architectures") {
        Some(field) => Some(architectures_of(alloc, field)?),
        None => None,
    };
    let by_hash = match find(stanza, b"By-Hash") {
        Some(field) => Some(hashes_of(alloc, field)?),
        None => None,
    };
    let pdiffs = match find(stanza, b"PDiffs") {
        Some(field) => Some(truth_of(alloc, field)?),
        None => None,
    };
    Ok(Options {
        archs,
        by_hash,
        pdiffs,
    })
}
