//! The one-line form.

ghost use Rattle.std.specs.Prelude.{◌≡◌, ◌⊎◌, ◌≤◌, ◌∷◌, [], length, Err, All, IfOk, IfErr, IfSome, IfNone};
ghost use Rattle.std.specs.List.{position_or_len, list_all};
ghost use Rattle.acq_base.specs.Words.{is_blank as blank, words as words_of};
ghost use Rattle.source_lists.specs.OneLine as spec;
ghost use Rattle.source_lists.specs.Sound.{IsReadBase, IsSound};
ghost use Rattle.source_lists.specs.Texts as texts;
ghost use Rattle.source_lists.specs.Texts.{all_entries, numbered_lines, AreRead, IsListRefusal};

use crate::line::{cut_at, first_line};
use crate::options::{Options, read_options};
use crate::suites::suite_at;
use crate::values::{Types, base_at, components_at, type_at};
use crate::{Entry, ListError};
use acq_base::{NoMemory, Row, Text, TryCopy, Uri, is_blank, trim_blanks_start, words};
use std::alloc::Global;
use std::slice;

/// The most bytes of a text.
pub const MOST_BYTES: usize = 1_048_576;

/// The entries of a text in the one-line form of sources.list(5), read under this file name, on a machine of this
/// architecture.
///
/// `LongFile` where the text has more than 1,048,576 bytes, which is looked at first. Else a text is refused at its first
/// line that no reading allows, for the first fault from the left on that line: `BadLine`, `Scheme`, `BadUri`,
/// `NoComponent`, `LooseComponent` or `Operator`, each with the line. `NoMemory` where memory ran out.
pub fn read_list(
    alloc: Global,
    file: &Text,
    bytes: &[u8],
    arch: &Text,
) -> Result<Row<Entry>, ListError>
    ensures value { (result ≡ Err ListError.NoMemory) ⊎ (result ≡ texts.list_entries file.now arch.now bytes.now) }
    // The lines of a text that is read are each read by themselves, and its entries are theirs in order.
    ensures read { IfOk result (AreRead (spec.line_entries file.now arch.now) (numbered_lines bytes.now)) }
    // What a plan of the entries relies on.
    ensures sound { IfOk result (All IsSound) }
    // A refusal is that of the first line that isn't.
    ensures refused { IfErr result (IsListRefusal file.now arch.now bytes.now) }
{
    entries_of_list(alloc, file, arch, bytes)
}

/// The entries of a text that isn't too long.
#[tactic(auto, unfolding(crate::specs::Texts::list_entries))]
fn entries_of_list(
    alloc: Global,
    file: &Text,
    arch: &Text,
    bytes: &[u8],
) -> Result<Row<Entry>, ListError>
    ensures value { (result ≡ Err ListError.NoMemory) ⊎ (result ≡ texts.list_entries file.now arch.now bytes.now) }
    ensures sound { IfOk result (All IsSound) }
{
    if bytes.len() > MOST_BYTES {
        return Err(ListError::LongFile);
    }
    read_lines(alloc, file, arch, bytes)
}

/// The entries of the lines of a text.
fn read_lines(
    alloc: Global,
    file: &Text,
    arch: &Text,
    bytes: &[u8],
) -> Result<Row<Entry>, ListError>
    requires { length bytes.now ≤ 1048576 }
    ensures value { (result ≡ Err ListError.NoMemory) ⊎ (result ≡ all_entries (spec.line_entries file.now arch.now) (numbered_lines bytes.now)) }
    ensures sound { IfOk result (All IsSound) }
{
    let mut entries = Row::new(alloc);
    let mut rest = bytes;
    let mut at = 0;
    while !rest.is_empty() {
        let (line, behind) = first_line(rest);
        at += 1;
        let found = read_line(alloc, file, arch, at, line)?;
        if let Some(entry) = found {
            entries.push(entry)?;
        }
        rest = behind;
    }
    Ok(entries)
}

/// The entry of a line, unless it is blank but for a comment.
#[tactic(auto, unfolding(crate::specs::OneLine::line_entry))]
fn read_line(
    alloc: Global,
    file: &Text,
    arch: &Text,
    at: u64,
    line: &[u8],
) -> Result<Option<Entry>, ListError>
    ensures value { (result ≡ Err ListError.NoMemory) ⊎ (result ≡ spec.line_entry file.now arch.now (at, line.now)) }
    ensures sound { IfOk result (λ found. IfSome found IsSound) }
{
    let text = uncommented(line);
    if is_all_blank(text) {
        return Ok(None);
    }
    Ok(Some(read_entry(alloc, file, arch, at, text)?))
}

/// Whether a text has nothing but blanks.
fn is_all_blank(text: &[u8]) -> bool
    ensures { result ≡ list_all blank text.now }
{
    text.iter().all(|byte| is_blank(*byte))
}

/// A line without its comment.
fn uncommented(line: &[u8]) -> &[u8]
    ensures { result.now ≡ spec.uncommented line.now }
{
    match cut_at(b'#', line) {
        Some((front, _)) => front,
        None => line,
    }
}

/// The entry that a line without its comment writes.
#[tactic(auto, unfolding(crate::specs::OneLine::entry_at))]
fn read_entry(
    alloc: Global,
    file: &Text,
    arch: &Text,
    at: u64,
    text: &[u8],
) -> Result<Entry, ListError>
    ensures value { (result ≡ Err ListError.NoMemory) ⊎ (result ≡ spec.entry_at file.now arch.now at text.now) }
    ensures base { IfOk result (λ entry. IsReadBase entry.uri) }
{
    let (kind, behind) = first_word(text);
    let types = type_at(at, kind)?;
    let parts = parts_of(behind);
    let options = read_options(alloc, at, parts.options)?;
    if !parts.closed {
        return Err(ListError::BadLine(at));
    }
    let place = read_place(alloc, arch, at, parts.source)?;
    Ok(new_entry(file.copy(alloc)?, at, types, place, options))
}

/// Puts together what was read of a line.
fn new_entry(file: Text, at: u64, types: Types, place: Place, options: Options) -> Entry
    ensures value { result ≡ spec.entry_of file at types place options }
    ensures base { result.uri ≡ place.uri }
{
    let Place {
        uri,
        suite,
        components,
    } = place;
    let Options {
        archs,
        by_hash,
        pdiffs,
    } = options;
    Entry {
        file,
        line: at,
        binary: types.binary,
        source: types.source,
        uri,
        suite,
        components,
        archs,
        by_hash,
        pdiffs,
    }
}

/// What stands behind the type of a line.
#[derive(Clone, Copy)]
struct Parts<'a> {
    /// The words between `[` and `]`.
    options: &'a [u8],
    /// Whether there is a `]`, where there is a `[`.
    closed: bool,
    /// The URI, the suite and the components.
    source: &'a [u8],
}

/// The parts of what stands behind the type. Options stand from a `[` at its front to the next `]`.
#[tactic(auto, unfolding(crate::specs::OneLine::options_text, crate::specs::OneLine::source_text, crate::specs::OneLine::is_closed))]
fn parts_of(behind: &[u8]) -> Parts<'_>
    ensures options { result.options.now ≡ spec.options_text behind.entry.now }
    ensures closed { result.closed ≡ spec.is_closed behind.entry.now }
    ensures source { result.source.now ≡ spec.source_text behind.entry.now }
{
    let Some(inside) = behind.strip_prefix(b"[") else {
        return Parts {
            options: b"",
            closed: true,
            source: behind,
        };
    };
    match cut_at(b']', inside) {
        Some((options, source)) => Parts {
            options,
            closed: true,
            source,
        },
        None => Parts {
            options: inside,
            closed: false,
            source: b"",
        },
    }
}

/// The first word of a text, and the text from its second word on.
fn first_word(text: &[u8]) -> (&[u8], &[u8])
    ensures first { result.0.now ≡ spec.first_word text.now }
    ensures behind { result.1.now ≡ spec.behind_first text.now }
{
    let text = trim_blanks_start(text);
    let (word, behind) = text.split_at(word_length(text));
    (word, trim_blanks_start(behind))
}

/// The first word of a text and what stands behind it. None where there is no word.
#[tactic(auto, using(crate::proofs::NextWords::next_words))]
fn next_word(text: &[u8]) -> Option<(&[u8], &[u8])>
    ensures some { IfSome result (λ found. words_of blank text.now ≡ found.0.now ∷ words_of blank found.1.now) }
    ensures none { IfNone result (words_of blank text.now ≡ []) }
{
    let (word, behind) = first_word(text);
    if word.is_empty() {
        None
    } else {
        Some((word, behind))
    }
}

/// How many bytes stand before the first blank, or all of them.
fn word_length(text: &[u8]) -> usize
    ensures place { result ≡ position_or_len blank text.now }
    ensures within { result ≤ length text.now }
{
    let mut at = 0;
    while at < text.len() && !is_blank(text[at]) {
        at += 1;
    }
    at
}

/// What an entry names.
#[derive(Debug, Drop)]
pub struct Place {
    pub uri: Uri,
    pub suite: Text,
    pub components: Row<Text>,
}

/// The URI, the suite and the components that the words of a text on this line are.
#[tactic(auto, unfolding(crate::specs::OneLine::place_at))]
fn read_place(alloc: Global, arch: &Text, at: u64, text: &[u8]) -> Result<Place, ListError>
    ensures value { (result ≡ Err ListError.NoMemory) ⊎ (result ≡ spec.place_at arch.now at (words_of blank text.now)) }
    ensures base { IfOk result (λ place. IsReadBase place.uri) }
{
    let Some((word, behind)) = next_word(text) else {
        return Err(ListError::BadLine(at));
    };
    let uri = base_at(alloc, at, word)?;
    let Some((word, behind)) = next_word(behind) else {
        return Err(ListError::BadLine(at));
    };
    let suite = suite_at(alloc, arch.as_bytes(), at, word)?;
    let components = components_at(at, slice::from_ref(&suite), words(alloc, behind)?)?;
    Ok(Place {
        uri,
        suite,
        components,
    })
}
