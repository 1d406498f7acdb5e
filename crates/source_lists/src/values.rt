//! The words of a sources list by themselves, each with the line on which it is refused.

ghost use Rattle.std.specs.Prelude.{◌≡◌, ◌⊎◌, ◌∷◌, [], Err, IfOk, bytes_eq};
ghost use Rattle.std.specs.List.{list_any, list_all};
ghost use Rattle.acq_base.specs.Settings as settings;
ghost use Rattle.source_lists.specs.Sound.{IsReadBase};
ghost use Rattle.source_lists.specs.Values as values;

use crate::ListError;
use acq_base::{ByHash, Row, Text, Uri};
use std::alloc::Global;
use uri_names::{UriError, read_base};

/// Which types an entry or a stanza names.
#[derive(Clone, Copy, Debug, PartialEq, Eq)]
pub struct Types {
    /// `deb` is one.
    pub binary: bool,
    /// `deb-src` is one.
    pub source: bool,
}

// ---- characters

fn is_name_character(byte: u8) -> bool
    ensures { result ≡ values.is_name_character byte }
{
    byte.is_ascii_alphanumeric() || b"._-+~:".contains(&byte)
}

fn is_path_character(byte: u8) -> bool
    ensures { result ≡ values.is_path_character byte }
{
    is_name_character(byte) || byte == b'/'
}

fn has_name_characters(text: &[u8]) -> bool
    ensures { result ≡ list_all values.is_name_character text.now }
{
    text.iter().all(|byte| is_name_character(*byte))
}

fn has_path_characters(text: &[u8]) -> bool
    ensures { result ≡ list_all values.is_path_character text.now }
{
    text.iter().all(|byte| is_path_character(*byte))
}

/// Whether a text is exactly this word.
pub fn is_spelled(text: &[u8], word: &[u8]) -> bool
    ensures { result ≡ bytes_eq text.now word.now }
{
    text == word
}

fn is_dot_dot(segment: &[u8]) -> bool
    ensures { result ≡ values.is_dot_dot segment.now }
{
    is_spelled(segment, b"..")
}

/// Whether a segment of a path is `..`.
#[tactic(auto, unfolding(crate::specs::Values::leads_up))]
fn leads_up(path: &[u8]) -> bool
    ensures { result ≡ values.leads_up path.now }
{
    path.split(|byte| *byte == b'/')
        .any(|segment| is_dot_dot(segment))
}

/// Whether a text can become part of a path below a base: letters, digits and `._-+~:/`, at least one, and no segment
/// `..`.
#[tactic(auto, unfolding(crate::specs::Values::is_path))]
pub fn is_path(text: &[u8]) -> bool
    ensures { result ≡ values.is_path text.now }
{
    !text.is_empty() && has_path_characters(text) && !leads_up(text)
}

/// Whether a suite is the exact path of a folder, which ends in `/`.
pub fn is_exact(suite: &[u8]) -> bool
    ensures { result ≡ values.is_exact suite.now }
{
    suite.ends_with(b"/")
}

/// Whether a text is a component: a path that doesn't begin or end with `/`.
#[tactic(auto, unfolding(crate::specs::Values::is_component))]
pub fn is_component(word: &[u8]) -> bool
    ensures { result ≡ values.is_component word.now }
{
    is_path(word) && !word.starts_with(b"/") && !word.ends_with(b"/")
}

/// Whether a text is an architecture: letters, digits and `._-+~:`, at least one, and not `..`.
#[tactic(auto, unfolding(acq_base::specs::Settings::is_architecture))]
fn is_architecture(word: &[u8]) -> bool
    ensures { result ≡ settings.is_architecture word.now }
{
    !word.is_empty() && has_name_characters(word) && !is_dot_dot(word)
}

// ---- types and URIs

fn is_binary(word: &[u8]) -> bool
    ensures { result ≡ values.is_binary word.now }
{
    is_spelled(word, b"deb")
}

fn is_source(word: &[u8]) -> bool
    ensures { result ≡ values.is_source word.now }
{
    is_spelled(word, b"deb-src")
}

fn is_type(word: &[u8]) -> bool
    ensures { result ≡ values.is_type word.now }
{
    is_binary(word) || is_source(word)
}

fn are_types(words: &[Text]) -> bool
    ensures { result ≡ list_all values.is_type words.now }
{
    words.iter().all(|word| is_type(word.as_bytes()))
}

fn has_binary(words: &[Text]) -> bool
    ensures { result ≡ list_any values.is_binary words.now }
{
    words.iter().any(|word| is_binary(word.as_bytes()))
}

fn has_source(words: &[Text]) -> bool
    ensures { result ≡ list_any values.is_source words.now }
{
    words.iter().any(|word| is_source(word.as_bytes()))
}

/// The types that words of this line name, or `BadLine` where one is neither `deb` nor `deb-src`.
#[tactic(auto, unfolding(crate::specs::Values::types_at))]
pub fn types_at(at: u64, words: &[Text]) -> Result<Types, ListError>
    ensures { result ≡ values.types_at at words.now }
{
    if !are_types(words) {
        return Err(ListError::BadLine(at));
    }
    Ok(Types {
        binary: has_binary(words),
        source: has_source(words),
    })
}

/// The type that one word of this line is.
#[tactic(auto, unfolding(crate::specs::Values::types_at))]
pub fn type_at(at: u64, word: &[u8]) -> Result<Types, ListError>
    ensures { result ≡ values.types_at at (word.now ∷ []) }
{
    let types = Types {
        binary: is_binary(word),
        source: is_source(word),
    };
    if types.binary || types.source {
        Ok(types)
    } else {
        Err(ListError::BadLine(at))
    }
}

/// The base URI that a word of this line is.
#[tactic(auto, unfolding(crate::specs::Values::base_at))]
pub fn base_at(alloc: Global, at: u64, word: &[u8]) -> Result<Uri, ListError>
    ensures value { (result ≡ Err ListError.NoMemory) ⊎ (result ≡ values.base_at at word.now) }
    ensures sound { IfOk result IsReadBase }
{
    match read_base(alloc, word) {
        Ok(base) => Ok(base),
        Err(UriError::Scheme) => Err(ListError::Scheme(at)),
        Err(UriError::BadUri) => Err(ListError::BadUri(at)),
        Err(UriError::NoMemory) => Err(ListError::NoMemory),
    }
}

// ---- components and architectures

/// The components of these suites, or why they can't be: `NoComponent` where there are none and a suite isn't an exact
/// path, `LooseComponent` where there is one and a suite is, `BadLine` where a word is no component.
#[tactic(auto, unfolding(crate::specs::Values::components_at))]
pub fn components_at(at: u64, suites: &[Text], words: Row<Text>) -> Result<Row<Text>, ListError>
    ensures { result ≡ values.components_at at suites.now words }
{
    if words.is_empty() && !are_exact(suites) {
        return Err(ListError::NoComponent(at));
    }
    if !words.is_empty() && has_exact(suites) {
        return Err(ListError::LooseComponent(at));
    }
    if are_components(words.as_slice()) {
        Ok(words)
    } else {
        Err(ListError::BadLine(at))
    }
}

fn are_exact(suites: &[Text]) -> bool
    ensures { result ≡ list_all values.is_exact suites.now }
{
    suites.iter().all(|suite| is_exact(suite.as_bytes()))
}

fn has_exact(suites: &[Text]) -> bool
    ensures { result ≡ list_any values.is_exact suites.now }
{
    suites.iter().any(|suite| is_exact(suite.as_bytes()))
}

fn are_components(words: &[Text]) -> bool
    ensures { result ≡ list_all values.is_component words.now }
{
    words.iter().all(|word| is_component(word.as_bytes()))
}

/// The words, if there is one and each is an architecture.
#[tactic(auto, unfolding(crate::specs::Values::architectures))]
pub fn architectures(words: Row<Text>) -> Option<Row<Text>>
    ensures { result ≡ values.architectures words }
{
    if !words.is_empty() && are_architectures(words.as_slice()) {
        Some(words)
    } else {
        None
    }
}

fn are_architectures(words: &[Text]) -> bool
    ensures { result ≡ list_all settings.is_architecture words.now }
{
    words.iter().all(|word| is_architecture(word.as_bytes()))
}

// ---- by-hash and booleans

/// What a value of by-hash says: `yes`, `no` or `force`, spelled exactly so. None for any other text.
#[tactic(auto, unfolding(crate::specs::Values::by_hash_of))]
pub fn by_hash_of(word: &[u8]) -> Option<ByHash>
    ensures { result ≡ values.by_hash_of word.now }
{
    if is_spelled(word, b"yes") {
        Some(ByHash::Yes)
    } else if is_spelled(word, b"no") {
        Some(ByHash::No)
    } else if is_spelled(word, b"force") {
        Some(ByHash::Force)
    } else {
        None
    }
}

/// Whether a text is this word, ASCII case aside.
fn is_word(text: &[u8], word: &[u8]) -> bool
    ensures { result ≡ values.is_word text.now word.now }
{
    text.eq_ignore_ascii_case(word)
}

#[tactic(auto, unfolding(crate::specs::Values::means_yes))]
fn means_yes(text: &[u8]) -> bool
    ensures { result ≡ values.means_yes text.now }
{
    is_word(text, b"yes")
        || is_word(text, b"true")
        || is_word(text, b"with")
        || is_word(text, b"on")
        || is_word(text, b"enable")
        || is_word(text, b"1")
}

#[tactic(auto, unfolding(crate::specs::Values::means_no))]
fn means_no(text: &[u8]) -> bool
    ensures { result ≡ values.means_no text.now }
{
    is_word(text, b"no")
        || is_word(text, b"false")
        || is_word(text, b"without")
        || is_word(text, b"off")
        || is_word(text, b"disable")
        || is_word(text, b"0")
}

/// What a boolean says, ASCII case aside: `yes`, `true`, `with`, `on`, `enable` or `1`, and `no`, `false`, `without`,
/// `off`, `disable` or `0`. None for any other text.
#[tactic(auto, unfolding(crate::specs::Values::boolean_of))]
pub fn boolean_of(word: &[u8]) -> Option<bool>
    ensures { result ≡ values.boolean_of word.now }
{
    if means_yes(word) {
        Some(true)
    } else if means_no(word) {
        Some(false)
    } else {
        None
    }
}
