//! What the values of settings read as. Lists may take memory; nothing else is touched.

ghost use Rattle.std.specs.Prelude.{◌≡◌, ◌≤◌, IfOk, IfSome, bytes_eq, option_map};
ghost use Rattle.std.specs.List.{list_all, list_any};
ghost use Rattle.acq_base.specs.Settings as settings;
ghost use Rattle.apt_conf.specs.Keys.{same_key};
ghost use Rattle.apt_conf.specs.Values as values;

use acq_base::{ByHash, NoMemory, Pick, Row, Text, listed_words, read_digits};
use std::alloc::Global;

/// Which words a list may have.
#[derive(Clone, Copy, Debug, PartialEq, Eq)]
pub enum Words {
    /// Names of architectures.
    Architectures,
    /// Names of languages.
    Languages,
    /// Kinds of lists: `Packages`, `Sources`, `Translations`.
    Kinds,
}

/// Whether a text is exactly this word.
pub fn is_spelled(text: &[u8], word: &[u8]) -> bool
    ensures { result ≡ bytes_eq text.now word.now }
{
    text == word
}

fn is_architecture_character(byte: u8) -> bool
    ensures { result ≡ settings.is_architecture_character byte }
{
    byte.is_ascii_alphanumeric() || b"._-+~:".contains(&byte)
}

fn all_architecture_characters(text: &[u8]) -> bool
    ensures { result ≡ list_all settings.is_architecture_character text.now }
{
    text.iter().all(|byte| is_architecture_character(*byte))
}

/// Whether a text is one architecture, as in `APT::Architecture` of apt.conf(5): letters, digits and `._-+~:`, at least
/// one, and not `..`, since its name becomes a segment of a path.
#[tactic(auto, unfolding(acq_base::specs::Settings::is_architecture))]
pub fn is_architecture(text: &[u8]) -> bool
    ensures { result ≡ settings.is_architecture text.now }
{
    if text.is_empty() || !all_architecture_characters(text) {
        return false;
    }
    !is_spelled(text, b"..")
}

fn is_language_character(byte: u8) -> bool
    ensures { result ≡ settings.is_language_character byte }
{
    byte.is_ascii_alphanumeric() || byte == b'_' || byte == b'-'
}

fn all_language_characters(text: &[u8]) -> bool
    ensures { result ≡ list_all settings.is_language_character text.now }
{
    text.iter().all(|byte| is_language_character(*byte))
}

#[tactic(auto, unfolding(acq_base::specs::Settings::is_language))]
fn is_language(text: &[u8]) -> bool
    ensures { result ≡ settings.is_language text.now }
{
    if text.is_empty() {
        return false;
    }
    all_language_characters(text)
}

#[tactic(auto, unfolding(crate::specs::Values::is_picked_kind))]
fn is_picked_kind(text: &[u8]) -> bool
    ensures { result ≡ values.is_picked_kind text.now }
{
    is_spelled(text, b"Packages")
        || is_spelled(text, b"Sources")
        || is_spelled(text, b"Translations")
}

/// Whether a word may stand in a list.
fn is_allowed(words: Words, word: &[u8]) -> bool
    ensures { result ≡ values.is_allowed words word.now }
{
    match words {
        Words::Architectures => is_architecture(word),
        Words::Languages => is_language(word),
        Words::Kinds => is_picked_kind(word),
    }
}

fn all_allowed(words: Words, found: &[Text]) -> bool
    ensures { result ≡ list_all (values.is_allowed words) found.now }
{
    found.iter().all(|word| is_allowed(words, word.as_bytes()))
}

/// The words of a list, which blanks and commas separate. None where it has no word, or one that isn't allowed.
pub fn listed(alloc: Global, words: Words, text: &[u8]) -> Result<Option<Row<Text>>, NoMemory>
    ensures { IfOk result (λ found. found ≡ values.listed words text.now) }
{
    let found = listed_words(alloc, text)?;
    if found.is_empty() || !all_allowed(words, found.as_slice()) {
        return Ok(None);
    }
    Ok(Some(found))
}

/// The languages that words name: `none` alone stands for none.
fn but_none(alloc: Global, languages: Row<Text>) -> Row<Text>
    ensures { result ≡ values.but_none languages }
{
    match languages.as_slice() {
        [only] if is_spelled(only.as_bytes(), b"none") => Row::new(alloc),
        _ => languages,
    }
}

/// The languages that the words of a list name, `none` alone standing for no language. None where there is no list.
pub fn languages_of(alloc: Global, found: Option<Row<Text>>) -> Option<Row<Text>>
    ensures { result ≡ option_map values.but_none found }
{
    match found {
        Some(languages) => Some(but_none(alloc, languages)),
        None => None,
    }
}

fn names(words: &[Text], kind: &[u8]) -> bool
    ensures { result ≡ list_any (λ name. bytes_eq name kind.now) words.now }
{
    words.iter().any(|name| is_spelled(name.as_bytes(), kind))
}

/// The kinds of lists that words name; other words name none.
pub fn picked(words: &[Text]) -> Pick
    ensures { result ≡ values.picked words.now }
{
    Pick {
        packages: names(words, b"Packages"),
        sources: names(words, b"Sources"),
        translations: names(words, b"Translations"),
    }
}

/// The number, if there is one and it isn't above `most`.
fn up_to(most: u64, number: Option<u64>) -> Option<u64>
    ensures value { result ≡ values.up_to most number }
    ensures bound { IfSome result (λ n. n ≤ most) }
{
    let number = number?;
    if number <= most { Some(number) } else { None }
}

/// The number that 1 to 10 decimal digits write. None for any other text, and where the number is above `most`.
#[tactic(auto, unfolding(crate::specs::Values::number_of))]
pub fn number_of(most: u64, text: &[u8]) -> Option<u64>
    ensures value { result ≡ values.number_of most text.now }
    ensures bound { IfSome result (λ number. number ≤ most) }
{
    if text.len() > 10 {
        return None;
    }
    up_to(most, read_digits(text))
}

/// What a value of `Acquire::By-Hash` of apt.conf(5) says: `yes`, `no` or `force`, spelled exactly so. None for any other
/// text.
#[tactic(auto, unfolding(crate::specs::Values::by_hash_of))]
pub fn by_hash_of(text: &[u8]) -> Option<ByHash>
    ensures { result ≡ values.by_hash_of text.now }
{
    if is_spelled(text, b"yes") {
        Some(ByHash::Yes)
    } else if is_spelled(text, b"no") {
        Some(ByHash::No)
    } else if is_spelled(text, b"force") {
        Some(ByHash::Force)
    } else {
        None
    }
}

/// Whether a text is this word, ASCII case aside.
#[tactic(auto, unfolding(crate::specs::Keys::same_key))]
fn is_word(text: &[u8], word: &[u8]) -> bool
    ensures { result ≡ same_key text.now word.now }
{
    text.eq_ignore_ascii_case(word)
}

#[tactic(auto, unfolding(crate::specs::Values::means_yes))]
fn means_yes(text: &[u8]) -> bool
    ensures { result ≡ values.means_yes text.now }
{
    is_word(text, b"yes")
        || is_word(text, b"true")
        || is_word(text, b"with")
        || is_word(text, b"on")
        || is_word(text, b"enable")
        || is_word(text, b"1")
}

#[tactic(auto, unfolding(crate::specs::Values::means_no))]
fn means_no(text: &[u8]) -> bool
    ensures { result ≡ values.means_no text.now }
{
    is_word(text, b"no")
        || is_word(text, b"false")
        || is_word(text, b"without")
        || is_word(text, b"off")
        || is_word(text, b"disable")
        || is_word(text, b"0")
}

/// What a boolean value of apt.conf(5) says, ASCII case aside: `yes`, `true`, `with`, `on`, `enable` or `1`, and `no`,
/// `false`, `without`, `off`, `disable` or `0`. None for any other text, other numbers included.
#[tactic(auto, unfolding(crate::specs::Values::boolean_of))]
pub fn boolean_of(text: &[u8]) -> Option<bool>
    ensures { result ≡ values.boolean_of text.now }
{
    if means_yes(text) {
        Some(true)
    } else if means_no(text) {
        Some(false)
    } else {
        None
    }
}
