//! The options of a line.

ghost use Rattle.std.specs.Prelude.{◌≡◌, ◌⊎◌, Err, IfOk};
ghost use Rattle.std.specs.List.{slice_split, list_any, before_first, after_first};
ghost use Rattle.acq_base.specs.Words.{is_blank, words as words_of};
ghost use Rattle.source_lists.specs.OneLine as one_line;
ghost use Rattle.source_lists.specs.Values.{architectures as architectures_in};

use crate::ListError;
use crate::line::cut_at;
use crate::values::{architectures, boolean_of, by_hash_of, is_spelled};
use acq_base::{ByHash, NoMemory, Row, Text, words};
use std::alloc::Global;

/// What a word of the options says.
#[derive(Debug, PartialEq, Drop)]
pub enum Choice {
    /// `arch`: these architectures.
    Archs(Row<Text>),
    /// `by-hash`: whether lists are asked for under their digests.
    Hashes(ByHash),
    /// `pdiffs`: whether lists are brought up to date by patches.
    Patches(bool),
    /// An option without effect.
    Nothing,
}

/// What an entry says by its options, and a stanza by the fields of the same names.
#[derive(Debug, PartialEq, Drop)]
pub struct Options {
    pub archs: Option<Row<Text>>,
    pub by_hash: Option<ByHash>,
    pub pdiffs: Option<bool>,
}

/// What the words of a text say, which stands between `[` and `]` on this line. Of an option that repeats the last
/// occurrence counts. `Operator` where a word has `+=` or `-=`, `BadLine` where it has no `=` or a value that isn't allowed;
/// the first such word counts.
pub fn read_options(alloc: Global, at: u64, text: &[u8]) -> Result<Options, ListError>
    ensures { (result ≡ Err ListError.NoMemory) ⊎ (result ≡ one_line.options_at at (words_of is_blank text.now)) }
{
    let found = words(alloc, text)?;
    said_by(alloc, at, found.as_slice())
}

/// What these words of the options say together.
fn said_by(alloc: Global, at: u64, words: &[Text]) -> Result<Options, ListError>
    ensures { (result ≡ Err ListError.NoMemory) ⊎ (result ≡ one_line.options_at at words.now) }
{
    let mut options = Options {
        archs: None,
        by_hash: None,
        pdiffs: None,
    };
    for word in words {
        let choice = read_choice(alloc, at, word.as_bytes())?;
        options = with_choice(options, choice);
    }
    Ok(options)
}

/// The options with one more word.
fn with_choice(options: Options, choice: Choice) -> Options
    ensures { result ≡ one_line.with_choice options choice }
{
    let Options {
        archs,
        by_hash,
        pdiffs,
    } = options;
    match choice {
        Choice::Archs(said) => Options {
            archs: Some(said),
            by_hash,
            pdiffs,
        },
        Choice::Hashes(said) => Options {
            archs,
            by_hash: Some(said),
            pdiffs,
        },
        Choice::Patches(said) => Options {
            archs,
            by_hash,
            pdiffs: Some(said),
        },
        Choice::Nothing => Options {
            archs,
            by_hash,
            pdiffs,
        },
    }
}

/// What a word of the options on this line says.
#[tactic(auto, unfolding(crate::specs::OneLine::choice_at))]
fn read_choice(alloc: Global, at: u64, word: &[u8]) -> Result<Choice, ListError>
    ensures { (result ≡ Err ListError.NoMemory) ⊎ (result ≡ one_line.choice_at at word.now) }
{
    if has_operator(word) {
        return Err(ListError::Operator(at));
    }
    let Some((name, value)) = cut_at(b'=', word) else {
        return Err(ListError::BadLine(at));
    };
    match choice_of(alloc, name, value)? {
        Some(choice) => Ok(choice),
        None => Err(ListError::BadLine(at)),
    }
}

/// Whether `+=` or `-=` stands in a word.
#[tactic(auto, unfolding(crate::specs::OneLine::has_operator), using(crate::proofs::Choices::no_operator))]
fn has_operator(word: &[u8]) -> bool
    ensures { result ≡ one_line.has_operator word.now }
{
    let mut rest = word;
    while let [first, second, ..] = rest {
        if (*first == b'+' || *first == b'-') && *second == b'=' {
            return true;
        }
        rest = &rest[1..];
    }
    false
}

/// What an option says. None where its value isn't allowed.
#[tactic(auto, unfolding(crate::specs::OneLine::choice_of))]
fn choice_of(alloc: Global, name: &[u8], value: &[u8]) -> Result<Option<Choice>, NoMemory>
    ensures { IfOk result (λ choice. choice ≡ one_line.choice_of name.now value.now) }
{
    if is_spelled(name, b"arch") {
        Ok(listed_architectures(alloc, value)?.map(|archs| Choice::Archs(archs)))
    } else if is_spelled(name, b"by-hash") {
        Ok(by_hash_of(value).map(|by_hash| Choice::Hashes(by_hash)))
    } else if is_spelled(name, b"pdiffs") {
        Ok(boolean_of(value).map(|pdiffs| Choice::Patches(pdiffs)))
    } else {
        Ok(Some(Choice::Nothing))
    }
}

/// The architectures between commas. None where one of them isn't any.
fn listed_architectures(alloc: Global, value: &[u8]) -> Result<Option<Row<Text>>, NoMemory>
    ensures { IfOk result (λ archs. archs ≡ architectures_in (slice_split one_line.is_comma value.now)) }
{
    let mut pieces = Row::new(alloc);
    for piece in value.split(|byte| *byte == b',') {
        pieces.push(Text::from_bytes(alloc, piece)?)?;
    }
    Ok(architectures(pieces))
}
