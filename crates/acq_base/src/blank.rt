//! Blanks and words of a text.

ghost use Rattle.std.specs.Prelude.{◌≡◌, Bool, IfOk};
ghost use Rattle.acq_base.specs.Words.{is_blank as blank, is_blank_or_comma, trimmed, trimmed_end, trimmed_start, separates, words as words_of};

use crate::{NoMemory, Row, Text};
use std::alloc::Global;

/// Whether a byte is a blank, which is a space or a tab.
pub fn is_blank(byte: u8) -> bool
    ensures { result ≡ blank byte }
{
    byte == b' ' || byte == b'\t'
}

/// A text without the blanks at both ends.
pub fn trim_blanks(text: &[u8]) -> &[u8]
    ensures { result.now ≡ trimmed text.now }
{
    trim_blanks_end(trim_blanks_start(text))
}

/// A text without the blanks at its end.
pub fn trim_blanks_end(text: &[u8]) -> &[u8]
    ensures { result.now ≡ trimmed_end text.now }
{
    let mut kept = text;
    while let [front @ .., last] = kept {
        if !is_blank(*last) {
            return kept;
        }
        kept = front;
    }
    kept
}

/// A text without the blanks at its front.
pub fn trim_blanks_start(text: &[u8]) -> &[u8]
    ensures { result.now ≡ trimmed_start text.now }
{
    let mut kept = text;
    while let [first, rest @ ..] = kept {
        if !is_blank(*first) {
            return kept;
        }
        kept = rest;
    }
    kept
}

/// The words of a text, in order: what stands between blanks.
pub fn words(alloc: Global, text: &[u8]) -> Result<Row<Text>, NoMemory>
    ensures { IfOk result (λ found. found ≡ words_of blank text.now) }
{
    separated(alloc, text, false)
}

/// The words of a list, in order: what stands between blanks and commas.
pub fn listed_words(alloc: Global, text: &[u8]) -> Result<Row<Text>, NoMemory>
    ensures { IfOk result (λ found. found ≡ words_of is_blank_or_comma text.now) }
{
    separated(alloc, text, true)
}

/// What stands between blanks, and between commas too where those separate.
fn separated(alloc: Global, text: &[u8], by_commas: bool) -> Result<Row<Text>, NoMemory>
    ensures { IfOk result (λ found. found ≡ words_of (separates by_commas) text.now) }
{
    let mut found = Row::new(alloc);
    for piece in text.split(|byte| is_separator(*byte, by_commas)) {
        if !piece.is_empty() {
            found.push(Text::from_bytes(alloc, piece)?)?;
        }
    }
    Ok(found)
}

fn is_separator(byte: u8, by_commas: bool) -> bool
    ensures { result ≡ separates by_commas byte }
{
    is_blank(byte) || (by_commas && byte == b',')
}
