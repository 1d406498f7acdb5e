//! What the words of a call stand for.

use crate::{Refused, called};
use acq_base::read_digits;
use std::str;

/// A word as text.
pub fn text(word: &[u8]) -> Result<&str, Refused> {
    called(str::from_utf8(word))
}

/// A word as a number.
pub fn number(word: &[u8]) -> Result<u64, Refused> {
    read_digits(word).ok_or(Refused::NoCall)
}

/// A word as a number of 32 bits.
pub fn small(word: &[u8]) -> Result<u32, Refused> {
    called(u32::try_from(number(word)?))
}

/// A word as a number with a sign.
pub fn signed(word: &[u8]) -> Result<i64, Refused> {
    called(text(word)?.parse::<i64>())
}

/// A word as a moment, `-` for none.
pub fn moment(word: &[u8]) -> Result<Option<i64>, Refused> {
    if matches!(word, b"-") {
        return Ok(None);
    }
    Ok(Some(signed(word)?))
}

/// Whether a word of flags, which commas separate, has this flag.
pub fn has(flags: &[u8], flag: &[u8]) -> bool {
    flags.split(|byte| *byte == b',').any(|word| word == flag)
}
