//! Numbers at the end of a text. They take memory.

ghost use Rattle.std.specs.Prelude.{◌≡◌, ◌++◌, OnOk, IfOk};
ghost use Rattle.std.specs.Fmt.{decimal, signed_decimal};

use acq_base::{NoMemory, Text};
use std::alloc::Global;

/// Appends a number in decimal digits.
pub fn append_decimal(alloc: Global, text: &mut Text, number: u64) -> Result<(), NoMemory>
    ensures { OnOk result (text.new ≡ text.old ++ decimal number) }
{
    let digits = format!(in alloc; "{number}")?;
    text.append(digits.as_bytes())
}

/// Appends a number in decimal digits, with a sign where it is below 0.
pub fn append_signed(alloc: Global, text: &mut Text, number: i128) -> Result<(), NoMemory>
    ensures { OnOk result (text.new ≡ text.old ++ signed_decimal number) }
{
    let digits = format!(in alloc; "{number}")?;
    text.append(digits.as_bytes())
}

/// These words and a number.
pub fn counted(alloc: Global, words: &[u8], number: u64) -> Result<Text, NoMemory>
    ensures { IfOk result (λ text. text ≡ words.now ++ decimal number) }
{
    let mut text = Text::from_bytes(alloc, words)?;
    append_decimal(alloc, &mut text, number)?;
    Ok(text)
}

/// These words and a moment, in seconds since 1970-01-01 00:00:00 UTC.
pub fn dated(alloc: Global, words: &[u8], moment: i128) -> Result<Text, NoMemory>
    ensures { IfOk result (λ text. text ≡ words.now ++ signed_decimal moment) }
{
    let mut text = Text::from_bytes(alloc, words)?;
    append_signed(alloc, &mut text, moment)?;
    Ok(text)
}
