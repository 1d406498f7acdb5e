//! The lines of one source. They take memory.

ghost use Rattle.std.specs.Prelude.{◌≡◌, ◌++◌, codes, OnOk, IfOk};
ghost use Rattle.std.specs.Fmt.{signed_decimal};
ghost use Rattle.std.specs.List.{flat_map};
ghost use Rattle.report_text.specs.Causes.{cause_text as words_for};
ghost use Rattle.report_text.specs.Sources.{newline, about as naming, release_line, list_line, set_lines, source_lines};

use crate::cause::cause_text;
use crate::numbers::{append_decimal, append_signed};
use acq_base::{ListName, NoMemory, Source, Sum, Text};
use std::alloc::Global;
use update_model::{Cause, Held, Verdict2};
use uri_names::uri_text;

/// The lines of a source with this verdict.
pub fn source_text(alloc: Global, source: &Source, verdict: &Verdict2) -> Result<Text, NoMemory>
    ensures { IfOk result (λ text. text ≡ source_lines source.now verdict.now) }
{
    match verdict {
        Verdict2::Installed(held) => set_text(alloc, b"Get", source, held),
        Verdict2::Hit(held) => set_text(alloc, b"Hit", source, held),
        Verdict2::Older(date) => older_text(alloc, source, *date),
        Verdict2::Kept(cause) => kept_text(alloc, source, cause),
    }
}

/// A word, the source's base and its suite.
fn about(alloc: Global, word: &[u8], source: &Source) -> Result<Text, NoMemory>
    ensures { IfOk result (λ text. text ≡ naming word.now source.now) }
{
    let mut text = Text::from_bytes(alloc, word)?;
    text.append(b" ")?;
    text.append(uri_text(alloc, &source.base)?.as_bytes())?;
    text.append(b" ")?;
    text.append(source.suite.as_bytes())?;
    Ok(text)
}

fn older_text(alloc: Global, source: &Source, date: i64) -> Result<Text, NoMemory>
    ensures { IfOk result (λ text. text ≡ naming (codes "Older") source.now ++ codes " " ++ signed_decimal date ++ newline) }
{
    let mut text = about(alloc, b"Older", source)?;
    text.append(b" ")?;
    append_signed(alloc, &mut text, i128::from(date))?;
    text.push(b'\n')?;
    Ok(text)
}

fn kept_text(alloc: Global, source: &Source, cause: &Cause) -> Result<Text, NoMemory>
    ensures { IfOk result (λ text. text ≡ naming (codes "Keep") source.now ++ codes " " ++ words_for cause.now ++ newline) }
{
    let mut text = about(alloc, b"Keep", source)?;
    text.append(b" ")?;
    text.append(cause_text(alloc, cause)?.as_bytes())?;
    text.push(b'\n')?;
    Ok(text)
}

/// A source that has a new set, with each file of it.
fn set_text(alloc: Global, word: &[u8], source: &Source, held: &Held) -> Result<Text, NoMemory>
    ensures { IfOk result (λ text. text ≡ set_lines word.now source.now held.now) }
{
    let mut text = about(alloc, word, source)?;
    text.push(b'\n')?;
    text.append(release_text(alloc, source, held)?.as_bytes())?;
    append_lists(alloc, &mut text, held.lists.as_slice())?;
    Ok(text)
}

/// The Release with its size and its date.
fn release_text(alloc: Global, source: &Source, held: &Held) -> Result<Text, NoMemory>
    ensures { IfOk result (λ text. text ≡ release_line source.now held.now) }
{
    let mut text = Text::from_bytes(alloc, b" ")?;
    text.append(source.release_name.0.as_bytes())?;
    text.append(b" ")?;
    append_decimal(alloc, &mut text, held.release.size)?;
    text.append(b" date ")?;
    append_signed(alloc, &mut text, i128::from(held.date))?;
    text.push(b'\n')?;
    Ok(text)
}

/// Appends a line for each list.
fn append_lists(alloc: Global, text: &mut Text, lists: &[(ListName, Sum)]) -> Result<(), NoMemory>
    ensures { OnOk result (text.new ≡ text.old ++ flat_map list_line lists.now) }
{
    let mut rest = lists;
    while let Some((list, others)) = rest.split_first() {
        append_list(alloc, text, list)?;
        rest = others;
    }
    Ok(())
}

fn append_list(alloc: Global, text: &mut Text, list: &(ListName, Sum)) -> Result<(), NoMemory>
    ensures { OnOk result (text.new ≡ text.old ++ list_line list.now) }
{
    text.append(list_text(alloc, list)?.as_bytes())
}

/// A list with its size and its digest.
fn list_text(alloc: Global, list: &(ListName, Sum)) -> Result<Text, NoMemory>
    ensures { IfOk result (λ text. text ≡ list_line list.now) }
{
    let mut text = Text::from_bytes(alloc, b" ")?;
    text.append(list.0.0.as_bytes())?;
    text.append(b" ")?;
    append_decimal(alloc, &mut text, list.1.size)?;
    text.append(b" ")?;
    let digits = hex::encode(alloc, list.1.sha.0)?;
    text.append(digits.as_bytes())?;
    text.push(b'\n')?;
    Ok(text)
}
