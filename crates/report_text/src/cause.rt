//! The words for why a source keeps its set. They take memory.

ghost use Rattle.std.specs.Prelude.{◌≡◌, ◌++◌, codes, IfOk};
ghost use Rattle.std.specs.Fmt.{decimal};
ghost use Rattle.hex.specs.Hex.{encode_lower};
ghost use Rattle.report_text.specs.Causes.{cause_text as words_for, verdict_text as words_for_verdict, field_text, at_path as at};

use crate::numbers::{append_decimal, counted, dated};
use acq_base::{NoMemory, Sha, Text};
use hash_gate::Verdict;
use release_file::HeadField;
use std::alloc::Global;
use update_model::Cause;

/// The words for a cause.
pub fn cause_text(alloc: Global, cause: &Cause) -> Result<Text, NoMemory>
    ensures { IfOk result (λ text. text ≡ words_for cause.now) }
{
    match cause {
        Cause::NoRelease(status) => counted(alloc, b"no release ", u64::from(*status)),
        Cause::Redirects(path) => spoken(alloc, b"redirects ", path.as_bytes()),
        Cause::BadRelease { number, line } => bad_release(alloc, *number, *line),
        Cause::Expired(end) => dated(alloc, b"expired ", *end),
        Cause::Future(date) => dated(alloc, b"future ", i128::from(*date)),
        Cause::TooBig(limit) => counted(alloc, b"too big ", *limit),
        Cause::Missing { path, status } => missing(alloc, path, *status),
        Cause::Differs { path, got, .. } => differs(alloc, path, got),
        Cause::Garbled { path, at } => garbled(alloc, path, *at),
        Cause::Method {
            path,
            lane,
            before,
            after,
        } => failed(alloc, path, *lane, *before, *after),
        Cause::Changed { field, .. } => spoken(alloc, b"changed ", field_name(*field)),
    }
}

/// Words and what they are about.
fn spoken(alloc: Global, words: &[u8], about: &[u8]) -> Result<Text, NoMemory>
    ensures { IfOk result (λ text. text ≡ words.now ++ about.now) }
{
    let mut text = Text::from_bytes(alloc, words)?;
    text.append(about)?;
    Ok(text)
}

/// The name of a field, as a Release spells it.
fn field_name(field: HeadField) -> &'static [u8]
    ensures { result.now ≡ field_text field }
{
    match field {
        HeadField::Origin => b"Origin",
        HeadField::Label => b"Label",
        HeadField::Suite => b"Suite",
        HeadField::Codename => b"Codename",
    }
}

fn bad_release(alloc: Global, number: u32, line: u64) -> Result<Text, NoMemory>
    ensures { IfOk result (λ text. text ≡ codes "bad release " ++ decimal number ++ codes " line " ++ decimal line) }
{
    let mut text = counted(alloc, b"bad release ", u64::from(number))?;
    text.append(b" line ")?;
    append_decimal(alloc, &mut text, line)?;
    Ok(text)
}

/// Words, a path and a blank.
fn at_path(alloc: Global, words: &[u8], path: &Text) -> Result<Text, NoMemory>
    ensures { IfOk result (λ text. text ≡ at words.now path.now) }
{
    let mut text = spoken(alloc, words, path.as_bytes())?;
    text.append(b" ")?;
    Ok(text)
}

fn missing(alloc: Global, path: &Text, status: u16) -> Result<Text, NoMemory>
    ensures { IfOk result (λ text. text ≡ at (codes "missing ") path.now ++ decimal status) }
{
    let mut text = at_path(alloc, b"missing ", path)?;
    append_decimal(alloc, &mut text, u64::from(status))?;
    Ok(text)
}

fn garbled(alloc: Global, path: &Text, place: u64) -> Result<Text, NoMemory>
    ensures { IfOk result (λ text. text ≡ at (codes "garbled ") path.now ++ decimal place) }
{
    let mut text = at_path(alloc, b"garbled ", path)?;
    append_decimal(alloc, &mut text, place)?;
    Ok(text)
}

fn differs(alloc: Global, path: &Text, got: &Verdict) -> Result<Text, NoMemory>
    ensures { IfOk result (λ text. text ≡ at (codes "differs ") path.now ++ words_for_verdict got.now) }
{
    let mut text = at_path(alloc, b"differs ", path)?;
    text.append(verdict_text(alloc, got)?.as_bytes())?;
    Ok(text)
}

fn failed(alloc: Global, path: &Text, lane: u32, before: u64, after: u64) -> Result<Text, NoMemory>
    ensures { IfOk result (λ text. text ≡ at (codes "method ") path.now ++ decimal lane ++ codes " " ++ decimal before ++ codes " " ++ decimal after) }
{
    let mut text = at_path(alloc, b"method ", path)?;
    append_decimal(alloc, &mut text, u64::from(lane))?;
    text.append(b" ")?;
    append_decimal(alloc, &mut text, before)?;
    text.append(b" ")?;
    append_decimal(alloc, &mut text, after)?;
    Ok(text)
}

/// How a list differs from the wanted one. One that fits is no cause.
fn verdict_text(alloc: Global, verdict: &Verdict) -> Result<Text, NoMemory>
    ensures { IfOk result (λ text. text ≡ words_for_verdict verdict.now) }
{
    match verdict {
        Verdict::Fits => Text::from_bytes(alloc, b"fits"),
        Verdict::Short(length) => counted(alloc, b"short ", *length),
        Verdict::Long => Text::from_bytes(alloc, b"long"),
        Verdict::Differs(sha) => other_digest(alloc, sha),
    }
}

fn other_digest(alloc: Global, sha: &Sha) -> Result<Text, NoMemory>
    ensures { IfOk result (λ text. text ≡ codes "other " ++ encode_lower sha.now.0) }
{
    let digits = hex::encode(alloc, sha.0)?;
    spoken(alloc, b"other ", digits.as_bytes())
}
