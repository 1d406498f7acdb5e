//! How many sources came to what. The line takes memory.

ghost use Rattle.std.specs.Prelude.{◌≡◌, ◌++◌, IfOk, OnOk};
ghost use Rattle.report_text.specs.Report.{is_told_by, count_told, total_line, count_of};

use crate::numbers::append_decimal;
use acq_base::{NoMemory, Text};
use std::alloc::Global;
use update_model::Verdict2;

/// The word with which a source's line begins.
#[derive(Clone, Copy, Debug, PartialEq, Eq)]
pub enum LineKind {
    Get,
    Hit,
    Older,
    Keep,
}

/// The report's last line.
pub fn total_text(alloc: Global, verdicts: &[Verdict2]) -> Result<Text, NoMemory>
    ensures { IfOk result (λ text. text ≡ total_line verdicts.now) }
{
    let mut text = Text::from_bytes(alloc, b"Total ")?;
    append_count(alloc, &mut text, verdicts, LineKind::Get)?;
    text.append(b" installed, ")?;
    append_count(alloc, &mut text, verdicts, LineKind::Hit)?;
    text.append(b" hit, ")?;
    append_count(alloc, &mut text, verdicts, LineKind::Older)?;
    text.append(b" older, ")?;
    append_count(alloc, &mut text, verdicts, LineKind::Keep)?;
    text.append(b" kept")?;
    text.push(b'\n')?;
    Ok(text)
}

/// Appends how many verdicts are told by a word.
fn append_count(
    alloc: Global,
    text: &mut Text,
    verdicts: &[Verdict2],
    word: LineKind,
) -> Result<(), NoMemory>
    ensures { OnOk result (text.new ≡ text.old ++ count_of word verdicts.now) }
{
    append_decimal(alloc, text, count(verdicts, word) as u64)
}

/// How many verdicts are told by a word.
fn count(verdicts: &[Verdict2], word: LineKind) -> usize
    ensures { result ≡ count_told word verdicts.now }
{
    let mut count = 0;
    let mut rest = verdicts;
    while let Some((verdict, others)) = rest.split_first() {
        count += usize::from(is_told(verdict, word));
        rest = others;
    }
    count
}

/// Whether a verdict is told by a word.
fn is_told(verdict: &Verdict2, word: LineKind) -> bool
    ensures { result ≡ is_told_by word verdict.now }
{
    match verdict {
        Verdict2::Installed(_) => word == LineKind::Get,
        Verdict2::Hit(_) => word == LineKind::Hit,
        Verdict2::Older(_) => word == LineKind::Older,
        Verdict2::Kept(_) => word == LineKind::Keep,
    }
}
