//! Reading an Index. What takes memory is handed an allocator.

ghost use Rattle.std.specs.Prelude.{◌≡◌, ◌≢◌, ◌⊎◌, Err, IfOk, AllPairs, option_copied};
ghost use Rattle.pdiff_index.specs.Index.{index_of, index_of_paragraphs, index_of_fields, current_part, current_of, current_from, sum_of_line, steps_part, merged_of, are_merged, refused_line, lesser, index_of_parts, completed};
ghost use Rattle.pdiff_index.specs.Listed.{AreNamed};

use crate::steps::read_steps;
use crate::{Index, IndexError, Step};
use acq_base::{NoMemory, Row, Sum, Text, read_sum, words};
use deb822_text::{Field, Paragraph, find, read};
use std::alloc::Global;

/// What a field says, or the line at which it is refused; `None` where the field isn't there.
type Part<T> = Option<Result<T, u64>>;

/// Reads a patch Index.
///
/// It is one paragraph of control text without comments (Debian Policy, section 5.1) with the fields SHA256-Current,
/// SHA256-History and SHA256-Patches. The first is one line of hash and size. The others have an empty first line, and
/// each further line has hash, size and name, with blanks between them; no name stands twice in SHA256-Patches. A name
/// is 1 to 240 letters, digits and `. _ - +`, and neither `.` nor `..`. `X-Patch-Precedence: merged` says that the
/// patches are merged. All other fields are read over.
///
/// Of several refusals the first in this order is answered, unless memory runs out: the control text's, another count
/// of paragraphs than one, the first line that isn't so or repeats a name of SHA256-Patches, a missing field.
pub fn read_index(alloc: Global, bytes: &[u8]) -> Result<Index, IndexError>
    ensures value { (result ≡ Err IndexError.NoMemory) ⊎ (result ≡ index_of bytes.now) }
    // Each name is of the allowed form.
    ensures named { IfOk result (λ index. AreNamed index.history × AreNamed index.patches) }
    // No patch has the name of another.
    ensures distinct { IfOk result (λ index. AllPairs (λ a b. a.name ≢ b.name) index.patches) }
{
    index_from(alloc, bytes)
}

/// The Index that the bytes are.
#[tactic(auto, unfolding(crate::specs::Index::index_of))]
fn index_from(alloc: Global, bytes: &[u8]) -> Result<Index, IndexError>
    ensures { (result ≡ Err IndexError.NoMemory) ⊎ (result ≡ index_of bytes.now) }
{
    let paragraphs = read(alloc, bytes, false)?;
    only_paragraph(alloc, paragraphs.as_slice())
}

/// The Index that these paragraphs are, which are to be one.
#[tactic(auto, unfolding(crate::specs::Index::index_of_paragraphs))]
fn only_paragraph(alloc: Global, paragraphs: &[Paragraph]) -> Result<Index, IndexError>
    ensures { (result ≡ Err IndexError.NoMemory) ⊎ (result ≡ index_of_paragraphs paragraphs.now) }
{
    match paragraphs {
        [paragraph] => from_paragraph(alloc, paragraph),
        _ => Err(IndexError::BadIndex(0)),
    }
}

/// The Index that a paragraph is.
#[tactic(auto, unfolding(crate::specs::Index::index_of_fields))]
fn from_paragraph(alloc: Global, paragraph: &Paragraph) -> Result<Index, IndexError>
    ensures { (result ≡ Err IndexError.NoMemory) ⊎ (result ≡ index_of_fields paragraph.now.fields) }
{
    let current = current_sum(alloc, find(paragraph, b"SHA256-Current"))?;
    let history = field_steps(alloc, find(paragraph, b"SHA256-History"), false)?;
    let patches = field_steps(alloc, find(paragraph, b"SHA256-Patches"), true)?;
    let merged = says_merged(find(paragraph, b"X-Patch-Precedence"));
    joined(current, history, patches, merged)
}

/// The Index of these parts, unless a line of one is refused, or one is missing.
fn joined(
    current: Part<Sum>,
    history: Part<Row<Step>>,
    patches: Part<Row<Step>>,
    merged: bool,
) -> Result<Index, IndexError>
    ensures { result ≡ index_of_parts current history patches merged }
{
    let line = earlier(
        refusal(&current),
        earlier(refusal(&history), refusal(&patches)),
    );
    if let Some(line) = line {
        return Err(IndexError::BadIndex(line));
    }
    match (current, history, patches) {
        (Some(Ok(current)), Some(Ok(history)), Some(Ok(patches))) => Ok(Index {
            current,
            history,
            patches,
            merged,
        }),
        _ => Err(IndexError::BadIndex(0)),
    }
}

/// The line at which a field is refused, if it is.
fn refusal<T>(part: &Part<T>) -> Option<u64>
    ensures { result ≡ refused_line part.now }
{
    match part {
        Some(Err(line)) => Some(*line),
        _ => None,
    }
}

/// The earlier of two lines.
fn earlier(first: Option<u64>, second: Option<u64>) -> Option<u64>
    ensures { result ≡ lesser first second }
{
    match (first, second) {
        (Some(first), Some(second)) => Some(first.min(second)),
        (first, None) => first,
        (None, second) => second,
    }
}

/// The sum of the current file, if the field is there.
#[tactic(auto, unfolding(crate::specs::Index::current_part))]
fn current_sum(alloc: Global, field: Option<&Field>) -> Result<Part<Sum>, NoMemory>
    ensures { IfOk result (λ part. part ≡ current_part (option_copied field.entry)) }
{
    match field {
        Some(field) => Ok(Some(sum_of_lines(alloc, field.lines.as_slice(), field.at)?)),
        None => Ok(None),
    }
}

/// The sum that the lines of a field write, which are to be one.
fn sum_of_lines(alloc: Global, lines: &[Text], at: u64) -> Result<Result<Sum, u64>, NoMemory>
    ensures { IfOk result (λ sum. sum ≡ current_of lines.now at) }
{
    match lines {
        [line, more @ ..] => Ok(alone(read_line(alloc, line.as_bytes())?, more, at)),
        [] => Ok(Err(at)),
    }
}

/// The sum of a field's first line, if there is one and no line behind it.
fn alone(sum: Option<Sum>, more: &[Text], at: u64) -> Result<Sum, u64>
    ensures { result ≡ current_from sum more.now at }
{
    match (sum, more) {
        (Some(sum), []) => Ok(sum),
        (Some(_), _) => Err(at.saturating_add(1)),
        (None, _) => Err(at),
    }
}

/// The sum that a line of hash and size writes, if it is one.
#[tactic(auto, unfolding(crate::specs::Index::sum_of_line))]
fn read_line(alloc: Global, line: &[u8]) -> Result<Option<Sum>, NoMemory>
    ensures { IfOk result (λ sum. sum ≡ sum_of_line line.now) }
{
    let words = words(alloc, line)?;
    match words.as_slice() {
        [hash, size] => Ok(read_sum(hash.as_bytes(), size.as_bytes()).ok()),
        _ => Ok(None),
    }
}

/// The steps that a field lists, if it is there.
#[tactic(auto, unfolding(crate::specs::Index::steps_part))]
fn field_steps(
    alloc: Global,
    field: Option<&Field>,
    once: bool,
) -> Result<Part<Row<Step>>, NoMemory>
    ensures { IfOk result (λ part. part ≡ steps_part once (option_copied field.entry)) }
{
    match field {
        Some(field) => Ok(Some(read_steps(alloc, field.lines.as_slice(), field.at, once)?)),
        None => Ok(None),
    }
}

/// Whether a field says `merged`.
#[tactic(auto, unfolding(crate::specs::Index::merged_of))]
fn says_merged(field: Option<&Field>) -> bool
    ensures { result ≡ merged_of (option_copied field.entry) }
{
    match field {
        Some(field) => is_merged(field.lines.as_slice()),
        None => false,
    }
}

/// Whether the lines are `merged` alone.
fn is_merged(lines: &[Text]) -> bool
    ensures { result ≡ are_merged lines.now }
{
    match lines {
        [line] => matches!(line.as_bytes(), b"merged"),
        _ => false,
    }
}
