//! What can be written. It touches nothing; `can_write` alone may take memory.
ghost use Rattle.std.specs.Prelude.{◌≡◌, ◌≢◌, false, is_some, IfOk};
ghost use Rattle.deb822_text.specs.Written.{is_writable, is_writable_paragraph, is_writable_field, is_first_line, is_later_line, are_field_lines, are_distinct, is_line_character, ends_with};
ghost use Rattle.std.specs.List.{list_all};
ghost use Rattle.acq_base.specs.Words.{is_blank};
ghost use Rattle.deb822_text.specs.Control.{begins_with, field_named};

use crate::finding::names_field;
use crate::line::{all_blank, sound_name};
use crate::repeated::check_names;
use crate::{Field, Paragraph, TextError};
use acq_base::{NoMemory, Row, Text, is_blank};
use std::alloc::Global;

/// Whether `write` can write these paragraphs, so that reading gives them again.
///
/// Each paragraph has a field. A name is one or more printable ASCII characters, not the colon, `#` and `-` not first,
/// and no two of a paragraph's are one, ASCII case aside. Each field has a line, and no line holds a line feed or a
/// carriage return. A first line has no blank at an end; a later one has none at its end, and isn't of blanks alone.
/// It takes no memory, so its time grows with the square of a paragraph's number of fields; that of `can_write` doesn't.
#[tactic(auto, unfolding(crate::specs::Written::is_writable))]
pub fn writable(paragraphs: &Row<Paragraph>) -> bool
    ensures { result ≡ is_writable paragraphs.now }
{
    paragraphs
        .as_slice()
        .iter()
        .all(|paragraph| writable_paragraph(paragraph))
}

/// As `writable`, with memory: where a paragraph has many fields their names are sorted, so that n of them take n log n
/// time. Its only error is `NoMemory`.
#[tactic(auto, unfolding(crate::specs::Written::is_writable))]
pub fn can_write(alloc: Global, paragraphs: &Row<Paragraph>) -> Result<bool, NoMemory>
    ensures { IfOk result (λ can. can ≡ is_writable paragraphs.now) }
{
    for paragraph in paragraphs.as_slice() {
        if !can_write_paragraph(alloc, paragraph)? {
            return Ok(false);
        }
    }
    Ok(true)
}

#[tactic(auto, using(crate::proofs::Lookups::emptiness))]
fn can_write_paragraph(alloc: Global, paragraph: &Paragraph) -> Result<bool, NoMemory>
    ensures { IfOk result (λ can. can ≡ is_writable_paragraph paragraph.now) }
{
    let fields = paragraph.fields.as_slice();
    if fields.is_empty() || !writable_fields(fields) {
        return Ok(false);
    }
    are_different(alloc, fields)
}

/// Whether no two of the fields have one name, by their names in order.
fn are_different(alloc: Global, fields: &[Field]) -> Result<bool, NoMemory>
    ensures { IfOk result (λ different. different ≡ are_distinct fields.now) }
{
    match check_names(alloc, fields) {
        Ok(()) => Ok(true),
        Err(fault) => not_different(fault),
    }
}

/// That names are not all different, by the refusal of one; or that memory ran out before it was known.
fn not_different(fault: TextError) -> Result<bool, NoMemory>
    ensures { IfOk result (λ different. (different ≡ false) × (fault ≢ TextError.NoMemory)) }
{
    match fault {
        TextError::NoMemory => Err(NoMemory),
        _ => Ok(false),
    }
}

#[tactic(auto, using(crate::proofs::Lookups::emptiness))]
fn writable_paragraph(paragraph: &Paragraph) -> bool
    ensures { result ≡ is_writable_paragraph paragraph.now }
{
    let fields = paragraph.fields.as_slice();
    if fields.is_empty() {
        return false;
    }
    writable_fields(fields) && distinct(fields)
}

fn writable_fields(fields: &[Field]) -> bool
    ensures { result ≡ list_all is_writable_field fields.now }
{
    fields.iter().all(|field| writable_field(field))
}

fn writable_field(field: &Field) -> bool
    ensures { result ≡ is_writable_field field.now }
{
    sound_name(field.name.as_bytes()) && writable_lines(field.lines.as_slice())
}

fn writable_lines(lines: &[Text]) -> bool
    ensures { result ≡ are_field_lines lines.now }
{
    match lines.split_first() {
        None => false,
        Some((first, later)) => writable_first(first.as_bytes()) && writable_rest(later),
    }
}

fn writable_rest(later: &[Text]) -> bool
    ensures { result ≡ list_all is_later_line later.now }
{
    later.iter().all(|line| writable_later(line.as_bytes()))
}

/// Whether a text can be a field's first line.
fn writable_first(line: &[u8]) -> bool
    ensures { result ≡ is_first_line line.now }
{
    one_line(line) && !starts_blank(line) && !ends_blank(line)
}

/// Whether a text can be a later line of a field.
fn writable_later(line: &[u8]) -> bool
    ensures { result ≡ is_later_line line.now }
{
    one_line(line) && !all_blank(line) && !ends_blank(line)
}

fn one_line(line: &[u8]) -> bool
    ensures { result ≡ list_all is_line_character line.now }
{
    line.iter().all(|byte| *byte != b'\n' && *byte != b'\r')
}

fn starts_blank(line: &[u8]) -> bool
    ensures { result ≡ begins_with is_blank line.now }
{
    match line {
        [first, ..] => is_blank(*first),
        [] => false,
    }
}

fn ends_blank(line: &[u8]) -> bool
    ensures { result ≡ ends_with is_blank line.now }
{
    match line {
        [.., last] => is_blank(*last),
        [] => false,
    }
}

/// Whether no two of the fields have one name.
fn distinct(fields: &[Field]) -> bool
    ensures { result ≡ are_distinct fields.now }
{
    let mut rest = fields;
    while let Some((first, others)) = rest.split_first() {
        if names_field(others, first.name.as_bytes()) {
            return false;
        }
        rest = others;
    }
    true
}
