//! Paragraphs written. It may take memory, and touches nothing else.
ghost use Rattle.std.specs.Prelude.{◌≡◌, ◌++◌, IfOk, OnOk, IsTrue};
ghost use Rattle.std.specs.List.{flat_map};
ghost use Rattle.deb822_text.specs.Written.{is_writable, text_of, ReadsAs, first_line_text, later_line_text, lines_text, field_text, paragraph_text, next_paragraph_text};

use crate::{Field, Paragraph};
use acq_base::{Bytes, NoMemory, Row, Text};
use std::alloc::Global;

/// The paragraphs as text: `NAME: LINE` or, for an empty first line, `NAME:`, each further line behind one space, and
/// one empty line between two paragraphs. Reading it gives the paragraphs again, the numbers of their lines aside.
pub fn write(alloc: Global, paragraphs: &Row<Paragraph>) -> Result<Bytes, NoMemory>
    requires { IsTrue (is_writable paragraphs.now) }
    ensures text { IfOk result (λ bytes. bytes ≡ text_of paragraphs.now) }
    ensures again { IfOk result (λ bytes. ReadsAs bytes paragraphs.now) }
{
    let mut text = Text::new(alloc);
    put_paragraphs(&mut text, paragraphs.as_slice())?;
    Ok(text.into_bytes())
}

#[tactic(auto, unfolding(crate::specs::Written::text_of))]
fn put_paragraphs(text: &mut Text, paragraphs: &[Paragraph]) -> Result<(), NoMemory>
    ensures { OnOk result (text.new ≡ text.old ++ text_of paragraphs.now) }
{
    match paragraphs.split_first() {
        None => Ok(()),
        Some((first, more)) => {
            put_paragraph(text, first)?;
            put_more(text, more)
        }
    }
}

/// Each of the paragraphs behind an empty line.
fn put_more(text: &mut Text, more: &[Paragraph]) -> Result<(), NoMemory>
    ensures { OnOk result (text.new ≡ text.old ++ flat_map next_paragraph_text more.now) }
{
    for paragraph in more {
        put_next(text, paragraph)?;
    }
    Ok(())
}

fn put_next(text: &mut Text, paragraph: &Paragraph) -> Result<(), NoMemory>
    ensures { OnOk result (text.new ≡ text.old ++ next_paragraph_text paragraph.now) }
{
    text.push(b'\n')?;
    put_paragraph(text, paragraph)
}

fn put_paragraph(text: &mut Text, paragraph: &Paragraph) -> Result<(), NoMemory>
    ensures { OnOk result (text.new ≡ text.old ++ paragraph_text paragraph.now) }
{
    put_fields(text, paragraph.fields.as_slice())
}

fn put_fields(text: &mut Text, fields: &[Field]) -> Result<(), NoMemory>
    ensures { OnOk result (text.new ≡ text.old ++ flat_map field_text fields.now) }
{
    for field in fields {
        put_field(text, field)?;
    }
    Ok(())
}

fn put_field(text: &mut Text, field: &Field) -> Result<(), NoMemory>
    ensures { OnOk result (text.new ≡ text.old ++ field_text field.now) }
{
    text.append(field.name.as_bytes())?;
    text.push(b':')?;
    put_lines(text, field.lines.as_slice())
}

fn put_lines(text: &mut Text, lines: &[Text]) -> Result<(), NoMemory>
    ensures { OnOk result (text.new ≡ text.old ++ lines_text lines.now) }
{
    match lines.split_first() {
        None => text.push(b'\n'),
        Some((first, later)) => {
            put_first(text, first.as_bytes())?;
            put_later(text, later)
        }
    }
}

#[tactic(auto, using(crate::proofs::Lookups::emptiness))]
fn put_first(text: &mut Text, line: &[u8]) -> Result<(), NoMemory>
    ensures { OnOk result (text.new ≡ text.old ++ first_line_text line.now) }
{
    if line.is_empty() {
        return text.push(b'\n');
    }
    put_line(text, line)
}

fn put_later(text: &mut Text, later: &[Text]) -> Result<(), NoMemory>
    ensures { OnOk result (text.new ≡ text.old ++ flat_map later_line_text later.now) }
{
    for line in later {
        put_line(text, line.as_bytes())?;
    }
    Ok(())
}

/// A line behind a space.
fn put_line(text: &mut Text, line: &[u8]) -> Result<(), NoMemory>
    ensures { OnOk result (text.new ≡ text.old ++ later_line_text line.now) }
{
    text.push(b' ')?;
    text.append(line)?;
    text.push(b'\n')
}
