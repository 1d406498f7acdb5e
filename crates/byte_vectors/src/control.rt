//! Control text.

use acq_base::{Row, Text};
use case_words::{Page, Refused, readable, yes_or_no};
use deb822_text::{Field, Paragraph, can_write, find, read, writable, write};
use std::alloc::Global;

/// Appends how many paragraphs a text has, or why it is refused, without comments and with them.
pub fn put_counted(alloc: Global, page: &mut Page, text: &[u8]) {
    put_count(alloc, page, text, false);
    page.put("; ");
    put_count(alloc, page, text, true);
}

fn put_count(alloc: Global, page: &mut Page, text: &[u8], comments: bool) {
    match read(alloc, text, comments) {
        Ok(paragraphs) => page.show(format_args!("paragraphs {}", paragraphs.len())),
        Err(refusal) => page.put_refusal(&refusal),
    }
}

/// Appends the line and the lines of the first paragraph's field of this name.
pub fn put_found(alloc: Global, page: &mut Page, text: &[u8], name: &[u8]) -> Result<(), Refused> {
    let paragraphs = readable(read(alloc, text, false))?;
    match paragraphs.as_slice() {
        [first, ..] => {
            put_field(page, find(first, name));
            Ok(())
        }
        [] => Err(Refused::Unread),
    }
}

fn put_field(page: &mut Page, field: Option<&Field>) {
    let Some(field) = field else {
        return page.put("none");
    };
    page.show(format_args!("at {}:", field.at));
    for line in field.lines.as_slice() {
        page.put(" ");
        page.put_text(line.as_bytes());
    }
}

/// Appends how much a text has, and whether it is the same when it is written again.
pub fn put_again(alloc: Global, page: &mut Page, text: &[u8]) -> Result<(), Refused> {
    let paragraphs = readable(read(alloc, text, true))?;
    put_size(page, paragraphs.as_slice());
    put_written(alloc, page, &paragraphs, text)
}

fn put_written(
    alloc: Global,
    page: &mut Page,
    paragraphs: &Row<Paragraph>,
    text: &[u8],
) -> Result<(), Refused> {
    if !can_write(alloc, paragraphs)? {
        page.put("can't be written");
        return Ok(());
    }
    let written = write(alloc, paragraphs)?;
    if written.as_slice() == text {
        page.put("the same");
    } else {
        page.put_text(written.as_slice());
    }
    Ok(())
}

/// Appends how many paragraphs there are, how many fields the first has, and how many lines its first one.
fn put_size(page: &mut Page, paragraphs: &[Paragraph]) {
    page.show(format_args!("paragraphs {}, ", paragraphs.len()));
    if let [paragraph, ..] = paragraphs {
        page.show(format_args!("fields {}, ", paragraph.fields.len()));
        if let [field, ..] = paragraph.fields.as_slice() {
            page.show(format_args!("lines {}, ", field.lines.len()));
        }
    }
}

/// Appends whether a paragraph of these fields can be written: each is a `+`, a name and its lines.
pub fn put_writable(alloc: Global, page: &mut Page, words: &[&[u8]]) -> Result<(), Refused> {
    let paragraphs = paragraphs_of(alloc, words)?;
    let holds = writable(&paragraphs);
    if can_write(alloc, &paragraphs)? != holds {
        return Err(Refused::Unread);
    }
    page.put(yes_or_no(holds));
    Ok(())
}

/// The one paragraph of these fields.
fn paragraphs_of(alloc: Global, words: &[&[u8]]) -> Result<Row<Paragraph>, Refused> {
    let mut paragraphs = Row::new(alloc);
    paragraphs.push(paragraph_of(alloc, words)?)?;
    Ok(paragraphs)
}

fn paragraph_of(alloc: Global, words: &[&[u8]]) -> Result<Paragraph, Refused> {
    let mut fields = Row::new(alloc);
    for group in words.split(|word| *word == b"+".as_slice()) {
        if let [name, lines @ ..] = group {
            fields.push(field_of(alloc, name, lines)?)?;
        }
    }
    Ok(Paragraph { fields })
}

fn field_of(alloc: Global, name: &[u8], lines: &[&[u8]]) -> Result<Field, Refused> {
    let name = Text::from_bytes(alloc, name)?;
    let lines = texts_of(alloc, lines)?;
    Ok(Field { name, lines, at: 0 })
}

fn texts_of(alloc: Global, words: &[&[u8]]) -> Result<Row<Text>, Refused> {
    let mut texts = Row::new(alloc);
    for word in words {
        texts.push(Text::from_bytes(alloc, word)?)?;
    }
    Ok(texts)
}
