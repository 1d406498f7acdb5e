//! Texts, rows and numbers of the shared types.

use acq_base::{
    Bytes, Row, Text, is_blank, listed_words, read_digits, read_sum, trim_blanks, trim_blanks_end,
    trim_blanks_start, words,
};
use case_words::{Page, Refused, yes_or_no};
use std::alloc::Global;

/// Appends the size that a hash and a size give.
pub fn put_size(page: &mut Page, hash: &[u8], size: &[u8]) {
    match read_sum(hash, size) {
        Ok(sum) => page.show(format_args!("size {}", sum.size)),
        Err(refusal) => {
            page.put_refusal(&refusal);
            page.put(": ");
            page.show(refusal);
        }
    }
}

/// Appends the number that digits write.
pub fn put_digits(page: &mut Page, digits: &[u8]) {
    match read_digits(digits) {
        Some(number) => page.show(number),
        None => page.put("none"),
    }
}

/// Appends a text without the blanks at both ends, at its end and at its front, and whether it begins with a blank.
pub fn put_trimmed(page: &mut Page, text: &[u8]) {
    page.put_text(trim_blanks(text));
    page.put(" ");
    page.put_text(trim_blanks_end(text));
    page.put(" ");
    page.put_text(trim_blanks_start(text));
    if let [first, ..] = text {
        page.put(" ");
        page.put(yes_or_no(is_blank(*first)));
    }
}

/// Appends the words of a text between blanks, and between blanks and commas.
pub fn put_split(alloc: Global, page: &mut Page, text: &[u8]) -> Result<(), Refused> {
    put_texts(page, &words(alloc, text)?);
    page.put("; ");
    put_texts(page, &listed_words(alloc, text)?);
    Ok(())
}

fn put_texts(page: &mut Page, texts: &Row<Text>) {
    page.show(texts.len());
    for text in texts.as_slice() {
        page.put(" ");
        page.put_text(text.as_bytes());
    }
}

/// Appends texts behind one another: all but the last by what a text does, and the last by what bytes do.
pub fn put_joined(alloc: Global, page: &mut Page, texts: &[&[u8]]) -> Result<(), Refused> {
    let [first, middle @ .., last] = texts else {
        return Err(Refused::NoCall);
    };
    let text = joined(alloc, first, middle)?;
    let length = text.len();
    let mut bytes = text.into_bytes();
    bytes.append(last)?;
    put_bytes(page, bytes, length);
    Ok(())
}

fn joined(alloc: Global, first: &[u8], middle: &[&[u8]]) -> Result<Text, Refused> {
    let mut text = Text::from(Vec::from_slice(alloc, first)?);
    for more in middle {
        text.append(more)?;
    }
    Ok(text)
}

fn put_bytes(page: &mut Page, bytes: Bytes, length: usize) {
    let empty = yes_or_no(bytes.is_empty());
    page.put_text(bytes.into_vec().as_slice());
    page.show(format_args!(", {length} of a text; empty {empty}"));
}
