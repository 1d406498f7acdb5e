//! The text that a line answers.

use crate::Refused;
use acq_base::{Refusal, Row, Sha, Sum, Text};
use std::alloc::Global;
use std::fmt::{Display, Write};
use std::str;

/// The most bytes of a text that is printed whole. Of a longer one the length and the digest are printed.
const MOST_BYTES: usize = 4096;

/// The text that a line answers. Where memory runs out it is cut, which only its end tells: so each part is put without a
/// question.
#[derive(Drop)]
pub struct Page {
    alloc: Global,
    text: String,
    is_cut: bool,
}

impl Page {
    /// The empty page.
    pub fn new(alloc: Global) -> Page {
        Page {
            alloc,
            text: String::new(alloc),
            is_cut: false,
        }
    }

    /// The whole text, or that memory ran out.
    pub fn finish(self) -> Result<String, Refused> {
        if self.is_cut {
            return Err(Refused::NoMemory);
        }
        Ok(self.text)
    }

    /// Whether nothing stands on the page.
    pub fn is_empty(&self) -> bool {
        self.text.is_empty()
    }

    /// Says that memory ran out for a part.
    pub fn cut(&mut self) {
        self.is_cut = true;
    }

    /// Appends a text as it stands.
    pub fn put(&mut self, text: &str) {
        if self.text.push_str(text).is_err() {
            self.cut();
        }
    }

    /// Appends a value as it is displayed.
    pub fn show(&mut self, value: impl Display + Drop) {
        if write!(self.text, "{value}").is_err() {
            self.cut();
        }
    }

    /// Appends a text in quotes, spelled as in a line's words.
    pub fn put_text(&mut self, text: &[u8]) {
        if text.len() > MOST_BYTES {
            return self.put_sum(&acq_base::sum_of(text));
        }
        self.put("\"");
        for byte in text {
            self.put_byte(*byte);
        }
        self.put("\"");
    }

    fn put_byte(&mut self, byte: u8) {
        match byte {
            b'\n' => self.put("\\n"),
            b'\t' => self.put("\\t"),
            b'"' => self.put("\\\""),
            b'\\' => self.put("\\\\"),
            b' '..=b'~' => self.show(char::from(byte)),
            _ => self.show(format_args!("\\x{byte:02x}")),
        }
    }

    /// Appends a text as it stands, or in quotes where it isn't UTF-8.
    pub fn put_name(&mut self, text: &[u8]) {
        match str::from_utf8(text) {
            Ok(text) => self.put(text),
            Err(_) => self.put_text(text),
        }
    }

    /// Appends the words, with commas between them.
    pub fn put_list(&mut self, words: &Row<Text>) {
        let mut between = "";
        for word in words.as_slice() {
            self.put(between);
            self.put_name(word.as_bytes());
            between = ",";
        }
    }

    /// Appends the number and the line of a refusal.
    pub fn put_refusal<E: Refusal>(&mut self, refusal: &E) {
        let number = refusal.number();
        let line = refusal.line();
        self.show(format_args!("refused {number} at {line}"));
    }

    /// Appends a file's length and digest.
    pub fn put_sum(&mut self, sum: &Sum) {
        self.show(sum.size);
        self.put(" bytes ");
        self.put_digest(&sum.sha);
    }

    /// Appends a digest.
    pub fn put_digest(&mut self, digest: &Sha) {
        match hex::encode(self.alloc, digest.0) {
            Ok(digits) => self.put(digits.as_str()),
            Err(_) => self.cut(),
        }
    }
}

/// The word for whether something holds.
pub fn yes_or_no(holds: bool) -> &'static str {
    if holds { "yes" } else { "no" }
}
