//! A text that grows.

use crate::words::Refused;
use std::alloc::{AllocError, Global};

/// A text that grows. Where memory runs out it stays short, and is refused in the end.
#[derive(Drop)]
pub struct Page {
    text: String,
    is_short: bool,
}

impl Page {
    /// The empty text.
    pub fn new(alloc: Global) -> Page {
        Page {
            text: String::new(alloc),
            is_short: false,
        }
    }

    /// The text, if memory sufficed.
    pub fn text(&self) -> Result<&str, Refused> {
        if self.is_short {
            return Err(Refused::NoMemory);
        }
        Ok(self.text.as_str())
    }

    /// Puts a text behind the others.
    pub fn put(&mut self, text: &str) {
        let put = self.text.push_str(text);
        self.note(put);
    }

    /// Puts a number.
    pub fn put_number(&mut self, number: u64) {
        let put = write!(self.text, "{number}");
        self.note(put);
    }

    /// Puts bytes, in which a backslash and a byte that isn't printed stand as `\x` and two digits.
    pub fn put_bytes(&mut self, bytes: &[u8]) {
        for byte in bytes {
            self.put_byte(*byte);
        }
    }

    /// Puts two hexadecimal digits for each byte.
    pub fn put_hex(&mut self, bytes: &[u8]) {
        for byte in bytes {
            let put = write!(self.text, "{byte:02x}");
            self.note(put);
        }
    }

    fn put_byte(&mut self, byte: u8) {
        let put = match byte {
            b' '..=b'[' | b']'..=b'~' => self.text.push(char::from(byte)),
            _ => write!(self.text, "\\x{byte:02x}"),
        };
        self.note(put);
    }

    /// Says that memory ran out for what should stand here.
    pub fn fall_short(&mut self) {
        self.is_short = true;
    }

    fn note(&mut self, put: Result<(), AllocError>) {
        if put.is_err() {
            self.is_short = true;
        }
    }
}
