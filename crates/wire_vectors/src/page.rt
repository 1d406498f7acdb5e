//! The text of an answer.

use crate::cases::Refused;
use acq_base::{NotServed, Reply};
use std::alloc::{AllocError, Global};

/// A text that grows. Where memory runs out it stays short, and is refused in the end.
#[derive(Drop)]
pub struct Page {
    text: String,
    is_short: bool,
}

impl Page {
    /// The empty text.
    pub fn new(alloc: Global) -> Page {
        Page {
            text: String::new(alloc),
            is_short: false,
        }
    }

    /// The text, if memory sufficed.
    pub fn text(&self) -> Result<&str, Refused> {
        if self.is_short {
            return Err(Refused::NoMemory);
        }
        Ok(self.text.as_str())
    }

    /// Puts a text behind the others.
    pub fn put(&mut self, text: &str) {
        let put = self.text.push_str(text);
        self.note(put);
    }

    /// Puts a word and a number.
    pub fn put_number(&mut self, word: &str, number: u64) {
        let put = write!(self.text, "{word}{number}");
        self.note(put);
    }

    /// Puts a word and bytes between quotation marks. What isn't printed, a quotation mark and a backslash stand as escapes.
    pub fn put_bytes(&mut self, word: &str, bytes: &[u8]) {
        self.put(word);
        self.put("\"");
        for byte in bytes {
            self.put_byte(*byte);
        }
        self.put("\"");
    }

    fn put_byte(&mut self, byte: u8) {
        let put = match byte {
            b'\n' => self.text.push_str("\\n"),
            b'\r' => self.text.push_str("\\r"),
            b' ' | b'!' | b'#'..=b'[' | b']'..=b'~' => self.text.push(char::from(byte)),
            _ => write!(self.text, "\\x{byte:02x}"),
        };
        self.note(put);
    }

    /// Puts a reply.
    pub fn put_reply(&mut self, reply: &Reply) {
        match reply {
            Reply::Served(bytes) => self.put_bytes(" served ", bytes.as_slice()),
            Reply::Not(end) => self.put_not_served(end),
            Reply::NoMemory => self.fall_short(),
        }
    }

    /// Puts what came where no file was served.
    pub fn put_not_served(&mut self, end: &NotServed) {
        match end {
            NotServed::Moved(Some(uri)) => self.put_bytes(" moved ", uri.path.as_bytes()),
            NotServed::Moved(None) => self.put(" moved nowhere"),
            NotServed::Absent(status) => self.put_number(" absent ", u64::from(*status)),
            NotServed::TooBig => self.put(" too big"),
            NotServed::Garbled(at) => self.put_number(" garbled ", *at),
            NotServed::Fault { before, after } => {
                self.put_number(" fault ", *before);
                self.put_number(" ", *after);
            }
        }
    }

    /// Says that memory ran out for what should stand here.
    pub fn fall_short(&mut self) {
        self.is_short = true;
    }

    fn note(&mut self, put: Result<(), AllocError>) {
        if put.is_err() {
            self.is_short = true;
        }
    }
}
