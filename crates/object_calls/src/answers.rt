//! What calls answer, as text.

use crate::page::Page;
use acq_base::{Bytes, Row, Text};
use acq_outside::{Fault, HoldError, OutError};

impl Page {
    /// Done, or a fault.
    pub fn put_done(&mut self, done: Result<(), Fault>) {
        self.put(match done {
            Ok(()) => "done",
            Err(Fault) => "fault",
        });
    }

    /// Who holds a disk, or a fault.
    pub fn put_held(&mut self, held: Result<(), HoldError>) {
        self.put(match held {
            Ok(()) => "held by this one",
            Err(HoldError::Held) => "held by another",
            Err(HoldError::Fault) => "fault",
        });
    }

    /// A length in bytes, `absent` where there is no file, or a fault.
    pub fn put_length(&mut self, length: Result<Option<u64>, Fault>) {
        match length {
            Ok(Some(bytes)) => self.put_number(bytes),
            Ok(None) => self.put("absent"),
            Err(Fault) => self.put("fault"),
        }
    }

    /// How many bytes came, and the buffer that they came into, or a fault.
    pub fn put_piece(&mut self, came: Result<usize, Fault>, out: &[u8]) {
        match came {
            Ok(bytes) => {
                self.put_number(bytes as u64);
                self.put(" ");
                self.put_bytes(out);
            }
            Err(Fault) => self.put("fault"),
        }
    }

    /// A file's content, `absent` where there is none, or a fault.
    pub fn put_content(&mut self, content: Result<Option<Bytes>, OutError>) {
        match content {
            Ok(Some(content)) => self.put_bytes(content.as_slice()),
            Ok(None) => self.put("absent"),
            Err(error) => self.put_error(error),
        }
    }

    /// The length of a file's content, `absent` where there is none, or a fault.
    pub fn put_content_length(&mut self, content: Result<Option<Bytes>, OutError>) {
        match content {
            Ok(Some(content)) => self.put_number(content.len() as u64),
            Ok(None) => self.put("absent"),
            Err(error) => self.put_error(error),
        }
    }

    /// The names, or a fault.
    pub fn put_names(&mut self, names: Result<Row<Text>, OutError>) {
        match names {
            Ok(names) => self.put_listed(names.as_slice()),
            Err(error) => self.put_error(error),
        }
    }

    /// The names with a blank between two, or `no names`.
    fn put_listed(&mut self, names: &[Text]) {
        if names.is_empty() {
            self.put("no names");
        }
        for (at, name) in names.iter().enumerate() {
            if at > 0 {
                self.put(" ");
            }
            self.put_bytes(name.as_bytes());
        }
    }

    /// That a call failed, or that memory ran out.
    pub fn put_error(&mut self, error: OutError) {
        match error {
            OutError::Fault => self.put("fault"),
            OutError::NoMemory => self.fall_short(),
        }
    }
}
