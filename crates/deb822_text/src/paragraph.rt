//! Paragraphs and their fields. Copies take memory.
use acq_base::{NoMemory, Row, Text, TryCopy};
use std::alloc::Global;

/// A field of a paragraph (Debian Policy, section 5.1).
#[derive(Debug, PartialEq, Drop)]
pub struct Field {
    /// The name as it is spelled in the text.
    pub name: Text,
    /// The text behind the colon without blanks at its ends, then each continuation line without its first blank and
    /// without blanks at its end.
    pub lines: Row<Text>,
    /// The line of the name, counted from 1.
    pub at: u64,
}

/// A paragraph: its fields in order.
#[derive(Debug, PartialEq, Drop)]
pub struct Paragraph {
    pub fields: Row<Field>,
}

impl TryCopy for Field {
    fn copy(&self, alloc: Global) -> Result<Field, NoMemory> {
        Ok(Field {
            name: self.name.copy(alloc)?,
            lines: self.lines.copy(alloc)?,
            at: self.at,
        })
    }
}

impl TryCopy for Paragraph {
    fn copy(&self, alloc: Global) -> Result<Paragraph, NoMemory> {
        Ok(Paragraph {
            fields: self.fields.copy(alloc)?,
        })
    }
}
