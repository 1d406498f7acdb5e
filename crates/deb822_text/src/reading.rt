//! Control text read line by line. It may take memory, and touches nothing else.
ghost use Rattle.std.specs.Prelude.{◌≡◌, ◌⊎◌, ◌++◌, ◌∷◌, [], Some, Err, OnOk, IfOk, IfErr};
ghost use Rattle.deb822_text.specs.Control.{paragraphs_of, lines_of, or_else, Separator, Continuation, Named};
ghost use Rattle.deb822_text.specs.Scan.{scan, start, state_of, Takes};
ghost use Rattle.deb822_text.specs.Names.{repeated, AnswersFault};
ghost use Rattle.deb822_text.specs.Seen.{seen};
ghost use Rattle.deb822_text.specs.Refused.{IsFirstFault, AreAllowed};

use crate::cutting::first_line;
use crate::line::{Kind, kind_of};
use crate::repeated::check_names;
use crate::{Field, Paragraph, TextError};
use acq_base::{NoMemory, Row, Text};
use std::alloc::Global;
use std::mem;

/// The paragraphs of a control text (Debian Policy, section 5.1). With `comments`, a line that begins with `#` is passed
/// over.
///
/// A text is refused at its first line that no reading allows: `BadField` where the line is of no kind, `Twice` where
/// its paragraph already has a field of that name, `Loose` where it continues no field of its paragraph.
pub fn read(alloc: Global, bytes: &[u8], comments: bool) -> Result<Row<Paragraph>, TextError>
    ensures value { (result ≡ Err TextError.NoMemory) ⊎ (result ≡ paragraphs_of bytes.now comments) }
    // Of a text that is read, each line is allowed behind those before it.
    ensures allowed { OnOk result (AreAllowed (lines_of comments bytes.now)) }
    // A refusal is that of the first line that isn't.
    ensures refused { IfErr result (λ fault. (fault ≡ TextError.NoMemory) ⊎ IsFirstFault (lines_of comments bytes.now) fault) }
{
    scanned(alloc, bytes, comments)
}

/// Reads line by line.
fn scanned(alloc: Global, bytes: &[u8], comments: bool) -> Result<Row<Paragraph>, TextError>
    ensures { (result ≡ Err TextError.NoMemory) ⊎ (result ≡ scan start (lines_of comments bytes.now)) }
{
    let mut reading = Reading::new(alloc);
    let mut rest = bytes;
    let mut at = 0;
    while !rest.is_empty() {
        let (line, behind) = first_line(rest);
        at += 1;
        reading.take(alloc, kind_of(line, at, comments))?;
        rest = behind;
    }
    reading.close(alloc)?;
    Ok(reading.paragraphs)
}

/// What is read so far: whole paragraphs, and the fields of the one that is open, whose names aren't all compared yet.
#[derive(Drop)]
struct Reading {
    paragraphs: Row<Paragraph>,
    fields: Vec<Field>,
}

impl Reading {
    fn new(alloc: Global) -> Reading
        ensures { state_of result ≡ start }
    {
        Reading {
            paragraphs: Row::new(alloc),
            fields: Vec::new(alloc),
        }
    }

    /// Takes the next line.
    #[tactic(auto, using(crate::proofs::Steps::steps))]
    fn take(&mut self, alloc: Global, kind: Kind<'_>) -> Result<(), TextError>
        ensures { Takes (state_of self.old) (seen kind.entry) result (state_of self.new) }
    {
        match kind {
            Kind::Separator => self.close(alloc),
            Kind::Comment => Ok(()),
            Kind::Continuation(at, text) => self.go_on(alloc, at, text),
            Kind::Named(at, name, text) => self.begin(alloc, at, name, text),
            Kind::Unknown(at) => Err(self.refusal(alloc, TextError::BadField(at))),
        }
    }

    /// A line more of the last field.
    #[tactic(auto, using(crate::proofs::Steps::steps))]
    fn go_on(&mut self, alloc: Global, at: u64, text: &[u8]) -> Result<(), TextError>
        ensures { Takes (state_of self.old) (Continuation at text.now) result (state_of self.new) }
    {
        match self.fields.pop() {
            None => Err(TextError::Loose(at)),
            Some(field) => {
                let field = longer(alloc, field, text)?;
                Ok(self.put(field)?)
            }
        }
    }

    /// A new field.
    #[tactic(auto, using(crate::proofs::Steps::steps))]
    fn begin(&mut self, alloc: Global, at: u64, name: &[u8], text: &[u8]) -> Result<(), TextError>
        ensures { Takes (state_of self.old) (Named at name.now text.now) result (state_of self.new) }
    {
        self.check_growing(alloc)?;
        self.make_room(alloc)?;
        Ok(self.put(new_field(alloc, at, name, text)?)?)
    }

    /// Compares the names of a paragraph that grows: at 4, 32, 256 fields and so on. So a name that stands again and
    /// again is refused early. All of these together compare at most 8/7 as many names as the paragraph has.
    fn check_growing(&self, alloc: Global) -> Result<(), TextError>
        ensures { IfErr result (λ fault. (fault ≡ TextError.NoMemory) ⊎ (repeated self.now.fields.items ≡ Some fault)) }
    {
        let count = self.fields.len();
        if count.is_power_of_two() && count.trailing_zeros() % 3 == 2 {
            return check_names(alloc, self.fields.as_slice());
        }
        Ok(())
    }

    /// Room for just one field at first, since a text may be of many tiny paragraphs.
    fn make_room(&mut self, alloc: Global) -> Result<(), NoMemory>
        ensures { OnOk result (state_of self.new ≡ state_of self.old) }
    {
        if self.fields.is_empty() {
            self.fields = Vec::with_capacity(alloc, 1)?;
        }
        Ok(())
    }

    /// Puts a field to the others.
    fn put(&mut self, field: Field) -> Result<(), NoMemory>
        ensures paragraphs { self.new.paragraphs ≡ self.old.paragraphs }
        ensures fields { OnOk result (self.new.fields.items ≡ self.old.fields.items ++ field ∷ []) }
    {
        self.fields.push(field)?;
        Ok(())
    }

    /// Ends the open paragraph, if it has a field.
    #[tactic(auto, using(crate::proofs::Steps::steps))]
    fn close(&mut self, alloc: Global) -> Result<(), TextError>
        ensures { Takes (state_of self.old) Separator result (state_of self.new) }
    {
        if self.fields.is_empty() {
            return Ok(());
        }
        check_names(alloc, self.fields.as_slice())?;
        let fields = Row::from(mem::replace(&mut self.fields, Vec::new(alloc)));
        Ok(self.paragraphs.push(Paragraph { fields })?)
    }

    /// This refusal, or that of a field above it, whose name an earlier one has.
    fn refusal(&self, alloc: Global, fault: TextError) -> TextError
        ensures { (result ≡ TextError.NoMemory) ⊎ (or_else (repeated self.now.fields.items) (Some fault) ≡ Some result) }
    {
        match check_names(alloc, self.fields.as_slice()) {
            Ok(()) => fault,
            Err(earlier) => earlier,
        }
    }
}

/// A field with its first line.
fn new_field(alloc: Global, at: u64, name: &[u8], text: &[u8]) -> Result<Field, NoMemory>
    ensures { IfOk result (λ field. field ≡ record { name = name.now; lines = text.now ∷ []; at = at }) }
{
    let mut lines = Vec::with_capacity(alloc, 1)?;
    lines.push(Text::from_bytes(alloc, text)?)?;
    Ok(Field {
        name: Text::from_bytes(alloc, name)?,
        lines: Row::from(lines),
        at,
    })
}

/// A field with a line more.
fn longer(alloc: Global, field: Field, text: &[u8]) -> Result<Field, NoMemory>
    ensures { IfOk result (λ longer. longer ≡ record field { lines = field.lines ++ text.now ∷ [] }) }
{
    let Field {
        name,
        mut lines,
        at,
    } = field;
    lines.push(Text::from_bytes(alloc, text)?)?;
    Ok(Field { name, lines, at })
}
