//! What the end of a line tells. It may take memory, and touches nothing else.

ghost use Rattle.std.specs.Prelude.{◌≡◌, ℕ, ◌∷◌, true, List, map, IfOk};
ghost use Rattle.std.specs.List.{list_all};
ghost use Rattle.method_messages.specs.Lines.{is_line, ended, field_in, message_in};
ghost use Rattle.method_messages.specs.Streams.{IsOpen};
ghost use Rattle.method_messages.specs.Within.{IsReadOf, TellsLine};

use crate::cutting::{cut_at, last_line};
use crate::line::{field_of, may_follow, number_of, text_of};
use crate::{Message, MessageError};
use acq_base::{NoMemory, Row, Text};
use std::alloc::Global;

/// How many bytes a message has at most.
pub const MOST_BYTES: usize = 65_536;

/// What a line that has ended tells.
#[derive(Drop)]
pub enum Told {
    /// It is empty and stands before a message.
    Passed,
    /// The message goes on behind it.
    GoesOn,
    /// The message ends with it.
    Ends(Message),
}

/// What the end of the last line of a text tells, which began at this place of the stream.
pub fn line_ended(alloc: Global, text: &[u8], begins: u64) -> Result<Told, MessageError>
    ensures { IsOpen text.now → IsReadOf text.now begins result }
{
    if text.len() >= MOST_BYTES {
        return Err(MessageError::TooLong(begins));
    }
    let (lines, line) = last_line(text);
    if !line.is_empty() {
        return went_on(lines, line, begins);
    }
    if lines.is_empty() {
        return Ok(Told::Passed);
    }
    Ok(Told::Ends(read_message(alloc, lines)?))
}

/// What a line tells that isn't empty.
fn went_on(lines: &[u8], line: &[u8], begins: u64) -> Result<Told, MessageError>
    ensures { (before : List (List ℕ)) → lines.now ≡ ended before → TellsLine before line.now begins result }
{
    if may_follow(lines, line) {
        Ok(Told::GoesOn)
    } else {
        Err(MessageError::BadMessage(begins))
    }
}

/// The message that these lines say.
fn read_message(alloc: Global, lines: &[u8]) -> Result<Message, NoMemory>
    ensures { (first : List ℕ) (fields : List (List ℕ)) → lines.now ≡ ended (first ∷ fields)
        → list_all is_line (first ∷ fields) ≡ true → IfOk result (λ message. message ≡ message_in first fields) }
{
    let (first, behind) = cut_at(b'\n', lines);
    let fields = read_fields(alloc, behind)?;
    let text = Text::from_bytes(alloc, text_of(first))?;
    Ok(Message {
        number: number_of(first),
        text,
        fields,
    })
}

/// The fields that these lines say.
fn read_fields(alloc: Global, lines: &[u8]) -> Result<Row<(Text, Text)>, NoMemory>
    ensures { (fields : List (List ℕ)) → lines.now ≡ ended fields → list_all is_line fields ≡ true
        → IfOk result (λ read. read ≡ map field_in fields) }
{
    let mut fields = Row::new(alloc);
    let mut rest = lines;
    while !rest.is_empty() {
        let (line, behind) = cut_at(b'\n', rest);
        fields.push(read_field(alloc, line)?)?;
        rest = behind;
    }
    Ok(fields)
}

fn read_field(alloc: Global, line: &[u8]) -> Result<(Text, Text), NoMemory>
    ensures { IfOk result (λ field. field ≡ field_in line.now) }
{
    let (name, value) = field_of(line);
    let name = Text::from_bytes(alloc, name)?;
    let value = Text::from_bytes(alloc, value)?;
    Ok((name, value))
}
