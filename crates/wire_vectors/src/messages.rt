//! Messages between APT and its methods.

use crate::cases::{Argument, Refused, Step, joined, numbers};
use crate::dice::{Dice, thousand};
use crate::page::Page;
use acq_base::{Bytes, Row, Text, TryCopy};
use method_messages::{Message, MessageError, Reader, encode, valid};
use std::alloc::Global;

/// Puts what a case of one step comes to.
pub fn answer(
    alloc: Global,
    page: &mut Page,
    name: &str,
    arguments: &[Argument],
) -> Result<(), Refused> {
    match (name, arguments) {
        ("written", [Argument::Number(number), Argument::Text(text), fields @ ..]) => {
            let message = message(alloc, *number, text, fields)?;
            written(alloc, page, &message)
        }
        ("refused", [Argument::Text(stream)]) => refused(alloc, page, stream.as_bytes()),
        ("counted", stream) => {
            let stream = joined(alloc, stream)?;
            counted(alloc, page, stream.as_slice())
        }
        ("again", [sizes @ .., Argument::Text(stream)]) => {
            let sizes = numbers(alloc, sizes)?;
            again(alloc, page, sizes.as_slice(), stream.as_bytes())
        }
        ("drawn", [Argument::Number(seed)]) => drawn(alloc, page, *seed),
        _ => Err(Refused::NoCase),
    }
}

/// A message of a number, a text, and names and values in turn.
fn message(
    alloc: Global,
    number: u64,
    text: &Text,
    fields: &[Argument],
) -> Result<Message, Refused> {
    let Ok(number) = u32::try_from(number) else {
        return Err(Refused::NoCase);
    };
    Ok(Message {
        number,
        fields: fields_of(alloc, fields)?,
        text: text.copy(alloc)?,
    })
}

/// Fields of names and values in turn.
fn fields_of(alloc: Global, arguments: &[Argument]) -> Result<Row<(Text, Text)>, Refused> {
    let mut fields = Row::new(alloc);
    for field in arguments.chunks(2) {
        match field {
            [Argument::Text(name), Argument::Text(value)] => {
                fields.push((name.copy(alloc)?, value.copy(alloc)?))?
            }
            _ => return Err(Refused::NoCase),
        }
    }
    Ok(fields)
}

/// Puts the bytes of a message, which must be read as that message again in pieces of every size, if it can be written.
fn written(alloc: Global, page: &mut Page, message: &Message) -> Result<(), Refused> {
    if !valid(message) {
        page.put(" can't be written");
        return Ok(());
    }
    let bytes = encode(alloc, message)?;
    page.put_bytes(" ", bytes.as_slice());
    read_again(alloc, page, message, bytes.as_slice())
}

/// Reads the bytes of a message again in pieces of every size, up to the first in which they are not that message.
fn read_again(
    alloc: Global,
    page: &mut Page,
    message: &Message,
    bytes: &[u8],
) -> Result<(), Refused> {
    for size in 1..=bytes.len() {
        if !is_read_again(alloc, message, bytes, size)? {
            page.put_number(", not read again in pieces of ", size as u64);
            return Ok(());
        }
    }
    page.put(", read again in pieces of every size");
    Ok(())
}

/// Whether these bytes, in pieces of this size, are read as one message, and that one.
fn is_read_again(
    alloc: Global,
    message: &Message,
    bytes: &[u8],
    size: usize,
) -> Result<bool, Refused> {
    let messages = in_pieces(alloc, bytes, size)?;
    Ok(messages.len() == 1 && messages.as_slice().first() == Some(message))
}

/// The messages of a stream in pieces of so many bytes.
fn in_pieces(alloc: Global, stream: &[u8], size: usize) -> Result<Row<Message>, Refused> {
    let mut reader = Reader::new(alloc);
    let mut messages = Row::new(alloc);
    for piece in stream.chunks(size.max(1)) {
        add(&mut messages, reader.feed(alloc, piece))?;
    }
    Ok(messages)
}

/// Adds the messages of a feed.
fn add(
    messages: &mut Row<Message>,
    fed: Result<Row<Message>, MessageError>,
) -> Result<(), Refused> {
    let Ok(given) = fed else {
        return Err(Refused::NoCase);
    };
    for message in given.into_vec() {
        messages.push(message)?;
    }
    Ok(())
}

/// Puts how many messages a stream has: byte by byte, in pieces of 1,000 bytes and in one piece.
fn counted(alloc: Global, page: &mut Page, stream: &[u8]) -> Result<(), Refused> {
    for size in [1, 1_000, stream.len()] {
        let messages = in_pieces(alloc, stream, size)?;
        page.put_number(" ", messages.len() as u64);
    }
    Ok(())
}

/// Puts what is said of a stream in one piece, and by which byte the refusal is certain.
fn refused(alloc: Global, page: &mut Page, stream: &[u8]) -> Result<(), Refused> {
    let mut reader = Reader::new(alloc);
    put_fed(page, reader.feed(alloc, stream));
    put_begun(page, &reader);
    for (at, byte) in stream.iter().enumerate() {
        let fed = reader.feed(alloc, &[*byte]);
        if fed.is_err() {
            page.put_number(", by byte ", (at as u64).saturating_add(1));
            put_fed(page, fed);
            put_begun(page, &reader);
            return Ok(());
        }
    }
    page.put(", byte by byte taken");
    Ok(())
}

/// Puts what a reader answers to each `feed`.
pub fn answer_steps(alloc: Global, page: &mut Page, steps: &[Step]) -> Result<(), Refused> {
    let mut reader = Reader::new(alloc);
    for step in steps {
        feed(alloc, page, &mut reader, step)?;
    }
    Ok(())
}

fn feed(alloc: Global, page: &mut Page, reader: &mut Reader, step: &Step) -> Result<(), Refused> {
    if step.name.as_str() != "feed" {
        return Err(Refused::NoCase);
    }
    let piece = joined(alloc, step.arguments.as_slice())?;
    put_fed(page, reader.feed(alloc, piece.as_slice()));
    put_begun(page, reader);
    page.put(";");
    Ok(())
}

/// Puts what a feed gives.
fn put_fed(page: &mut Page, fed: Result<Row<Message>, MessageError>) {
    match fed {
        Ok(messages) => put_messages(page, messages.as_slice()),
        Err(MessageError::BadMessage(at)) => page.put_number(" bad message at ", at),
        Err(MessageError::TooLong(at)) => page.put_number(" too long at ", at),
        Err(MessageError::NoMemory) => page.fall_short(),
    }
}

fn put_messages(page: &mut Page, messages: &[Message]) {
    if messages.is_empty() {
        page.put(" no message");
    }
    for message in messages {
        page.put_number(" ", u64::from(message.number));
        page.put_bytes(" ", message.text.as_bytes());
        for (name, value) in message.fields.as_slice() {
            page.put_bytes(" ", name.as_bytes());
            page.put_bytes("=", value.as_bytes());
        }
    }
}

/// Puts where the message begins that hasn't ended.
fn put_begun(page: &mut Page, reader: &Reader) {
    match reader.rest() {
        Some(at) => page.put_number(", begun at ", at),
        None => page.put(", nothing begun"),
    }
}

/// A reader, and the messages that it gave as they are written.
#[derive(Drop)]
struct Copier {
    reader: Reader,
    written: Bytes,
}

impl Copier {
    fn new(alloc: Global) -> Copier {
        Copier {
            reader: Reader::new(alloc),
            written: Bytes::new(alloc),
        }
    }

    /// Reads a piece, and answers how many messages it ends.
    fn copy(&mut self, alloc: Global, piece: &[u8]) -> Result<usize, Refused> {
        let Ok(messages) = self.reader.feed(alloc, piece) else {
            return Err(Refused::NoCase);
        };
        for message in messages.as_slice() {
            write(alloc, &mut self.written, message)?;
        }
        Ok(messages.len())
    }

    /// Reads a stream whose pieces have these sizes in turn, again and again.
    fn copy_all(&mut self, alloc: Global, sizes: &[u64], stream: &[u8]) -> Result<(), Refused> {
        if sizes.is_empty() {
            return Err(Refused::NoCase);
        }
        let mut rest = stream;
        for round in 0..stream.len() {
            let size = sizes[round % sizes.len()] as usize;
            let (piece, behind) = rest.split_at(size.min(rest.len()));
            self.copy(alloc, piece)?;
            rest = behind;
        }
        Ok(())
    }

    /// Reads a stream in pieces of up to 119 bytes, and puts how many messages it has and how many bytes are left.
    fn copy_drawn(
        &mut self,
        alloc: Global,
        page: &mut Page,
        dice: &mut Dice,
        stream: &[u8],
    ) -> Result<(), Refused> {
        let mut count: usize = 0;
        let mut rest = stream;
        for _ in 0..stream.len() {
            let (piece, behind) = rest.split_at((dice.roll(120) as usize).min(rest.len()));
            count = count.saturating_add(self.copy(alloc, piece)?);
            rest = behind;
        }
        page.put_number(" ", count as u64);
        page.put_number(" messages, ", rest.len() as u64);
        page.put(" bytes left");
        Ok(())
    }
}

/// Appends a message as it is written.
fn write(alloc: Global, written: &mut Bytes, message: &Message) -> Result<(), Refused> {
    if !valid(message) {
        return Err(Refused::NoCase);
    }
    written.append(encode(alloc, message)?.as_slice())?;
    Ok(())
}

/// Puts the messages of a stream as they are written, whose pieces have these sizes in turn, again and again.
fn again(alloc: Global, page: &mut Page, sizes: &[u64], stream: &[u8]) -> Result<(), Refused> {
    let mut copier = Copier::new(alloc);
    let copied = copier.copy_all(alloc, sizes, stream);
    page.put_bytes(" ", copier.written.as_slice());
    put_begun(page, &copier.reader);
    copied
}

/// Puts whether a thousand messages that are drawn from a seed are written as they should be.
fn drawn(alloc: Global, page: &mut Page, seed: u64) -> Result<(), Refused> {
    let mut dice = Dice::new(seed);
    let drawn = thousand(alloc, &mut dice)?;
    let mut copier = Copier::new(alloc);
    let copied = copier.copy_drawn(alloc, page, &mut dice, drawn.loose.as_slice());
    let is_same = copier.written.as_slice() == drawn.tight.as_slice();
    page.put(if is_same {
        ", written as drawn true"
    } else {
        ", written as drawn false"
    });
    put_begun(page, &copier.reader);
    copied
}
