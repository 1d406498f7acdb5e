//! The text of a case.

use acq_base::{Bytes, NoMemory, Row, Text};
use std::alloc::{AllocError, AllocFailed, Global};
use std::fmt;
use uri_names::UriError;

/// Why a case comes to nothing.
#[derive(Clone, Copy, PartialEq, Eq)]
pub enum Refused {
    /// It is none.
    NoCase,
    /// Memory ran out.
    NoMemory,
}

impl fmt::Display for Refused {
    fn fmt<W: fmt::Write>(&self, f: &mut fmt::Formatter<W>) -> fmt::Result {
        f.write_str(match self {
            Refused::NoCase => "no case",
            Refused::NoMemory => "no memory",
        })
    }
}

impl From<NoMemory> for Refused {
    fn from(_want: NoMemory) -> Refused {
        Refused::NoMemory
    }
}

impl From<AllocError> for Refused {
    fn from(_error: AllocError) -> Refused {
        Refused::NoMemory
    }
}

impl<T: Drop> From<AllocFailed<T>> for Refused {
    fn from(_error: AllocFailed<T>) -> Refused {
        Refused::NoMemory
    }
}

impl From<UriError> for Refused {
    fn from(_error: UriError) -> Refused {
        Refused::NoCase
    }
}

/// What stands behind the word of a step.
#[derive(Drop)]
pub enum Argument {
    Number(u64),
    Text(Text),
}

/// A word and its arguments.
#[derive(Drop)]
pub struct Step {
    pub name: String,
    pub arguments: Vec<Argument>,
}

/// A case: what it shows, and its steps.
#[derive(Drop)]
pub struct Case {
    pub name: String,
    pub steps: Vec<Step>,
}

/// Reads a case.
pub fn read_case(alloc: Global, text: &str) -> Result<Case, Refused> {
    let Some((name, steps)) = text.split_once(": ") else {
        return Err(Refused::NoCase);
    };
    Ok(Case {
        name: String::from_str(alloc, name)?,
        steps: read_steps(alloc, steps)?,
    })
}

/// Reads steps: each second piece between quotation marks is a text.
fn read_steps(alloc: Global, text: &str) -> Result<Vec<Step>, Refused> {
    let mut steps = Vec::new(alloc);
    let mut is_text = false;
    for piece in text.split('"') {
        if is_text {
            add(&mut steps, Argument::Text(unescaped(alloc, piece)?))?;
        } else {
            add_words(alloc, &mut steps, piece)?;
        }
        is_text = !is_text;
    }
    if is_text {
        Ok(steps)
    } else {
        Err(Refused::NoCase)
    }
}

/// Adds words and numbers, with blanks between them.
fn add_words(alloc: Global, steps: &mut Vec<Step>, words: &str) -> Result<(), Refused> {
    for word in words.split(' ') {
        add_word(alloc, steps, word)?;
    }
    Ok(())
}

/// Adds a step that a word begins, or the number that it is.
fn add_word(alloc: Global, steps: &mut Vec<Step>, word: &str) -> Result<(), Refused> {
    if word.is_empty() {
        return Ok(());
    }
    if let Ok(number) = word.parse::<u64>() {
        return add(steps, Argument::Number(number));
    }
    steps.push(Step {
        name: String::from_str(alloc, word)?,
        arguments: Vec::new(alloc),
    })?;
    Ok(())
}

/// Adds an argument to the last step.
fn add(steps: &mut Vec<Step>, argument: Argument) -> Result<(), Refused> {
    match steps.last_mut() {
        Some(step) => {
            step.arguments.push(argument)?;
            Ok(())
        }
        None => Err(Refused::NoCase),
    }
}

/// The bytes of a text with escapes.
fn unescaped(alloc: Global, text: &str) -> Result<Text, Refused> {
    let mut bytes = Text::new(alloc);
    let mut pieces = text.split('\\');
    bytes.append(pieces.next().unwrap_or("").as_bytes())?;
    for piece in pieces {
        append_escaped(&mut bytes, piece.as_bytes())?;
    }
    Ok(bytes)
}

/// Appends what a backslash and the text behind it stand for.
fn append_escaped(bytes: &mut Text, piece: &[u8]) -> Result<(), Refused> {
    let (byte, rest) = match piece {
        [b'n', rest @ ..] => (b'\n', rest),
        [b'r', rest @ ..] => (b'\r', rest),
        [b'x', high, low, rest @ ..] => (hex(*high, *low).ok_or(Refused::NoCase)?, rest),
        _ => return Err(Refused::NoCase),
    };
    bytes.push(byte)?;
    bytes.append(rest)?;
    Ok(())
}

/// The byte of two hexadecimal digits.
fn hex(high: u8, low: u8) -> Option<u8> {
    let high = char::from(high).to_digit(16)?;
    let low = char::from(low).to_digit(16)?;
    u8::try_from(high.wrapping_mul(16).wrapping_add(low)).ok()
}

/// The bytes of texts, one behind the other. A number before a text says how often it stands there.
pub fn joined(alloc: Global, arguments: &[Argument]) -> Result<Bytes, Refused> {
    let mut bytes = Bytes::new(alloc);
    let mut times = 1;
    for argument in arguments {
        match argument {
            Argument::Number(number) => times = *number,
            Argument::Text(text) => {
                for _ in 0..times {
                    bytes.append(text.as_bytes())?;
                }
                times = 1;
            }
        }
    }
    Ok(bytes)
}

/// The texts, each by itself.
pub fn texts(alloc: Global, arguments: &[Argument]) -> Result<Row<Bytes>, Refused> {
    let mut row = Row::new(alloc);
    for argument in arguments {
        match argument {
            Argument::Text(text) => row.push(Bytes::from(Vec::from_slice(
                alloc,
                text.as_bytes(),
            )?))?,
            Argument::Number(_) => return Err(Refused::NoCase),
        }
    }
    Ok(row)
}

/// The numbers.
pub fn numbers(alloc: Global, arguments: &[Argument]) -> Result<Row<u64>, Refused> {
    let mut row = Row::new(alloc);
    for argument in arguments {
        match argument {
            Argument::Number(number) => row.push(*number)?,
            Argument::Text(_) => return Err(Refused::NoCase),
        }
    }
    Ok(row)
}

/// The numbers of all steps with this name.
pub fn numbers_of(alloc: Global, steps: &[Step], name: &str) -> Result<Row<u64>, Refused> {
    let mut row = Row::new(alloc);
    for step in steps {
        if step.name.as_str() == name {
            row.append(numbers(alloc, step.arguments.as_slice())?.as_slice())?;
        }
    }
    Ok(row)
}
