//! The words of a line.

use acq_base::{NoMemory, Row, Text, read_digits};
use std::alloc::{AllocError, Global};
use std::{fmt, io, str};

/// Why a line has no answer.
#[derive(Clone, Copy, PartialEq, Eq)]
pub enum Refused {
    /// It names no call.
    NoCall,
    /// The system refused what was asked of it directly.
    System,
    /// Memory ran out.
    NoMemory,
}

impl fmt::Display for Refused {
    fn fmt<W: fmt::Write>(&self, f: &mut fmt::Formatter<W>) -> fmt::Result {
        f.write_str(match self {
            Refused::NoCall => "no call",
            Refused::System => "refused by the system",
            Refused::NoMemory => "no memory",
        })
    }
}

impl From<NoMemory> for Refused {
    fn from(_want: NoMemory) -> Refused {
        Refused::NoMemory
    }
}

impl From<AllocError> for Refused {
    fn from(_error: AllocError) -> Refused {
        Refused::NoMemory
    }
}

impl From<io::Error> for Refused {
    fn from(_error: io::Error) -> Refused {
        Refused::System
    }
}

/// The number that a word is.
pub fn number(word: &Text) -> Result<u64, Refused> {
    read_digits(word.as_bytes()).ok_or(Refused::NoCall)
}

/// The number below 65536 that a word is.
pub fn short(word: &Text) -> Result<u16, Refused> {
    match u16::try_from(number(word)?) {
        Ok(number) => Ok(number),
        Err(_) => Err(Refused::NoCall),
    }
}

/// The path of a word, below a folder.
pub fn path(alloc: Global, folder: &str, word: &Text) -> Result<String, Refused> {
    match str::from_utf8(word.as_bytes()) {
        Ok(word) => Ok(format!(in alloc; "{folder}/{word}")?),
        Err(_) => Err(Refused::NoCall),
    }
}

/// What each of the words stands for.
pub fn texts(alloc: Global, words: &[&str]) -> Result<Row<Text>, Refused> {
    let mut texts = Row::new(alloc);
    for word in words {
        texts.push(text(alloc, word)?)?;
    }
    Ok(texts)
}

/// The bytes that a word stands for.
fn text(alloc: Global, word: &str) -> Result<Text, Refused> {
    let mut text = Text::new(alloc);
    if word != "\"\"" {
        append(&mut text, word)?;
    }
    Ok(text)
}

/// Appends the bytes that a word with escapes stands for.
fn append(text: &mut Text, word: &str) -> Result<(), Refused> {
    let mut pieces = word.split('\\');
    text.append(pieces.next().unwrap_or("").as_bytes())?;
    for piece in pieces {
        append_escaped(text, piece.as_bytes())?;
    }
    Ok(())
}

/// Appends what a backslash and the text behind it stand for.
fn append_escaped(text: &mut Text, piece: &[u8]) -> Result<(), Refused> {
    let (byte, rest) = match piece {
        [b'n', rest @ ..] => (b'\n', rest),
        [b'r', rest @ ..] => (b'\r', rest),
        [b'x', high, low, rest @ ..] => (hex(*high, *low).ok_or(Refused::NoCall)?, rest),
        _ => return Err(Refused::NoCall),
    };
    text.push(byte)?;
    text.append(rest)?;
    Ok(())
}

/// The byte of two hexadecimal digits.
fn hex(high: u8, low: u8) -> Option<u8> {
    let high = char::from(high).to_digit(16)?;
    let low = char::from(low).to_digit(16)?;
    u8::try_from(high.wrapping_mul(16).wrapping_add(low)).ok()
}
