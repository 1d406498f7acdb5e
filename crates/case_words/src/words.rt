//! The words of a line.
//!
//! A word is bare, or has quoted pieces. In a piece `\n`, `\t`, `\\`, `\"` and `\xHH` stand for a byte. `"ab"*3` is the piece
//! three times, and `\#` in it is the number of the time, counted from 0. Pieces that touch are one word.

use crate::Refused;
use acq_base::{Text, is_blank};
use std::alloc::Global;
use std::mem;

/// A part of a piece: a byte, or the number of the time that the piece stands.
#[derive(Clone, Copy, PartialEq, Eq)]
enum Part {
    Byte(u8),
    Number,
}

/// What the byte before was a part of.
#[derive(Clone, Copy, PartialEq, Eq)]
enum At {
    Blank,
    Bare,
    Quoted,
    Escape,
    Hex,
    SecondHex(u8),
    Closed,
    Times(u32),
}

/// The words so far, the one that is open, and its last piece.
#[derive(Drop)]
struct Reading {
    words: Vec<Text>,
    word: Text,
    piece: Vec<Part>,
    at: At,
}

/// The words of a line.
pub fn words_of(alloc: Global, line: &[u8]) -> Result<Vec<Text>, Refused> {
    let mut reading = Reading {
        words: Vec::new(alloc),
        word: Text::new(alloc),
        piece: Vec::new(alloc),
        at: At::Blank,
    };
    for byte in line {
        reading.take(alloc, *byte)?;
    }
    reading.take(alloc, b' ')?;
    match reading.at {
        At::Blank => Ok(reading.words),
        _ => Err(Refused::NoCall),
    }
}

/// The bytes of each word.
pub fn views_of(alloc: Global, words: &[Text]) -> Result<Vec<&[u8]>, Refused> {
    let mut views: Vec<&[u8]> = Vec::new(alloc);
    for word in words {
        views.push(word.as_bytes())?;
    }
    Ok(views)
}

impl Reading {
    fn take(&mut self, alloc: Global, byte: u8) -> Result<(), Refused> {
        self.at = match self.at {
            At::Blank | At::Bare => self.outside(alloc, byte)?,
            At::Quoted => self.quoted(byte)?,
            At::Escape => self.escaped(byte)?,
            At::Hex => At::SecondHex(digit(byte)?),
            At::SecondHex(high) => {
                self.piece.push(Part::Byte(high << 4 | digit(byte)?))?;
                At::Quoted
            }
            At::Closed if byte == b'*' => At::Times(0),
            At::Closed => self.behind(alloc, byte, 1)?,
            At::Times(times) if byte.is_ascii_digit() => At::Times(longer(times, byte)),
            At::Times(times) => self.behind(alloc, byte, times)?,
        };
        Ok(())
    }

    /// A byte outside of quotes.
    fn outside(&mut self, alloc: Global, byte: u8) -> Result<At, Refused> {
        if is_blank(byte) {
            if self.at == At::Bare {
                self.close(alloc)?;
            }
            return Ok(At::Blank);
        }
        if byte == b'"' {
            return Ok(At::Quoted);
        }
        self.word.push(byte)?;
        Ok(At::Bare)
    }

    /// A byte within quotes.
    fn quoted(&mut self, byte: u8) -> Result<At, Refused> {
        match byte {
            b'"' => return Ok(At::Closed),
            b'\\' => return Ok(At::Escape),
            _ => self.piece.push(Part::Byte(byte))?,
        }
        Ok(At::Quoted)
    }

    /// The byte behind a backslash.
    fn escaped(&mut self, byte: u8) -> Result<At, Refused> {
        let part = match byte {
            b'n' => Part::Byte(b'\n'),
            b't' => Part::Byte(b'\t'),
            b'"' | b'\\' => Part::Byte(byte),
            b'#' => Part::Number,
            b'x' => return Ok(At::Hex),
            _ => return Err(Refused::NoCall),
        };
        self.piece.push(part)?;
        Ok(At::Quoted)
    }

    /// A byte behind a piece that stands so many times.
    fn behind(&mut self, alloc: Global, byte: u8, times: u32) -> Result<At, Refused> {
        for time in 0..times {
            self.append_piece(alloc, time)?;
        }
        self.piece.clear();
        match byte {
            b' ' | b'\t' => {
                self.close(alloc)?;
                Ok(At::Blank)
            }
            b'"' => Ok(At::Quoted),
            _ => Err(Refused::NoCall),
        }
    }

    /// Appends the piece to the open word.
    fn append_piece(&mut self, alloc: Global, time: u32) -> Result<(), Refused> {
        for part in &self.piece {
            match part {
                Part::Byte(byte) => self.word.push(*byte)?,
                Part::Number => self.word.append(format!(in alloc; "{time}")?.as_bytes())?,
            }
        }
        Ok(())
    }

    /// Ends the open word.
    fn close(&mut self, alloc: Global) -> Result<(), Refused> {
        let word = mem::replace(&mut self.word, Text::new(alloc));
        self.words.push(word)?;
        Ok(())
    }
}

/// A number with a digit more. It stands still at the end of its type.
fn longer(times: u32, byte: u8) -> u32 {
    let digit = u32::from(byte.saturating_sub(b'0'));
    times.saturating_mul(10).saturating_add(digit)
}

/// The value of a hexadecimal digit.
fn digit(byte: u8) -> Result<u8, Refused> {
    match byte {
        b'0'..=b'9' => Ok(byte - b'0'),
        b'a'..=b'f' => Ok(byte - b'a' + 10),
        _ => Err(Refused::NoCall),
    }
}
