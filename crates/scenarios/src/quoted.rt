//! Bytes between quotation marks: `\n`, `\t`, `\\`, `\"` and `\xHH` stand for one byte each, any other character for itself.

use crate::refused::Refused;
use acq_base::{Bytes, Row};
use case_words::Page;
use std::alloc::Global;
use std::mem;

/// Where a reader of such bytes stands.
#[derive(Clone, Copy, PartialEq, Eq)]
enum At {
    Outside,
    Within,
    /// Behind a backslash.
    Escape,
    /// Before the first of two digits.
    High,
    /// Before the second, with what the first one counts.
    Low(u8),
}

/// What has been read so far.
#[derive(Drop)]
struct Pieces {
    alloc: Global,
    whole: Row<Bytes>,
    piece: Bytes,
    at: At,
}

impl Pieces {
    fn take_all(&mut self, bytes: &[u8]) -> Result<(), Refused> {
        for byte in bytes {
            self.take(*byte)?;
        }
        if self.at == At::Outside {
            Ok(())
        } else {
            Err(Refused::Line)
        }
    }

    fn take(&mut self, byte: u8) -> Result<(), Refused> {
        self.at = match (self.at, byte) {
            (At::Outside, b' ') => At::Outside,
            (At::Outside, b'"') | (At::Within, b'"') => self.mark()?,
            (At::Within, b'\\') => At::Escape,
            (At::Within, byte) => self.put(byte)?,
            (At::Escape, b'x') => At::High,
            (At::Escape, byte) => self.put(escaped(byte)?)?,
            (At::High, byte) => At::Low(digit(byte)? << 4),
            (At::Low(high), byte) => self.put(high | digit(byte)?)?,
            (At::Outside, _) => return Err(Refused::Line),
        };
        Ok(())
    }

    /// A piece begins or ends.
    fn mark(&mut self) -> Result<At, Refused> {
        if self.at == At::Outside {
            return Ok(At::Within);
        }
        let piece = mem::replace(&mut self.piece, Bytes::new(self.alloc));
        self.whole.push(piece)?;
        Ok(At::Outside)
    }

    fn put(&mut self, byte: u8) -> Result<At, Refused> {
        self.piece.push(byte)?;
        Ok(At::Within)
    }
}

/// The byte that a character behind a backslash stands for.
fn escaped(byte: u8) -> Result<u8, Refused> {
    match byte {
        b'n' => Ok(b'\n'),
        b't' => Ok(b'\t'),
        b'\\' | b'"' => Ok(byte),
        _ => Err(Refused::Line),
    }
}

fn digit(byte: u8) -> Result<u8, Refused> {
    match byte {
        b'0'..=b'9' => Ok(byte - b'0'),
        b'a'..=b'f' => Ok(byte - b'a' + 10),
        _ => Err(Refused::Line),
    }
}

/// The bytes of each piece of a text, `"..."` and again `"..."`.
pub fn read_pieces(alloc: Global, text: &str) -> Result<Row<Bytes>, Refused> {
    read_from(alloc, At::Outside, text)
}

fn read_from(alloc: Global, at: At, text: &str) -> Result<Row<Bytes>, Refused> {
    let mut pieces = Pieces {
        alloc,
        whole: Row::new(alloc),
        piece: Bytes::new(alloc),
        at,
    };
    pieces.take_all(text.as_bytes())?;
    Ok(pieces.whole)
}

/// The bytes of a text that is one piece.
pub fn read_bytes(alloc: Global, text: &str) -> Result<Bytes, Refused> {
    single(read_pieces(alloc, text)?)
}

/// A name, which ends before the first ` "`, and the bytes of the piece behind it.
pub fn read_named<'a>(alloc: Global, text: &'a str) -> Result<(&'a str, Bytes), Refused> {
    let Some((name, rest)) = text.split_once(" \"") else {
        return Err(Refused::Line);
    };
    Ok((name, single(read_from(alloc, At::Within, rest)?)?))
}

fn single(pieces: Row<Bytes>) -> Result<Bytes, Refused> {
    let mut pieces = pieces.into_vec();
    match (pieces.pop(), pieces.pop()) {
        (Some(piece), None) => Ok(piece),
        _ => Err(Refused::Line),
    }
}

/// Puts bytes as one piece.
pub fn put_bytes(page: &mut Page, bytes: &[u8]) {
    page.put("\"");
    for byte in bytes {
        put_byte(page, *byte);
    }
    page.put("\"");
}

fn put_byte(page: &mut Page, byte: u8) {
    match byte {
        b'\n' => page.put("\\n"),
        b'\t' => page.put("\\t"),
        b'\\' => page.put("\\\\"),
        b'"' => page.put("\\\""),
        b' '..=b'~' => page.show(char::from(byte)),
        _ => page.show(format_args!("\\x{byte:02x}")),
    }
}
