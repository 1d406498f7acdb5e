//! A reader of a stream of messages. `feed` may take memory; nothing else is touched.

ghost use Rattle.std.specs.Prelude.{◌≡◌, ◌⊎◌, ℕ, ◌≤◌, ◌++◌, [], List, Ok, Err, drop, IfOk, IfErr, OnErr, MatchResult, vec_len};
ghost use Rattle.method_messages.specs.declared.message.Message.{Message};
ghost use Rattle.method_messages.specs.Refused.{IsRefused};
ghost use Rattle.method_messages.specs.Streams.{Reads, begun_at};

use crate::progress::read_messages;
use crate::{Message, MessageError};
use acq_base::{NoMemory, Row};
use std::alloc::Global;
use std::marker::Model;

/// Reads the messages of a stream that comes in pieces. Contracts see where the message that has begun and not ended
/// begins in the stream, and its bytes.
#[derive(Drop)]
pub struct Reader {
    begins: u64,
    held: Vec<u8>,
}

impl Model for Reader {
    ghost use Rattle.method_messages.specs.Streams.{Unended};

    ghost Value = { Unended };

    ghost view = { λ reader. record { begins = reader.begins; bytes = reader.held.items } };
}

impl Reader {
    /// A reader before the stream's first byte. It takes no memory.
    pub fn new(alloc: Global) -> Reader
        ensures { Reads [] [] result }
    {
        Reader {
            begins: 0,
            held: Vec::new(alloc),
        }
    }

    /// The messages that end in the stream's next bytes, in order. It doesn't show how the stream is cut into pieces.
    ///
    /// `BadMessage` as soon as a line has ended that can't stand in a message, `TooLong` as soon as 65,536 bytes of a message
    /// have come without its end, each with the place of the message's first byte in the stream, even where messages before it
    /// end in this piece; `NoMemory` where memory ran out. After each of the three the reader is as it was.
    pub fn feed(&mut self, alloc: Global, piece: &[u8]) -> Result<Row<Message>, MessageError>
        // All messages given so far are those of the stream that have ended.
        ensures given { IfOk result (λ given. (stream : List ℕ) (before : List Message) → Reads stream before self.old
            → Reads (stream ++ piece.now) (before ++ given) self.new) }
        // It is refused only where the stream is, and so,
        ensures only { IfErr result (λ fault. (stream : List ℕ) (before : List Message) → Reads stream before self.old
            → (fault ≡ MessageError.NoMemory) ⊎ IsRefused (stream ++ piece.now) fault) }
        // and wherever the stream is.
        ensures certain { (stream : List ℕ) (before : List Message) (fault : MessageError) → Reads stream before self.old
            → IsRefused (stream ++ piece.now) fault → (result ≡ Err MessageError.NoMemory) ⊎ (result ≡ Err fault) }
        ensures unchanged { OnErr result (self.new ≡ self.old) }
    {
        let before = self.held.len();
        append(&mut self.held, piece)?;
        match read_messages(alloc, self.held.as_slice(), before, self.begins) {
            Ok(read) => {
                self.begins = read.begins;
                drop_front(&mut self.held, read.start);
                Ok(read.messages)
            }
            Err(fault) => {
                self.held.truncate(before);
                Err(fault)
            }
        }
    }

    /// Where the message begins that has begun and not ended, in bytes of the stream, or None where none has. Empty lines
    /// before a message don't begin it. It takes no memory.
    pub fn rest(&self) -> Option<u64>
        ensures { result ≡ begun_at self.now }
    {
        if self.held.is_empty() {
            None
        } else {
            Some(self.begins)
        }
    }
}

/// Appends bytes. Without memory what is held stays as it was.
fn append(held: &mut Vec<u8>, piece: &[u8]) -> Result<(), NoMemory>
    ensures { MatchResult result (λ _. held.new.items ≡ held.old.items ++ piece.now) (λ _. held.new.items ≡ held.old.items) }
{
    held.extend_from_slice(piece)?;
    Ok(())
}

/// Drops so many bytes at the front. Where there are none to drop nothing moves, so that a message may come byte by byte.
fn drop_front(held: &mut Vec<u8>, count: usize)
    requires { count ≤ vec_len held.old }
    ensures { held.new.items ≡ drop count held.old.items }
{
    if count == 0 {
        return;
    }
    let left = held.len() - count;
    held.copy_within(count.., 0);
    held.truncate(left);
}
