//! Pieces of a stream of messages, answered as they come. What comes is cut behind each line feed, since the reader
//! refuses a piece whole: so no message that ends before a bad line is lost with it.

ghost use Rattle.std.specs.Prelude.{◌≡◌, ◌≢◌, [], ◌++◌};
ghost use Rattle.acq_outside.specs.Fetches.{Fetches};
ghost use Rattle.acq_outside.specs.Frame.{CountsOnly};
ghost use Rattle.method_server.specs.Taking.{IsCut, TakesCall};

use crate::answer::answer_all;
use crate::end::Stop;
use acq_outside::{Files, Method, Sink};
use memchr::memchr;
use method_messages::{MessageError, Reader};
use std::alloc::Global;

/// Takes a piece of the stream, and answers each message that ends in it.
///
/// `Some` place where the stream is refused for the message that begins there, once all messages before are answered.
pub fn take_piece<M: Method, F: Files, S: Sink>(
    alloc: Global,
    http: bool,
    reader: &mut Reader,
    piece: &[u8],
    method: &mut M,
    files: &mut F,
    out: &mut S,
) -> Result<Option<u64>, Stop>
    ensures method { Fetches M.Method method.old method.new }
    ensures files { CountsOnly Stop.Files (F.faults files.old) (F.faults files.new) result }
    ensures output { CountsOnly Stop.Output (S.faults out.old) (S.faults out.new) result }
    ensures takes { TakesCall M.Method F.Files S.Sink http piece.now reader.old reader.new
        method.old method.new files.old files.new out.old out.new result }
{
    let mut rest = piece;
    'lines: while !rest.is_empty() {
        let (line, behind) = cut_line(rest);
        if let Some(at) = take_line(alloc, http, reader, line, method, files, out)? {
            return Ok(Some(at));
        }
        rest = behind;
    }
    Ok(None)
}

/// What stands up to the first line feed, with it, and what behind: all and nothing where there is none.
fn cut_line(text: &[u8]) -> (&[u8], &[u8])
    ensures both { result.0.now ++ result.1.now ≡ text.now }
    ensures some { text.now ≢ [] → result.0.now ≢ [] }
    ensures cut { IsCut result.0.now }
{
    match memchr(b'\n', text) {
        Some(at) => text.split_at(at + 1),
        None => text.split_at(text.len()),
    }
}

/// Takes a piece that has no line feed but at its end.
fn take_line<M: Method, F: Files, S: Sink>(
    alloc: Global,
    http: bool,
    reader: &mut Reader,
    line: &[u8],
    method: &mut M,
    files: &mut F,
    out: &mut S,
) -> Result<Option<u64>, Stop>
    requires { IsCut line.now }
    ensures method { Fetches M.Method method.old method.new }
    ensures files { CountsOnly Stop.Files (F.faults files.old) (F.faults files.new) result }
    ensures output { CountsOnly Stop.Output (S.faults out.old) (S.faults out.new) result }
    ensures takes { TakesCall M.Method F.Files S.Sink http line.now reader.old reader.new
        method.old method.new files.old files.new out.old out.new result }
{
    match reader.feed(alloc, line) {
        Ok(messages) => {
            answer_all(alloc, http, messages.as_slice(), method, files, out)?;
            Ok(None)
        }
        Err(MessageError::BadMessage(at)) => Ok(Some(at)),
        Err(MessageError::TooLong(at)) => Ok(Some(at)),
        Err(MessageError::NoMemory) => Err(Stop::Memory),
    }
}
