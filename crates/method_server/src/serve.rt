//! An input served.

ghost use Rattle.std.specs.Prelude.{◌≡◌, ◌<◌, ◌≤◌, length, IfOk};
ghost use Rattle.acq_outside.specs.Fetches.{Fetches};
ghost use Rattle.acq_outside.specs.Frame.{CountsOnly};
ghost use Rattle.method_messages.specs.Streams.{begun_at};
ghost use Rattle.method_server.specs.Serving.{Blames, ServesCall};
ghost use Rattle.method_server.specs.Taking.{ClosesBy, FailsBy, TurnsCall};

use crate::ServeEnd;
use crate::answer::say;
use crate::said::{capabilities, general_failure};
use crate::stream::take_piece;
use acq_outside::{Files, Inlet, Method, Sink};
use method_messages::Reader;
use std::alloc::Global;

/// The most bytes that are read.
const MOST_INPUT: u64 = 1_099_511_627_776;

/// How many bytes one read asks for.
const PIECE: usize = 8_192;

/// Speaks APT's method interface: says what the method can do, and answers each request of the input, in order, by what
/// the method replies to it. Over `http` the file goes where the request says, and else it stays where it lies.
///
/// Where the stream breaks off a last message says so, and nothing else is ever written. The end tells whether all was
/// read, or what broke it off.
pub fn serve_method<I: Inlet, M: Method, F: Files, S: Sink>(
    alloc: Global,
    http: bool,
    input: &mut I,
    method: &mut M,
    files: &mut F,
    out: &mut S,
) -> ServeEnd
    ensures method { Fetches M.Method method.old method.new }
    ensures input { Blames ServeEnd.Input (I.faults input.old) (I.faults input.new) result }
    ensures files { Blames ServeEnd.Files (F.faults files.old) (F.faults files.new) result }
    ensures output { Blames ServeEnd.Output (S.faults out.old) (S.faults out.new) result }

    // What is written is a text of the messages read, whole or a front of it, and each end has its cause. At the end the
    // files are as the answers so far leave them, but for the file of a request that was under way.
    ensures serves { ServesCall I.Inlet M.Method F.Files S.Sink http
        input.old input.new method.old method.new files.old files.new out.old out.new result }
{
    if let Err(stop) = say(out, capabilities()) {
        return stop.end();
    }
    let mut reader = Reader::new(alloc);
    let mut room = [0u8; PIECE];
    let mut size: u64 = 0;
    'turns: while size < MOST_INPUT {
        let most = (MOST_INPUT - size).min(PIECE as u64) as usize;
        match turn(
            alloc,
            http,
            &mut reader,
            &mut room[..most],
            input,
            method,
            files,
            out,
        ) {
            Ok(n) => size += n,
            Err(end) => return end,
        }
    }
    ServeEnd::Full
}

/// Reads once, and answers what ends in what came: how many bytes that were, or how serving ends.
fn turn<I: Inlet, M: Method, F: Files, S: Sink>(
    alloc: Global,
    http: bool,
    reader: &mut Reader,
    room: &mut [u8],
    input: &mut I,
    method: &mut M,
    files: &mut F,
    out: &mut S,
) -> Result<u64, ServeEnd>
    requires { 0 < length room.old }
    ensures method { Fetches M.Method method.old method.new }
    ensures input { CountsOnly ServeEnd.Input (I.faults input.old) (I.faults input.new) result }
    ensures files { CountsOnly ServeEnd.Files (F.faults files.old) (F.faults files.new) result }
    ensures output { CountsOnly ServeEnd.Output (S.faults out.old) (S.faults out.new) result }
    ensures some { IfOk result (λ n. (0 < n) × (n ≤ length room.old)) }
    ensures turns { TurnsCall I.Inlet M.Method F.Files S.Sink http (length room.old) reader.old reader.new input.old input.new
        method.old method.new files.old files.new out.old out.new result }
{
    let Ok(n) = input.read(room) else {
        return Err(ServeEnd::Input);
    };
    if n == 0 {
        return Err(close(alloc, reader, out));
    }
    let (piece, _) = room.split_at(n);
    match take_piece(alloc, http, reader, piece, method, files, out) {
        Ok(None) => Ok(n as u64),
        Ok(Some(at)) => Err(fail(alloc, at, out)),
        Err(stop) => Err(stop.end()),
    }
}

/// Ends at the input's end.
fn close<S: Sink>(alloc: Global, reader: &Reader, out: &mut S) -> ServeEnd
    ensures output { Blames ServeEnd.Output (S.faults out.old) (S.faults out.new) result }
    ensures closes { ClosesBy (begun_at reader.now) (S.written out.old) (S.written out.new) result }
{
    match reader.rest() {
        Some(at) => fail(alloc, at, out),
        None => ServeEnd::Whole,
    }
}

/// Says that the message which begins here is bad, and ends.
fn fail<S: Sink>(alloc: Global, at: u64, out: &mut S) -> ServeEnd
    ensures output { Blames ServeEnd.Output (S.faults out.old) (S.faults out.new) result }
    ensures fails { FailsBy at (S.written out.old) (S.written out.new) result }
{
    let Ok(text) = general_failure(alloc, at) else {
        return ServeEnd::Memory;
    };
    match say(out, text.as_bytes()) {
        Ok(()) => ServeEnd::Broken,
        Err(stop) => stop.end(),
    }
}
