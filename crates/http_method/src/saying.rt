//! What is said next to a fetch.
ghost use Rattle.std.specs.Prelude.{◌≡◌, ◌≢◌, ◌+◌, ◌<◌, ◌≤◌, ◌&&◌, [], false, is_some, length, not, true, IfOk, None, OnErr};
ghost use Rattle.acq_outside.specs.Word.{IsSoundWord};
ghost use Rattle.acq_net.specs.OverLink.{Leaves, Listens};
ghost use Rattle.http_wire.specs.Wire.{IsDone, held, wire_state};
ghost use Rattle.http_method.specs.Line.{line_of};
ghost use Rattle.http_method.specs.Reading.{GivesOn, IsKeptBehind, IsReading, IsMirrorsWord, Keeps, SaysOn, is_end, is_file, is_kept, is_open_for, kept_if, part_of, word_of};

use crate::hearing::listen;
use crate::reading::{Behind, Place, Reading, Said};
use acq_base::{Bytes, Reply, Uri};
use acq_net::Link;
use acq_outside::{Fault, Fetch, OutError, Word};
use http_wire::{
    State, bodies_fit, bodies_grow, endings_stay, limits_rise, one_reading, wires_tell,
};
use std::alloc::Global;

/// Memory ran out, and nothing is kept.
pub fn starved() -> Said
    ensures word { result.word ≡ Word.NoMemory }
    ensures kept { result.kept ≡ None }
    ensures reading { result.reading ≡ None }
{
    Said {
        word: Word::NoMemory,
        kept: None,
        reading: None,
    }
}

/// What comes next of the peer's response.
#[tactic(auto, using(crate::proofs::Ending::goes_says, crate::proofs::Ending::dry_says))]
pub fn next_word<L: Link>(alloc: Global, link: &mut L, reading: Reading) -> Result<Said, Fault>
    requires is { IsReading (line_of L.Link link.old) reading [] }
    requires opened { L.opened link.old ≡ not (is_end reading.behind) }

    ensures frame { Listens L.Link link.old link.new result }

    ensures opened { IfOk result (λ said. L.opened link.new ≡ is_open_for said.kept said.reading) }
    ensures closed { OnErr result (L.opened link.new ≡ false) }
    ensures sound { IfOk result (λ said. IsSoundWord said.word) }
    ensures told { IfOk result (IsMirrorsWord (L.world link.old) reading.fetch) }
    ensures keeps { IfOk result (λ said. Keeps (line_of L.Link link.new) said.kept said.reading) }
    ensures behind { IfOk result (λ said. IsKeptBehind said.word said.kept) }
    ensures says { IfOk result (SaysOn (line_of L.Link link.old) reading (line_of L.Link link.new)) }
{
    let mut reading = reading;
    match listen(alloc, link, &mut reading) {
        Ok(bytes) => Ok(say(alloc, link, reading, bytes)),
        Err(OutError::Fault) => {
            link.close();
            Err(Fault)
        }
        Err(OutError::NoMemory) => {
            link.close();
            Ok(starved())
        }
    }
}

/// Says what was heard.
fn say<L: Link>(alloc: Global, link: &mut L, reading: Reading, bytes: Bytes) -> Said
    requires is { IsReading (line_of L.Link link.old) reading bytes }
    requires opened { L.opened link.old ≡ not (is_end reading.behind) }
    requires over { bytes ≡ [] → wire_state reading.wire ≢ State.More }
    requires all { bytes ≡ [] → IsDone (wire_state reading.wire) → held reading.wire ≡ [] }
    requires small { length bytes ≤ 65536 }
    requires fits { 0 < length bytes → wire_state reading.wire ≢ State.TooBig }

    ensures frame { Leaves L.Link link.old link.new }

    ensures opened { L.opened link.new ≡ is_open_for result.kept result.reading }
    ensures sound { IsSoundWord result.word }
    ensures told { IsMirrorsWord (L.world link.old) reading.fetch result }
    ensures keeps { Keeps (line_of L.Link link.new) result.kept result.reading }
    ensures behind { IsKeptBehind result.word result.kept }
    ensures gives { GivesOn (line_of L.Link link.old) reading (line_of L.Link link.new) bytes result }
{
    if bytes.is_empty() {
        return finish(alloc, link, reading);
    }
    one_reading();
    wires_tell();
    bodies_fit();
    bodies_grow();
    limits_rise();
    part(reading, bytes)
}

/// A piece of these bytes, which are within the limit.
fn part(reading: Reading, bytes: Bytes) -> Said
    requires { reading.fetch.at + length bytes ≤ reading.fetch.job.max }
    ensures { result ≡ part_of reading bytes }
{
    let at = reading.fetch.at;
    let fetch = Fetch {
        job: reading.fetch.job,
        at: at + bytes.len() as u64,
    };
    Said {
        word: Word::Piece { at, bytes },
        kept: None,
        reading: Some(Reading {
            fetch,
            wire: reading.wire,
            behind: reading.behind,
        }),
    }
}

/// The last word: the response is whole, or refused.
fn finish<L: Link>(alloc: Global, link: &mut L, reading: Reading) -> Said
    requires is { IsReading (line_of L.Link link.old) reading [] }
    requires opened { L.opened link.old ≡ not (is_end reading.behind) }
    requires over { wire_state reading.wire ≢ State.More }
    requires all { IsDone (wire_state reading.wire) → held reading.wire ≡ [] }

    ensures frame { Leaves L.Link link.old link.new }

    ensures opened { L.opened link.new ≡ is_open_for result.kept result.reading }
    ensures sound { IsSoundWord result.word }
    ensures told { IsMirrorsWord (L.world link.old) reading.fetch result }
    ensures keeps { Keeps (line_of L.Link link.new) result.kept result.reading }
    ensures behind { IsKeptBehind result.word result.kept }
    ensures says { SaysOn (line_of L.Link link.old) reading (line_of L.Link link.new) result }
{
    one_reading();
    endings_stay();
    wires_tell();
    let keep = is_kept(reading.behind, reading.wire.state());
    let reply = reading.wire.reply(alloc, &reading.fetch.job.uri);
    let kept = keep_open(link, is_file(&reply), keep, reading.fetch.job.uri);
    Said {
        word: word_of(reading.fetch.at, reply),
        kept,
        reading: None,
    }
}

/// Whether the connection may serve another request.
fn is_kept(behind: Behind, state: State) -> bool
    ensures kept { result ≡ is_kept behind state }
    ensures going { result ≡ true → is_end behind ≡ false }
{
    match (behind, state) {
        (Behind::Nothing, State::Done { keep }) => keep,
        _ => false,
    }
}

/// Whether a reply is a file.
fn is_file(reply: &Reply) -> bool
    ensures { result ≡ is_file reply.now }
{
    matches!(reply, Reply::Served(_))
}

/// The last word by the reply of a wire, whose body was given out.
fn word_of(size: u64, reply: Reply) -> Word
    ensures { result ≡ word_of size reply }
{
    match reply {
        Reply::Served(_) => Word::Done { size },
        Reply::Not(end) => Word::Not(end),
        Reply::NoMemory => Word::NoMemory,
    }
}

/// Keeps the connection to the URI's host and port behind a file, where it may be kept, or closes it.
fn keep_open<L: Link>(connection: &mut L, file: bool, keep: bool, uri: Uri) -> Option<Place>
    requires { keep ≡ true → L.opened connection.old ≡ true }
    ensures frame { Leaves L.Link connection.old connection.new }
    ensures kept { result ≡ kept_if (file && keep) uri }
    ensures opened { L.opened connection.new ≡ is_some result }
{
    if file && keep {
        return Some(Place {
            host: uri.host,
            port: uri.port,
        });
    }
    connection.close();
    None
}
