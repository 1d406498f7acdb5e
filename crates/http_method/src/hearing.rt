//! Receives bytes of a link's peer into the response that is being read.
ghost use Rattle.std.specs.Prelude.{◌≡◌, ◌≢◌, ◌<◌, ◌≤◌, true, false, not, [], length, vec_len, IfOk, OnOk, option_map};
ghost use Rattle.acq_outside.specs.Count.{Rose};
ghost use Rattle.acq_net.specs.OverLink.{ListensCounting};
ghost use Rattle.acq_net.specs.Talk.{receives};
ghost use Rattle.http_wire.specs.Wire.{IsDone, held, wire_state};
ghost use Rattle.http_method.specs.Line.{line_of};
ghost use Rattle.http_method.specs.Reading.{Goes, IsReading, Received, StaysSmall, behind_of, is_end};

use crate::reading::{Behind, Reading};
use acq_base::{Bytes, NoMemory};
use acq_net::Link;
use acq_outside::{Fetch, OutError};
use http_wire::{State, Wire, bodies_grow, wires_tell};
use std::alloc::Global;

/// How many bytes are received at once, at most.
const ROOM: usize = 65_536;

/// How many bytes are received at once while no piece of the file was said, at most: a head and many a small file are no
/// longer, and more room takes time to lay out.
const FIRST_ROOM: usize = 16_384;

/// Room for bytes that are received at once, of the response to a fetch.
pub fn new_room(alloc: Global, fetch: &Fetch) -> Result<Vec<u8>, NoMemory>
    ensures some { IfOk result (λ room. 0 < vec_len room) }
    ensures few { IfOk result (λ room. vec_len room ≤ 65536) }
{
    let size = if fetch.at == fetch.job.from {
        FIRST_ROOM
    } else {
        ROOM
    };
    Ok(vec![in alloc; 0u8; size]?)
}

/// The room, laid out where there is none.
fn laid_out(alloc: Global, room: Vec<u8>, fetch: &Fetch) -> Result<Vec<u8>, NoMemory>
    requires few { vec_len room ≤ 65536 }
    ensures some { IfOk result (λ laid. 0 < vec_len laid) }
    ensures few { IfOk result (λ laid. vec_len laid ≤ 65536) }
{
    if room.is_empty() {
        return new_room(alloc, fetch);
    }
    Ok(room)
}

/// What stands behind so many taken bytes of a piece.
fn behind_of(taken: usize, size: usize) -> Behind
    ensures { result ≡ behind_of taken size }
{
    if taken < size {
        Behind::Bytes
    } else {
        Behind::Nothing
    }
}

/// The peer has ended.
#[tactic(auto, using(crate::proofs::Received::end_received))]
fn end(reading: &mut Reading)
    requires nothing { reading.old.behind ≡ Behind.Nothing }
    ensures fetch { reading.new.fetch ≡ reading.old.fetch }
    ensures behind { reading.new.behind ≡ Behind.End }
    ensures going { wire_state reading.new.wire ≢ State.More }
    ensures received { Received reading.old reading.new [] }
    ensures small { StaysSmall reading.old reading.new }
{
    wires_tell();
    bodies_grow();
    reading.wire.ended();
    reading.behind = Behind::End;
}

/// Takes bytes of the peer.
fn feed(alloc: Global, reading: &mut Reading, piece: &[u8]) -> Result<(), NoMemory>
    requires going { wire_state reading.old.wire ≡ State.More }
    requires nothing { reading.old.behind ≡ Behind.Nothing }
    requires some { 0 < length piece.now }
    requires few { length piece.now ≤ 65536 }
    ensures fetch { reading.new.fetch ≡ reading.old.fetch }
    ensures going { OnOk result (wire_state reading.new.wire ≡ State.More → reading.new.behind ≡ Behind.Nothing) }
    ensures open { OnOk result (is_end reading.new.behind ≡ false) }
    ensures received { OnOk result (Received reading.old reading.new piece.now) }
    ensures small { OnOk result (StaysSmall reading.old reading.new) }
{
    wires_tell();
    bodies_grow();
    let taken = reading.wire.feed(alloc, piece)?;
    reading.behind = behind_of(taken, piece.len());
    Ok(())
}

/// Receives once, into the room.
pub fn receive_once<L: Link>(
    alloc: Global,
    link: &mut L,
    reading: &mut Reading,
    room: &mut [u8],
) -> Result<(), OutError>
    requires some { 0 < length room.old }
    requires few { length room.old ≤ 65536 }
    requires going { wire_state reading.old.wire ≡ State.More }
    requires nothing { reading.old.behind ≡ Behind.Nothing }

    ensures frame { ListensCounting OutError.Fault L.Link link.old link.new result }

    ensures opened { L.opened link.old ≡ true → OnOk result (L.opened link.new ≡ not (is_end reading.new.behind)) }
    ensures answered { OnOk result (is_end reading.new.behind ≡ false → L.answered link.new ≡ true) }
    ensures ended { OnOk result (is_end reading.new.behind ≡ true → Rose (L.ends link.old) (L.ends link.new)) }
    ensures over { OnOk result (is_end reading.new.behind ≡ true → L.talk link.new ≡ option_map (receives []) (L.talk link.old)) }
    ensures fetch { reading.new.fetch ≡ reading.old.fetch }
    ensures going { OnOk result (wire_state reading.new.wire ≡ State.More → reading.new.behind ≡ Behind.Nothing) }
    ensures small { OnOk result (StaysSmall reading.old reading.new) }
    ensures goes { OnOk result (Goes (line_of L.Link link.old) reading.old (line_of L.Link link.new) reading.new []) }
    ensures room { length room.new ≡ length room.old }
{
    let n = link.receive(room)?;
    if n == 0 {
        end(reading);
        return Ok(());
    }
    let (piece, _) = room.split_at(n);
    feed(alloc, reading, piece)?;
    Ok(())
}

/// Whether the reading ended before a whole response.
fn is_refused(wire: &Wire) -> bool
    ensures refused { result ≡ true → (wire_state wire.now ≢ State.More) × ¬ (IsDone (wire_state wire.now)) }
    ensures other { result ≡ false → wire_state wire.now ≢ State.TooBig }
{
    match wire.state() {
        State::TooBig | State::Garbled(_) => true,
        State::More | State::Done { keep: _ } => false,
    }
}

/// Whether more bytes are wanted.
fn is_going(wire: &Wire) -> bool
    ensures going { result ≡ true → wire_state wire.now ≡ State.More }
    ensures over { result ≡ false → wire_state wire.now ≢ State.More }
{
    match wire.state() {
        State::More => true,
        State::Done { keep: _ } | State::TooBig | State::Garbled(_) => false,
    }
}

/// Receives until bytes of the body have come, which it gives out, or the reading has ended.
pub fn listen<L: Link>(
    alloc: Global,
    link: &mut L,
    reading: &mut Reading,
) -> Result<Bytes, OutError>
    requires is { IsReading (line_of L.Link link.old) reading.old [] }
    requires opened { L.opened link.old ≡ not (is_end reading.old.behind) }

    ensures frame { ListensCounting OutError.Fault L.Link link.old link.new result }

    ensures opened { OnOk result (L.opened link.new ≡ not (is_end reading.new.behind)) }
    ensures fetch { reading.new.fetch ≡ reading.old.fetch }
    ensures is { IfOk result (IsReading (line_of L.Link link.new) reading.new) }
    ensures small { IfOk result (λ bytes. length bytes ≤ 65536) }
    ensures fits { IfOk result (λ bytes. 0 < length bytes → wire_state reading.new.wire ≢ State.TooBig) }
    ensures over { IfOk result (λ bytes. bytes ≡ [] → wire_state reading.new.wire ≢ State.More) }
    ensures all { IfOk result (λ bytes. bytes ≡ [] → IsDone (wire_state reading.new.wire) → held reading.new.wire ≡ []) }
    ensures goes { IfOk result (Goes (line_of L.Link link.old) reading.old (line_of L.Link link.new) reading.new) }
{
    let mut room = Vec::new(alloc);
    for _ in 0..u64::MAX {
        if is_refused(&reading.wire) {
            return Ok(Bytes::new(alloc));
        }
        let bytes = reading.wire.take(alloc)?;
        if !bytes.is_empty() || !is_going(&reading.wire) {
            return Ok(bytes);
        }
        room = laid_out(alloc, room, &reading.fetch)?;
        receive_once(alloc, link, reading, room.as_mut_slice())?;
    }
    Err(OutError::NoMemory)
}
