//! What the peers of connections in memory say, and what was heard of them.
ghost use Rattle.std.specs.Prelude.{◌≡◌, ◌<◌, ◌++◌, [], length, IfSome, IfNone};
ghost use Rattle.acq_net.specs.Script.{bytes_of, first_of, front_piece, later_of};

use acq_base::{Bytes, NoMemory, Row};
use std::alloc::Global;

/// What the peers say, piece by piece.
#[derive(Debug, Drop)]
pub struct Script {
    alloc: Global,
    /// What the peers of the connections to come say.
    connections: Vec<Row<Bytes>>,
    /// What the peer of the present connection has still to say.
    pieces: Vec<Bytes>,
}

impl Script {
    ghost use Rattle.std.specs.Prelude.{◌≡◌, ◌<◌, ◌≤◌, ◌++◌, [], length, min, take, IfOk, OnErr};
    ghost use Rattle.acq_net.specs.Script.{bytes_of, first_of, hears, later_of, next_piece, to_come, waiting};

    /// There is no connection yet. The n-th one has the n-th row of pieces.
    pub fn new(alloc: Global, connections: Row<Row<Bytes>>) -> Script
        ensures to_come { to_come result ≡ [] }
        ensures waiting { waiting result ≡ connections }
    {
        Script {
            alloc,
            connections: connections.into_vec(),
            pieces: Vec::new(alloc),
        }
    }

    /// Goes on to the next connection, whose peer has an empty row behind the last one.
    pub fn next_connection(&mut self)
        ensures to_come { to_come self.new ≡ bytes_of (first_of (waiting self.old)) }
        ensures waiting { waiting self.new ≡ later_of (waiting self.old) }
    {
        self.pieces = next_row(self.alloc, &mut self.connections);
    }

    /// The peer of the present connection says nothing more.
    pub fn pass_over(&mut self)
        ensures to_come { to_come self.new ≡ [] }
        ensures waiting { waiting self.new ≡ waiting self.old }
    {
        self.pieces = Vec::new(self.alloc);
    }

    /// Says as many bytes of one piece as there is room for, or the end behind the last one, and lets it be heard. After want
    /// of memory the piece may be lost, and `out` may have changed.
    pub fn say(&mut self, heard: &mut FromPeer, out: &mut [u8]) -> Result<usize, NoMemory>
        requires { 0 < length out.old }
        ensures room { length out.new ≡ length out.old }
        ensures within { IfOk result (λ n. n ≤ length out.old) }
        ensures heard { IfOk result (λ n. heard.new ≡ hears (take n out.new) heard.old) }
        ensures unheard { OnErr result (heard.new ≡ heard.old) }
        ensures waiting { waiting self.new ≡ waiting self.old }
        ensures to_come { IfOk result (λ n. to_come self.old ≡ take n out.new ++ to_come self.new) }
        ensures ended { IfOk result (λ n. n ≡ 0 → to_come self.old ≡ []) }
        ensures piece { IfOk result (λ n. n ≡ min (length (next_piece self.old)) (length out.old)) }
    {
        let n = self.give(out)?;
        heard.hear(&out[..n])?;
        Ok(n)
    }

    /// Gives as many bytes of one piece as there is room for, and 0 behind the last one.
    fn give(&mut self, out: &mut [u8]) -> Result<usize, NoMemory>
        requires { 0 < length out.old }
        ensures room { length out.new ≡ length out.old }
        ensures waiting { waiting self.new ≡ waiting self.old }
        ensures within { IfOk result (λ n. n ≤ length out.old) }
        ensures to_come { IfOk result (λ n. to_come self.old ≡ take n out.new ++ to_come self.new) }
        ensures ended { IfOk result (λ n. n ≡ 0 → to_come self.old ≡ []) }
        ensures piece { IfOk result (λ n. n ≡ min (length (next_piece self.old)) (length out.old)) }
    {
        match next_piece(&mut self.pieces) {
            Some(piece) => self.give_of(piece, out),
            None => Ok(0),
        }
    }

    /// Gives bytes of a piece, and keeps the others for the next call.
    fn give_of(&mut self, piece: Bytes, out: &mut [u8]) -> Result<usize, NoMemory>
        requires { (0 < length piece) × (0 < length out.old) }
        ensures room { length out.new ≡ length out.old }
        ensures waiting { waiting self.new ≡ waiting self.old }
        ensures some { IfOk result (λ n. (0 < n) × (n ≤ length out.old)) }
        ensures all { IfOk result (λ n. n ≡ min (length piece) (length out.old)) }
        ensures to_come { IfOk result (λ n. piece ++ to_come self.old ≡ take n out.new ++ to_come self.new) }
    {
        let n = piece.len().min(out.len());
        let (front, rest) = piece.as_slice().split_at(n);
        if !rest.is_empty() {
            let rest = Bytes::from(Vec::from_slice(self.alloc, rest)?);
            self.pieces.insert(0, rest)?;
        }
        out[..n].copy_from_slice(front);
        Ok(n)
    }
}

/// What was heard of a peer.
#[derive(Debug, Drop)]
pub struct FromPeer {
    received: Bytes,
    ended: bool,
}

impl FromPeer {
    ghost use Rattle.std.specs.Prelude.{◌≡◌, OnErr, OnOk};
    ghost use Rattle.acq_net.specs.Script.{hears, unheard};

    /// Nothing was heard yet.
    pub fn new(alloc: Global) -> FromPeer
        ensures { result ≡ unheard }
    {
        FromPeer {
            received: Bytes::new(alloc),
            ended: false,
        }
    }

    /// Adds the bytes that came. None are the peer's end.
    pub fn hear(&mut self, bytes: &[u8]) -> Result<(), NoMemory>
        ensures heard { OnOk result (self.new ≡ hears bytes.now self.old) }
        ensures same { OnErr result (self.new ≡ self.old) }
    {
        if bytes.is_empty() {
            self.ended = true;
            return Ok(());
        }
        self.received.append(bytes)
    }
}

/// Takes the first row out, if there is one.
fn next_row(alloc: Global, rows: &mut Vec<Row<Bytes>>) -> Vec<Bytes>
    ensures row { result.items ≡ first_of rows.old.items }
    ensures rows { rows.new.items ≡ later_of rows.old.items }
{
    if rows.is_empty() {
        return Vec::new(alloc);
    }
    rows.remove(0).into_vec()
}

/// Takes the first piece out that has a byte.
fn next_piece(pieces: &mut Vec<Bytes>) -> Option<Bytes>
    ensures some { IfSome result (λ piece. (0 < length piece) × (piece ≡ front_piece pieces.old.items)) }
    ensures bytes { IfSome result (λ piece. bytes_of pieces.old.items ≡ piece ++ bytes_of pieces.new.items) }
    ensures none { IfNone result ((bytes_of pieces.old.items ≡ []) × (bytes_of pieces.new.items ≡ [])) }
    ensures no_piece { IfNone result (front_piece pieces.old.items ≡ []) }
{
    while !pieces.is_empty() {
        let piece = pieces.remove(0);
        if !piece.is_empty() {
            return Some(piece);
        }
    }
    None
}
