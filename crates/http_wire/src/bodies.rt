//! The bytes of a body, as a wire takes them.

ghost use Rattle.std.specs.Prelude.{◌≡◌, ◌<◌, ◌≤◌, length, take, None, IfOk, OnOk};
ghost use Rattle.http_wire.specs.Steps.{Moves, stopped, garbled, marked, sized_taken, free_taken, chunk_taken, return_taken, feed_taken};

use crate::wire::Wire;
use crate::{Phase, Response};
use acq_base::NoMemory;

/// The front of a piece, of at most so many bytes.
pub fn up_to(most: u64, piece: &[u8]) -> &[u8]
    ensures front { result.now ≡ take (length result.now) piece.now }
    ensures within { length result.now ≤ length piece.now }
    ensures fits { length result.now ≤ most }
    ensures some { 0 < most → 0 < length piece.now → 0 < length result.now }
{
    if most < piece.len() as u64 {
        let (front, _) = piece.split_at(most as usize);
        return front;
    }
    piece
}

impl Wire {
    /// Ends the reading.
    pub(crate) fn stop(&mut self, how: Response)
        ensures { self.new ≡ stopped how self.old }
    {
        self.ending = Some(how);
    }

    /// Ends the reading at the part that is being read.
    pub(crate) fn garble(&mut self)
        ensures { self.new ≡ garbled self.old }
    {
        self.ending = Some(Response::Garbled(self.place));
    }

    /// Begins another part behind the last byte.
    pub(crate) fn mark(&mut self, phase: Phase)
        ensures { self.new ≡ marked phase self.old }
    {
        self.place = self.count;
        self.part.clear();
        self.blank = 0;
        self.named = false;
        self.valued = false;
        self.phase = phase;
    }

    /// Takes bytes of a body of which so many are to come.
    pub(crate) fn take_counted(&mut self, left: u64, piece: &[u8]) -> Result<usize, NoMemory>
        requires phase { self.old.phase ≡ Phase.Counted left }
        requires going { self.old.ending ≡ None }
        requires some { 0 < length piece.now }
        ensures took { IfOk result (λ n. (0 < n) × (n ≤ length piece.now)) }
        ensures moves { IfOk result (λ n. Moves self.old self.new (take n piece.now)) }
    {
        if left == 0 {
            return Ok(piece.len());
        }
        let front = up_to(left, piece);
        self.add_counted(left, front)?;
        Ok(front.len())
    }

    fn add_counted(&mut self, left: u64, front: &[u8]) -> Result<(), NoMemory>
        requires { length front.now ≤ left }
        ensures { OnOk result (self.new ≡ sized_taken left front.now self.old) }
    {
        self.body.extend_from_slice(front)?;
        self.count = self.count.saturating_add(front.len() as u64);
        self.phase = Phase::Counted(left - front.len() as u64);
        if left == front.len() as u64 {
            self.stop(Response::Served(self.keep));
        }
        Ok(())
    }

    /// Takes bytes of a body that ends with the connection.
    pub(crate) fn take_unbounded(&mut self, piece: &[u8]) -> Result<usize, NoMemory>
        requires phase { self.old.phase ≡ Phase.Unbounded }
        requires going { self.old.ending ≡ None }
        requires some { 0 < length piece.now }
        ensures took { IfOk result (λ n. (0 < n) × (n ≤ length piece.now)) }
        ensures moves { IfOk result (λ n. Moves self.old self.new (take n piece.now)) }
    {
        self.add_unbounded(piece)?;
        Ok(piece.len())
    }

    fn add_unbounded(&mut self, front: &[u8]) -> Result<(), NoMemory>
        ensures { OnOk result (self.new ≡ free_taken front.now self.old) }
    {
        if front.len() as u64 > self.max.saturating_sub(self.reached) {
            self.stop(Response::TooBig);
            return Ok(());
        }
        self.body.extend_from_slice(front)?;
        self.count = self.count.saturating_add(front.len() as u64);
        self.reached += front.len() as u64;
        Ok(())
    }

    /// Takes bytes of a chunk of which so many are to come.
    pub(crate) fn take_chunk(&mut self, left: u64, piece: &[u8]) -> Result<usize, NoMemory>
        requires phase { self.old.phase ≡ Phase.Chunk left }
        requires going { self.old.ending ≡ None }
        requires some { 0 < length piece.now }
        ensures took { IfOk result (λ n. (0 < n) × (n ≤ length piece.now)) }
        ensures moves { IfOk result (λ n. Moves self.old self.new (take n piece.now)) }
    {
        if left == 0 {
            return Ok(piece.len());
        }
        let front = up_to(left, piece);
        self.add_chunk(left, front)?;
        Ok(front.len())
    }

    fn add_chunk(&mut self, left: u64, front: &[u8]) -> Result<(), NoMemory>
        requires { length front.now ≤ left }
        ensures { OnOk result (self.new ≡ chunk_taken left front.now self.old) }
    {
        if front.len() as u64 > self.max.saturating_sub(self.reached) {
            self.stop(Response::TooBig);
            return Ok(());
        }
        self.body.extend_from_slice(front)?;
        self.count = self.count.saturating_add(front.len() as u64);
        self.reached += front.len() as u64;
        self.phase = Phase::Chunk(left - front.len() as u64);
        if left == front.len() as u64 {
            self.mark(Phase::ChunkCr);
        }
        Ok(())
    }

    /// Takes the first byte of a piece as the one behind a chunk.
    pub(crate) fn take_return(&mut self, piece: &[u8]) -> usize
        requires phase { self.old.phase ≡ Phase.ChunkCr }
        requires going { self.old.ending ≡ None }
        requires some { 0 < length piece.now }
        ensures took { (0 < result) × (result ≤ length piece.now) }
        ensures moves { Moves self.old self.new (take result piece.now) }
    {
        self.add_return(piece[0]);
        1
    }

    fn add_return(&mut self, byte: u8)
        ensures { self.new ≡ return_taken byte self.old }
    {
        if byte == b'\r' {
            self.count = self.count.saturating_add(1);
            self.phase = Phase::ChunkLf;
        } else {
            self.garble();
        }
    }

    /// Takes the first byte of a piece as the second one behind a chunk.
    pub(crate) fn take_feed(&mut self, piece: &[u8]) -> usize
        requires phase { self.old.phase ≡ Phase.ChunkLf }
        requires going { self.old.ending ≡ None }
        requires some { 0 < length piece.now }
        ensures took { (0 < result) × (result ≤ length piece.now) }
        ensures moves { Moves self.old self.new (take result piece.now) }
    {
        self.add_feed(piece[0]);
        1
    }

    fn add_feed(&mut self, byte: u8)
        ensures { self.new ≡ feed_taken byte self.old }
    {
        if byte == b'\n' {
            self.count = self.count.saturating_add(1);
            self.mark(Phase::SizeLine);
        } else {
            self.garble();
        }
    }
}
