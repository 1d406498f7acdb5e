//! The reader of a response, whatever pieces it comes in.

ghost use Rattle.std.specs.Prelude.{◌≡◌, ◌≢◌, ◌⊎◌, ◌<◌, ◌≤◌, ℕ, Bool, false, List, [], ◌++◌, length, take, None, IfOk, OnOk, OnErr};
ghost use Rattle.acq_base.specs.Fetch.{IsSoundReply};
ghost use Rattle.acq_base.specs.Uri.{IsSound};
ghost use Rattle.uri_names.specs.Redirect.{resolve_of};
ghost use Rattle.http_wire.specs.Steps.{Moves};
ghost use Rattle.http_wire.specs.Wire.{Follows, IsDone, wire_state, is_going, is_refused, held, starts_at, Takes, Finishes, Gives, Replies, reply_of};

use crate::{Phase, Response, State};
use acq_base::{Bytes, NoMemory, NotServed, Reply, Uri};
use std::alloc::Global;
use std::marker::Model;
use std::mem;
use uri_names::resolve;

/// A reader of one response to a request for a file.
#[derive(Debug, Drop)]
pub struct Wire {
    /// The most bytes that the whole file may have.
    pub(crate) max: u64,
    /// The byte of the file that was asked for first.
    pub(crate) from: u64,
    /// How many bytes came.
    pub(crate) count: u64,
    /// How many bytes stand before the part that is being read.
    pub(crate) place: u64,
    /// Where in the file the body begins.
    pub(crate) start: u64,
    /// Whether the connection is kept behind a body whose end is known.
    pub(crate) keep: bool,
    /// Where in the file the body has come to.
    pub(crate) reached: u64,
    pub(crate) phase: Phase,
    pub(crate) ending: Option<Response>,
    /// What came of a head, a size line or trailers.
    pub(crate) part: Vec<u8>,
    /// How many of these bytes are empty lines before a head.
    pub(crate) blank: usize,
    /// Whether they end within the name of a field, behind 12 bytes of it.
    pub(crate) named: bool,
    /// Whether they end within the value of a field or a reason, behind 12 bytes of its line.
    pub(crate) valued: bool,
    /// What came of the body and wasn't taken.
    pub(crate) body: Vec<u8>,
}

impl Model for Wire {
    ghost use Rattle.http_wire.specs.State.{WireState};

    ghost Value = { WireState };

    ghost view = { λ wire. record {
      max = wire.max;
      from = wire.from;
      count = wire.count;
      place = wire.place;
      start = wire.start;
      keep = wire.keep;
      reached = wire.reached;
      phase = wire.phase;
      ending = wire.ending;
      part = wire.part.items;
      blank = wire.blank;
      named = wire.named;
      valued = wire.valued;
      body = wire.body.items;
    } };
}

impl Wire {
    /// A reader of the response to a request for a file of at most `max` bytes, from its byte `from` on.
    #[tactic(auto, using(crate::proofs::Fresh::fresh))]
    pub fn new(alloc: Global, max: u64, from: u64) -> Wire
        ensures follows { Follows result max from [] [] false }
        ensures state { wire_state result ≡ State.More }
        ensures none { held result ≡ [] }
    {
        Wire {
            max,
            from,
            count: 0,
            place: 0,
            start: 0,
            keep: false,
            reached: 0,
            phase: Phase::Heads(0),
            ending: None,
            part: Vec::new(alloc),
            blank: 0,
            named: false,
            valued: false,
            body: Vec::new(alloc),
        }
    }

    /// Takes bytes of the peer, and answers how many. It takes all of a piece, but those behind the end of a whole
    /// response, which for `Absent` and `Moved` is the end of the head; and none once the reading has ended. After want of
    /// memory the wire may only be dropped.
    pub fn feed(&mut self, alloc: Global, piece: &[u8]) -> Result<usize, NoMemory>
        ensures within { IfOk result (λ n. n ≤ length piece.now) }
        ensures over { IfOk result (λ n. wire_state self.old ≢ State.More → (n ≡ 0) × (self.new ≡ self.old)) }
        ensures whole { IfOk result (λ n. wire_state self.old ≡ State.More → ¬ (IsDone (wire_state self.new)) → n ≡ length piece.now) }
        ensures follows { IfOk result (λ n. Takes self.old self.new (take n piece.now)) }
    {
        if self.is_going() {
            let taken = self.feed_on(alloc, piece)?;
            return Ok(taken);
        }
        Ok(0)
    }

    /// Whether more bytes are wanted.
    fn is_going(&self) -> bool
        ensures { result ≡ is_going self.now.ending }
    {
        matches!(self.ending, None)
    }

    /// Takes bytes of the peer while the reading goes on.
    fn feed_on(&mut self, alloc: Global, piece: &[u8]) -> Result<usize, NoMemory>
        requires { self.old.ending ≡ None }
        ensures within { IfOk result (λ n. n ≤ length piece.now) }
        ensures whole { IfOk result (λ n. ¬ (IsDone (wire_state self.new)) → n ≡ length piece.now) }
        ensures moves { IfOk result (λ n. Moves self.old self.new (take n piece.now)) }
    {
        let taken = self.take_in(alloc, piece)?;
        if self.is_refused() {
            return Ok(piece.len());
        }
        Ok(taken)
    }

    /// Whether the reading ended before a whole response.
    fn is_refused(&self) -> bool
        ensures { result ≡ is_refused self.now.ending }
    {
        matches!(
            self.ending,
            Some(Response::TooBig) | Some(Response::Garbled(_))
        )
    }

    /// Takes bytes up to the end of the reading.
    fn take_in(&mut self, alloc: Global, piece: &[u8]) -> Result<usize, NoMemory>
        requires { self.old.ending ≡ None }
        ensures within { IfOk result (λ n. n ≤ length piece.now) }
        ensures whole { IfOk result (λ n. self.new.ending ≡ None → n ≡ length piece.now) }
        ensures moves { IfOk result (λ n. Moves self.old self.new (take n piece.now)) }
    {
        let mut taken = 0;
        while taken < piece.len() {
            if self.ending.is_some() {
                return Ok(taken);
            }
            let (_, rest) = piece.split_at(taken);
            let n = self.advance(alloc, rest)?;
            taken += n;
        }
        Ok(taken)
    }

    /// Takes bytes of the part that is being read.
    fn advance(&mut self, alloc: Global, piece: &[u8]) -> Result<usize, NoMemory>
        requires going { self.old.ending ≡ None }
        requires some { 0 < length piece.now }
        ensures took { IfOk result (λ n. (0 < n) × (n ≤ length piece.now)) }
        ensures moves { IfOk result (λ n. Moves self.old self.new (take n piece.now)) }
    {
        match self.phase {
            Phase::Heads(passed) => self.take_head(alloc, passed, piece),
            Phase::Counted(left) => self.take_counted(left, piece),
            Phase::Unbounded => self.take_unbounded(piece),
            Phase::SizeLine => self.take_size(piece),
            Phase::Chunk(left) => self.take_chunk(left, piece),
            Phase::ChunkCr => Ok(self.take_return(piece)),
            Phase::ChunkLf => Ok(self.take_feed(piece)),
            Phase::Trailing => self.take_trailers(piece),
        }
    }

    /// Tells the wire that the peer has closed. It takes no memory.
    pub fn ended(&mut self)
        ensures over { wire_state self.new ≢ State.More }
        ensures follows { Finishes self.old self.new }
    {
        if self.is_going() {
            self.close();
        }
    }

    /// Where the reading of the response stands. It takes no memory.
    pub fn state(&self) -> State
        ensures { result ≡ wire_state self.now }
    {
        match &self.ending {
            None => State::More,
            Some(Response::Served(keep)) => State::Done { keep: *keep },
            Some(Response::Absent(_)) | Some(Response::Moved(_)) => State::Done { keep: false },
            Some(Response::TooBig) => State::TooBig,
            Some(Response::Garbled(at)) => State::Garbled(*at),
        }
    }

    /// The body's bytes since the last call. Without memory nothing was taken out.
    pub fn take(&mut self, alloc: Global) -> Result<Bytes, NoMemory>
        ensures body { IfOk result (λ bytes. bytes ≡ held self.old) }
        ensures none { OnOk result (held self.new ≡ []) }
        ensures state { wire_state self.new ≡ wire_state self.old }
        ensures start { starts_at self.new ≡ starts_at self.old }
        ensures kept { OnErr result (self.new ≡ self.old) }
        ensures follows { OnOk result (Gives self.old self.new) }
    {
        Ok(Bytes::from(mem::replace(&mut self.body, Vec::new(alloc))))
    }

    /// The byte of the file at which the body begins, once the final head has come: `from` for status 206, and else 0.
    pub fn at(&self) -> u64
        ensures { result ≡ starts_at self.now }
    {
        self.start
    }

    /// The reply to the asker, `uri` being the one that was asked for. What was taken out of the body isn't in it.
    pub fn reply(self, alloc: Global, uri: &Uri) -> Reply
        requires sound { IsSound uri.now }
        requires over { wire_state self ≢ State.More }
        ensures sound { IsSoundReply result }
        ensures replies { (max from : ℕ) (given bytes : List ℕ) (ended : Bool) → Follows self max from given bytes ended → Replies uri.now self max from given bytes ended result }
    {
        answer(alloc, uri, self.ending, self.body)
    }
}

/// The reply for an ending, with what is left of the body.
fn answer(alloc: Global, uri: &Uri, ending: Option<Response>, body: Vec<u8>) -> Reply
    requires { IsSound uri.now }
    ensures sound { IsSoundReply result }
    ensures reply { (result ≡ Reply.NoMemory) ⊎ (result ≡ reply_of uri.now ending body.items) }
{
    match ending {
        Some(Response::Served(_keep)) => Reply::Served(Bytes::from(body)),
        Some(Response::Absent(status)) => Reply::Not(NotServed::Absent(status)),
        Some(Response::Moved(place)) => moved(alloc, uri, place.as_slice()),
        Some(Response::TooBig) => Reply::Not(NotServed::TooBig),
        Some(Response::Garbled(at)) => Reply::Not(NotServed::Garbled(at)),
        None => Reply::NoMemory,
    }
}

/// The reply that leads to another place.
fn moved(alloc: Global, uri: &Uri, place: &[u8]) -> Reply
    requires { IsSound uri.now }
    ensures sound { IsSoundReply result }
    ensures reply { (result ≡ Reply.NoMemory) ⊎ (result ≡ Reply.Not (NotServed.Moved (resolve_of uri.now place.now))) }
{
    match resolve(alloc, uri, place) {
        Ok(uri) => Reply::Not(NotServed::Moved(uri)),
        Err(NoMemory) => Reply::NoMemory,
    }
}
