//! The fetch that is out on a lane.
ghost use Rattle.std.specs.Prelude.{◌≡◌, ℕ, false, Some, None, IsTrue, IsSome, IfOk, IfSome, IfNone, MatchOption};
ghost use Rattle.acq_outside.specs.Word.{begun, IsWithinLimit, after_word};
ghost use Rattle.lane_pool.specs.Slot.{HasRoom};

use acq_base::{Job, NoMemory, Scheme};
use acq_outside::Word;
use std::alloc::Global;
use std::marker::Model;

/// The most bytes of a sound URI.
const LONGEST: usize = 16_384;

/// The fetch that is out on a lane, in room that was taken before. Contracts see it as that fetch, or none.
#[derive(Drop)]
pub struct FetchOut {
    is_out: bool,
    no: u64,
    max: u64,
    from: u64,
    at: u64,
    scheme: Scheme,
    port: u16,
    host: Vec<u8>,
    path: Vec<u8>,
}

impl Model for FetchOut {
    ghost use Rattle.std.specs.Prelude.{◌≤◌, Option, vec_capacity};
    ghost use Rattle.acq_outside.specs.declared.word.Fetch.{Fetch as fetch_type};
    ghost use Rattle.lane_pool.specs.Slot.{fetch_of};

    ghost Value = { Option fetch_type };

    ghost view = { λ s. fetch_of s.is_out s.no s.max s.from s.at s.scheme s.port s.host.items s.path.items };

    ghost invariant = { λ s. (16384 ≤ vec_capacity s.host) × (16384 ≤ vec_capacity s.path) };
}

impl FetchOut {
    /// A slot with room for any job whose URI is sound.
    pub fn new(alloc: Global) -> Result<FetchOut, NoMemory>
        ensures { IfOk result (λ slot. slot ≡ None) }
    {
        Ok(FetchOut {
            is_out: false,
            no: 0,
            max: 0,
            from: 0,
            at: 0,
            scheme: Scheme::File,
            port: 0,
            host: Vec::with_capacity(alloc, LONGEST)?,
            path: Vec::with_capacity(alloc, LONGEST)?,
        })
    }

    /// Notes that this job goes out.
    pub fn record_out(&mut self, job: &Job)
        requires { HasRoom job.now.uri }
        ensures { self.new ≡ Some (begun job.now) }
    {
        self.host.clear();
        self.path.clear();
        let Ok(()) = self.host.extend_from_slice(job.uri.host.as_bytes()) else {
            unreachable!()
        };
        let Ok(()) = self.path.extend_from_slice(job.uri.path.as_bytes()) else {
            unreachable!()
        };
        self.is_out = true;
        self.no = job.no;
        self.max = job.max;
        self.from = job.from;
        self.at = job.from;
        self.scheme = job.uri.scheme;
        self.port = job.uri.port;
    }

    /// Notes that nothing is out any more.
    pub fn clear(&mut self)
        ensures { self.new ≡ None }
    {
        self.is_out = false;
    }

    /// Whether a job is out.
    pub fn is_out(&self) -> bool
        ensures out { IsTrue result → IsSome self.now }
        ensures idle { result ≡ false → self.now ≡ None }
    {
        self.is_out
    }

    /// Where the bytes of this job end so far, or `None` where it isn't the one that is out.
    pub fn place(&self, job: &Job) -> Option<u64>
        ensures some { IfSome result (λ at. self.now ≡ Some (record { job = job.now; at = at })) }
        ensures none { IfNone result ((at : ℕ) → self.now ≡ Some (record { job = job.now; at = at }) → ⊥) }
    {
        let is_it = self.is_out
            && self.no == job.no
            && self.max == job.max
            && self.from == job.from
            && self.scheme == job.uri.scheme
            && self.port == job.uri.port
            && self.host.as_slice() == job.uri.host.as_bytes()
            && self.path.as_slice() == job.uri.path.as_bytes();
        if is_it { Some(self.at) } else { None }
    }

    /// Goes on behind a word to the fetch that is out.
    pub fn go_on(&mut self, word: &Word)
        requires { MatchOption self.old ⊥ (λ fetch. IsWithinLimit fetch word.now) }
        ensures { IfSome self.old (λ fetch. self.new ≡ after_word fetch word.now) }
    {
        match word {
            Word::Piece { at: _, bytes } => self.at += bytes.len() as u64,
            Word::Done { size: _ } | Word::Not(_) | Word::NoMemory => self.is_out = false,
        }
    }
}
