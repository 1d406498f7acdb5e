//! A worker's lane, as the coordinator keeps it.
ghost use Rattle.std.specs.Prelude.{◌≡◌, ◌<◌, ◌↔◌, ◌+◌, false, length, None, Some, IfSome, IfNone, IsTrue, MatchResult};
ghost use Rattle.acq_base.specs.Uri.{IsSound};
ghost use Rattle.acq_outside.specs.Word.{CanBegin, IsWithinLimit, after_word, begun};
ghost use Rattle.crossbeam_channel.specs.Claims.{view};
ghost use Rattle.crossbeam_channel.specs.Ends.{sends_on};
ghost use Rattle.lane_pool.specs.Rule.{with_lane};
ghost use Rattle.lane_pool.specs.Slot.{IsChecked, PassesTest};
ghost use Rattle.lane_pool.specs.Words.{count_after, fetch_at, IsInOrder, StandsAt};

use crate::Told;
use crate::jobs::JobChannel;
use crate::replies::Replies;
use crate::rule::ReplySender;
use crate::slot::FetchOut;
use crate::worker::{Worker, hire};
use acq_base::{Job, NotServed};
use acq_outside::{Method, Word};
use std::alloc::Global;
use std::marker::Brand;
use std::sync::Wait;
use std::thread::Threads;

/// A worker, the fetch that is out on it, and the last count taken of it.
#[derive(Drop)]
pub struct Lane<M: Method> {
    pub worker: Worker<M>,
    pub slot: FetchOut,
    pub last: u64,
}

/// What a lane needs beside its method. All of its memory is taken here.
#[derive(Drop)]
pub struct Kit {
    pub jobs: JobChannel,
    pub sends: ReplySender,
    pub slot: FetchOut,
}

/// Opens the next lane, and starts its worker.
pub fn open_lane<M: Method + Send + 'static, R: Threads + Wait + Copy + Send + 'static>(
    rt: &R,
    alloc: Global,
    number: u32,
    replies: &mut Replies,
    kit: Kit,
    method: M,
) -> Lane<M>
    requires sends { sends_on kit.sends ≡ sends_on replies.old.sends }
    requires number { (number ≡ length (view replies.old.pass).taken) × (0 < number) }
    ensures sends { replies.new.sends ≡ replies.old.sends }
    ensures view { view replies.new.pass ≡ with_lane (M.world method) (M.faults method) (view replies.old.pass) }
    ensures number { result.worker.promise.lane ≡ number }
    ensures on { sends_on result.worker.promise.sends.value ≡ sends_on replies.old.sends }
    ensures method { result.worker.promise.method.value ≡ method }
    ensures handed { result.worker.handed ≡ 0 }
    ensures last { result.last ≡ M.faults method }
    ensures slot { result.slot ≡ kit.slot }
{
    let Kit { jobs, sends, slot } = kit;
    let last = method.faults();
    let pass = replies.split::<Brand, M>(&method);
    Lane {
        worker: hire(rt, alloc, number, jobs, sends, pass, method),
        slot,
        last,
    }
}

impl<M: Method> Lane<M> {
    /// Hands it a job, which comes back where one is out already or the worker doesn't take it.
    pub fn give<R: Wait>(&mut self, rt: &R, job: Job) -> Result<(), Job>
        requires sound { IsSound job.uri }
        requires from { CanBegin job }
        ensures promise { self.new.worker.promise ≡ self.old.worker.promise }
        ensures last { self.new.last ≡ self.old.last }
        ensures out { MatchResult result (λ _. (self.old.slot ≡ None) × (self.new.slot ≡ Some (begun job))) (λ back. (back ≡ job) × (self.new.slot ≡ self.old.slot)) }
        ensures handed { MatchResult result (λ _. self.new.worker.handed ≡ self.old.worker.handed + 1) (λ back. self.new.worker.handed ≡ self.old.worker.handed) }
    {
        if self.slot.is_out() {
            return Err(job);
        }
        self.slot.record_out(&job);
        match self.worker.give(rt, job) {
            Ok(()) => Ok(()),
            Err(job) => {
                self.slot.clear();
                Err(job)
            }
        }
    }

    /// The word that came, where it passes the coordinator's test: it is to the job that is out, goes on where that job's
    /// bytes end, and a fault begins at or above the last count taken.
    pub fn check(&mut self, told: Told) -> Option<Told>
        requires { IsWithinLimit (fetch_at told.job told.word) told.word }
        ensures worker { self.new.worker ≡ self.old.worker }
        ensures some { IfSome result (λ passed. (passed ≡ told) × IsChecked self.old.slot self.old.last told self.new.slot self.new.last) }
        ensures none { IfNone result (self.new ≡ self.old) }
        ensures failed { IfNone result (PassesTest self.old.slot self.old.last told → ⊥) }
    {
        if !self.passes(&told) {
            return None;
        }
        self.last = count_after(self.last, &told.word);
        self.slot.go_on(&told.word);
        Some(told)
    }

    /// Whether a word passes the coordinator's test.
    #[tactic(auto, using(crate::proofs::Slots::passes_test, crate::proofs::Slots::other_job, crate::proofs::Slots::stands_elsewhere, crate::proofs::Slots::out_of_order))]
    fn passes(&self, told: &Told) -> bool
        ensures yes { IsTrue result → PassesTest self.now.slot self.now.last told.now }
        ensures no { result ≡ false → PassesTest self.now.slot self.now.last told.now → ⊥ }
    {
        let Some(at) = self.slot.place(&told.job) else {
            return false;
        };
        stands_at(at, &told.word) && is_in_order(self.last, &told.word)
    }
}

/// Whether a piece begins at this place, or a size is it.
fn stands_at(at: u64, word: &Word) -> bool
    ensures { IsTrue result ↔ StandsAt at word.now }
{
    match word {
        Word::Piece {
            at: place,
            bytes: _,
        } => *place == at,
        Word::Done { size } => *size == at,
        Word::Not(_) | Word::NoMemory => true,
    }
}

/// Whether a fault begins at or above this count.
fn is_in_order(last: u64, word: &Word) -> bool
    ensures { IsTrue result ↔ IsInOrder last word.now }
{
    match word {
        Word::Not(NotServed::Fault { before, after: _ }) => last <= *before,
        Word::Piece { at: _, bytes: _ } | Word::Done { size: _ } | Word::Not(_) | Word::NoMemory =>
            true,
    }
}

/// The count of a lane after a word.
fn count_after(last: u64, word: &Word) -> u64
    ensures { result ≡ count_after last word.now }
{
    match word {
        Word::Not(NotServed::Fault { before: _, after }) => *after,
        Word::Piece { at: _, bytes: _ } | Word::Done { size: _ } | Word::Not(_) | Word::NoMemory =>
            last,
    }
}
