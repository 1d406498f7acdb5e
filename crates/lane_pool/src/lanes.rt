//! The lanes: jobs go out, and words come back.
ghost use Rattle.std.specs.Prelude.{◌≡◌, ◌<◌, ℕ, None, Some, slice_get, slice_index, slice_set, vec_len, vec_capacity, IfSome, IfNone, IfErr, IsSome, MatchResult, OnErr, OnOk};
ghost use Rattle.acq_base.specs.Uri.{IsSound};
ghost use Rattle.acq_outside.specs.Word.{CanBegin, IsSoundWord, IsWord, begun};
ghost use Rattle.acq_outside.specs.Count.{NoneFell, one_more};
ghost use Rattle.lane_pool.specs.Pool.{IsWordTaken, OthersStay, own_begins, own_count, own_fetch, own_world};
ghost use Rattle.lane_pool.specs.Refinement.{AreLanes, pool_of};

use crate::Told;
use crate::lane::Lane;
use crate::replies::Replies;
use acq_base::Job;
use acq_outside::{Method, Word};
use std::alloc::Global;
use std::marker::Model;
use std::sync::Wait;

/// The coordinator's own method, and the workers with theirs. Contracts see, by lane, the mirror that its method tells, its
/// last count of faults, the fetch that is out on it, and how many fetches were begun: of lane 0 just how many its method
/// began, and of a worker's lane at most how many, a job that was handed out counting as one.
///
/// It can't be dropped: `finish` ends the workers and gives the methods back.
pub struct Lanes<M: Method> {
    pub(crate) own: M,
    pub(crate) lanes: Vec<Lane<M>>,
    // None where there is no worker.
    pub(crate) replies: Option<Replies>,
    // Room for all methods.
    pub(crate) room: Vec<M>,
}

impl<M: Method> Model for Lanes<M> {
    ghost use Rattle.std.specs.Prelude.{◌≡◌, ◌<◌, ◌≤◌, vec_len, vec_capacity};
    ghost use Rattle.lane_pool.specs.Pool.{Pool};
    ghost use Rattle.lane_pool.specs.Refinement.{pool_of, HasReplies};

    ghost Value = { Pool };

    ghost view = { λ s. pool_of M.world M.faults M.under M.begins s.own s.lanes.items };

    ghost invariant = { λ s. HasReplies M.world s.replies s.lanes.items × (vec_len s.room ≡ 0) × (vec_len s.lanes < vec_capacity s.room) × (vec_len s.lanes ≤ 8) };
}

impl<M: Method + Send + 'static> Lanes<M> {
    /// Hands a job to a worker's lane. It takes no memory. At `Err` the job comes back, and the coordinator fetches it by
    /// `own`: there is no such lane, a job is out on it, its worker has ended or no thread could be started for it.
    pub fn give<R: Wait>(&mut self, rt: &R, lane: u32, job: Job) -> Result<(), Job>
        requires sound { IsSound job.uri }
        requires from { CanBegin job }
        ensures worlds { self.new.worlds ≡ self.old.worlds }
        ensures counts { self.new.counts ≡ self.old.counts }
        ensures worker { OnOk result ((0 < lane) × (slice_get self.old.outs lane ≡ Some None)) }
        ensures out { OnOk result (self.new.outs ≡ slice_set self.old.outs lane (Some (begun job))) }
        ensures back { IfErr result (λ back. back ≡ job) }
        ensures refused { OnErr result (self.new.outs ≡ self.old.outs) }
        ensures begins { MatchResult result (λ _. self.new.begins ≡ slice_set self.old.begins lane (one_more (slice_index self.old.begins lane))) (λ _. self.new.begins ≡ self.old.begins) }
    {
        if lane == 0 || lane as usize > self.lanes.len() {
            return Err(job);
        }
        let k = lane as usize - 1;
        self.lanes[k].give(rt, job)
    }

    /// Takes a worker's word: where a job is out it waits for one, and else it takes one that is there.
    ///
    /// `None` comes where none was there, or where what came isn't the word that its lane owes: it is to another job than
    /// the one out on its lane, doesn't stand where that job's bytes end, or is a fault that begins below the lane's count.
    pub fn take<R: Wait>(&mut self, rt: &R) -> Option<Told>
        ensures worlds { self.new.worlds ≡ self.old.worlds }
        ensures counts { NoneFell self.old.counts self.new.counts }
        ensures begins { self.new.begins ≡ self.old.begins }
        ensures told { IfSome result (λ told. IsWordTaken self.old told self.new) }
        ensures none { IfNone result (self.new ≡ self.old) }
    {
        let waits = self.has_out();
        match &mut self.replies {
            None => None,
            Some(replies) => take_from(rt, waits, replies, &mut self.lanes),
        }
    }

    /// Whether a job is out on a worker's lane.
    pub(crate) fn has_out(&self) -> bool {
        self.lanes.iter().any(|lane| lane.slot.is_out())
    }

    /// Fetches a job by the coordinator's own method, as its `begin` does: the first word. A fetch of `own` that hasn't ended
    /// is given up.
    pub fn own(&mut self, alloc: Global, job: &Job) -> Word
        requires sound { IsSound job.now.uri }
        requires from { CanBegin job.now }
        ensures frame { OthersStay self.old self.new }
        ensures sound { IsSoundWord result }
        ensures begins { own_begins self.new ≡ one_more (own_begins self.old) }
        ensures word { IsWord (own_count self.old) (own_count self.new) (own_world self.old) (begun job.now) (own_fetch self.new) result }
    {
        self.own.begin(alloc, job)
    }

    /// Goes on with the job of `own`: its next word. The last word of `own` or `own_more` was a piece.
    pub fn own_more(&mut self, alloc: Global) -> Word
        requires { IsSome (own_fetch self.old) }
        ensures frame { OthersStay self.old self.new }
        ensures sound { IsSoundWord result }
        ensures begins { self.new.begins ≡ self.old.begins }
        ensures word { IfSome (own_fetch self.old) (λ fetch. IsWord (own_count self.old) (own_count self.new) (own_world self.old) fetch (own_fetch self.new) result) }
    {
        self.own.more(alloc)
    }
}

/// Receives a word, and has its lane check it.
fn take_from<M: Method, R: Wait>(
    rt: &R,
    waits: bool,
    replies: &mut Replies,
    lanes: &mut Vec<Lane<M>>,
) -> Option<Told>
    requires { AreLanes M.world replies.old lanes.old.items }
    ensures lanes { AreLanes M.world replies.new lanes.new.items }
    ensures len { vec_len lanes.new ≡ vec_len lanes.old }
    ensures told { (own : M) → IfSome result (λ told. IsWordTaken (pool_of M.world M.faults M.under M.begins own lanes.old.items) told (pool_of M.world M.faults M.under M.begins own lanes.new.items)) }
    ensures none { IfNone result (lanes.new.items ≡ lanes.old.items) }
{
    let told = replies.receive(rt, waits)?;
    let k = (told.lane - 1) as usize;
    lanes[k].check(told)
}
