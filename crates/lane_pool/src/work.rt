//! What a worker does.
ghost use Rattle.std.specs.Prelude.{◌≡◌, ◌<◌, true, false, MatchBool};
ghost use Rattle.acq_outside.specs.Count.{one_more};
ghost use Rattle.acq_outside.specs.Fetches.{Fetches};
ghost use Rattle.crossbeam_channel.specs.Claims.{view, IsSeatAt};
ghost use Rattle.crossbeam_channel.specs.Ends.{sends_on, receives_on};
ghost use Rattle.lane_pool.specs.Counting.{counted_on};
ghost use Rattle.lane_pool.specs.Words.{IsWordTo, IsInOrder};
ghost use Rattle.lane_pool.specs.Rule.{IsSent};
ghost use Rattle.lane_pool.specs.Working.{IsWorker, is_piece};

use crate::Told;
use crate::job_rule::JobPass;
use crate::jobs::JobsIn;
use crate::rule::{LanePass, ReplySender, Sends};
use crate::sent::Sent;
use acq_base::{Job, NoMemory, TryCopy};
use acq_outside::{Method, Word};
use std::alloc::Global;
use std::sync::Wait;

/// What a worker hands back when it ends.
#[derive(Drop)]
pub struct Returned<M> {
    pub method: M,
    pub pass: LanePass,
    pub jobs: JobPass,
}

/// Does the jobs that come, one after another, until none can come or nobody receives the words. Each job that came began one
/// fetch.
pub fn work<M: Method, R: Wait>(
    rt: &R,
    alloc: Global,
    lane: u32,
    mut jobs: JobsIn,
    sends: ReplySender,
    mut pass: LanePass,
    mut method: M,
) -> Returned<M>
    requires seat { IsSeatAt (sends_on sends) pass }
    requires pass { IsWorker lane (view pass) (M.world method) (M.faults method) }
    requires none { (view jobs.pass).received ≡ 0 }
    ensures frame { Fetches M.Method method result.method }
    ensures seat { IsSeatAt (sends_on sends) result.pass }
    ensures pass { IsWorker lane (view result.pass) (M.world result.method) (M.faults result.method) }
    ensures jobs { IsSeatAt (receives_on jobs.receives) result.jobs }
    ensures takes { (view result.jobs).takes ≡ true }
    ensures begins { M.begins result.method ≡ counted_on (M.begins method) (view result.jobs).received }
{
    for _ in rt.forever() {
        let Some(sent) = jobs.next(rt) else {
            break;
        };
        if !answer(rt, alloc, lane, &sends, &mut pass, &mut method, sent) {
            break;
        }
    }
    let jobs = jobs.close();
    Returned { method, pass, jobs }
}

/// Begins one fetch for a job and sends its words one by one, and says whether all of them went.
fn answer<M: Method, R: Wait>(
    rt: &R,
    alloc: Global,
    lane: u32,
    sends: &ReplySender,
    pass: &mut LanePass,
    method: &mut M,
    sent: Sent,
) -> bool
    requires seat { IsSeatAt (sends_on sends.now) pass.old }
    requires pass { IsWorker lane (view pass.old) (M.world method.old) (M.faults method.old) }
    ensures frame { Fetches M.Method method.old method.new }
    ensures begins { M.begins method.new ≡ one_more (M.begins method.old) }
    ensures seat { IsSeatAt (sends_on sends.now) pass.new }
    ensures pass { IsWorker lane (view pass.new) (M.world method.new) (M.faults method.new) }
{
    let job = sent.job();
    let mut word = method.begin(alloc, &job);
    for _ in rt.forever() {
        if !is_piece(&word) {
            return tell(rt, sends, pass, Told { lane, job, word });
        }
        // Each word carries its job. Where there is no memory for that, the job ends so.
        let Ok(again) = job.copy(alloc) else {
            let word = Word::NoMemory;
            return tell(rt, sends, pass, Told { lane, job, word });
        };
        let piece = Told {
            lane,
            job: again,
            word,
        };
        if !tell(rt, sends, pass, piece) {
            return false;
        }
        word = method.more(alloc);
    }
    unreachable!()
}

/// Whether more of the file is to come.
fn is_piece(word: &Word) -> bool
    ensures { result ≡ is_piece word.now }
{
    match word {
        Word::Piece { at: _, bytes: _ } => true,
        Word::Done { size: _ } | Word::Not(_) | Word::NoMemory => false,
    }
}

/// Sends a word, and says whether it went.
fn tell<R: Wait>(rt: &R, sends: &ReplySender, pass: &mut LanePass, told: Told) -> bool
    requires seat { IsSeatAt (sends_on sends.now) pass.old }
    requires live { (view pass.old).live ≡ true }
    requires lane { (0 < (view pass.old).lane) × (told.lane ≡ (view pass.old).lane) }
    requires word { IsWordTo (view pass.old).world told.job told.word }
    requires in_order { IsInOrder (view pass.old).last told.word }
    ensures seat { IsSeatAt (sends_on sends.now) pass.new }
    ensures step { MatchBool result (IsSent (view pass.old) told (view pass.new)) (view pass.new ≡ view pass.old) }
{
    sends.send_as::<Sends, R>(rt, pass, told).is_ok()
}
