//! A worker's thread, started and joined.
ghost use Rattle.std.specs.Prelude.{◌≡◌, ◌+◌, true, MatchResult};
ghost use Rattle.acq_base.specs.Uri.{IsSound};
ghost use Rattle.acq_outside.specs.Fetches.{Fetches};
ghost use Rattle.acq_outside.specs.Word.{CanBegin};
ghost use Rattle.crossbeam_channel.specs.Claims.{view, IsSeatAt};
ghost use Rattle.crossbeam_channel.specs.Ends.{sends_on, receives_on};
ghost use Rattle.lane_pool.specs.Counting.{counted_on, IsBegun};
ghost use Rattle.lane_pool.specs.Promises.{HandsBack, IsSamePromise};
ghost use Rattle.lane_pool.specs.Working.{IsWorker};

use crate::job_rule::JobSender;
use crate::jobs::{JobChannel, JobsOut};
use crate::rule::{LanePass, ReplySender};
use crate::work::{Returned, work};
use acq_base::Job;
use acq_outside::Method;
use std::alloc::Global;
use std::marker::Model;
use std::snapshot::Snapshot;
use std::sync::Wait;
use std::thread;
use std::thread::{Promise, PromisedHandle, Threads};

/// What a worker was started with.
#[derive(Drop)]
pub struct Promised<M> {
    pub lane: u32,
    pub method: Snapshot<M>,
    pub jobs: Snapshot<JobSender>,
    pub sends: Snapshot<ReplySender>,
    pub pass: Snapshot<LanePass>,
}

impl<M: Method> Promise<Returned<M>> for Promised<M> {
    ghost use Rattle.lane_pool.specs.Promises.{HandsBack};

    ghost kept_by = { HandsBack M.world M.faults M.begins };
}

/// A worker. Contracts see it as what it was started with, and how many jobs it was handed.
#[derive(Drop)]
pub struct Worker<M: Method> {
    jobs: JobsOut,
    // What its thread would have handed back, where none could be started.
    thread: Result<PromisedHandle<Returned<M>, Promised<M>>, Returned<M>>,
    promise: Promised<M>,
}

impl<M: Method> Model for Worker<M> {
    ghost use Rattle.std.specs.Prelude.{◌≡◌, MatchResult};
    ghost use Rattle.crossbeam_channel.specs.Claims.{view as view_of};
    ghost use Rattle.crossbeam_channel.specs.Ends.{sends_on};
    ghost use Rattle.lane_pool.specs.Promises.{Hired, HandsBack, IsSamePromise};

    ghost Value = { Hired M };

    ghost view = { λ w. record { promise = w.promise; handed = (view_of w.jobs.pass).handed } };

    ghost invariant = { λ w. MatchResult w.thread (λ handle. IsSamePromise handle.promise w.promise) (HandsBack M.world M.faults M.begins w.promise) × (sends_on w.promise.jobs.value ≡ sends_on w.jobs.sends) };
}

/// What a worker had.
#[derive(Drop)]
pub struct Ended<M> {
    pub method: M,
    pub pass: LanePass,
}

/// What a worker is started with.
fn promise_of<M>(
    lane: u32,
    method: &M,
    jobs: &JobSender,
    sends: &ReplySender,
    pass: &LanePass,
) -> Promised<M>
    ensures lane { result.lane ≡ lane }
    ensures method { result.method.value ≡ method.now }
    ensures jobs { result.jobs.value ≡ jobs.now }
    ensures sends { result.sends.value ≡ sends.now }
    ensures pass { result.pass.value ≡ pass.now }
{
    Promised {
        lane,
        method: Snapshot::of(method),
        jobs: Snapshot::of(jobs),
        sends: Snapshot::of(sends),
        pass: Snapshot::of(pass),
    }
}

/// Starts a worker. Where no thread can be started it takes no job.
pub fn hire<M: Method + Send + 'static, R: Threads + Wait + Copy + Send + 'static>(
    rt: &R,
    alloc: Global,
    lane: u32,
    jobs: JobChannel,
    sends: ReplySender,
    pass: LanePass,
    method: M,
) -> Worker<M>
    requires seat { IsSeatAt (sends_on sends) pass }
    requires pass { IsWorker lane (view pass) (M.world method) (M.faults method) }
    ensures lane { result.promise.lane ≡ lane }
    ensures method { result.promise.method.value ≡ method }
    ensures sends { result.promise.sends.value ≡ sends }
    ensures handed { result.handed ≡ 0 }
{
    let (mut to, from) = jobs.part();
    let promise = promise_of(lane, &method, &to.sends, &sends, &pass);
    let again = promise_of(lane, &method, &to.sends, &sends, &pass);
    let handle = *rt;
    let run = move || -> Returned<M>
        requires seat { IsSeatAt (sends_on sends) pass }
        requires pass { IsWorker lane (view pass) (M.world method) (M.faults method) }
        requires none { (view from.pass).received ≡ 0 }
        ensures frame { Fetches M.Method method result.method }
        ensures seat { IsSeatAt (sends_on sends) result.pass }
        ensures pass { IsWorker lane (view result.pass) (M.world result.method) (M.faults result.method) }
        ensures jobs { IsSeatAt (receives_on from.receives) result.jobs }
        ensures takes { (view result.jobs).takes ≡ true }
        ensures begins { M.begins result.method ≡ counted_on (M.begins method) (view result.jobs).received }
    {
        let rt = handle;
        work(&rt, alloc, lane, from, sends, pass, method)
    };
    match thread::spawn_with(rt, again, run) {
        Ok(running) => Worker {
            jobs: to,
            thread: Ok(running),
            promise,
        },
        Err(refused) => {
            // The jobs end with this, and the call hands everything back.
            to.end(rt);
            let returned = (refused.value)();
            Worker {
                jobs: to,
                thread: Err(returned),
                promise,
            }
        }
    }
}

impl<M: Method> Worker<M> {
    /// Hands it a job, which comes back where it doesn't take it.
    pub fn give<R: Wait>(&mut self, rt: &R, job: Job) -> Result<(), Job>
        requires sound { IsSound job.uri }
        requires from { CanBegin job }
        ensures promise { self.new.promise ≡ self.old.promise }
        ensures job { MatchResult result (λ _. self.new.handed ≡ self.old.handed + 1) (λ back. (back ≡ job) × (self.new.handed ≡ self.old.handed)) }
    {
        if self.thread.is_err() {
            return Err(job);
        }
        self.jobs.hand(rt, job)
    }
}

/// What a worker's thread hands back at its end, or would have handed back.
fn handed_back<M: Method + Send, R: Threads>(
    rt: &R,
    thread: Result<PromisedHandle<Returned<M>, Promised<M>>, Returned<M>>,
    promise: Promised<M>,
) -> Returned<M>
    requires { MatchResult thread (λ handle. IsSamePromise handle.promise promise) (HandsBack M.world M.faults M.begins promise) }
    ensures { HandsBack M.world M.faults M.begins promise result }
{
    drop(promise);
    match thread {
        Ok(running) => running.join(rt),
        Err(returned) => returned,
    }
}

impl<M: Method + Send> Worker<M> {
    /// Ends the worker, and takes back what it had. It began no more fetches than jobs that it was handed.
    pub fn join<R: Threads + Wait>(self, rt: &R) -> Ended<M>
        ensures seat { IsSeatAt (sends_on self.promise.sends.value) result.pass }
        ensures pass { IsWorker self.promise.lane (view result.pass) (M.world result.method) (M.faults result.method) }
        ensures frame { Fetches M.Method self.promise.method.value result.method }
        ensures begins { IsBegun (counted_on (M.begins self.promise.method.value) self.handed) (M.begins result.method) }
    {
        let Worker {
            jobs: mut to,
            thread,
            promise,
        } = self;
        to.end(rt);
        let returned = handed_back(rt, thread, promise);
        to.settle(returned.jobs);
        Ended {
            method: returned.method,
            pass: returned.pass,
        }
    }
}
