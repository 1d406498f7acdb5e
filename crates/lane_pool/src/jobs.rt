//! A lane's channel of jobs, and its two ends, each with its pass.
ghost use Rattle.std.specs.Prelude.{◌≡◌, ◌+◌, ◌≤◌, true, IfSome, IfNone, MatchResult};
ghost use Rattle.acq_base.specs.Uri.{IsSound};
ghost use Rattle.acq_outside.specs.Word.{CanBegin};
ghost use Rattle.crossbeam_channel.specs.Claims.{view, IsSeatAt};
ghost use Rattle.crossbeam_channel.specs.Ends.{sends_on, receives_on};
ghost use Rattle.lane_pool.specs.JobRule.{nothing_yet};

use crate::job_rule::{
    Hands, JobPass, JobReceiver, JobRule, JobSender, Parts, Received, Rejoins, Takes, Tally,
};
use crate::sent::Sent;
use acq_base::{Job, NoMemory};
use crossbeam_channel::bounded_with;
use std::alloc::Global;
use std::sync::Wait;

/// The channel before its ends are parted.
#[derive(Drop)]
pub struct JobChannel {
    sends: JobSender,
    receives: JobReceiver,
    pass: JobPass,
    ghost one: { receives_on receives ≡ sends_on sends },
    ghost seat: { IsSeatAt (sends_on sends) pass },
    ghost unused: { view pass ≡ nothing_yet },
}

impl JobChannel {
    /// Makes the channel. One job may wait for the worker.
    pub fn open(alloc: Global) -> Result<JobChannel, NoMemory> {
        let (sends, receives, pass) = bounded_with::<Option<Sent>, Tally, JobRule, Global>(
            alloc, 1,
        )?;
        Ok(JobChannel {
            sends,
            receives,
            pass,
        })
    }

    /// The coordinator's end, and the worker's.
    pub fn part(self) -> (JobsOut, JobsIn)
        ensures one { receives_on result.1.receives ≡ sends_on result.0.sends }
        ensures handed { (view result.0.pass).handed ≡ 0 }
        ensures received { (view result.1.pass).received ≡ 0 }
    {
        let JobChannel {
            sends,
            receives,
            pass: mut first,
        } = self;
        let pass = sends.another::<Parts>(&mut first);
        (JobsOut { sends, pass: first }, JobsIn { receives, pass })
    }
}

/// The coordinator's end.
#[derive(Drop)]
pub struct JobsOut {
    pub sends: JobSender,
    pub pass: JobPass,
    ghost seat: { IsSeatAt (sends_on sends) pass },
    ghost gives: { (view pass).gives ≡ true },
}

impl JobsOut {
    /// Hands a job out, which comes back where the worker's end is gone.
    pub fn hand<R: Wait>(&mut self, rt: &R, job: Job) -> Result<(), Job>
        requires sound { IsSound job.uri }
        requires from { CanBegin job }
        ensures sends { self.new.sends ≡ self.old.sends }
        ensures handed { MatchResult result (λ _. (view self.new.pass).handed ≡ (view self.old.pass).handed + 1) (λ back. (back ≡ job) × ((view self.new.pass).handed ≡ (view self.old.pass).handed)) }
    {
        match self
            .sends
            .send_as::<Hands, R>(rt, &mut self.pass, Some(Sent::new(job)))
        {
            Ok(()) => Ok(()),
            Err(refused) => {
                let Some(back) = refused.into_inner() else {
                    unreachable!()
                };
                Err(back.job())
            }
        }
    }

    /// Tells the worker that no job comes any more.
    pub fn end<R: Wait>(&mut self, rt: &R)
        ensures sends { self.new.sends ≡ self.old.sends }
        ensures handed { (view self.new.pass).handed ≡ (view self.old.pass).handed }
    {
        let _ = self.sends.send_as::<Hands, R>(rt, &mut self.pass, None);
    }

    /// Takes the pass of the worker's end back in: no more jobs came out than were handed out.
    pub fn settle(self, back: JobPass)
        requires seat { IsSeatAt (sends_on self.sends) back }
        requires takes { (view back).takes ≡ true }
        ensures { (view back).received ≤ (view self.pass).handed }
    {
        let JobsOut { sends, mut pass } = self;
        sends.absorb::<Rejoins>(&mut pass, back);
        sends.learn_as::<Received>(&mut pass);
    }
}

/// The worker's end.
#[derive(Drop)]
pub struct JobsIn {
    pub receives: JobReceiver,
    pub pass: JobPass,
    ghost seat: { IsSeatAt (receives_on receives) pass },
    ghost takes: { (view pass).takes ≡ true },
}

impl JobsIn {
    /// The next job, or `None` where none comes any more.
    pub fn next<R: Wait>(&mut self, rt: &R) -> Option<Sent>
        ensures receives { self.new.receives ≡ self.old.receives }
        ensures some { IfSome result (λ sent. (view self.new.pass).received ≡ (view self.old.pass).received + 1) }
        ensures none { IfNone result ((view self.new.pass).received ≡ (view self.old.pass).received) }
    {
        match self.receives.recv_as::<Takes, R>(rt, &mut self.pass) {
            Ok(item) => item,
            Err(_) => None,
        }
    }

    /// Gives up receiving.
    pub fn close(self) -> JobPass
        ensures seat { IsSeatAt (receives_on self.receives) result }
        ensures takes { (view result).takes ≡ true }
        ensures same { result ≡ self.pass }
    {
        let JobsIn { receives, pass } = self;
        drop(receives);
        pass
    }
}
