//! A job on its way to a worker.

use acq_base::Job;
use std::marker::Model;

/// A job on its way to a worker. It can be begun.
#[derive(Drop)]
pub struct Sent {
    job: Job,
}

impl Model for Sent {
    ghost use Rattle.acq_base.specs.declared.fetch.Job.{Job as job_type};
    ghost use Rattle.acq_base.specs.Uri.{IsSound};
    ghost use Rattle.acq_outside.specs.Word.{CanBegin};

    ghost Value = { job_type };

    ghost view = { λ s. s.job };

    ghost invariant = { λ s. IsSound s.job.uri × CanBegin s.job };
}

impl Sent {
    ghost use Rattle.std.specs.Prelude.{◌≡◌};
    ghost use Rattle.acq_base.specs.Uri.{IsSound};
    ghost use Rattle.acq_outside.specs.Word.{CanBegin};

    /// Sends off a job.
    pub fn new(job: Job) -> Sent
        requires sound { IsSound job.uri }
        requires from { CanBegin job }
        ensures { result ≡ job }
    {
        Sent { job }
    }

    /// The job that was sent.
    pub fn job(self) -> Job
        ensures same { result ≡ self }
        ensures sound { IsSound result.uri }
        ensures from { CanBegin result }
    {
        let Sent { job } = self;
        job
    }
}
