//! A job that the coordinator fetches by its own method.
ghost use Rattle.std.specs.Prelude.{◌≡◌, ℕ, List, IfOk, OnErr};
ghost use Rattle.acq_base.specs.Uri.{IsSound};
ghost use Rattle.acq_outside.specs.Count.{one_more};
ghost use Rattle.acq_outside.specs.Stays.{StaysCounting};
ghost use Rattle.acq_outside.specs.Word.{CanBegin};
ghost use Rattle.job_fetch.specs.Hearing.{CanHear, ChangesFile, HasComeIn, at_of, name_of};
ghost use Rattle.lane_pool.specs.Pool.{OthersStay, own_begins, own_count, own_world};
ghost use Rattle.lane_jobs.specs.Answering.{IsAnswered};

use acq_base::Job;
use acq_outside::{Disk, Method, OutError};
use job_fetch::{Heard, Intake, hear};
use lane_pool::Lanes;
use std::alloc::Global;
use update_model::Closed;

/// Fetches a job of which nothing has come.
pub fn fetch_own<D: Disk, M: Method + Send + 'static>(
    alloc: Global,
    disk: &mut D,
    lanes: &mut Lanes<M>,
    job: &Job,
    first: Intake,
) -> Result<Closed, OutError>
    requires sound { IsSound job.now.uri }
    requires from { CanBegin job.now }
    requires can { CanHear job.now (D.trace disk.old) first }
    requires nothing { at_of job.now first ≡ job.now.from }

    ensures frame { StaysCounting OutError.Fault D.Disk disk.old disk.new result }
    ensures own { OthersStay lanes.old lanes.new }
    ensures begins { own_begins lanes.new ≡ one_more (own_begins lanes.old) }
    ensures changes { ChangesFile (name_of first) (D.trace disk.old) (D.trace disk.new) }
    ensures answered { (part : List ℕ) → HasComeIn (own_world lanes.old) part job.now (D.trace disk.old) first
        → IfOk result (IsAnswered (own_world lanes.old) part job.now (name_of first) (own_count lanes.old) (own_count lanes.new)
        (D.trace disk.old) (D.trace disk.new)) }
{
    let mut intake = first;
    let mut word = lanes.own(alloc, job);
    loop {
        let heard = hear(disk, job, intake, word)?;
        match heard {
            Heard::More(next) => intake = next,
            Heard::Last(closed) => return Ok(closed),
        }
        word = lanes.own_more(alloc);
    }
}
