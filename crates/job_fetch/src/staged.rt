//! A fetch whose pieces go into the list's file under `partial/` as they come.
ghost use Rattle.std.specs.Prelude.{◌≡◌, ◌≤◌, length};
ghost use Rattle.acq_base.specs.Uri.{IsSound};
ghost use Rattle.acq_outside.specs.Count.{one_more};
ghost use Rattle.acq_outside.specs.Stays.{StaysCounting};
ghost use Rattle.acq_outside.specs.States.{IsTold};
ghost use Rattle.acq_outside.specs.Word.{CanBegin, IsSoundWord, IsWord, begun};
ghost use Rattle.journal_model.specs.Names.{IsPutName};
ghost use Rattle.journal_model.specs.Rest.{part_bytes};
ghost use Rattle.job_fetch.specs.Fetched.{ComesWhole};
ghost use Rattle.job_fetch.specs.Hearing.{CanOpen};

use crate::hearing::hear;
use crate::intake::{Heard, Intake};
use acq_base::{Job, ListName, TryCopy};
use acq_outside::{Disk, Method, OutError, Word};
use std::alloc::Global;
use update_model::Closed;

/// Fetches what the job's URI names into the list's file under `partial/`, behind as many bytes as the job leaves out,
/// and takes its sum on the way. One piece at a time is in memory, and a copy of the list's name. Where the method's
/// first word is no piece of a file, the file under `partial/` stays as it is; where a later one isn't, it has what came
/// until then.
///
/// The URI is sound, and the file has at least the bytes that the job leaves out.
/// A fault of the method is told, and comes only where its count of faults rose in this call; `Fault` only where the
/// disk's did.
pub fn fetch_staged<D: Disk, M: Method>(
    alloc: Global,
    disk: &mut D,
    method: &mut M,
    name: &ListName,
    job: &Job,
) -> Result<Closed, OutError>
    requires name { IsPutName name.now.0 }
    requires sound { IsSound job.now.uri }
    requires from { CanBegin job.now }
    requires keep { IsTold (D.trace disk.old) → job.now.from ≤ length (part_bytes (D.trace disk.old) name.now.0) }

    ensures frame { StaysCounting OutError.Fault D.Disk disk.old disk.new result }
    ensures begins { M.begins method.new ≡ one_more (M.begins method.old) }
    ensures comes { ComesWhole D.Disk M.Method name.now.0 job.now disk.old disk.new method.old method.new result }
{
    match method.begin(alloc, job) {
        Word::Piece { at, bytes } => {
            receive(alloc, disk, method, name, job, Word::Piece { at, bytes })
        }
        Word::Done { size } => receive(alloc, disk, method, name, job, Word::Done { size }),
        // The name isn't copied, so that a fault is told where memory has run out too.
        Word::Not(end) => Ok(Closed::Not(end)),
        Word::NoMemory => Err(OutError::NoMemory),
    }
}

/// Takes in the words from the first on, at which the method's count of faults stood still.
fn receive<D: Disk, M: Method>(
    alloc: Global,
    disk: &mut D,
    method: &mut M,
    name: &ListName,
    job: &Job,
    first: Word,
) -> Result<Closed, OutError>
    requires can { CanOpen job.now (D.trace disk.old) name.now.0 }
    requires from { CanBegin job.now }
    requires sound { IsSoundWord first }
    requires word { IsWord (M.faults method.old) (M.faults method.old) (M.world method.old) (begun job.now) (M.under method.old) first }

    ensures frame { StaysCounting OutError.Fault D.Disk disk.old disk.new result }
    ensures begins { M.begins method.new ≡ M.begins method.old }
    ensures comes { ComesWhole D.Disk M.Method name.now.0 job.now disk.old disk.new method.old method.new result }
{
    let list = name.copy(alloc)?;
    let mut intake = Intake::Unopened(list);
    let mut word = first;
    loop {
        let heard = hear(disk, job, intake, word)?;
        match heard {
            Heard::More(next) => intake = next,
            Heard::Last(closed) => return Ok(closed),
        }
        word = method.more(alloc);
    }
}
