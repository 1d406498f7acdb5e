//! A fetch whose words come one by one. It takes no memory but that of pieces that are joined there.
ghost use Rattle.std.specs.Prelude.{◌≡◌, ◌+◌, ◌++◌, ◌≤◌, ◌<◌, ◌^◌, ℕ, true, List, Option, is_some, length, take, Err, IfOk, IfSome, OnOk, OnErr};
ghost use Rattle.acq_base.specs.Mirror.{MirrorMap, answer_at};
ghost use Rattle.acq_outside.specs.Stays.{Stays, StaysCounting};
ghost use Rattle.acq_outside.specs.States.{IsTold};
ghost use Rattle.acq_outside.specs.Word.{CanBegin, HasSize, IsPieceOf, IsWithinLimit};
ghost use Rattle.journal_model.specs.Rest.{part_bytes};
ghost use Rattle.partial_store.specs.Refinement.{part_of};
ghost use Rattle.update_model.specs.declared.ask.Body.TheVariants.{Staged};
ghost use Rattle.update_model.specs.declared.ask.Closed.TheVariants.{Served};
ghost use Rattle.job_fetch.specs.Fetched.{IsAnswer, KeepsFront, LastsAs, Staging};
ghost use Rattle.job_fetch.specs.Hearing.{CanFill, CanHear, CanOpen, ChangesFile, ComesTo, Ends, HasComeIn, Hears, HearsOn, KeepsBytes};
ghost use Rattle.job_fetch.specs.Hearing.{LeadsTo, RestsOn, Touches, WhoeverSaid, at_of, fetch_of, name_of};
ghost use Rattle.job_fetch.specs.declared.intake.Intake.TheVariants.{Filling as to_file};

use crate::filling::{Filling, add, finish_file, open};
use crate::intake::{Heard, Intake};
use acq_base::{Bytes, Job, ListName, NoMemory, Sum};
use acq_outside::{Disk, Fault, OutError, Word};
use update_model::{Body, Closed};

/// Takes in the next word of a method to this job: a piece goes to where the others are, and any other word ends the
/// fetch. A list's file is opened with the first piece, or at the end of a file without one; where nothing was served
/// the disk stays as it is.
///
/// What came can go on (`can`), and the piece ends within the job's limit (`fits`). Only the list's file changes
/// (`touches`), and its front that the job leaves out stays (`kept`). Whatever method said the word, with whatever count
/// of faults and mirror, what has come is that mirror's so far, and so is the answer in the end (`hears`); a fault tells
/// that count (`ends`), and any error leaves it (`dry`).
///
/// `Fault` only where the disk's count of faults rose. `NoMemory` at that word (`want`), and where a piece can't be
/// joined.
pub fn hear<D: Disk>(disk: &mut D, job: &Job, intake: Intake, word: Word) -> Result<Heard, OutError>
    requires can { CanHear job.now (D.trace disk.old) intake }
    requires begin { CanBegin job.now }
    requires fits { IsWithinLimit (fetch_of job.now intake) word }

    ensures frame { StaysCounting OutError.Fault D.Disk disk.old disk.new result }
    ensures want { word ≡ Word.NoMemory → result ≡ Err OutError.NoMemory }
    ensures touches { Touches word (name_of intake) (D.trace disk.old) (D.trace disk.new) }
    ensures kept { OnOk result (KeepsBytes (name_of intake) job.now.from (D.trace disk.old) (D.trace disk.new)) }
    ensures leads { IfOk result (LeadsTo job.now intake word (D.trace disk.new)) }

    ensures ends { WhoeverSaid (fetch_of job.now intake) word
        (λ before after. IfOk result (Ends before after intake (D.trace disk.new))) }
    ensures dry { WhoeverSaid (fetch_of job.now intake) word (λ before after. OnErr result (after ≡ before)) }
    ensures hears { HearsOn job.now (D.trace disk.old) intake word
        (λ world part. IfOk result (Hears world part job.now intake (D.trace disk.new))) }
{
    prove!(job.from <= job.max);
    match word {
        Word::Piece { at: _, bytes } => {
            let next = append(disk, job, intake, &bytes)?;
            Ok(Heard::More(next))
        }
        Word::Done { size: _ } => {
            let body = end(disk, job, intake)?;
            Ok(Heard::Last(Closed::Served(body)))
        }
        Word::Not(end) => Ok(Heard::Last(Closed::Not(end))),
        Word::NoMemory => Err(OutError::NoMemory),
    }
}

/// Adds a piece.
fn append<D: Disk>(
    disk: &mut D,
    job: &Job,
    intake: Intake,
    piece: &Bytes,
) -> Result<Intake, OutError>
    requires can { CanHear job.now (D.trace disk.old) intake }
    requires fits { at_of job.now intake + length piece.now ≤ job.now.max }
    requires limit { job.now.max < 2 ^ 64 }

    ensures frame { StaysCounting OutError.Fault D.Disk disk.old disk.new result }
    ensures touches { ChangesFile (name_of intake) (D.trace disk.old) (D.trace disk.new) }
    ensures kept { OnOk result (KeepsBytes (name_of intake) job.now.from (D.trace disk.old) (D.trace disk.new)) }
    ensures name { IfOk result (λ next. name_of next ≡ name_of intake) }
    ensures at { IfOk result (λ next. at_of job.now next ≡ at_of job.now intake + length piece.now) }
    ensures can { IfOk result (CanHear job.now (D.trace disk.new)) }
    ensures come { (world : Option MirrorMap) → (part : List ℕ)
        → IfSome world (λ entries. IsPieceOf (answer_at entries job.now.uri) (at_of job.now intake) piece.now)
        → HasComeIn world part job.now (D.trace disk.old) intake → IfOk result (HasComeIn world part job.now (D.trace disk.new)) }
{
    match intake {
        Intake::Held(joined) => Ok(Intake::Held(join(joined, piece)?)),
        Intake::Unopened(name) => {
            let opened = begin(disk, job, &name)?;
            let filling = extend(disk, job, opened, piece)?;
            Ok(Intake::Filling(filling))
        }
        Intake::Filling(filling) => Ok(Intake::Filling(extend(disk, job, filling, piece)?)),
    }
}

/// Joins a piece to others in memory.
fn join(joined: Bytes, piece: &Bytes) -> Result<Bytes, NoMemory>
    ensures { IfOk result (λ all. all ≡ joined ++ piece.now) }
{
    let mut all = joined;
    all.append(piece.as_slice())?;
    Ok(all)
}

/// Opens a list's file behind the bytes that a job leaves out.
fn begin<D: Disk>(disk: &mut D, job: &Job, name: &ListName) -> Result<Filling, Fault>
    requires { CanOpen job.now (D.trace disk.old) name.now.0 }

    ensures frame { Stays D.Disk disk.old disk.new result }
    ensures staging { Staging name.now.0 (D.trace disk.old) (D.trace disk.new) }
    ensures kept { OnOk result (KeepsFront name.now.0 job.now.from (D.trace disk.old) (D.trace disk.new)) }
    ensures part { IfOk result (λ filling. filling.part ≡ part_of name.now.0 job.now.from) }
    ensures can { IfOk result (CanFill job.now (D.trace disk.new)) }
    ensures come { (world : Option MirrorMap) → (part : List ℕ)
        → (IsTold (D.trace disk.old) → take job.now.from (part_bytes (D.trace disk.old) name.now.0) ≡ take job.now.from part)
        → IfOk result (λ filling. HasComeIn world part job.now (D.trace disk.new) (to_file filling)) }
{
    open(disk, name, job.from)
}

/// Appends a piece to a list's file.
fn extend<D: Disk>(
    disk: &mut D,
    job: &Job,
    filling: Filling,
    piece: &Bytes,
) -> Result<Filling, Fault>
    requires can { CanFill job.now (D.trace disk.old) filling }
    requires fits { filling.part.len + length piece.now ≤ job.now.max }
    requires limit { job.now.max < 2 ^ 64 }

    ensures frame { Stays D.Disk disk.old disk.new result }
    ensures staging { Staging filling.part.name (D.trace disk.old) (D.trace disk.new) }
    ensures kept { OnOk result (KeepsFront filling.part.name job.now.from (D.trace disk.old) (D.trace disk.new)) }
    ensures part { IfOk result (λ next. next.part ≡ part_of filling.part.name (filling.part.len + length piece.now)) }
    ensures can { IfOk result (CanFill job.now (D.trace disk.new)) }
    ensures come { (world : Option MirrorMap) → (part : List ℕ)
        → IfSome world (λ entries. IsPieceOf (answer_at entries job.now.uri) filling.part.len piece.now)
        → HasComeIn world part job.now (D.trace disk.old) (to_file filling)
        → IfOk result (λ next. HasComeIn world part job.now (D.trace disk.new) (to_file next)) }
{
    let mut longer = filling;
    add(disk, &mut longer, piece.as_slice())?;
    Ok(longer)
}

/// The whole file.
fn end<D: Disk>(disk: &mut D, job: &Job, intake: Intake) -> Result<Body, Fault>
    requires { CanHear job.now (D.trace disk.old) intake }

    ensures frame { Stays D.Disk disk.old disk.new result }
    ensures touches { ChangesFile (name_of intake) (D.trace disk.old) (D.trace disk.new) }
    ensures kept { OnOk result (KeepsBytes (name_of intake) job.now.from (D.trace disk.old) (D.trace disk.new)) }
    ensures comes { IfOk result (λ body. ComesTo (name_of intake) (D.trace disk.new) (Served body)) }
    ensures all { (world : Option MirrorMap) → (part : List ℕ)
        → IfSome world (λ entries. HasSize (answer_at entries job.now.uri) job.now (at_of job.now intake))
        → HasComeIn world part job.now (D.trace disk.old) intake
        → IfOk result (λ body. RestsOn (name_of intake) (D.trace disk.new) (Served body)
        → IsAnswer world part (is_some (name_of intake)) job.now (Served body)) }
{
    match intake {
        Intake::Held(joined) => Ok(Body::Bytes(joined)),
        Intake::Unopened(name) => {
            let opened = begin(disk, job, &name)?;
            Ok(Body::Staged(shut(disk, job, opened)?))
        }
        Intake::Filling(filling) => Ok(Body::Staged(shut(disk, job, filling)?)),
    }
}

/// Makes a list's file last, and answers its sum.
fn shut<D: Disk>(disk: &mut D, job: &Job, filling: Filling) -> Result<Sum, Fault>
    requires { CanFill job.now (D.trace disk.old) filling }

    ensures frame { Stays D.Disk disk.old disk.new result }
    ensures staging { Staging filling.part.name (D.trace disk.old) (D.trace disk.new) }
    ensures kept { OnOk result (KeepsFront filling.part.name job.now.from (D.trace disk.old) (D.trace disk.new)) }
    ensures lasts { IfOk result (λ sum. IsTold (D.trace disk.new) → LastsAs filling.part.name (D.trace disk.new) sum) }
    ensures all { (world : Option MirrorMap) → (part : List ℕ)
        → IfSome world (λ entries. HasSize (answer_at entries job.now.uri) job.now filling.part.len)
        → HasComeIn world part job.now (D.trace disk.old) (to_file filling)
        → IfOk result (λ sum. IsTold (D.trace disk.new) → IsAnswer world part true job.now (Served (Staged sum))) }
{
    let _job = job;
    finish_file(disk, filling)
}
