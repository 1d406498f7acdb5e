//! An open record is carried out, and the gate shut behind it.
ghost use Rattle.std.specs.Prelude.{◌≡◌, [], OnOk, IsTrue};
ghost use Rattle.acq_outside.specs.Stays.{Stays};
ghost use Rattle.acq_outside.specs.Crash.{Goes};
ghost use Rattle.acq_outside.specs.States.{IsNow};
ghost use Rattle.journal_model.specs.Rest.{IsIdle};
ghost use Rattle.journal_model.specs.Steps.{after_step, after_steps, IsNamedStep};
ghost use Rattle.commit_journal.specs.Phases.{IsCarrying, IsDone, IsGateBeingShut, IsOfCommit, AllNamed, call_of, shut_files};
ghost use Rattle.commit_journal.specs.Moves.{Recovering};

use acq_outside::{Disk, Fault};
use journal_model::{PartialName, Step};

/// Carries out one step.
#[tactic(auto, using(crate::proofs::Turns::put_named, crate::proofs::Lists::put_told, crate::proofs::Lists::drop_told))]
fn carry_one<D: Disk>(disk: &mut D, step: &Step) -> Result<(), Fault>
    requires { IsNamedStep step.now }
    ensures frame { Stays D.Disk disk.old disk.new result }
    ensures told { IsTrue (D.tells disk.old) → OnOk result (D.files disk.new ≡ after_step (D.files disk.old) step.now) }
    ensures step { Goes (call_of step.now) (D.trace disk.old) (D.trace disk.new) result }
{
    match step {
        Step::Put(list) => {
            let partial = PartialName::new(list.as_bytes());
            disk.rename(partial.as_bytes(), list.as_bytes())
        }
        Step::Drop(list) => disk.remove(list.as_bytes()),
    }
}

/// Carries out all steps, in order.
fn carry_all<D: Disk>(disk: &mut D, steps: &[Step]) -> Result<(), Fault>
    requires named { AllNamed steps.now }
    requires open_gate { IsNow (IsCarrying steps.now []) (D.trace disk.old) }
    ensures frame { Stays D.Disk disk.old disk.new result }
    ensures told { IsTrue (D.tells disk.old) → OnOk result (D.files disk.new ≡ after_steps (D.files disk.old) steps.now) }
    ensures moves { Recovering (IsOfCommit steps.now) (IsCarrying steps.now steps.now) D.Disk disk.old disk.new result }
{
    for step in steps {
        carry_one(disk, step)?;
    }
    Ok(())
}

/// Makes the names lasting.
fn sync_renames<D: Disk>(disk: &mut D, steps: &[Step]) -> Result<(), Fault>
    requires { IsNow (IsCarrying steps.now steps.now) (D.trace disk.old) }
    ensures frame { Stays D.Disk disk.old disk.new result }
    ensures same { D.files disk.new ≡ D.files disk.old }
    ensures moves { Recovering (IsOfCommit steps.now) (IsDone steps.now) D.Disk disk.old disk.new result }
{
    disk.sync_names()
}

/// Shuts the gate.
fn write_shut_gate<D: Disk>(disk: &mut D, steps: &[Step]) -> Result<(), Fault>
    requires { IsNow (IsDone steps.now) (D.trace disk.old) }
    ensures frame { Stays D.Disk disk.old disk.new result }
    ensures told { IsTrue (D.tells disk.old) → OnOk result (D.files disk.new ≡ shut_files (D.files disk.old)) }
    ensures moves { Recovering (IsOfCommit steps.now) IsGateBeingShut D.Disk disk.old disk.new result }
{
    disk.write_at(b"journal".as_slice(), 0, &[0])
}

/// Makes the shut gate lasting.
fn sync_shut_gate<D: Disk>(disk: &mut D, steps: &[Step]) -> Result<(), Fault>
    requires { IsNow IsGateBeingShut (D.trace disk.old) }
    ensures frame { Stays D.Disk disk.old disk.new result }
    ensures same { D.files disk.new ≡ D.files disk.old }
    ensures moves { Recovering (IsOfCommit steps.now) IsIdle D.Disk disk.old disk.new result }
{
    disk.sync(b"journal".as_slice())
}

#[tactic(auto, using(crate::proofs::Recovers::onwards, crate::proofs::Others::others_on))]
fn end_record<D: Disk>(disk: &mut D, steps: &[Step]) -> Result<(), Fault>
    requires { IsNow (IsCarrying steps.now steps.now) (D.trace disk.old) }
    ensures frame { Stays D.Disk disk.old disk.new result }
    ensures told { IsTrue (D.tells disk.old) → OnOk result (D.files disk.new ≡ shut_files (D.files disk.old)) }
    ensures moves { Recovering (IsOfCommit steps.now) IsIdle D.Disk disk.old disk.new result }
{
    sync_renames(disk, steps)?;
    write_shut_gate(disk, steps)?;
    sync_shut_gate(disk, steps)
}

/// Carries out an open record and shuts the gate.
#[tactic(auto, using(crate::proofs::Recovers::onwards, crate::proofs::Others::others_on))]
pub fn recover<D: Disk>(disk: &mut D, steps: &[Step]) -> Result<(), Fault>
    requires named { AllNamed steps.now }
    requires open_gate { IsNow (IsCarrying steps.now []) (D.trace disk.old) }
    ensures frame { Stays D.Disk disk.old disk.new result }
    ensures told { IsTrue (D.tells disk.old) → OnOk result (D.files disk.new ≡ shut_files (after_steps (D.files disk.old) steps.now)) }
    ensures moves { Recovering (IsOfCommit steps.now) IsIdle D.Disk disk.old disk.new result }
{
    carry_all(disk, steps)?;
    end_record(disk, steps)
}
