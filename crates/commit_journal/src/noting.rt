//! A record is written behind the shut gate.
ghost use Rattle.std.specs.Prelude.{[], ◌∷◌};
ghost use Rattle.acq_outside.specs.Stays.{Stays};
ghost use Rattle.acq_outside.specs.States.{IsNow};
ghost use Rattle.journal_model.specs.Rest.{IsIdle};
ghost use Rattle.commit_journal.specs.Laying.{IsIdleUnmoved, HasRecordWritten, HasRecordSynced};
ghost use Rattle.commit_journal.specs.Moves.{Noting};

use acq_outside::{Disk, Fault};

/// Makes the names of all that is on its way lasting.
fn sync_journal_names<D: Disk>(disk: &mut D) -> Result<(), Fault>
    requires { IsNow IsIdle (D.trace disk.old) }
    ensures frame { Stays D.Disk disk.old disk.new result }
    ensures moves { Noting IsIdleUnmoved D.Disk disk.old disk.new result }
{
    disk.sync_names()
}

/// Takes away what stands behind the gate.
fn cut_journal<D: Disk>(disk: &mut D) -> Result<(), Fault>
    requires { IsNow IsIdleUnmoved (D.trace disk.old) }
    ensures frame { Stays D.Disk disk.old disk.new result }
    ensures moves { Noting (HasRecordWritten (0 ∷ [])) D.Disk disk.old disk.new result }
{
    disk.cut(b"journal".as_slice(), 1)
}

fn write_journal<D: Disk>(disk: &mut D, body: &[u8]) -> Result<(), Fault>
    requires { IsNow (HasRecordWritten (0 ∷ [])) (D.trace disk.old) }
    ensures frame { Stays D.Disk disk.old disk.new result }
    ensures moves { Noting (HasRecordWritten (0 ∷ body.now)) D.Disk disk.old disk.new result }
{
    disk.write_at(b"journal".as_slice(), 1, body)
}

fn sync_journal<D: Disk>(disk: &mut D, body: &[u8]) -> Result<(), Fault>
    requires { IsNow (HasRecordWritten (0 ∷ body.now)) (D.trace disk.old) }
    ensures frame { Stays D.Disk disk.old disk.new result }
    ensures moves { Noting (HasRecordSynced (0 ∷ body.now)) D.Disk disk.old disk.new result }
{
    disk.sync(b"journal".as_slice())
}

/// Writes a body in place of the one behind the gate, lastingly.
#[tactic(auto, using(crate::proofs::Fills::rests_on, crate::proofs::Others::others_on))]
fn write_body<D: Disk>(disk: &mut D, body: &[u8]) -> Result<(), Fault>
    requires { IsNow IsIdleUnmoved (D.trace disk.old) }
    ensures frame { Stays D.Disk disk.old disk.new result }
    ensures moves { Noting (HasRecordSynced (0 ∷ body.now)) D.Disk disk.old disk.new result }
{
    cut_journal(disk)?;
    write_journal(disk, body)?;
    sync_journal(disk, body)
}

/// Makes the names of all that is on its way lasting, and writes a record's bytes behind the shut gate.
#[tactic(auto, using(crate::proofs::Fills::rests_on, crate::proofs::Others::others_on))]
pub fn write_record<D: Disk>(disk: &mut D, body: &[u8]) -> Result<(), Fault>
    requires { IsNow IsIdle (D.trace disk.old) }
    ensures frame { Stays D.Disk disk.old disk.new result }
    ensures moves { Noting (HasRecordSynced (0 ∷ body.now)) D.Disk disk.old disk.new result }
{
    sync_journal_names(disk)?;
    write_body(disk, body)
}
