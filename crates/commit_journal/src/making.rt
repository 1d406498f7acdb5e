//! A new journal is made beside one that isn't open, or where there is none. It is never written in place, since a byte
//! that is being written may stand as 1 in what a crash leaves.
ghost use Rattle.std.specs.Prelude.{◌≡◌, [], ◌∷◌, OnOk, IsTrue};
ghost use Rattle.acq_outside.specs.Stays.{Stays};
ghost use Rattle.acq_outside.specs.Disk.{after_cut, after_write, after_rename};
ghost use Rattle.acq_outside.specs.States.{IsNow};
ghost use Rattle.journal_model.specs.Names.{journal, new_journal};
ghost use Rattle.journal_model.specs.Rest.{IsIdle};
ghost use Rattle.commit_journal.specs.Phases.{HasNoOpenGate, HasNewJournal, HasNewJournalSynced, IsNamed, IsOfMaking, made_files};
ghost use Rattle.commit_journal.specs.Moves.{Recovering};

use acq_outside::{Disk, Fault};

fn cut_beside<D: Disk>(disk: &mut D) -> Result<(), Fault>
    requires { IsNow HasNoOpenGate (D.trace disk.old) }
    ensures frame { Stays D.Disk disk.old disk.new result }
    ensures told { IsTrue (D.tells disk.old) → OnOk result (D.files disk.new ≡ after_cut (D.files disk.old) new_journal 0) }
    ensures moves { Recovering IsOfMaking (HasNewJournal []) D.Disk disk.old disk.new result }
{
    disk.cut(b"partial/journal".as_slice(), 0)
}

fn write_beside<D: Disk>(disk: &mut D) -> Result<(), Fault>
    requires { IsNow (HasNewJournal []) (D.trace disk.old) }
    ensures frame { Stays D.Disk disk.old disk.new result }
    ensures told { IsTrue (D.tells disk.old) → OnOk result (D.files disk.new ≡ after_write (D.files disk.old) new_journal 0 (0 ∷ [])) }
    ensures moves { Recovering IsOfMaking (HasNewJournal (0 ∷ [])) D.Disk disk.old disk.new result }
{
    disk.write_at(b"partial/journal".as_slice(), 0, &[0])
}

fn sync_beside<D: Disk>(disk: &mut D) -> Result<(), Fault>
    requires { IsNow (HasNewJournal (0 ∷ [])) (D.trace disk.old) }
    ensures frame { Stays D.Disk disk.old disk.new result }
    ensures same { D.files disk.new ≡ D.files disk.old }
    ensures moves { Recovering IsOfMaking HasNewJournalSynced D.Disk disk.old disk.new result }
{
    disk.sync(b"partial/journal".as_slice())
}

/// Gives the new file the journal's name.
fn name_it<D: Disk>(disk: &mut D) -> Result<(), Fault>
    requires { IsNow HasNewJournalSynced (D.trace disk.old) }
    ensures frame { Stays D.Disk disk.old disk.new result }
    ensures told { IsTrue (D.tells disk.old) → OnOk result (D.files disk.new ≡ after_rename (D.files disk.old) new_journal journal) }
    ensures moves { Recovering IsOfMaking IsNamed D.Disk disk.old disk.new result }
{
    disk.rename(b"partial/journal".as_slice(), b"journal".as_slice())
}

fn name_lastingly<D: Disk>(disk: &mut D) -> Result<(), Fault>
    requires { IsNow IsNamed (D.trace disk.old) }
    ensures frame { Stays D.Disk disk.old disk.new result }
    ensures same { D.files disk.new ≡ D.files disk.old }
    ensures moves { Recovering IsOfMaking IsIdle D.Disk disk.old disk.new result }
{
    disk.sync_names()
}

/// Makes the new file, with the gate shut.
#[tactic(auto, using(crate::proofs::Recovers::onwards, crate::proofs::Others::others_on))]
fn make_beside<D: Disk>(disk: &mut D) -> Result<(), Fault>
    requires { IsNow HasNoOpenGate (D.trace disk.old) }
    ensures frame { Stays D.Disk disk.old disk.new result }
    ensures told { IsTrue (D.tells disk.old)
        → OnOk result (D.files disk.new ≡ after_write (after_cut (D.files disk.old) new_journal 0) new_journal 0 (0 ∷ [])) }
    ensures moves { Recovering IsOfMaking HasNewJournalSynced D.Disk disk.old disk.new result }
{
    cut_beside(disk)?;
    write_beside(disk)?;
    sync_beside(disk)
}

/// Makes a new journal whose gate is shut.
#[tactic(auto, using(crate::proofs::Recovers::onwards, crate::proofs::Others::others_on))]
pub fn make_new<D: Disk>(disk: &mut D) -> Result<(), Fault>
    requires { IsNow HasNoOpenGate (D.trace disk.old) }
    ensures frame { Stays D.Disk disk.old disk.new result }
    ensures told { IsTrue (D.tells disk.old) → OnOk result (D.files disk.new ≡ made_files (D.files disk.old)) }
    ensures moves { Recovering IsOfMaking IsIdle D.Disk disk.old disk.new result }
{
    make_beside(disk)?;
    name_it(disk)?;
    name_lastingly(disk)
}
