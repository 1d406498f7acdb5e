//! What a commit's Puts hold is laid under `partial/`.
ghost use Rattle.std.specs.Prelude.{◌≡◌, ◌+◌, ◌<◌, ◌^◌, ◌++◌, [], ◌∷◌, length, OnOk};
ghost use Rattle.acq_outside.specs.Stays.{Stays};
ghost use Rattle.acq_outside.specs.States.{IsTold, IsNow};
ghost use Rattle.journal_model.specs.Names.{IsPutName};
ghost use Rattle.journal_model.specs.Rest.{IsIdle, IsPartThere, IsPartSynced, KeepsOtherFiles, part_bytes};
ghost use Rattle.partial_store.specs.Refinement.{part_of};
ghost use Rattle.commit_journal.specs.Changes.{IsAllowed, AreStaged, all_changes};
ghost use Rattle.commit_journal.specs.Moves.{Resting, Filling, CanFill};

use crate::{Change, Content};
use acq_base::{ListName, Row};
use acq_outside::{Disk, Fault};
use partial_store::{Part, begin, finish, put};

/// Appends bytes to a list's file, where there are any.
fn put_some<D: Disk>(disk: &mut D, part: &mut Part, bytes: &[u8]) -> Result<(), Fault>
    requires there { IsNow (IsPartThere part.old.name) (D.trace disk.old) }
    requires len { IsTold (D.trace disk.old) → length (part_bytes (D.trace disk.old) part.old.name) ≡ part.old.len }
    requires room { part.old.len + length bytes.now < 2 ^ 64 }
    requires idle { IsNow IsIdle (D.trace disk.old) }

    ensures frame { Stays D.Disk disk.old disk.new result }

    ensures part { OnOk result (part.new ≡ part_of part.old.name (part.old.len + length bytes.now)) }

    ensures moves { Resting (KeepsOtherFiles part.old.name) (IsPartThere part.old.name) D.Disk disk.old disk.new result }
    ensures bytes { OnOk result (IsTold (D.trace disk.new)
        → part_bytes (D.trace disk.new) part.old.name ≡ part_bytes (D.trace disk.old) part.old.name ++ bytes.now) }
{
    if bytes.is_empty() {
        return Ok(());
    }
    put(disk, part, bytes)
}

/// Lays these bytes under the name on its way, lastingly.
fn fill<D: Disk>(disk: &mut D, name: &ListName, bytes: &[u8]) -> Result<(), Fault>
    requires name { IsPutName name.now.0 }
    requires idle { IsNow IsIdle (D.trace disk.old) }
    ensures frame { Stays D.Disk disk.old disk.new result }
    ensures moves { Resting (KeepsOtherFiles name.now.0) (IsPartSynced name.now.0 bytes.now) D.Disk disk.old disk.new result }
{
    let mut part = begin(disk, name, 0)?;
    put_some(disk, &mut part, bytes)?;
    finish(disk, part)?;
    Ok(())
}

/// Lays what one change puts, where it holds bytes.
fn fill_one<D: Disk>(disk: &mut D, change: &Change) -> Result<(), Fault>
    requires allowed { IsAllowed change.now }
    requires staged { IsNow (AreStaged (change.now ∷ [])) (D.trace disk.old) }
    requires idle { IsNow IsIdle (D.trace disk.old) }
    ensures frame { Stays D.Disk disk.old disk.new result }
    ensures fills { Filling (change.now ∷ []) D.Disk disk.old disk.new result }
{
    match change {
        Change::Put {
            name,
            content: Content::Held(bytes),
        } => fill(disk, name, bytes.as_slice()),
        _ => Ok(()),
    }
}

/// Lays what the changes of a group put.
fn fill_group<D: Disk>(disk: &mut D, changes: &[Change]) -> Result<(), Fault>
    requires { CanFill changes.now (D.trace disk.old) }
    ensures frame { Stays D.Disk disk.old disk.new result }
    ensures fills { Filling changes.now D.Disk disk.old disk.new result }
{
    for change in changes {
        fill_one(disk, change)?;
    }
    Ok(())
}

/// Lays what the changes of all groups put.
pub fn fill_all<D: Disk>(disk: &mut D, groups: &[Row<Change>]) -> Result<(), Fault>
    requires { CanFill (all_changes groups.now) (D.trace disk.old) }
    ensures frame { Stays D.Disk disk.old disk.new result }
    ensures fills { Filling (all_changes groups.now) D.Disk disk.old disk.new result }
{
    for group in groups {
        fill_group(disk, group.as_slice())?;
    }
    Ok(())
}
