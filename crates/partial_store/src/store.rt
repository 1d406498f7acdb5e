//! The calls on lists on their way. None takes memory.

ghost use Rattle.std.specs.Prelude.{◌≡◌, ◌+◌, ◌<◌, ◌≤◌, ◌^◌, ◌++◌, Some, take, length, IfOk, OnOk, OnErr};
ghost use Rattle.acq_outside.specs.Crash.{Goes};
ghost use Rattle.acq_outside.specs.Disk.{IsRead};
ghost use Rattle.acq_outside.specs.Stays.{Reads, Stays};
ghost use Rattle.acq_outside.specs.States.{IsTold, Since, IsNow};
ghost use Rattle.acq_outside.specs.declared.change.DiskCall.TheVariants.{Cut, Sync, Write};
ghost use Rattle.journal_model.specs.Names.{IsPutName, partial};
ghost use Rattle.journal_model.specs.Rest.{IsPartSynced, IsPartThere, KeepsOtherFiles, KeptAtRestSince, part_bytes, size_below};
ghost use Rattle.partial_store.specs.Refinement.{part_of};

use crate::Part;
use acq_base::ListName;
use acq_outside::{Disk, Fault};
use journal_model::PartialName;

/// Begins a list's file, or goes on with the first `keep` bytes of the one that is there; an absent one counts as empty.
///
/// It has at least `keep` bytes. `Fault` only where the disk's count of faults rose; the file may then have been cut, or
/// made.
pub fn begin<D: Disk>(disk: &mut D, name: &ListName, keep: u64) -> Result<Part, Fault>
    requires name { IsPutName name.now.0 }
    requires keep { IsTold (D.trace disk.old) → keep ≤ length (part_bytes (D.trace disk.old) name.now.0) }

    ensures frame { Stays D.Disk disk.old disk.new result }

    ensures part { IfOk result (λ part. part ≡ part_of name.now.0 keep) }

    ensures step { Goes (Cut (partial name.now.0) keep) (D.trace disk.old) (D.trace disk.new) result }
    ensures moments { Since (D.trace disk.old) (D.trace disk.new) (KeptAtRestSince (D.trace disk.old)) }
    ensures others { KeepsOtherFiles name.now.0 (D.trace disk.old) (D.trace disk.new) }
    ensures there { OnOk result (IsNow (IsPartThere name.now.0) (D.trace disk.new)) }
    ensures bytes { OnOk result (IsTold (D.trace disk.new)
        → part_bytes (D.trace disk.new) name.now.0 ≡ take keep (part_bytes (D.trace disk.old) name.now.0)) }
{
    let path = PartialName::new(name.0.as_bytes());
    disk.cut(path.as_bytes(), keep)?;
    Ok(Part { path, len: keep })
}

/// Appends a piece to a list's file. The file is there and as long as `begin` and the pieces put since have made it.
///
/// `Fault` only where the disk's count of faults rose; the part is then as it was, and the file may end in any part of the
/// piece.
pub fn put<D: Disk>(disk: &mut D, part: &mut Part, piece: &[u8]) -> Result<(), Fault>
    requires there { IsNow (IsPartThere part.old.name) (D.trace disk.old) }
    requires len { IsTold (D.trace disk.old) → length (part_bytes (D.trace disk.old) part.old.name) ≡ part.old.len }
    requires room { part.old.len + length piece.now < 2 ^ 64 }

    ensures frame { Stays D.Disk disk.old disk.new result }
    ensures unchanged { OnErr result (part.new ≡ part.old) }

    ensures part { OnOk result (part.new ≡ part_of part.old.name (part.old.len + length piece.now)) }

    ensures step { Goes (Write (partial part.old.name) part.old.len piece.now) (D.trace disk.old) (D.trace disk.new) result }
    ensures moments { Since (D.trace disk.old) (D.trace disk.new) (KeptAtRestSince (D.trace disk.old)) }
    ensures others { KeepsOtherFiles part.old.name (D.trace disk.old) (D.trace disk.new) }
    ensures there { OnOk result (IsNow (IsPartThere part.old.name) (D.trace disk.new)) }
    ensures bytes { OnOk result (IsTold (D.trace disk.new)
        → part_bytes (D.trace disk.new) part.old.name ≡ part_bytes (D.trace disk.old) part.old.name ++ piece.now) }
{
    disk.write_at(part.path.as_bytes(), part.len, piece)?;
    part.len += piece.len() as u64;
    Ok(())
}

/// Makes a list's file last, and answers its size in bytes. The file is there and as long as `begin` and the pieces put
/// since have made it.
///
/// `Fault` only where the disk's count of faults rose.
pub fn finish<D: Disk>(disk: &mut D, part: Part) -> Result<u64, Fault>
    requires there { IsNow (IsPartThere part.name) (D.trace disk.old) }
    requires len { IsTold (D.trace disk.old) → length (part_bytes (D.trace disk.old) part.name) ≡ part.len }
    ensures frame { Stays D.Disk disk.old disk.new result }
    ensures step { Goes (Sync (partial part.name)) (D.trace disk.old) (D.trace disk.new) result }
    ensures moments { Since (D.trace disk.old) (D.trace disk.new) (KeptAtRestSince (D.trace disk.old)) }
    ensures others { KeepsOtherFiles part.name (D.trace disk.old) (D.trace disk.new) }
    ensures synced { OnOk result (IsNow (IsPartSynced part.name (part_bytes (D.trace disk.old) part.name)) (D.trace disk.new)) }
    ensures size { IfOk result (λ size. size ≡ part.len) }
{
    disk.sync(part.path.as_bytes())?;
    Ok(part.len)
}

/// The size in bytes of a list's file where it is below `max`, from which a fetch may go on, and else 0; 0 too where there
/// is none.
///
/// `Fault` only where the disk's count of faults rose.
pub fn resume_from<D: Disk>(disk: &mut D, name: &ListName, max: u64) -> Result<u64, Fault>
    requires { IsPutName name.now.0 }
    ensures frame { Reads D.Disk disk.old disk.new result }
    ensures size { IsTold (D.trace disk.old) → IfOk result (λ size. size ≡ size_below max (length (part_bytes (D.trace disk.old) name.now.0))) }
{
    let path = PartialName::new(name.0.as_bytes());
    match disk.size(path.as_bytes())? {
        Some(size) if size < max => Ok(size),
        _ => Ok(0),
    }
}

/// Reads bytes of a list's file into the front of `out` and answers how many: 0 only at or past its end, or for an empty
/// `out`.
///
/// `Fault` only where the disk's count of faults rose.
pub fn read_part<D: Disk>(
    disk: &mut D,
    name: &ListName,
    at: u64,
    out: &mut [u8],
) -> Result<usize, Fault>
    requires { IsPutName name.now.0 }
    ensures frame { Reads D.Disk disk.old disk.new result }
    ensures within { IfOk result (λ n. n ≤ length out.old) }
    ensures told { IsTold (D.trace disk.old) → IfOk result (λ n. IsRead (Some (part_bytes (D.trace disk.old) name.now.0)) at n out.old out.new) }
{
    let path = PartialName::new(name.0.as_bytes());
    disk.read_at(path.as_bytes(), at, out)
}
