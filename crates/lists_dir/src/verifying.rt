//! Whether a file is the one that a sum names. It takes no memory, and changes nothing.

ghost use Rattle.std.specs.Prelude.{◌≡◌, ◌↔◌, [], length, unwrap_or, IfOk, IsTrue, IsSomeAnd};
ghost use Rattle.acq_base.specs.Sum.{Fits};
ghost use Rattle.acq_outside.specs.Disk.{IsName};
ghost use Rattle.acq_outside.specs.Stays.{Reads};
ghost use Rattle.lists_dir.specs.Verified.{TakesOn};

use acq_base::{ListName, Sum};
use acq_outside::{Disk, Fault};
use hash_gate::{Gate, Verdict};

/// How many bytes one read asks for.
const PIECE: usize = 8_192;

/// Whether there is a file of this name, and it is the one that the sum names. It is read in pieces.
///
/// `Fault` only where the disk's count of faults rose.
pub fn verify<D: Disk>(disk: &mut D, name: &ListName, sum: &Sum) -> Result<bool, Fault>
    requires { IsName name.now.0 }
    ensures frame { Reads D.Disk disk.old disk.new result }
    ensures told { IsTrue (D.tells disk.old) → IfOk result (λ fits. IsTrue fits ↔ IsSomeAnd (D.files disk.old name.now.0) (λ bytes. Fits bytes sum.now)) }
{
    let name = name.0.as_bytes();
    match disk.size(name)? {
        Some(size) if size == sum.size => fits(disk, name, sum),
        _ => Ok(false),
    }
}

/// Whether a file of the sum's size is the one that it names.
fn fits<D: Disk>(disk: &mut D, name: &[u8], sum: &Sum) -> Result<bool, Fault>
    requires { IsName name.now }
    ensures frame { Reads D.Disk disk.old disk.new result }
    ensures told { IsTrue (D.tells disk.old) → length (unwrap_or (D.files disk.old name.now) []) ≡ sum.now.size
        → IfOk result (λ fits. IsTrue fits ↔ Fits (unwrap_or (D.files disk.old name.now) []) sum.now) }
{
    let mut gate = Gate::new(*sum);
    let mut at: u64 = 0;
    while at < sum.size {
        let n = feed_piece(disk, name, at, &mut gate)?;
        if n == 0 || n > sum.size - at {
            break;
        }
        at += n;
    }
    Ok(gate.end() == Verdict::Fits)
}

/// Feeds what one read gives, and answers how many bytes these are.
fn feed_piece<D: Disk>(disk: &mut D, name: &[u8], at: u64, gate: &mut Gate) -> Result<u64, Fault>
    requires { IsName name.now }
    ensures frame { Reads D.Disk disk.old disk.new result }
    ensures told { IsTrue (D.tells disk.old) → IfOk result (λ n. TakesOn (unwrap_or (D.files disk.old name.now) []) at n gate.old gate.new) }
{
    let mut piece = [0u8; PIECE];
    let n = disk.read_at(name, at, &mut piece)?;
    gate.feed(&piece[..n]);
    Ok(n as u64)
}
