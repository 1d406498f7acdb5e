//! A list's file under `partial/` while it is filled, with the sum of what it holds.
ghost use Rattle.std.specs.Prelude.{◌≡◌, ◌+◌, ◌++◌, ◌<◌, ◌≤◌, ◌^◌, length, take, IfOk, OnOk};
ghost use Rattle.acq_base.specs.Sum.{sum_of};
ghost use Rattle.acq_outside.specs.Stays.{Stays};
ghost use Rattle.acq_outside.specs.States.{IsTold, Since};
ghost use Rattle.hash_gate.specs.Pieces.{HasSummed, size_so_far};
ghost use Rattle.journal_model.specs.Names.{IsPutName, partial};
ghost use Rattle.journal_model.specs.Rest.{KeepsOtherFiles, KeptAtRestSince, part_bytes};
ghost use Rattle.partial_store.specs.Refinement.{part_of};
ghost use Rattle.job_fetch.specs.Fetched.{LastsAs, Staging};
ghost use Rattle.job_fetch.specs.Others.{OthersLeftSince};
ghost use Rattle.job_fetch.specs.Pieces.{IsFilling, SumsOn};

use acq_base::{ListName, Sum};
use acq_outside::{Disk, Fault};
use hash_gate::Total;
use partial_store::{Part, begin, finish, put, read_part};

/// How many bytes one read of what is at hand asks for.
const PIECE: usize = 8_192;

/// A list's file as it is being filled.
#[derive(Drop)]
pub struct Filling {
    pub part: Part,
    /// Of all that the file holds.
    pub total: Total,
}

/// Begins a list's file, or goes on behind the first `keep` bytes of the one that is there, which are summed.
pub fn open<D: Disk>(disk: &mut D, name: &ListName, keep: u64) -> Result<Filling, Fault>
    requires name { IsPutName name.now.0 }
    requires keep { IsTold (D.trace disk.old) → keep ≤ length (part_bytes (D.trace disk.old) name.now.0) }
    ensures frame { Stays D.Disk disk.old disk.new result }
    ensures staging { Staging name.now.0 (D.trace disk.old) (D.trace disk.new) }
    ensures part { IfOk result (λ filling. filling.part ≡ part_of name.now.0 keep) }
    ensures filling { IfOk result (IsFilling (D.trace disk.new)) }
    ensures bytes { OnOk result (IsTold (D.trace disk.new)
        → part_bytes (D.trace disk.new) name.now.0 ≡ take keep (part_bytes (D.trace disk.old) name.now.0)) }
{
    let part = begin(disk, name, keep)?;
    let total = sum_front(disk, name, keep)?;
    Ok(Filling { part, total })
}

/// The sum of the first `keep` bytes of a list's file, which are all of it.
fn sum_front<D: Disk>(disk: &mut D, name: &ListName, keep: u64) -> Result<Total, Fault>
    requires name { IsPutName name.now.0 }
    ensures frame { Stays D.Disk disk.old disk.new result }
    ensures still { D.trace disk.new ≡ D.trace disk.old }
    ensures small { IfOk result (λ total. size_so_far total ≤ keep) }
    ensures sum { IfOk result (λ total. IsTold (D.trace disk.old)
        → length (part_bytes (D.trace disk.old) name.now.0) ≡ keep → HasSummed total (part_bytes (D.trace disk.old) name.now.0)) }
{
    let mut total = Total::new();
    let mut at: u64 = 0;
    while at < keep {
        let n = sum_piece(disk, name, at, keep - at, &mut total)?;
        if n == 0 {
            // A disk that tells nothing may have fewer bytes than it said.
            break;
        }
        at += n;
    }
    Ok(total)
}

/// Feeds the sum what one read of at most `most` bytes gives, and answers how many bytes these are.
fn sum_piece<D: Disk>(
    disk: &mut D,
    name: &ListName,
    at: u64,
    most: u64,
    total: &mut Total,
) -> Result<u64, Fault>
    requires name { IsPutName name.now.0 }
    requires some { 1 ≤ most }
    requires room { size_so_far total.old + most < 2 ^ 64 }
    ensures frame { Stays D.Disk disk.old disk.new result }
    ensures still { D.trace disk.new ≡ D.trace disk.old }
    ensures within { IfOk result (λ n. n ≤ most) }
    ensures size { IfOk result (λ n. size_so_far total.new ≡ size_so_far total.old + n) }
    ensures sums { IsTold (D.trace disk.old) → IfOk result (λ n. SumsOn (part_bytes (D.trace disk.old) name.now.0) at n total.old total.new) }
{
    let mut piece = [0u8; PIECE];
    let want = most.min(PIECE as u64) as usize;
    let n = read_part(disk, name, at, &mut piece[..want])?;
    total.feed(&piece[..n]);
    Ok(n as u64)
}

/// Appends a piece. The file with it is shorter than 2^64 bytes.
pub fn add<D: Disk>(disk: &mut D, filling: &mut Filling, piece: &[u8]) -> Result<(), Fault>
    requires filling { IsFilling (D.trace disk.old) filling.old }
    requires room { filling.old.part.len + length piece.now < 2 ^ 64 }
    ensures frame { Stays D.Disk disk.old disk.new result }
    ensures staging { Staging filling.old.part.name (D.trace disk.old) (D.trace disk.new) }
    ensures part { OnOk result (filling.new.part ≡ part_of filling.old.part.name (filling.old.part.len + length piece.now)) }
    ensures filling { OnOk result (IsFilling (D.trace disk.new) filling.new) }
    ensures bytes { OnOk result (IsTold (D.trace disk.new)
        → part_bytes (D.trace disk.new) filling.old.part.name ≡ part_bytes (D.trace disk.old) filling.old.part.name ++ piece.now) }
{
    put(disk, &mut filling.part, piece)?;
    filling.total.feed(piece);
    Ok(())
}

/// Makes the file last, and answers its sum.
pub fn finish_file<D: Disk>(disk: &mut D, filling: Filling) -> Result<Sum, Fault>
    requires { IsFilling (D.trace disk.old) filling }
    ensures frame { Stays D.Disk disk.old disk.new result }
    ensures moments { Since (D.trace disk.old) (D.trace disk.new) (KeptAtRestSince (D.trace disk.old)) }
    ensures others { KeepsOtherFiles filling.part.name (D.trace disk.old) (D.trace disk.new) }
    ensures only { Since (D.trace disk.old) (D.trace disk.new) (OthersLeftSince (partial filling.part.name) (D.trace disk.old)) }
    ensures lasts { IfOk result (λ sum. IsTold (D.trace disk.new) → LastsAs filling.part.name (D.trace disk.new) sum) }
    ensures sum { IfOk result (λ sum. IsTold (D.trace disk.old) → sum ≡ sum_of (part_bytes (D.trace disk.old) filling.part.name)) }
    ensures bytes { OnOk result (IsTold (D.trace disk.new)
        → part_bytes (D.trace disk.new) filling.part.name ≡ part_bytes (D.trace disk.old) filling.part.name) }
{
    let Filling { part, total } = filling;
    let _size = finish(disk, part)?;
    Ok(total.sum())
}
