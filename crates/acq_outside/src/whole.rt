//! A file of any disk, written or read as a whole by the calls of its trait alone.
ghost use Rattle.std.specs.Prelude.{◌≡◌, ◌≢◌, ℕ, ◌+◌, ◌<◌, ◌≤◌, ◌^◌, List, [], length, Some, IfOk, OnOk, IsTrue, unwrap_or};
ghost use Rattle.acq_outside.specs.Stays.{ReadsCounting, Stays};
ghost use Rattle.acq_outside.specs.Disk.{IsName, with_file};
ghost use Rattle.acq_outside.specs.Whole.{GrowsTo};

use crate::{Disk, Fault, OutError};
use acq_base::Bytes;
use std::alloc::Global;

/// How many bytes one read of a whole file asks for.
const PIECE: usize = 65_536;

/// Puts these bytes in place of a file's content as reads give it; an absent file is made. A fault comes only where the
/// disk's count of faults rose.
///
/// After a fault the file may be as before, absent, or hold anything. Other files stay in any case. The file is synced
/// last, but no clause says so: the clauses speak of what reads give, and not yet of what lasts.
#[tactic(auto, using(crate::proofs::WholeFiles::emptied))]
pub fn write_whole<D: Disk>(disk: &mut D, name: &[u8], bytes: &[u8]) -> Result<(), Fault>
    requires { IsName name.now }
    ensures frame { Stays D.Disk disk.old disk.new result }
    ensures ok { IsTrue (D.tells disk.old) → OnOk result (D.files disk.new ≡ with_file (D.files disk.old) name.now (Some bytes.now)) }
    ensures others { IsTrue (D.tells disk.old) → (other : List ℕ) → other ≢ name.now → D.files disk.new other ≡ D.files disk.old other }
{
    disk.cut(name, 0)?;
    if bytes.is_empty() {
        disk.sync(name)?;
        return Ok(());
    }
    disk.write_at(name, 0, bytes)?;
    disk.sync(name)?;
    Ok(())
}

/// A file's whole content, read in pieces, or `None` where there is no such file. A fault comes only where the disk's
/// count of faults rose.
pub fn read_whole<D: Disk>(
    alloc: Global,
    disk: &mut D,
    name: &[u8],
) -> Result<Option<Bytes>, OutError>
    requires { IsName name.now }
    ensures frame { ReadsCounting OutError.Fault D.Disk disk.old disk.new result }
    ensures told { IsTrue (D.tells disk.old) → IfOk result (λ file. file ≡ D.files disk.old name.now) }
{
    match disk.size(name)? {
        Some(size) => Ok(Some(read_pieces(alloc, disk, name, size)?)),
        None => Ok(None),
    }
}

/// Reads pieces until there are no more, into room for so many bytes at first.
fn read_pieces<D: Disk>(
    alloc: Global,
    disk: &mut D,
    name: &[u8],
    size: u64,
) -> Result<Bytes, OutError>
    requires { IsName name.now }
    ensures frame { ReadsCounting OutError.Fault D.Disk disk.old disk.new result }
    ensures told { IsTrue (D.tells disk.old) → IfOk result (λ bytes. bytes ≡ unwrap_or (D.files disk.old name.now) []) }
{
    let mut content = Vec::new(alloc);
    content.reserve_exact(size as usize)?;
    let mut piece = vec![in alloc; 0u8; PIECE]?;
    read_through(disk, name, content, piece.as_mut_slice())
}

/// Reads pieces of the buffer's size until there are no more. `empty` is what they are appended to.
fn read_through<D: Disk>(
    disk: &mut D,
    name: &[u8],
    empty: Vec<u8>,
    piece: &mut [u8],
) -> Result<Bytes, OutError>
    requires name { IsName name.now }
    requires empty { empty.items ≡ [] }
    requires room { 1 ≤ length piece.old }
    ensures frame { ReadsCounting OutError.Fault D.Disk disk.old disk.new result }
    ensures told { IsTrue (D.tells disk.old) → IfOk result (λ bytes. bytes ≡ unwrap_or (D.files disk.old name.now) []) }
{
    let mut content = empty;
    loop {
        let n = read_piece(disk, name, &mut content, piece)?;
        if n == 0 {
            return Ok(Bytes::from(content));
        }
    }
}

/// Appends what one read gives behind the content so far, and answers how many bytes it gave.
#[tactic(auto, using(crate::proofs::WholeFiles::grown))]
fn read_piece<D: Disk>(
    disk: &mut D,
    name: &[u8],
    content: &mut Vec<u8>,
    piece: &mut [u8],
) -> Result<usize, OutError>
    requires name { IsName name.now }
    requires room { 1 ≤ length piece.old }
    ensures frame { ReadsCounting OutError.Fault D.Disk disk.old disk.new result }
    ensures small { length content.old.items < 2 ^ 64 }
    ensures longer { IfOk result (λ n. length content.new.items ≡ length content.old.items + n) }
    ensures told { IsTrue (D.tells disk.old) → IfOk result (λ n. GrowsTo (unwrap_or (D.files disk.old name.now) []) n content.old.items content.new.items) }
{
    let at = content.len() as u64;
    let n = disk.read_at(name, at, piece)?;
    content.extend_from_slice(&piece[..n])?;
    Ok(n)
}
