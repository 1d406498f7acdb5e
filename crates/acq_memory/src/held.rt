//! The files of a disk or of written files in memory as a sorted map, what each change does to them, and what a read of
//! bytes in memory gives.
ghost use Rattle.std.specs.Prelude.{◌≡◌, ◌≤◌, length, min, take, drop, None, Some, IfOk, OnOk, OnErr};
ghost use Rattle.acq_outside.specs.Disk.{IsNames, IsRead, spliced, with_file, after_write, after_cut, after_rename};
ghost use Rattle.acq_outside.specs.History.{start_files, after_change};
ghost use Rattle.acq_memory.specs.Held.{files_in};

use acq_base::{Bytes, NoMemory, Row, Text, TryCopy};
use acq_outside::DiskCall;
use std::alloc::Global;
use std::collections::BTreeMap;

/// The files by name.
pub type Held = BTreeMap<Text, Bytes>;

/// The files of these rows.
pub fn held_files(alloc: Global, rows: &[(Text, Bytes)]) -> Result<Held, NoMemory>
    ensures { IfOk result (λ held. files_in held ≡ start_files rows.now) }
{
    let mut held = BTreeMap::new(alloc);
    let mut at = rows.len();
    while at > 0 {
        at -= 1;
        let row = &rows[at];
        put(&mut held, row.0.copy(alloc)?, row.1.copy(alloc)?)?;
    }
    Ok(held)
}

/// Puts a content under a name, in place of what is there. Without memory nothing is changed.
#[tactic(auto, using(crate::proofs::HeldFiles::updated))]
pub fn put(held: &mut Held, name: Text, content: Bytes) -> Result<(), NoMemory>
    ensures ok { OnOk result (files_in held.new ≡ with_file (files_in held.old) name (Some content)) }
    ensures err { OnErr result (files_in held.new ≡ files_in held.old) }
{
    held.insert(name, content)?;
    Ok(())
}

/// All names, sorted by bytes.
pub fn list_names(alloc: Global, held: &Held) -> Result<Row<Text>, NoMemory>
    ensures { IfOk result (IsNames (files_in held.now)) }
{
    let mut names = Row::new(alloc);
    for name in held.keys() {
        names.push(name.copy(alloc)?)?;
    }
    Ok(names)
}

/// Does to the files what a change says. Without memory nothing is changed.
pub fn carry_out(alloc: Global, held: &mut Held, change: &DiskCall) -> Result<(), NoMemory>
    ensures ok { OnOk result (files_in held.new ≡ after_change (files_in held.old) change.now) }
    ensures err { OnErr result (files_in held.new ≡ files_in held.old) }
{
    match change {
        DiskCall::Write { name, at, bytes } => write_in(alloc, held, name, *at, bytes.as_slice()),
        DiskCall::Cut { name, len } => cut_in(alloc, held, name, *len),
        DiskCall::Rename { from, to } => rename_in(alloc, held, from, to),
        DiskCall::Remove(name) => {
            remove_in(held, name);
            Ok(())
        }
        DiskCall::Sync(_) | DiskCall::SyncNames => Ok(()),
    }
}

#[tactic(auto, using(acq_outside::proofs::FileMaps::same_content))]
fn write_in(
    alloc: Global,
    held: &mut Held,
    name: &Text,
    at: u64,
    bytes: &[u8],
) -> Result<(), NoMemory>
    ensures ok { OnOk result (files_in held.new ≡ after_write (files_in held.old) name.now at bytes.now) }
    ensures err { OnErr result (files_in held.new ≡ files_in held.old) }
{
    let content = match held.get(name) {
        Some(content) => spliced(alloc, content.as_slice(), at, bytes)?,
        None => return Ok(()),
    };
    put(held, name.copy(alloc)?, content)
}

fn cut_in(alloc: Global, held: &mut Held, name: &Text, len: u64) -> Result<(), NoMemory>
    ensures ok { OnOk result (files_in held.new ≡ after_cut (files_in held.old) name.now len) }
    ensures err { OnErr result (files_in held.new ≡ files_in held.old) }
{
    let content = match held.get(name) {
        Some(content) => front(alloc, content.as_slice(), len)?,
        None => Bytes::new(alloc),
    };
    put(held, name.copy(alloc)?, content)
}

#[tactic(auto, using(crate::proofs::HeldFiles::not_moved))]
fn rename_in(alloc: Global, held: &mut Held, from: &Text, to: &Text) -> Result<(), NoMemory>
    ensures ok { OnOk result (files_in held.new ≡ after_rename (files_in held.old) from.now to.now) }
    ensures err { OnErr result (files_in held.new ≡ files_in held.old) }
{
    let content = match held.get(from) {
        Some(content) => content.copy(alloc)?,
        None => return Ok(()),
    };
    put(held, to.copy(alloc)?, content)?;
    if from != to {
        remove_in(held, from);
    }
    Ok(())
}

#[tactic(auto, using(crate::proofs::HeldFiles::updated))]
fn remove_in(held: &mut Held, name: &Text)
    ensures { files_in held.new ≡ with_file (files_in held.old) name.now None }
{
    held.remove(name);
}

/// The content with bytes written at a place within it or at its end.
pub fn spliced(alloc: Global, content: &[u8], at: u64, bytes: &[u8]) -> Result<Bytes, NoMemory>
    ensures { IfOk result (λ new. new ≡ spliced content.now at bytes.now) }
{
    let start = (at as usize).min(content.len());
    let end = start.saturating_add(bytes.len()).min(content.len());
    let mut new = Vec::new(alloc);
    new.extend_from_slice(content.split_at(start).0)?;
    new.extend_from_slice(bytes)?;
    new.extend_from_slice(content.split_at(end).1)?;
    Ok(Bytes::from(new))
}

/// At most the first `len` bytes.
pub fn front(alloc: Global, content: &[u8], len: u64) -> Result<Bytes, NoMemory>
    ensures { IfOk result (λ new. new ≡ take len content.now) }
{
    let end = (len as usize).min(content.len());
    Ok(Bytes::from(Vec::from_slice(alloc, content.split_at(end).0)?))
}

/// Reads bytes of a content into the front of `out`, as many as are there and find room, and answers how many.
pub fn read_from(content: &[u8], at: u64, out: &mut [u8]) -> usize
    ensures within { result ≤ length out.old }
    ensures most { result ≡ min (length (drop at content.now)) (length out.old) }
    ensures read { IsRead (Some content.now) at result out.old out.new }
{
    let start = (at as usize).min(content.len());
    let rest = content.split_at(start).1;
    let n = rest.len().min(out.len());
    out[..n].copy_from_slice(rest.split_at(n).0);
    n
}
