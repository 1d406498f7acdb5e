//! The calls of a disk in memory done again, for what a crash may leave: its files by number, and its changes of names.
ghost use Rattle.std.specs.Prelude.{◌≡◌, ◌++◌, ◌∷◌, [], IfOk, OnOk, OnErr, Some};
ghost use Rattle.acq_outside.specs.Disk.{spliced};
ghost use Rattle.acq_outside.specs.Crash.{all_any, all_kept, on_file, after, names_of, newest, synced_rows, start_state, trace_after};
ghost use Rattle.acq_memory.specs.Replay.{file_after as file_after_call, state_of, IsAtNames, names_in};

use crate::held::{front, spliced};
use crate::name_map::rename_one;
use acq_base::{Bytes, NoMemory, Row, Text, TryCopy};
use acq_outside::{DiskCall, FileState, NameChange};
use std::alloc::Global;
use std::collections::BTreeMap;

/// A disk as its calls so far left it: its files by number, the changes of names up to the last sync of names and those
/// since, and where the names lead after them all.
#[derive(Drop)]
pub struct Replay {
    pub files: Vec<FileState>,
    pub settled: Vec<NameChange>,
    pub pending: Vec<NameChange>,
    pub names: BTreeMap<Text, usize>,
}

/// The file after a call on it.
fn file_after(alloc: Global, file: &FileState, change: &DiskCall) -> Result<FileState, NoMemory>
    ensures { IfOk result (λ after. after ≡ file_after_call file.now change.now) }
{
    match change {
        DiskCall::Write { name: _, at, bytes } => Ok(FileState {
            seen: spliced(alloc, file.seen.as_slice(), *at, bytes.as_slice())?,
            cells: opened(
                alloc,
                file.cells.as_slice(),
                (*at).min(file.seen.len() as u64),
                bytes.as_slice(),
            )?,
            least: file.least,
        }),
        DiskCall::Cut { name: _, len } => Ok(FileState {
            seen: front(alloc, file.seen.as_slice(), *len)?,
            cells: file.cells.copy(alloc)?,
            least: file.least.min(*len),
        }),
        _ => Ok(FileState {
            seen: file.seen.copy(alloc)?,
            cells: kept(alloc, file.seen.as_slice())?,
            least: file.seen.len() as u64,
        }),
    }
}

/// Cells that may be any, as many as the bytes, in place of those at a place.
#[tactic(auto, using(crate::proofs::Cells::any_length))]
fn opened(
    alloc: Global,
    cells: &[Option<u8>],
    at: u64,
    bytes: &[u8],
) -> Result<Row<Option<u8>>, NoMemory>
    ensures { IfOk result (λ new. new ≡ spliced cells.now at (all_any bytes.now)) }
{
    let any = any_row(alloc, bytes)?;
    laid_row(alloc, cells, at, any.as_slice())
}

fn laid_row(
    alloc: Global,
    cells: &[Option<u8>],
    at: u64,
    any: &[Option<u8>],
) -> Result<Row<Option<u8>>, NoMemory>
    ensures { IfOk result (λ new. new ≡ spliced cells.now at any.now) }
{
    let start = (at as usize).min(cells.len());
    let end = start.saturating_add(any.len()).min(cells.len());
    let mut new = Vec::new(alloc);
    new.extend_from_slice(cells.split_at(start).0)?;
    new.extend_from_slice(any)?;
    new.extend_from_slice(cells.split_at(end).1)?;
    Ok(Row::from(new))
}

fn any_row(alloc: Global, bytes: &[u8]) -> Result<Row<Option<u8>>, NoMemory>
    ensures { IfOk result (λ new. new ≡ all_any bytes.now) }
{
    let mut new = Row::new(alloc);
    for byte in bytes {
        let _ = byte;
        new.push(None)?;
    }
    Ok(new)
}

fn kept(alloc: Global, bytes: &[u8]) -> Result<Row<Option<u8>>, NoMemory>
    ensures { IfOk result (λ new. new ≡ all_kept bytes.now) }
{
    let mut new = Row::new(alloc);
    for byte in bytes {
        new.push(Some(*byte))?;
    }
    Ok(new)
}

impl Replay {
    /// Does a call to the file that a name leads to.
    #[tactic(auto, using(crate::proofs::Replaying::file_set, crate::proofs::Replaying::file_past, crate::proofs::Replaying::file_none))]
    fn on_file(&mut self, alloc: Global, name: &Text, change: &DiskCall) -> Result<(), NoMemory>
        ensures state { OnOk result (state_of self.new ≡ on_file (state_of self.old) (names_in self.old.names name.now) (λ file. file_after_call file change.now)) }
        ensures names { self.new.names ≡ self.old.names }
    {
        let at = match self.names.get(name) {
            Some(at) => *at,
            None => return Ok(()),
        };
        if at >= self.files.len() {
            return Ok(());
        }
        let file = file_after(alloc, &self.files[at], change)?;
        self.files[at] = file;
        Ok(())
    }

    /// Does a change of names and notes it.
    #[tactic(auto, using(crate::proofs::Replaying::pushed))]
    fn rename_pending(&mut self, alloc: Global, change: NameChange) -> Result<(), NoMemory>
        requires { IsAtNames self.old }
        ensures files { self.new.files ≡ self.old.files }
        ensures settled { self.new.settled ≡ self.old.settled }
        ensures pending { OnOk result (self.new.pending.items ≡ self.old.pending.items ++ change ∷ []) }
        ensures standing { OnOk result (IsAtNames self.new) }
    {
        rename_one(alloc, &mut self.names, &change)?;
        self.pending.push(change)?;
        Ok(())
    }

    /// Moves a name.
    #[tactic(auto, using(crate::proofs::Replaying::moved_none, crate::proofs::Replaying::moved_some))]
    fn rename(&mut self, alloc: Global, from: &Text, to: &Text) -> Result<(), NoMemory>
        requires { IsAtNames self.old }
        ensures state { OnOk result (state_of self.new ≡ after (state_of self.old) (DiskCall.Rename from.now to.now)) }
        ensures standing { OnOk result (IsAtNames self.new) }
    {
        if self.names.get(from).is_none() {
            return Ok(());
        }
        let change = NameChange::Moved(from.copy(alloc)?, to.copy(alloc)?);
        self.rename_pending(alloc, change)
    }

    /// Removes a name.
    #[tactic(auto, using(crate::proofs::Replaying::gone_none, crate::proofs::Replaying::gone_some))]
    fn remove(&mut self, alloc: Global, name: &Text) -> Result<(), NoMemory>
        requires { IsAtNames self.old }
        ensures state { OnOk result (state_of self.new ≡ after (state_of self.old) (DiskCall.Remove name.now)) }
        ensures standing { OnOk result (IsAtNames self.new) }
    {
        if self.names.get(name).is_none() {
            return Ok(());
        }
        let change = NameChange::Removed(name.copy(alloc)?);
        self.rename_pending(alloc, change)
    }

    /// Cuts a file, or makes one.
    fn cut(
        &mut self,
        alloc: Global,
        name: &Text,
        len: u64,
        change: &DiskCall,
    ) -> Result<(), NoMemory>
        requires standing { IsAtNames self.old }
        requires cut { change.now ≡ DiskCall.Cut name.now len }
        ensures state { OnOk result (state_of self.new ≡ after (state_of self.old) (DiskCall.Cut name.now len)) }
        ensures standing { OnOk result (IsAtNames self.new) }
    {
        if self.names.get(name).is_some() {
            return self.on_file(alloc, name, change);
        }
        let made = NameChange::Made(name.copy(alloc)?, self.files.len());
        self.rename_pending(alloc, made)?;
        self.files.push(FileState {
            seen: Bytes::new(alloc),
            cells: Row::new(alloc),
            least: 0,
        })?;
        Ok(())
    }

    /// Makes all changes of names lasting.
    fn sync_names(&mut self) -> Result<(), NoMemory>
        requires { IsAtNames self.old }
        ensures state { OnOk result (state_of self.new ≡ after (state_of self.old) DiskCall.SyncNames) }
        ensures standing { OnOk result (IsAtNames self.new) }
    {
        self.settled.append(&mut self.pending)?;
        Ok(())
    }

    /// Does a call.
    pub fn apply(&mut self, alloc: Global, change: &DiskCall) -> Result<(), NoMemory>
        requires { IsAtNames self.old }
        ensures state { OnOk result (state_of self.new ≡ after (state_of self.old) change.now) }
        ensures standing { OnOk result (IsAtNames self.new) }
    {
        match change {
            DiskCall::Write {
                name,
                at: _,
                bytes: _,
            } => self.on_file(alloc, name, change),
            DiskCall::Cut { name, len } => self.cut(alloc, name, *len, change),
            DiskCall::Sync(name) => self.on_file(alloc, name, change),
            DiskCall::Rename { from, to } => self.rename(alloc, from, to),
            DiskCall::Remove(name) => self.remove(alloc, name),
            DiskCall::SyncNames => self.sync_names(),
        }
    }
}

/// The files of these rows, all lasting.
fn synced_files(alloc: Global, rows: &[(Text, Bytes)]) -> Result<Vec<FileState>, NoMemory>
    ensures { IfOk result (λ files. files.items ≡ synced_rows rows.now) }
{
    let mut files = Vec::new(alloc);
    for row in rows {
        files.push(FileState {
            seen: row.1.copy(alloc)?,
            cells: kept(alloc, row.1.as_slice())?,
            least: row.1.len() as u64,
        })?;
    }
    Ok(files)
}

/// A disk that begins with these rows.
#[tactic(auto, using(crate::proofs::Replaying::number_step, crate::proofs::Replaying::pushed))]
fn begin_replay(alloc: Global, rows: &[(Text, Bytes)]) -> Result<Replay, NoMemory>
    ensures state { IfOk result (λ standing. state_of standing ≡ start_state rows.now) }
    ensures standing { IfOk result IsAtNames }
{
    let files = synced_files(alloc, rows)?;
    let mut settled = Vec::new(alloc);
    let mut names = BTreeMap::new(alloc);
    let mut at = rows.len();
    while at > 0 {
        at -= 1;
        let change = NameChange::Made(rows[at].0.copy(alloc)?, at);
        rename_one(alloc, &mut names, &change)?;
        settled.push(change)?;
    }
    Ok(Replay {
        files,
        settled,
        pending: Vec::new(alloc),
        names,
    })
}

/// A disk that begins with these rows, after these calls.
#[tactic(auto, using(crate::proofs::Replaying::one_call, crate::proofs::Replaying::no_call))]
pub fn replay_all(
    alloc: Global,
    rows: &[(Text, Bytes)],
    changes: &[DiskCall],
) -> Result<Replay, NoMemory>
    ensures state { IfOk result (λ replay. state_of replay ≡ newest (trace_after (start_state rows.now) [] changes.now)) }
    ensures names { IfOk result IsAtNames }
{
    let mut replay = begin_replay(alloc, rows)?;
    for change in changes {
        replay.apply(alloc, change)?;
    }
    Ok(replay)
}
