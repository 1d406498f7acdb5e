//! One list that is read and summed piece by piece.

ghost use Rattle.std.specs.Prelude.{◌≡◌, ◌+◌, ◌-◌, ◌<◌, ◌≤◌, ◌^◌, [], length, take, drop, IfOk, OnOk, IsTrue, option_map, unwrap_or};
ghost use Rattle.acq_outside.specs.Disk.{IsName};
ghost use Rattle.acq_outside.specs.Stays.{Reads, ReadsCounting};
ghost use Rattle.hash_gate.specs.Pieces.{HasSummed, size_so_far};
ghost use Rattle.lists_dir.specs.Summing.{Stands, Pends, Fed, IsFilled, file_of};

use crate::content::Content;
use crate::summed::Summed;
use acq_base::{Bytes, ListName};
use acq_outside::{Disk, Fault, OutError};
use hash_gate::Total;
use std::alloc::Global;

/// A list on its way to its sum.
#[derive(Drop)]
pub(crate) struct Reading {
    /// Its size as the disk told it at first, `None` where there is no such file.
    pub(crate) size: Option<u64>,
    pub(crate) total: Total,
    /// What was read last.
    pub(crate) piece: Vec<u8>,
    pub(crate) content: Content,
}

impl Reading {
    /// The file of this name before its first piece.
    pub(crate) fn open<D: Disk>(
        alloc: Global,
        disk: &mut D,
        name: &ListName,
    ) -> Result<Reading, OutError>
        requires { IsName name.now.0 }
        ensures frame { ReadsCounting OutError.Fault D.Disk disk.old disk.new result }
        ensures stands { IfOk result (Stands (D.tells disk.old) (D.files disk.old name.now.0) 0) }
    {
        let size = disk.size(name.0.as_bytes())?;
        Ok(Reading {
            size,
            total: Total::new(),
            piece: Vec::new(alloc),
            content: Content::of(alloc, &Bytes::new(alloc)),
        })
    }

    /// Reads the next piece: what the file has of so many bytes from this place on.
    pub(crate) fn read<D: Disk>(
        &mut self,
        disk: &mut D,
        name: &ListName,
        at: u64,
        step: u64,
    ) -> Result<(), OutError>
        requires name { IsName name.now.0 }
        requires end { at + step < 2 ^ 64 }
        requires stands { Stands (D.tells disk.old) (D.files disk.old name.now.0) at self.old }
        ensures frame { ReadsCounting OutError.Fault D.Disk disk.old disk.new result }
        ensures pends { OnOk result (Pends (D.tells disk.old) (D.files disk.old name.now.0) (at + step) self.new) }
    {
        let room = step.min(self.size.unwrap_or(0).saturating_sub(at)) as usize;
        self.piece.resize(room, 0)?;
        let n = fill(disk, name.0.as_bytes(), at, self.piece.as_mut_slice())?;
        self.piece.truncate(n);
        self.content.grow(&self.piece)?;
        Ok(())
    }

    /// Feeds the piece that was read to the total.
    pub(crate) fn feed(&mut self)
        requires { size_so_far self.old.total + length self.old.piece.items < 2 ^ 64 }
        ensures { Fed self.old self.new }
    {
        self.total.feed(self.piece.as_slice());
    }

    /// The file by its sum, `None` where there is no such file.
    pub(crate) fn end(self) -> Option<Summed>
        requires { HasSummed self.total self.content }
        ensures { result ≡ file_of self }
    {
        let Reading {
            size,
            total,
            piece: _,
            content,
        } = self;
        match size {
            Some(_) => Some(Summed::known(total.sum(), content)),
            None => None,
        }
    }
}

/// Reads into all of the room, as far as the file reaches, and answers how many bytes these are.
fn fill<D: Disk>(disk: &mut D, name: &[u8], at: u64, room: &mut [u8]) -> Result<usize, Fault>
    requires name { IsName name.now }
    requires end { at + length room.old < 2 ^ 64 }
    ensures frame { Reads D.Disk disk.old disk.new result }
    ensures within { IfOk result (λ n. n ≤ length room.old) }
    ensures told { IsTrue (D.tells disk.old) → IfOk result (λ n. IsFilled (D.files disk.old name.now) at n (length room.old) room.new) }
{
    let mut filled = 0;
    while filled < room.len() {
        let n = disk.read_at(name, at + filled as u64, &mut room[filled..])?;
        if n == 0 {
            break;
        }
        filled += n;
    }
    Ok(filled)
}
