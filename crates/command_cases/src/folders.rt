//! Folders as their files by name.

use crate::steps::Step;
use acq_base::{Bytes, NoMemory, Row, Text, TryCopy};
use acq_memory::MemDisk;
use acq_outside::{Disk, is_name, read_whole};
use case_words::{Refused, readable};
use std::alloc::Global;
use std::collections::BTreeMap;

/// The files of a folder, by name.
pub type Folder = BTreeMap<Text, Bytes>;

/// The files that the lines with this first word name; of two of one name the later.
pub fn folder(alloc: Global, steps: &[Step], name: &[u8]) -> Result<Folder, Refused> {
    let mut folder = BTreeMap::new(alloc);
    for step in steps {
        if step.is(name) {
            put(alloc, &mut folder, step)?;
        }
    }
    Ok(folder)
}

/// Puts the file of a line.
fn put(alloc: Global, folder: &mut Folder, step: &Step) -> Result<(), Refused> {
    let (name, content) = step.pair()?;
    let (name, content) = (name.copy(alloc)?, content.copy(alloc)?);
    folder.insert(name, content.into_bytes())?;
    Ok(())
}

/// The files in a row.
pub fn rows(alloc: Global, folder: &Folder) -> Result<Row<(Text, Bytes)>, NoMemory> {
    let mut rows = Row::new(alloc);
    for (name, content) in folder.iter() {
        rows.push(row(alloc, name, content)?)?;
    }
    Ok(rows)
}

fn row(alloc: Global, name: &Text, content: &Bytes) -> Result<(Text, Bytes), NoMemory> {
    let name = name.copy(alloc)?;
    Ok((name, content.copy(alloc)?))
}

/// The files of a disk, of which no further call is to fail.
pub fn files(alloc: Global, disk: &mut MemDisk) -> Result<Folder, Refused> {
    let mut folder = BTreeMap::new(alloc);
    for name in readable(disk.names(alloc))?.into_vec() {
        if !is_name(name.as_bytes()) {
            return Err(Refused::Unread);
        }
        if let Some(content) = readable(read_whole(alloc, disk, name.as_bytes()))? {
            folder.insert(name, content)?;
        }
    }
    Ok(folder)
}
