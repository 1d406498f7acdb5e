//! The files of a lists folder in memory.

use crate::given::Folder;
use crate::refused::Refused;
use acq_memory::MemDisk;
use acq_outside::{Disk, is_name, read_whole};
use std::alloc::Global;
use std::collections::BTreeMap;

/// The files of a folder, of which no further call is to fail.
pub fn files_of(alloc: Global, disk: &mut MemDisk) -> Result<Folder, Refused> {
    let mut folder = BTreeMap::new(alloc);
    for name in disk.names(alloc)?.into_vec() {
        if !is_name(name.as_bytes()) {
            return Err(Refused::Names);
        }
        if let Some(content) = read_whole(alloc, disk, name.as_bytes())? {
            folder.insert(name, content)?;
        }
    }
    Ok(folder)
}

/// Whether a file is a list: neither one on its way nor the journal nor the lock.
pub fn is_list(name: &[u8]) -> bool {
    name != b"journal".as_slice()
        && name != b"lock".as_slice()
        && !name.starts_with(b"partial/".as_slice())
}
