//! Whether anything is on its way in a folder.

ghost use Rattle.std.specs.Prelude.{◌≡◌, OnOk};
ghost use Rattle.std.specs.List.{list_any};
ghost use Rattle.acq_outside.specs.History.{files_of};
ghost use Rattle.acq_memory.specs.MemDisk.{past_of};
ghost use Rattle.generated_days.specs.Clear.{IsClear};
ghost use Rattle.journal_model.specs.Names as names;
ghost use Rattle.journal_model.specs.Reading.{journal_state_in};
ghost use Rattle.journal_model.specs.declared.step.JournalState.TheVariants.{Shut};

use acq_base::{NoMemory, Text};
use acq_memory::MemDisk;
use acq_outside::Disk;
use std::alloc::Global;

/// That no list is on its way in a folder, and that its journal has no record. An update that gets what it asks for leaves
/// it so; a folder that isn't so stands for want of memory.
pub fn check_clear(alloc: Global, disk: &mut MemDisk) -> Result<(), NoMemory>
    ensures clear { OnOk result (IsClear (files_of (past_of disk.old))) }
    ensures still { past_of disk.new ≡ past_of disk.old }
{
    let Ok(names) = disk.names(alloc) else {
        return Err(NoMemory);
    };
    if has_partial(names.as_slice()) {
        return Err(NoMemory);
    }
    check_shut(disk)?;
    Ok(())
}

/// That the first byte of the journal isn't 1.
fn check_shut(disk: &mut MemDisk) -> Result<(), NoMemory>
    ensures shut { OnOk result (journal_state_in (files_of (past_of disk.old) names.journal) ≡ Shut) }
    ensures still { past_of disk.new ≡ past_of disk.old }
{
    let mut gate = [0u8; 1];
    let Ok(_) = disk.read_at(b"journal", 0, &mut gate) else {
        return Err(NoMemory);
    };
    if gate[0] == 1 {
        return Err(NoMemory);
    }
    Ok(())
}

fn has_partial(files: &[Text]) -> bool
    ensures { result ≡ list_any names.is_partial files.now }
{
    files.iter().any(|file| is_partial(file.as_bytes()))
}

fn is_partial(name: &[u8]) -> bool
    ensures { result ≡ names.is_partial name.now }
{
    name.starts_with(b"partial/")
}
