//! How many bytes the lists of a folder have.

ghost use Rattle.std.specs.Prelude.{◌≡◌, All, IfOk};
ghost use Rattle.std.specs.List.{sum_by};
ghost use Rattle.acq_outside.specs.Crash.{trace_of};
ghost use Rattle.acq_outside.specs.Disk.{IsName};
ghost use Rattle.acq_outside.specs.History.{files_of};
ghost use Rattle.acq_memory.specs.MemDisk.{past_of};
ghost use Rattle.acq_outside.specs.States.{ToldAs};
ghost use Rattle.generated_days.specs.Days.{HasBytes};
ghost use Rattle.generated_days.specs.Sizes.{size_in};
ghost use Rattle.journal_model.specs.Names as names;
ghost use Rattle.journal_model.specs.Reopen.{installed_now};
ghost use Rattle.journal_model.specs.Rest.{IsAtRest};

use acq_base::{NoMemory, Text};
use acq_memory::MemDisk;
use acq_outside::Disk;
use journal_model::is_file_name;
use std::alloc::Global;

/// How many bytes the lists of a folder at rest have.
pub fn bytes_of(alloc: Global, disk: &mut MemDisk) -> Result<u64, NoMemory>
    requires { ToldAs (IsAtRest (installed_now (trace_of (past_of disk.old)))) (trace_of (past_of disk.old)) }
    ensures bytes { IfOk result (HasBytes (installed_now (trace_of (past_of disk.old)))) }
    ensures still { past_of disk.new ≡ past_of disk.old }
{
    let Ok(names) = disk.names(alloc) else {
        return Err(NoMemory);
    };
    let bytes = size_of_lists(disk, names.as_slice())?;
    Ok(bytes)
}

/// The sizes of those of these files that are lists, in all.
fn size_of_lists(disk: &mut MemDisk, files: &[Text]) -> Result<u64, NoMemory>
    requires { All IsName files.now }
    ensures sum { IfOk result (λ bytes. bytes ≡ sum_by (size_in (files_of (past_of disk.old))) files.now) }
    ensures still { past_of disk.new ≡ past_of disk.old }
{
    let mut bytes: u64 = 0;
    for file in files {
        let size = size_of(disk, file.as_bytes())?;
        bytes = bytes.checked_add(size).ok_or(NoMemory)?;
    }
    Ok(bytes)
}

/// The size of a list, and 0 of a file that is none.
fn size_of(disk: &mut MemDisk, name: &[u8]) -> Result<u64, NoMemory>
    requires { IsName name.now }
    ensures size { IfOk result (λ size. size ≡ size_in (files_of (past_of disk.old)) name.now) }
    ensures still { past_of disk.new ≡ past_of disk.old }
{
    if !is_list(name) {
        return Ok(0);
    }
    match disk.size(name) {
        Ok(size) => Ok(size.unwrap_or(0)),
        Err(_) => Err(NoMemory),
    }
}

/// Whether a file of this name is a list: one in the folder, neither the journal, nor the lock, nor a list on its way.
fn is_list(name: &[u8]) -> bool
    ensures { result ≡ names.is_installed_name name.now }
{
    name != b"journal".as_slice()
        && name != b"lock".as_slice()
        && !name.starts_with(b"partial/")
        && is_file_name(name)
}
