//! The changing calls of a disk as values, each with copies of what it was given.
ghost use Rattle.std.specs.Prelude.{◌≡◌, IfOk};
ghost use Rattle.acq_outside.specs.Disk.{IsName};
ghost use Rattle.acq_memory.specs.Held.{IsNamed};

use acq_base::{Bytes, NoMemory, Text};
use acq_outside::DiskCall;
use std::alloc::Global;

/// A write, with copies of the name and the bytes.
pub fn write_change(alloc: Global, name: &[u8], at: u64, bytes: &[u8]) -> Result<DiskCall, NoMemory>
    requires { IsName name.now }
    ensures change { IfOk result (λ change. change ≡ DiskCall.Write name.now at bytes.now) }
    ensures named { IfOk result IsNamed }
{
    Ok(DiskCall::Write {
        name: Text::from_bytes(alloc, name)?,
        at,
        bytes: Bytes::from(Vec::from_slice(alloc, bytes)?),
    })
}

/// A cut, with a copy of the name.
pub fn cut_change(alloc: Global, name: &[u8], len: u64) -> Result<DiskCall, NoMemory>
    requires { IsName name.now }
    ensures change { IfOk result (λ change. change ≡ DiskCall.Cut name.now len) }
    ensures named { IfOk result IsNamed }
{
    Ok(DiskCall::Cut {
        name: Text::from_bytes(alloc, name)?,
        len,
    })
}

/// A sync, with a copy of the name.
pub fn sync_change(alloc: Global, name: &[u8]) -> Result<DiskCall, NoMemory>
    requires { IsName name.now }
    ensures change { IfOk result (λ change. change ≡ DiskCall.Sync name.now) }
    ensures named { IfOk result IsNamed }
{
    Ok(DiskCall::Sync(Text::from_bytes(alloc, name)?))
}

/// A rename, with copies of both names.
pub fn rename_change(alloc: Global, from: &[u8], to: &[u8]) -> Result<DiskCall, NoMemory>
    requires from { IsName from.now }
    requires to { IsName to.now }
    ensures change { IfOk result (λ change. change ≡ DiskCall.Rename from.now to.now) }
    ensures named { IfOk result IsNamed }
{
    Ok(DiskCall::Rename {
        from: Text::from_bytes(alloc, from)?,
        to: Text::from_bytes(alloc, to)?,
    })
}

/// A removal, with a copy of the name.
pub fn remove_change(alloc: Global, name: &[u8]) -> Result<DiskCall, NoMemory>
    requires { IsName name.now }
    ensures change { IfOk result (λ change. change ≡ DiskCall.Remove name.now) }
    ensures named { IfOk result IsNamed }
{
    Ok(DiskCall::Remove(Text::from_bytes(alloc, name)?))
}
