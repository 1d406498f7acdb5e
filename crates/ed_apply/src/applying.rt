//! Scripts applied to a file whose bytes are at hand. What takes memory is handed an allocator.

ghost use Rattle.std.specs.Prelude.{◌≡◌, ◌⊎◌, All, Some, IfOk, IfErr};
ghost use Rattle.ed_apply.specs.Edits.{IsSound, applied_all, edited, refusal};

use crate::{ApplyError, Edit, Script};
use acq_base::Bytes;
use std::alloc::Global;

/// The file that a script makes of an old one, unless a hunk reaches beyond its lines.
pub fn apply(alloc: Global, old: &[u8], script: &Script) -> Result<Bytes, ApplyError>
    requires { IsSound script.now }
    ensures edited { IfOk result (λ new. edited old.now script.now new) }
    ensures refused { IfErr result (λ error. (error ≡ ApplyError.NoMemory) ⊎ (refusal old.now script.now ≡ Some error)) }
{
    let mut edit = Edit::whole(alloc, old)?;
    edit.change(alloc, script)?;
    Ok(edit.copy_out(alloc, old)?)
}

/// The file that scripts make of an old one, each of the file that the one before it made. It is copied once.
pub fn apply_all(alloc: Global, old: &[u8], scripts: &[Script]) -> Result<Bytes, ApplyError>
    requires { All IsSound scripts.now }
    ensures { IfOk result (λ new. applied_all old.now scripts.now ≡ Some new) }
{
    let mut edit = Edit::whole(alloc, old)?;
    for script in scripts {
        edit.change(alloc, script)?;
    }
    Ok(edit.copy_out(alloc, old)?)
}
