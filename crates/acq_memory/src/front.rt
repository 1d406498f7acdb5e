//! The front of a slice, copied.
ghost use Rattle.std.specs.Prelude.{◌≡◌, IfOk, take};

use acq_base::{Bytes, NoMemory};
use std::alloc::Global;

/// At most the first `most` bytes.
pub fn front(alloc: Global, bytes: &[u8], most: usize) -> Result<Bytes, NoMemory>
    ensures { IfOk result (λ front. front ≡ take most bytes.now) }
{
    let n = most.min(bytes.len());
    Ok(Bytes::from(Vec::from_slice(alloc, &bytes[..n])?))
}
