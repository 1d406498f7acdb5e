//! Copies of values, where memory allows.

ghost use Rattle.std.specs.Prelude.{◌≡◌, IfOk};

use crate::NoMemory;
use std::alloc::Global;

/// A value that can be copied where memory allows.
pub trait TryCopy: Sized {
    /// An equal value with memory of its own.
    fn copy(&self, alloc: Global) -> Result<Self, NoMemory>
        ensures { IfOk result (λ copy. copy ≡ self.now) };
}

impl TryCopy for u8 {
    fn copy(&self, _alloc: Global) -> Result<u8, NoMemory> {
        Ok(*self)
    }
}

impl TryCopy for u32 {
    fn copy(&self, _alloc: Global) -> Result<u32, NoMemory> {
        Ok(*self)
    }
}

impl TryCopy for u64 {
    fn copy(&self, _alloc: Global) -> Result<u64, NoMemory> {
        Ok(*self)
    }
}

impl<A: TryCopy + Drop, B: TryCopy + Drop> TryCopy for (A, B) {
    fn copy(&self, alloc: Global) -> Result<(A, B), NoMemory> {
        let first = self.0.copy(alloc)?;
        let second = self.1.copy(alloc)?;
        Ok((first, second))
    }
}

impl<T: TryCopy> TryCopy for Option<T> {
    fn copy(&self, alloc: Global) -> Result<Option<T>, NoMemory> {
        match self {
            Some(value) => Ok(Some(value.copy(alloc)?)),
            None => Ok(None),
        }
    }
}
