//! Why a line has no answer.
ghost use Rattle.std.specs.Prelude.{◌≡◌, IfOk, Ok};

use acq_base::NoMemory;
use std::alloc::{AllocError, AllocFailed};

/// Why a line has no answer.
#[derive(Clone, Copy, PartialEq, Eq)]
pub enum Refused {
    /// The line is no call.
    NoCall,
    /// A text that the call stands on is refused by its reader.
    Unread,
    /// Memory ran out.
    NoMemory,
}

impl From<NoMemory> for Refused {
    fn from(_error: NoMemory) -> Refused {
        Refused::NoMemory
    }
}

impl From<AllocError> for Refused {
    fn from(_error: AllocError) -> Refused {
        Refused::NoMemory
    }
}

impl<T: Drop> From<AllocFailed<T>> for Refused {
    fn from(_error: AllocFailed<T>) -> Refused {
        Refused::NoMemory
    }
}

/// A text that a call stands on, where its reader takes it.
pub fn readable<T, E: Drop>(read: Result<T, E>) -> Result<T, Refused>
    ensures { IfOk result (λ value. read ≡ Ok value) }
{
    match read {
        Ok(value) => Ok(value),
        Err(_) => Err(Refused::Unread),
    }
}

/// A word's value, where the word has one.
pub fn called<T, E: Drop>(read: Result<T, E>) -> Result<T, Refused>
    ensures { IfOk result (λ value. read ≡ Ok value) }
{
    match read {
        Ok(value) => Ok(value),
        Err(_) => Err(Refused::NoCall),
    }
}
