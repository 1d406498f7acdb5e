//! The gate of a journal, and what stands behind it.
ghost use Rattle.std.specs.Prelude.{◌≡◌, slice_get, Some, IfOk, OnErr};
ghost use Rattle.journal_model.specs.Reading.{journal_state_of};

use crate::JournalState;
use crate::record::{ReadError, read_body};
use acq_base::NoMemory;
use std::alloc::Global;

/// What a journal's bytes say. It takes memory only where the gate is open, which is where byte 0 is 1.
pub fn read_journal(alloc: Global, bytes: &[u8]) -> Result<JournalState, NoMemory>
    ensures gate { IfOk result (λ gate. gate ≡ journal_state_of bytes.now) }
    ensures thrifty { OnErr result (slice_get bytes.now 0 ≡ Some 1) }
{
    match bytes.split_first() {
        None => Ok(JournalState::Shut),
        Some((gate, body)) => {
            if *gate != 1 {
                return Ok(JournalState::Shut);
            }
            match read_body(alloc, body) {
                Ok(steps) => Ok(JournalState::Open(steps)),
                Err(ReadError::Bad(left)) => Ok(JournalState::Damaged(
                    bytes.len().saturating_sub(left) as u64,
                )),
                Err(ReadError::NoMemory) => Err(NoMemory),
            }
        }
    }
}
