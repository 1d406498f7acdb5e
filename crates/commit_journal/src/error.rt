//! Why a journal isn't opened, or a commit not made.
ghost use Rattle.std.specs.Prelude.{◌≡◌};
ghost use Rattle.commit_journal.specs.declared.error.JournalError.TheVariants.{DiskFault as disk_fault, NoMemory as no_memory};

use acq_base::{NoMemory, Refusal};
use acq_outside::Fault;
use std::error::Error;
use std::fmt;

/// Why a journal isn't opened, or a commit not made.
#[derive(Clone, Copy, Debug, PartialEq, Eq)]
pub enum JournalError {
    /// The disk failed. The journal must be opened again; the lists are then those before or those after, whole.
    DiskFault,
    /// The gate is open, and the byte at this place of the file `journal` can't stand there in a record; the file's length
    /// where it ends too early. Nothing was changed.
    BadJournal(u64),
    NoMemory,
}

impl From<Fault> for JournalError {
    ghost from_gives = { λ _ error. error ≡ disk_fault };

    fn from(_: Fault) -> JournalError {
        JournalError::DiskFault
    }
}

impl From<NoMemory> for JournalError {
    ghost from_gives = { λ _ error. error ≡ no_memory };

    fn from(_: NoMemory) -> JournalError {
        JournalError::NoMemory
    }
}

impl fmt::Display for JournalError {
    fn fmt<W: fmt::Write>(&self, f: &mut fmt::Formatter<W>) -> fmt::Result {
        match self {
            JournalError::DiskFault => f.write_str("the disk failed"),
            JournalError::BadJournal(at) => write!(f, "the journal is no record at byte {at}"),
            JournalError::NoMemory => f.write_str("out of memory"),
        }
    }
}

impl Error for JournalError {}

impl Refusal for JournalError {
    ghost use Rattle.std.specs.Prelude.{ℕ};
    ghost use Rattle.commit_journal.specs.Refusals.{refusal_number};

    ghost number = { refusal_number };

    ghost line = { λ _. 0 };

    fn number(&self) -> u32 {
        match self {
            JournalError::DiskFault => 31,
            JournalError::BadJournal(_) => 32,
            JournalError::NoMemory => 0,
        }
    }

    fn line(&self) -> u64 {
        0
    }
}
