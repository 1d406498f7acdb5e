//! Why a run gives no log.

ghost use Rattle.std.specs.Prelude.{◌≡◌};
ghost use Rattle.run_jobs.specs.Refusals.{run_error_of, run_error_for};
ghost use Rattle.run_jobs.specs.declared.error.RunError.TheVariants.{DiskFault as disk_fault, NoMemory as no_memory};

use acq_base::{NoMemory, Refusal};
use acq_outside::{Fault, OutError};
use commit_journal::JournalError;
use std::error::Error;
use std::fmt;

/// Why a run gives no log.
#[derive(Clone, Copy, Debug, PartialEq, Eq)]
pub enum RunError {
    /// The disk failed. Each source has its former lists or its new ones, whole, once the journal is opened again.
    DiskFault,
    /// The journal's gate is open, and the byte at this place of the file `journal` can't stand there in a record. No list
    /// was changed.
    BadJournal(u64),
    NoMemory,
}

impl From<Fault> for RunError {
    ghost from_gives = { λ _ error. error ≡ disk_fault };

    fn from(_: Fault) -> RunError {
        RunError::DiskFault
    }
}

impl From<NoMemory> for RunError {
    ghost from_gives = { λ _ error. error ≡ no_memory };

    fn from(_: NoMemory) -> RunError {
        RunError::NoMemory
    }
}

impl From<OutError> for RunError {
    ghost from_gives = { λ told error. error ≡ run_error_of told };

    fn from(told: OutError) -> RunError {
        match told {
            OutError::Fault => RunError::DiskFault,
            OutError::NoMemory => RunError::NoMemory,
        }
    }
}

impl From<JournalError> for RunError {
    ghost from_gives = { λ told error. error ≡ run_error_for told };

    fn from(told: JournalError) -> RunError {
        match told {
            JournalError::DiskFault => RunError::DiskFault,
            JournalError::BadJournal(at) => RunError::BadJournal(at),
            JournalError::NoMemory => RunError::NoMemory,
        }
    }
}

impl fmt::Display for RunError {
    fn fmt<W: fmt::Write>(&self, f: &mut fmt::Formatter<W>) -> fmt::Result {
        match self {
            RunError::DiskFault => f.write_str("the disk failed"),
            RunError::BadJournal(at) => write!(f, "the journal is no record at byte {at}"),
            RunError::NoMemory => f.write_str("out of memory"),
        }
    }
}

impl Error for RunError {}

impl Refusal for RunError {
    ghost use Rattle.std.specs.Prelude.{ℕ};
    ghost use Rattle.run_jobs.specs.Refusals.{refusal_number};

    ghost number = { refusal_number };

    ghost line = { λ _. 0 };

    fn number(&self) -> u32 {
        match self {
            RunError::DiskFault => 31,
            RunError::BadJournal(_) => 32,
            RunError::NoMemory => 0,
        }
    }

    fn line(&self) -> u64 {
        0
    }
}
