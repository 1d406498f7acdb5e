//! Why there is no package file.
ghost use Rattle.std.specs.Prelude.{◌≡◌};
ghost use Rattle.deb_fetch.specs.Refusals.{deb_error_of};
ghost use Rattle.deb_fetch.specs.declared.error.DebError.TheVariants.{DiskFault as disk_fault, NoMemory as no_memory};

use acq_base::{NoMemory, Refusal, Text};
use acq_outside::{Fault, OutError};
use std::error::Error;
use std::fmt;

/// Why there is no package file.
#[derive(Debug, PartialEq, Drop)]
pub enum DebError {
    /// No installed list names a file for this version of the package of this name.
    NotListed(Text),
    /// Installed lists name files of different sums for this version of the package of this name.
    Several(Text),
    /// A disk failed.
    DiskFault,
    /// Memory ran out, or the file's URI would be longer than a sound one.
    NoMemory,
}

impl From<Fault> for DebError {
    ghost from_gives = { λ _ error. error ≡ disk_fault };

    fn from(_: Fault) -> DebError {
        DebError::DiskFault
    }
}

impl From<NoMemory> for DebError {
    ghost from_gives = { λ _ error. error ≡ no_memory };

    fn from(_: NoMemory) -> DebError {
        DebError::NoMemory
    }
}

impl From<OutError> for DebError {
    ghost from_gives = { λ told error. error ≡ deb_error_of told };

    fn from(told: OutError) -> DebError {
        match told {
            OutError::Fault => DebError::DiskFault,
            OutError::NoMemory => DebError::NoMemory,
        }
    }
}

impl fmt::Display for DebError {
    fn fmt<W: fmt::Write>(&self, f: &mut fmt::Formatter<W>) -> fmt::Result {
        f.write_str(match self {
            DebError::NotListed(_) => "no installed list names a file for that version",
            DebError::Several(_) => "installed lists name different files for that version",
            DebError::DiskFault => "the disk failed",
            DebError::NoMemory => "out of memory",
        })
    }
}

impl Error for DebError {}

impl Refusal for DebError {
    ghost use Rattle.std.specs.Prelude.{ℕ};
    ghost use Rattle.deb_fetch.specs.Refusals.{refusal_number};

    ghost number = { refusal_number };

    ghost line = { λ _. 0 };

    fn number(&self) -> u32 {
        match self {
            DebError::NotListed(_) => 34,
            DebError::Several(_) => 35,
            DebError::DiskFault => 31,
            DebError::NoMemory => 0,
        }
    }

    fn line(&self) -> u64 {
        0
    }
}
