//! Why there is no plan.

use acq_base::{ListName, NoMemory as OutOfMemory, Refusal, Text, TryCopy};
use std::alloc::{AllocFailed, Global};
use std::error::Error;
use std::fmt;

/// Where an entry stands.
#[derive(Debug, PartialEq, Drop)]
pub struct Place {
    /// The name under which its text was read.
    pub file: Text,
    /// The line of the entry, or that of its stanza's first field, counted from 1.
    pub line: u64,
}

impl TryCopy for Place {
    fn copy(&self, alloc: Global) -> Result<Place, OutOfMemory> {
        Ok(Place {
            file: self.file.copy(alloc)?,
            line: self.line,
        })
    }
}

/// Why there is no plan.
#[derive(Debug, PartialEq, Drop)]
pub enum PlanError {
    /// This list name has more than 240 bytes. It is the first such name in plan order.
    LongName(ListName),
    /// Two sources have a file of one name: where the entries stand that first gave each, in plan order.
    Clash { first: Place, second: Place },
    /// There are more than 4,096 sources and targets together.
    TooMany,
    /// Memory ran out.
    NoMemory,
}

impl fmt::Display for PlanError {
    fn fmt<W: fmt::Write>(&self, f: &mut fmt::Formatter<W>) -> fmt::Result {
        f.write_str(match self {
            PlanError::LongName(_) => "a list name has more than 240 bytes",
            PlanError::Clash { .. } => "two sources have a file of one name",
            PlanError::TooMany => "there are more than 4096 sources and targets",
            PlanError::NoMemory => "out of memory",
        })
    }
}

impl Error for PlanError {}

impl From<OutOfMemory> for PlanError {
    ghost use Rattle.std.specs.Prelude.{◌≡◌};
    ghost use Rattle.target_plan.specs.declared.error.PlanError.TheVariants.{NoMemory};

    ghost from_gives = { λ _ e. e ≡ NoMemory };

    fn from(_error: OutOfMemory) -> PlanError {
        PlanError::NoMemory
    }
}

impl<T: Drop> From<AllocFailed<T>> for PlanError {
    ghost use Rattle.std.specs.Prelude.{◌≡◌};
    ghost use Rattle.target_plan.specs.declared.error.PlanError.TheVariants.{NoMemory};

    ghost from_gives = { λ _ e. e ≡ NoMemory };

    fn from(_error: AllocFailed<T>) -> PlanError {
        PlanError::NoMemory
    }
}

impl Refusal for PlanError {
    ghost use Rattle.target_plan.specs.Refusals.{refusal_number, refusal_line};

    ghost number = { refusal_number };

    ghost line = { refusal_line };

    fn number(&self) -> u32 {
        match self {
            PlanError::LongName(_) => 36,
            PlanError::Clash { .. } => 22,
            PlanError::TooMany => 23,
            PlanError::NoMemory => 0,
        }
    }

    /// A plan has no line; a clash names the places of two entries.
    fn line(&self) -> u64 {
        0
    }
}
