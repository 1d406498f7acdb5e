//! What is answered where bytes are no Index, and where no patches lead to the wanted file.

use acq_base::{NoMemory as OutOfMemory, Refusal, Text};
use deb822_text::TextError;
use std::error::Error;
use std::fmt;

/// Why bytes are no patch Index.
#[derive(Clone, Copy, Debug, PartialEq, Eq)]
pub enum IndexError {
    /// The line, counted from 1, that isn't allowed; 0 where a field is missing or there isn't one paragraph.
    BadIndex(u64),
    /// Memory ran out. The bytes may be an Index.
    NoMemory,
}

impl fmt::Display for IndexError {
    fn fmt<W: fmt::Write>(&self, f: &mut fmt::Formatter<W>) -> fmt::Result {
        match self {
            IndexError::BadIndex(0) => f.write_str("no paragraph of an Index's three fields"),
            IndexError::BadIndex(line) => write!(f, "line {line} is none of an Index"),
            IndexError::NoMemory => f.write_str("out of memory"),
        }
    }
}

impl Error for IndexError {}

impl From<OutOfMemory> for IndexError {
    ghost use Rattle.std.specs.Prelude.{◌≡◌};
    ghost use Rattle.pdiff_index.specs.declared.error.IndexError.TheVariants.{NoMemory};

    ghost from_gives = { λ _ refusal. refusal ≡ NoMemory };

    fn from(_error: OutOfMemory) -> IndexError {
        IndexError::NoMemory
    }
}

impl From<TextError> for IndexError {
    ghost use Rattle.std.specs.Prelude.{◌≡◌};
    ghost use Rattle.pdiff_index.specs.Refused.{refusal_of_text};

    ghost from_gives = { λ error refusal. refusal ≡ refusal_of_text error };

    fn from(error: TextError) -> IndexError {
        match error {
            TextError::BadField(line) | TextError::Twice(line) | TextError::Loose(line) => {
                IndexError::BadIndex(line)
            }
            TextError::NoMemory => IndexError::NoMemory,
        }
    }
}

impl Refusal for IndexError {
    ghost use Rattle.pdiff_index.specs.Refused.{refusal_number, refusal_line};

    ghost number = { refusal_number };

    ghost line = { refusal_line };

    fn number(&self) -> u32 {
        match self {
            IndexError::BadIndex(_) => 24,
            IndexError::NoMemory => 0,
        }
    }

    fn line(&self) -> u64 {
        match self {
            IndexError::BadIndex(line) => *line,
            IndexError::NoMemory => 0,
        }
    }
}

/// Why no patches lead from a file to the wanted one. The first cause in this order is named.
#[derive(Debug, PartialEq, Drop)]
pub enum NoChain {
    /// The patches lead to another file than the wanted one.
    WrongCurrent,
    /// The history doesn't have the file.
    NoEntry,
    /// The patch of this name is needed and isn't listed.
    NoPatch(Text),
    /// The patches are more, or larger together, than the limits allow.
    Limit,
    /// Memory ran out. There may be a chain.
    NoMemory,
}

impl fmt::Display for NoChain {
    fn fmt<W: fmt::Write>(&self, f: &mut fmt::Formatter<W>) -> fmt::Result {
        f.write_str(match self {
            NoChain::WrongCurrent => "the patches lead to another file",
            NoChain::NoEntry => "the history doesn't have the file",
            NoChain::NoPatch(_) => "a patch isn't listed",
            NoChain::Limit => "the patches pass the limits",
            NoChain::NoMemory => "out of memory",
        })
    }
}

impl Error for NoChain {}

impl From<OutOfMemory> for NoChain {
    ghost use Rattle.std.specs.Prelude.{◌≡◌};
    ghost use Rattle.pdiff_index.specs.declared.error.NoChain.TheVariants.{NoMemory};

    ghost from_gives = { λ _ refusal. refusal ≡ NoMemory };

    fn from(_error: OutOfMemory) -> NoChain {
        NoChain::NoMemory
    }
}
