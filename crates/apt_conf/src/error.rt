//! Why a configuration is refused. It touches nothing and takes no memory.

ghost use Rattle.std.specs.Prelude.{◌≡◌};
ghost use Rattle.apt_conf.specs.declared.error.ConfError.TheVariants.{NoMemory as OutOfMemory};

use acq_base::{NoMemory, Refusal, Text};
use std::alloc::{AllocError, AllocFailed};
use std::error::Error;
use std::fmt;

/// Why a configuration is refused.
#[derive(Debug, PartialEq, Drop)]
pub enum ConfError {
    /// A file has more than 1,048,576 bytes.
    LongFile,
    /// Reading stops on this line, counted from 1.
    BadConf(u64),
    /// The value of this key isn't allowed. The key is spelled as the table of settings has it.
    BadValue(Text),
    /// Memory ran out.
    NoMemory,
}

impl fmt::Display for ConfError {
    fn fmt<W: fmt::Write>(&self, f: &mut fmt::Formatter<W>) -> fmt::Result {
        match self {
            ConfError::LongFile => f.write_str("the file has more than 1048576 bytes"),
            ConfError::BadConf(line) => write!(f, "line {line} isn't configuration"),
            ConfError::BadValue(_) => f.write_str("the value of a setting isn't allowed"),
            ConfError::NoMemory => f.write_str("out of memory"),
        }
    }
}

impl Error for ConfError {}

impl From<NoMemory> for ConfError {
    ghost from_gives = { λ _ e. e ≡ OutOfMemory };

    fn from(_error: NoMemory) -> ConfError {
        ConfError::NoMemory
    }
}

impl From<AllocError> for ConfError {
    ghost from_gives = { λ _ e. e ≡ OutOfMemory };

    fn from(_error: AllocError) -> ConfError {
        ConfError::NoMemory
    }
}

impl<T: Drop> From<AllocFailed<T>> for ConfError {
    ghost from_gives = { λ _ e. e ≡ OutOfMemory };

    fn from(_error: AllocFailed<T>) -> ConfError {
        ConfError::NoMemory
    }
}

impl Refusal for ConfError {
    ghost use Rattle.apt_conf.specs.Refusals.{refusal_number, refusal_line};

    ghost number = { refusal_number };

    ghost line = { refusal_line };

    fn number(&self) -> u32 {
        match self {
            ConfError::LongFile => 37,
            ConfError::BadConf(_) => 20,
            ConfError::BadValue(_) => 21,
            ConfError::NoMemory => 0,
        }
    }

    fn line(&self) -> u64 {
        match self {
            ConfError::BadConf(line) => *line,
            _ => 0,
        }
    }
}
