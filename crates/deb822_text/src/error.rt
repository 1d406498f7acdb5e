//! Why a control text is refused. It touches nothing and takes no memory.
use acq_base::{NoMemory as OutOfMemory, Refusal};
use std::error::Error;
use std::fmt;

/// Why a control text is refused. Lines are counted from 1, comments and separators included.
#[derive(Clone, Copy, Debug, PartialEq, Eq)]
pub enum TextError {
    /// The line is no separator, no continuation and no field.
    BadField(u64),
    /// The field has the name of an earlier one of its paragraph, ASCII case aside.
    Twice(u64),
    /// The line continues a field, and none is above it in its paragraph.
    Loose(u64),
    /// Memory ran out. The text may be sound.
    NoMemory,
}

impl fmt::Display for TextError {
    fn fmt<W: fmt::Write>(&self, f: &mut fmt::Formatter<W>) -> fmt::Result {
        match self {
            TextError::BadField(line) => write!(f, "line {line} is no field"),
            TextError::Twice(line) => write!(f, "line {line} names a field again"),
            TextError::Loose(line) => write!(f, "line {line} continues no field"),
            TextError::NoMemory => f.write_str("out of memory"),
        }
    }
}

impl Error for TextError {}

impl From<OutOfMemory> for TextError {
    ghost use Rattle.std.specs.Prelude.{◌≡◌};
    ghost use Rattle.deb822_text.specs.declared.error.TextError.TheVariants.{NoMemory};

    ghost from_gives = { λ _ refusal. refusal ≡ NoMemory };

    fn from(_error: OutOfMemory) -> TextError {
        TextError::NoMemory
    }
}

impl Refusal for TextError {
    ghost use Rattle.deb822_text.specs.Control.{refusal_number, refusal_line};

    ghost number = { refusal_number };

    ghost line = { refusal_line };

    fn number(&self) -> u32 {
        match self {
            TextError::BadField(_) => 3,
            TextError::Twice(_) => 4,
            TextError::Loose(_) => 5,
            TextError::NoMemory => 0,
        }
    }

    fn line(&self) -> u64 {
        match self {
            TextError::BadField(line) | TextError::Twice(line) | TextError::Loose(line) => *line,
            TextError::NoMemory => 0,
        }
    }
}
