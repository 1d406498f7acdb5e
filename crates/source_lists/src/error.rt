//! Why a sources list is refused.

use acq_base::{NoMemory as OutOfMemory, Refusal};
use deb822_text::TextError;
use std::alloc::{AllocError, AllocFailed};
use std::error::Error;
use std::fmt;

/// Why a sources list is refused. Lines are counted from 1, comments and blank lines included. In the deb822 form the line
/// is that of the field, or that of the stanza's first field where the field isn't there.
#[derive(Clone, Copy, Debug, PartialEq, Eq)]
pub enum ListError {
    /// The text has more than 1,048,576 bytes.
    LongFile,
    /// A line of a kind that control text doesn't have.
    BadField(u64),
    /// A field of a name that its stanza already has, ASCII case aside.
    Twice(u64),
    /// A continuation with no field above it in its stanza.
    Loose(u64),
    /// Another type than `deb` and `deb-src`, a URI, suite or other field that is missing, options without `]`, an option
    /// without `=`, a character that isn't allowed, or a value of an option or field that isn't.
    BadLine(u64),
    /// A suite that isn't an exact path has no component.
    NoComponent(u64),
    /// An exact path has a component.
    LooseComponent(u64),
    /// An option has `+=` or `-=`.
    Operator(u64),
    /// The URI can't be fetched.
    BadUri(u64),
    /// The URI's scheme is neither `http` nor `file`.
    Scheme(u64),
    /// Memory ran out. The text may be sound.
    NoMemory,
}

impl fmt::Display for ListError {
    fn fmt<W: fmt::Write>(&self, f: &mut fmt::Formatter<W>) -> fmt::Result {
        match self {
            ListError::LongFile => f.write_str("the file has more than 1048576 bytes"),
            ListError::BadField(line) => write!(f, "line {line} is no field"),
            ListError::Twice(line) => write!(f, "line {line} names a field again"),
            ListError::Loose(line) => write!(f, "line {line} continues no field"),
            ListError::BadLine(line) => write!(f, "line {line} is no source"),
            ListError::NoComponent(line) => write!(f, "line {line} names no component"),
            ListError::LooseComponent(line) => write!(f, "line {line} names a component of a path"),
            ListError::Operator(line) => write!(
                f,
                "line {line} adds to an option or takes from it"
            ),
            ListError::BadUri(line) => write!(f, "line {line} has a URI that can't be fetched"),
            ListError::Scheme(line) => {
                write!(f, "line {line} has a URI of neither http nor file")
            }
            ListError::NoMemory => f.write_str("out of memory"),
        }
    }
}

impl Error for ListError {}

impl From<OutOfMemory> for ListError {
    ghost use Rattle.std.specs.Prelude.{◌≡◌};
    ghost use Rattle.source_lists.specs.declared.error.ListError.TheVariants.{NoMemory};

    ghost from_gives = { λ _ refusal. refusal ≡ NoMemory };

    fn from(_error: OutOfMemory) -> ListError {
        ListError::NoMemory
    }
}

impl From<TextError> for ListError {
    ghost use Rattle.std.specs.Prelude.{◌≡◌};
    ghost use Rattle.source_lists.specs.Refused.{refusal_of_text};

    ghost from_gives = { λ error refusal. refusal ≡ refusal_of_text error };

    fn from(error: TextError) -> ListError {
        match error {
            TextError::BadField(line) => ListError::BadField(line),
            TextError::Twice(line) => ListError::Twice(line),
            TextError::Loose(line) => ListError::Loose(line),
            TextError::NoMemory => ListError::NoMemory,
        }
    }
}

impl Refusal for ListError {
    ghost use Rattle.source_lists.specs.Refused.{refusal_number, refusal_line};

    ghost number = { refusal_number };

    ghost line = { refusal_line };

    fn number(&self) -> u32 {
        match self {
            ListError::LongFile => 37,
            ListError::BadField(_) => 3,
            ListError::Twice(_) => 4,
            ListError::Loose(_) => 5,
            ListError::BadLine(_) => 16,
            ListError::NoComponent(_) => 17,
            ListError::LooseComponent(_) => 18,
            ListError::Operator(_) => 19,
            ListError::BadUri(_) => 6,
            ListError::Scheme(_) => 7,
            ListError::NoMemory => 0,
        }
    }

    fn line(&self) -> u64 {
        match self {
            ListError::LongFile | ListError::NoMemory => 0,
            ListError::BadField(line)
            | ListError::Twice(line)
            | ListError::Loose(line)
            | ListError::BadLine(line)
            | ListError::NoComponent(line)
            | ListError::LooseComponent(line)
            | ListError::Operator(line)
            | ListError::BadUri(line)
            | ListError::Scheme(line) => *line,
        }
    }
}
