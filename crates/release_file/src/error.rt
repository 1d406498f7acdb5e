//! Why bytes are no Release. It touches nothing and takes no memory.

use acq_base::{NoMemory as OutOfMemory, Refusal};
use clear_text::FrameError;
use deb822_text::TextError;
use std::error::Error;
use std::fmt;

/// Why bytes are no Release. Lines are counted from 1, within the text of a frame from the text's first line on.
///
/// Where several hold, the first of them in this order is named: `BadFrame`, the control text's three, then `NotOne`, `NoDate`,
/// `BadDate` of Date and then of Valid-Until, `NoSums`, and `BadSums` of the first such line.
#[derive(Clone, Copy, Debug, PartialEq, Eq)]
pub enum ReleaseError {
    /// The bytes begin a frame, and this line of them can't stand where it does, or 0 where they end too early.
    BadFrame(u64),
    /// The line is no separator, no continuation and no field (Debian Policy, section 5.1).
    BadField(u64),
    /// The line names a field that its paragraph already has, ASCII case aside.
    Twice(u64),
    /// The line continues a field, and none is above it in its paragraph.
    Loose(u64),
    /// There are more or fewer paragraphs than one.
    NotOne,
    /// There is no field Date.
    NoDate,
    /// The Date or the Valid-Until of this line is no date.
    BadDate(u64),
    /// There is no field SHA256.
    NoSums,
    /// This line of SHA256 is no sum line, or gives another sum to a path that has one.
    BadSums(u64),
    /// Memory ran out. The bytes may be a Release.
    NoMemory,
}

impl fmt::Display for ReleaseError {
    fn fmt<W: fmt::Write>(&self, f: &mut fmt::Formatter<W>) -> fmt::Result {
        match self {
            ReleaseError::BadFrame(line) => write!(f, "{}", FrameError::BadFrame(*line)),
            ReleaseError::BadField(line) => write!(f, "line {line} is no field"),
            ReleaseError::Twice(line) => write!(f, "line {line} names a field again"),
            ReleaseError::Loose(line) => write!(f, "line {line} continues no field"),
            ReleaseError::NotOne => f.write_str("a Release is one paragraph"),
            ReleaseError::NoDate => f.write_str("the field Date is missing"),
            ReleaseError::BadDate(line) => write!(f, "line {line} is no date"),
            ReleaseError::NoSums => f.write_str("the field SHA256 is missing"),
            ReleaseError::BadSums(line) => write!(
                f,
                "line {line} is no sum line or contradicts one"
            ),
            ReleaseError::NoMemory => f.write_str("out of memory"),
        }
    }
}

impl Error for ReleaseError {}

impl From<OutOfMemory> for ReleaseError {
    ghost use Rattle.std.specs.Prelude.{◌≡◌};
    ghost use Rattle.release_file.specs.declared.error.ReleaseError.TheVariants.{NoMemory};

    ghost from_gives = { λ _ refusal. refusal ≡ NoMemory };

    fn from(_error: OutOfMemory) -> ReleaseError {
        ReleaseError::NoMemory
    }
}

impl From<FrameError> for ReleaseError {
    ghost use Rattle.std.specs.Prelude.{◌≡◌};
    ghost use Rattle.release_file.specs.Refused.{refusal_of_frame};

    ghost from_gives = { λ error refusal. refusal ≡ refusal_of_frame error };

    fn from(error: FrameError) -> ReleaseError {
        match error {
            FrameError::BadFrame(line) => ReleaseError::BadFrame(line),
            FrameError::NoMemory => ReleaseError::NoMemory,
        }
    }
}

impl From<TextError> for ReleaseError {
    ghost use Rattle.std.specs.Prelude.{◌≡◌};
    ghost use Rattle.release_file.specs.Refused.{refusal_of_text};

    ghost from_gives = { λ error refusal. refusal ≡ refusal_of_text error };

    fn from(error: TextError) -> ReleaseError {
        match error {
            TextError::BadField(line) => ReleaseError::BadField(line),
            TextError::Twice(line) => ReleaseError::Twice(line),
            TextError::Loose(line) => ReleaseError::Loose(line),
            TextError::NoMemory => ReleaseError::NoMemory,
        }
    }
}

impl Refusal for ReleaseError {
    ghost use Rattle.release_file.specs.Refused.{refusal_number, refusal_line};

    ghost number = { refusal_number };

    ghost line = { refusal_line };

    fn number(&self) -> u32 {
        match self {
            ReleaseError::BadFrame(_) => 33,
            ReleaseError::BadField(_) => 3,
            ReleaseError::Twice(_) => 4,
            ReleaseError::Loose(_) => 5,
            ReleaseError::NotOne => 12,
            ReleaseError::NoDate => 8,
            ReleaseError::BadDate(_) => 9,
            ReleaseError::NoSums => 11,
            ReleaseError::BadSums(_) => 10,
            ReleaseError::NoMemory => 0,
        }
    }

    fn line(&self) -> u64 {
        match self {
            ReleaseError::BadFrame(line)
            | ReleaseError::BadField(line)
            | ReleaseError::Twice(line)
            | ReleaseError::Loose(line)
            | ReleaseError::BadDate(line)
            | ReleaseError::BadSums(line) => *line,
            ReleaseError::NotOne
            | ReleaseError::NoDate
            | ReleaseError::NoSums
            | ReleaseError::NoMemory => 0,
        }
    }
}
