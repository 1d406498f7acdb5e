//! Why a text is no frame. It touches nothing and takes no memory.

use acq_base::{NoMemory as OutOfMemory, Refusal};
use std::error::Error;
use std::fmt;

/// Why a text that begins a frame is none.
#[derive(Clone, Copy, Debug, PartialEq, Eq)]
pub enum FrameError {
    /// The first line that can't stand where it does, counted from 1, or 0 where the text ends too early.
    BadFrame(u64),
    /// Memory ran out. The text may be a frame.
    NoMemory,
}

impl fmt::Display for FrameError {
    fn fmt<W: fmt::Write>(&self, f: &mut fmt::Formatter<W>) -> fmt::Result {
        match self {
            FrameError::BadFrame(0) => f.write_str("the signed text ends too early"),
            FrameError::BadFrame(line) => write!(
                f,
                "line {line} can't stand there in a signed text"
            ),
            FrameError::NoMemory => f.write_str("out of memory"),
        }
    }
}

impl Error for FrameError {}

impl From<OutOfMemory> for FrameError {
    ghost use Rattle.std.specs.Prelude.{◌≡◌};
    ghost use Rattle.clear_text.specs.declared.error.FrameError.TheVariants.{NoMemory};

    ghost from_gives = { λ _ refusal. refusal ≡ NoMemory };

    fn from(_error: OutOfMemory) -> FrameError {
        FrameError::NoMemory
    }
}

impl Refusal for FrameError {
    ghost use Rattle.clear_text.specs.Refused.{refusal_number, refusal_line};

    ghost number = { refusal_number };

    ghost line = { refusal_line };

    fn number(&self) -> u32 {
        match self {
            FrameError::BadFrame(_) => 33,
            FrameError::NoMemory => 0,
        }
    }

    fn line(&self) -> u64 {
        match self {
            FrameError::BadFrame(line) => *line,
            FrameError::NoMemory => 0,
        }
    }
}
