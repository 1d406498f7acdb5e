//! Why a stream is refused. It touches nothing and takes no memory.

use acq_base::{NoMemory as OutOfMemory, Refusal};
use std::error::Error;
use std::fmt;

/// Why a stream holds no further message. A place is that of the message's first byte in the whole stream, counted
/// from 0; one beyond the greatest `u64` is told as that.
#[derive(Clone, Copy, Debug, PartialEq, Eq)]
pub enum MessageError {
    /// A line of the message that begins here can't stand in one.
    BadMessage(u64),
    /// 65,536 bytes of the message that begins here have come, and not its end.
    TooLong(u64),
    /// Memory ran out. The stream may be sound.
    NoMemory,
}

impl fmt::Display for MessageError {
    fn fmt<W: fmt::Write>(&self, f: &mut fmt::Formatter<W>) -> fmt::Result {
        match self {
            MessageError::BadMessage(at) => write!(
                f,
                "the message at byte {at} has a line that can't stand in one"
            ),
            MessageError::TooLong(at) => write!(f, "the message at byte {at} is too long"),
            MessageError::NoMemory => f.write_str("out of memory"),
        }
    }
}

impl Error for MessageError {}

impl From<OutOfMemory> for MessageError {
    ghost use Rattle.std.specs.Prelude.{◌≡◌};
    ghost use Rattle.method_messages.specs.declared.error.MessageError.TheVariants.{NoMemory};

    ghost from_gives = { λ _ refusal. refusal ≡ NoMemory };

    fn from(_error: OutOfMemory) -> MessageError {
        MessageError::NoMemory
    }
}

impl Refusal for MessageError {
    ghost use Rattle.method_messages.specs.Refused.{refusal_number};

    ghost number = { refusal_number };

    ghost line = { λ _. 0 };

    fn number(&self) -> u32 {
        match self {
            MessageError::BadMessage(_) => 29,
            MessageError::TooLong(_) => 30,
            MessageError::NoMemory => 0,
        }
    }

    fn line(&self) -> u64 {
        0
    }
}
