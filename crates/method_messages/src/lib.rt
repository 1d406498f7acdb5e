//! The messages of APT's method interface: read from a stream that comes in pieces, and written.
//!
//! A message is a line of a number and a text, lines of fields, and an empty line. How the stream is cut doesn't show:
//! contracts speak of all its bytes together.
//!
//! What `feed` has given are the messages of the stream that have ended, however it was cut (`given`); it is
//! refused exactly where the stream is, with the place of the message's first byte (`only`, `certain`), and then as
//! it was (`unchanged`); a stream has at most one reading or refusal (`streams_read_one_way`, a law); `rest` tells
//! where a message has begun; `encode` writes what `valid` allows (`text`), and it is read again whatever follows
//! (`again`). That the time is linear is tested alone.
#![tactic(auto)]

pub use error::MessageError;
pub use laws::streams_read_one_way;
pub use message::Message;
pub use reader::Reader;
pub use validity::valid;
pub use writing::encode;

mod cutting;
mod error;
mod laws;
mod line;
mod message;
mod progress;
mod reader;
mod step;
mod validity;
mod writing;
