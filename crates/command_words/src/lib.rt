//! The words of a command line: `update` with its options or `generate N`, read by clap; and those of the side commands
//! `method`, `serve` and `download`, word by word.
//!
//! `read_words` accepts words exactly where the simple command that specs/ writes down takes them, by clap's own definition
//! of what a command takes, and where N is a number; its answer is what they ask for. `read_side` answers what words ask for
//! beside updates, where they are the exact words of one of the three, and else that they are none (`side_of`, which is
//! written word by word as the code is). That `read_words` refuses those words is only tested.
#![tactic(auto)]

pub use reading::read_words;
pub use request::{Options, Request};
pub use side::{Side, read_side};

mod command;
mod reading;
mod request;
mod side;
