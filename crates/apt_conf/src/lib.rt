//! Configuration files of apt.conf(5): their grammar, and the settings that take effect.
//!
//! A `Conf` is the list of the pairs of keys and values given so far. Files and option words add to it, and `settings`
//! reads from it what the engine runs by.
//!
//! `read_conf` and `set` answer exactly their definition, or want of memory (`answer`); they append its pairs
//! (`ok`), and an error leaves the Conf as it was (`err`). A text of at most 1,048,576 bytes that spells
//! statements, in any white space and comments and in at most 16 nested blocks, is read as their pairs (`grammar`),
//! and a text that is read spells such statements, whose pairs are exactly what it added (`spelled`). A text that
//! is written piece by piece, in white space, comments and tokens, has exactly the tokens of its pieces, each on
//! its line (`written`), and each text that is read is so written (`pieces`). A refusal is that of the first token
//! with which no statements can go on, or of the last line where the text leaves something open (`refused`). `get`
//! is the last value of a key; `settings` gives each key's last value or default, or refuses the first bad value.
//! What `settings` gives is sound (`sound`): architectures and languages of their forms, and at least one
//! architecture.
#![tactic(auto)]

pub use conf::{Conf, get, new, read_conf, set};
pub use error::ConfError;
pub use table::{boolean, settings};

mod conf;
mod entry;
mod error;
mod key;
mod lexeme;
mod line;
mod lookup;
mod reader;
mod reading;
mod run;
mod statement;
mod table;
mod token;
mod values;
