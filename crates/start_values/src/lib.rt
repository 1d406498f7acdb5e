//! What a program is given when it starts: its words, its folders and its lanes, and what is told where these can't be read.
//!
//! The variables are `ACQUIRE_ETC`, the configuration folder; `ACQUIRE_LISTS`, the lists folder; `ACQUIRE_LANES`, how
//! many workers may fetch; and `ACQUIRE_PLACE`, the folder for package files.
//!
//! `read_start` gives the words behind the program's own name and the two folders that an environment's variables say
//! (`words`, `etc`, `lists`; each word is UTF-8, `text`, and each folder's variable unset or a path, `folders`), or why
//! there are none (`refused`), `read_lanes` how many workers may fetch (`lanes`, `few`), and `read_place` the folder for
//! package files (`place`, `named`, `refused`); `begin_program` tells a refusal on the output with its line and status (`told`), and else leaves the
//! output alone (`untouched`). These clauses speak of an environment that tells its words and variables, as
//! `MemEnvironment` does; std says nothing of a real one, so that `RealEnvironment` reads it right is only tested.
#![tactic(auto)]

pub use environment::{Environment, Unread};
pub use mem_environment::MemEnvironment;
pub use real_environment::RealEnvironment;
pub use refused::Refused;
pub use start::{Start, read_lanes, read_place, read_start};
pub use telling::{begin_program, write_refusal};

mod environment;
mod mem_environment;
mod real_environment;
mod refused;
mod start;
mod telling;
