//! One source of a board: its Release and its lists, one answer at a time, and what it comes to in the end.
//!
//! What each item asks, what an answer makes of the source, when it is ready, and what it comes to with its changes
//! of files are as `board_model` defines (`ask`, `hear`, `is_ready`, `settle`). The list names of a source differ,
//! so what is installed under a name is handed on and not copied.
#![tactic(auto)]

pub use logging::{entry, list_name, path};
pub use slot::{Asking, Listing, Slot};

mod changes;
mod ends;
mod hearing;
mod held;
mod logging;
mod settling;
mod slot;
mod sums;
