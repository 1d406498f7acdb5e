//! What one source of a board is made of: whether a Release that came may be installed, and the lists that it names.
//!
//! `admit` tells whether a Release that came may be installed, and the lists that it names, as `board_model`
//! defines (`value`). The list names of a source differ (`NamesDiffer`), and a disk may have
//! them (`HasDiskNames`), as they do in each sound plan.
#![tactic(auto)]

pub use admitting::{Admission, admit};
pub use found::{AdmittedRelease, Staying};
pub use lists::Lists;
pub use naming::by_name;
pub use opening::{NewLists, begin_lists};
pub use setup::Setup;

mod admitting;
mod found;
mod lists;
mod naming;
mod opening;
mod setup;
