//! Reading the lists folder: what is installed of sources, and whether an installed file is the one that was wanted.
//!
//! Nothing is changed, and a fault comes only where the disk's count of faults rose.
//!
//! The answer is what the disk tells (`told`), reads and what a crash leaves stay, and a fault comes only where the
//! disk's count rose (`frame`). An installed list is known by its sum (`Summed`), which contracts see as the list's
//! bytes: none of these is held. `installed` reads lists one after another, a piece of each, and sums these pieces side
//! by side. The list names of a source of a sound plan are names of a disk (`names_are_of_a_disk`, a law).
#![tactic(auto)]

pub use names::names_are_of_a_disk;
pub use reading::installed;
pub use summed::{Installed, Summed};
pub use verifying::verify;

mod batch;
mod content;
mod names;
mod present;
mod reading;
mod summed;
mod summing;
mod verifying;
