//! Whether a file that comes in pieces is the one that a sum names, and the sum of such a file.
//!
//! Neither value takes memory, and neither answer depends on how the bytes were cut: contracts speak of all pieces
//! together.
//!
//! `Gate` tells whether the pieces of a file are the wanted one (`verdict`, `fits`), and `Total` what their sum is,
//! however they are cut. Neither takes memory.
#![tactic(auto)]

pub use gate::Gate;
pub use total::Total;
pub use verdict::Verdict;

mod gate;
mod total;
mod verdict;
