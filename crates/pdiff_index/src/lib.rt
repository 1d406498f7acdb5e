//! The patch Index of a list (`PATH.diff/Index` of a Debian repository): read, and the patches that lead from an
//! installed list to the wanted one.
//!
//! `read_index` answers exactly the Index or the first refusal of its definition (`value`); no two of its patches
//! have one name (`distinct`), and names are of the allowed form (`named`). `chain` is exactly the row of patches
//! that leads on from the last history line with the installed file's sum, or the first cause why there is none
//! (`value`): patches of the Index under the names of the history's lines, in their order (`listed`). Both are in n
//! log n time by design, which no clause says.
#![tactic(auto)]

pub use error::{IndexError, NoChain};
pub use index::{Index, Step};
pub use links::chain;
pub use reading::read_index;

mod error;
mod index;
mod links;
mod reading;
mod steps;
mod sums;
