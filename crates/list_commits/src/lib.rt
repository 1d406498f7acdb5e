//! What a run changes in the lists folder, as commits of its journal: the changes of a source that is settled, and the
//! clean-up of names that belong to no source; and how one commit is made behind another.
//!
//! `changes_of` are the changes of a settled source, its lists in plan order, then its Release, then what goes;
//! they make its new set (`changes_make_sets`). `loose_names` are the names that belong to no source, in byte order
//! (`told`), and `drops_of` removes them (`drops_clean_up`). Changes of any sources with names apart, and a clean-up
//! behind them, can be recorded in one commit (proofs/Theorems), and are carried out source after source
//! (`gathered_are_carried`). `commit_groups` prepares and makes a commit: made, or not begun, or stopped within
//! (`done`, `stopped`). Commits made in turn are the progress of a run, of which the journal's laws say what a
//! crash leaves (proofs/Theorems).
#![tactic(auto)]

pub use cleaning::{drops_of, removed_of};
pub use committing::commit_groups;
pub use laws::{changes_make_sets, drops_clean_up, gathered_are_carried};
pub use loose::loose_names;
pub use settling::changes_of;

mod cleaning;
mod committing;
mod laws;
mod loose;
mod settling;
