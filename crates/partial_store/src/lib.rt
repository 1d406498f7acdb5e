//! Lists on their way: a file under `partial/` for each list, filled piece by piece and kept from one run to the next.
//!
//! No call takes memory, and none changes a list: in what reads give, and, where a commit may be prepared, in what a crash
//! leaves.
//!
//! Over a disk that tells, a file's bytes are those kept and those put (`bytes`), and after `finish` they last
//! (`synced`); what was put before it is in all that a crash may leave once the names are synced (`finished_lasts`,
//! a law). Each call that changes the disk is one cut, write or sync of that file (`step`). At every moment, in failed
//! calls too, where a commit may be prepared the lists stay, in reads and in what a crash leaves (`moments`), and at a
//! call's end the files of all other names stay (`others`). No call takes memory.
#![tactic(auto)]

pub use laws::finished_lasts;
pub use part::Part;
pub use store::{begin, finish, put, read_part, resume_from};

mod laws;
mod part;
mod store;
