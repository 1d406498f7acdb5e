//! What a journal means, without the calls of a disk: which steps its bytes say and how they are read, which lists a
//! folder stands for once they are carried out, and what a disk is between two commits.
//!
//! `read_journal` is exactly the record behind an open gate, of version 1 or 2, or the place at which it is
//! damaged, or that the gate is shut. What is spelled as a record is read as it (`records_are_read`), what is read
//! as one was spelled so (`records_only`), and damage lies behind the gate, within the file or at its end
//! (`damage_is_within`). A record's names stay in the folder, else the name is damage (`is_inside`). A commit may be prepared just where no change of a list's or the journal's name is pending
//! and a crash leaves a shut journal (`idle_is_shut`). The definitions of what a folder stands for once its journal
//! is carried out, and of a disk between two commits, are cited by partial_store, commit_journal and the crates
//! above.
#![tactic(auto)]

pub use gate::read_journal;
pub use inside::{is_file_name, is_inside, stays_inside};
pub use laws::{damage_is_within, idle_is_shut, idle_rests, records_are_read, records_only};
pub use partial_name::PartialName;
pub use record::ReadError;
pub use step::{JournalState, Step};
pub use writing::body_bytes;

mod gate;
mod inside;
mod laws;
mod partial_name;
mod record;
mod seen;
mod step;
mod writing;
