//! What a run over a board and a journal comes to, between what its loop delivers and what those who keep lists want: the
//! commits that it makes, what they leave under the names of each source, and what a crash leaves of them.
//!
//! Here stand the definitions, and the laws: functions without a body, each of which states one.
//!
//! Whatever was answered: each source's outcome is told and left under its names, a source that is told to have a
//! set has just that there, each other has its former files, and the names of no source go exactly where they are
//! to (`runs_leave_outcomes`). At every moment, whatever a crash leaves, once the journal is opened again, has
//! under each source's names what was there when the run began or its new set, whole; each new set is an admissible
//! Release's, and the mirror's where one was heard (`commits_leave_whole`); commits are acknowledged in turn
//! (`commits_are_in_turn`). Over a mirror and with no ask given up, the lists are those that are next, each source
//! for which the mirror has a set has it, and two such runs leave alike lists and tell the same, in whatever order
//! answers came and whether they commit one by one or together (`runs_lead_to_next`). The log tells just what items
//! of the plan heard (`notes_are_of_items`). Further laws serve the proofs of the code that
//! carries a run out (proofs/Theorems).
#![tactic(auto)]

pub use asked::notes_are_of_items;
pub use finished::runs_leave_outcomes;
pub use mirrored::runs_lead_to_next;
pub use stopped::commits_leave_whole;
pub use turns::commits_are_in_turn;

mod asked;
mod finished;
mod mirrored;
mod stopped;
mod turns;
