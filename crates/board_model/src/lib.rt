//! What a board of all sources of a plan is, and what each call makes of it: which jobs go out, what their answers lead to,
//! and what each source comes to.
//!
//! Here stand the definitions, which the contracts of the board's calls cite, and the laws over whole runs.
//!
//! Whatever is called and answered, in whatever order, the log's entries of each item are the front of a route of
//! its walk, and the item asks the next of it; a board is finished exactly where each source is settled
//! (`boards_walk_routes`). A source that is settled has the verdict of the outcome of the routes with which its
//! items ended; where its items heard a mirror and no ask was given up, the verdict is that of what the mirror has
//! for it (`verdicts_are_of_outcomes`). Over every order of calls and answers: each call is an event of a run, so
//! that a board is tied to what happened (proofs/Theorems); each item that asks waits or is out, once, in the lane of
//! its host, what is out is what its item asks, and no job goes out of a lane exactly where one is out or all that
//! ask its hosts are out (`jobs_stand`); each source is settled at most once (`sources_are_settled_once`); what is
//! still wanted of a partial file only falls (proofs/Theorems); the changes of a settled source are of its own names,
//! none twice, and lead them to its outcome (`changes_leave_outcomes`); the last answers show what each item came
//! to (`last_answers_show_ends`). Whatever is answered, a set that is told is that of an admissible Release with each list as it
//! names it (`told_sets_hold`). Two finished runs that agree with one mirror, and in which no ask was given up,
//! tell the same verdicts (`finished_boards_tell`). The bound on the log's entries stands here under two premises
//! on how Releases and patch indexes are read (`asks_are_few`), which board_bounds proves.
#![tactic(auto)]

pub use calls::{asks_are_few, jobs_stand, sources_are_settled_once};
pub use key::Key;
pub use laws::{boards_walk_routes, verdicts_are_of_outcomes};
pub use outcomes::{
    changes_leave_outcomes, finished_boards_tell, last_answers_show_ends, told_sets_hold,
};

mod calls;
mod key;
mod laws;
mod outcomes;
