//! What runs promise, in the words of those who keep lists: laws over what an update's contract says.
//!
//! Each is a function without a body of its own, which a caller of a run calls for what it says.
//!
//! They say in the words of those who keep lists what follows of a run's clauses: whatever it answers, a stop leaves
//! each source its former set or a new one, whole, of a Release that may be installed beside the former one
//! (`runs_stop_with_sets`), and over a mirror that new set is the one that its answers define (`runs_stop_as_served`);
//! where it answers a log, the lists are as the log tells, beside them only lists on their way change, as answers left
//! them, and what a clean-up takes is gone (`lists_match_log`); and over a mirror they end as its answers define, or a
//! fetch was given up, as none is where no method failed (`lists_match_mirror`). The log is what items of the plan
//! heard, and shows of each source the routes of its items, in order, its verdict by their ends, and that little was
//! asked (`logs_show_runs`); and a source that the mirror serves whole, an admissible Release with bytes that fit for
//! each list that it names, has a set in it (`runs_tell_served`). Once the journal was open a stop leaves none that is
//! damaged (`runs_stop_undamaged`); one for want of memory leaves the same lists whatever a crash leaves
//! (`runs_stop_on_same_lists`); and one in the midst of a call leaves whole sets where those before it and behind it
//! do (`stops_within_calls`).
#![tactic(auto)]

pub use promises::{
    lists_match_log, lists_match_mirror, logs_show_runs, runs_stop_as_served,
    runs_stop_on_same_lists, runs_stop_undamaged, runs_stop_with_sets, runs_tell_served,
    stops_within_calls,
};

mod promises;
