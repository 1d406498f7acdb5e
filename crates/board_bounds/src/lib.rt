//! What holds of every board beyond the laws of its model: how much it asks, that its jobs may be handed to a method, and
//! that the names of its lists may stand in a record.
//!
//! The log has few entries (`logs_are_short`), of one source at most 11 times retries + 1 times the sum of 2 and,
//! for each of its lists, 4 and the length of the list's patch chain (`sources_ask_little`). Over a sound plan,
//! where answers lead to sound places alone, each job that goes out or is out may be handed to a method
//! (`asks_may_be_fetched`). A record may put a list under each name of a sound plan, and none of them is the
//! journal's, the lock's, or that of a list on its way (`planned_names_are_put_names`). The sums that a Release
//! lists are as its text writes them, and a patch index leads by few patches (`readings_are_small`).
#![tactic(auto)]

pub use counts::{logs_are_short, readings_are_small, sources_ask_little};
pub use fetching::asks_may_be_fetched;
pub use names::planned_names_are_put_names;

mod counts;
mod fetching;
mod names;
