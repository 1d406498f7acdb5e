//! One item of an update, a Release or a list, or a single file: what it asks next, given what was answered so far, and
//! what it comes to.
//!
//! An item walks a route of `update_model`, one answer at a time, whatever is answered. It has no handle: who asks, and
//! in which order, is the caller's.
//!
//! An `Item` is a Release, a list or a single file that is being fetched: what it asks next, given what was answered so
//! far. Its place in the definitions of `update_model` is a function of it; `for_release` and `for_list` begin the
//! walks that are defined there (`walk`), `for_file` that of a list which lies at its own URI alone (`walk`), `answer`
//! takes the step that is defined for an answer (`step`), `ask` is what is asked next or that it has ended (`value`),
//! `end` what it came to. So, whatever is answered, what an item has heard is the front of a route, and what it asks is
//! the next of it (`items_walk_routes`, a law); over a mirror's answers it ends as the file is obtained from that
//! mirror (`items_end_as_obtained`, a law). It asks at sound URIs alone (`sound`). Patches are merged before anything is
//! copied, which no clause says.
#![tactic(auto)]

pub use item::Item;
pub use laws::{items_end_as_obtained, items_walk_routes};
pub use old_file::OldFile;
pub use update_model::{Ask, Body, Cause, Closed, End};
pub use wanted::want;

mod editing;
mod item;
mod laws;
mod list;
mod old_file;
mod patches;
mod patching;
mod release;
mod state;
mod wanted;
mod ways;
