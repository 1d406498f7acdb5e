//! What an update of the lists comes to: what a mirror's answers mean, which asks lead there, which set of lists a source
//! gets, and what a run leaves in the folder of lists.
//!
//! The definitions of `specs/` speak of plain lists and finite maps; the contracts of the layers above cite them. Here
//! stand the types that these share with code, and the laws: functions without a body, each of which states one.
//!
//! The laws:
//! - Routes that agree with a mirror, and in which each ask is answered in the end, end as what is obtained from it
//!   (`routes_end_as_obtained`) and make the new set (`routes_make_new_sets`), which depends on the URIs of the
//!   routes alone. Faults may keep a source from its new set, but what is had or come to over a mirror is the
//!   mirror's (`faults_change_no_file`).
//! - Whatever is answered: the asks so far are the front of a route (`runs_stand_in_routes`), they are few
//!   (`routes_ask_little`), those of a list begin at sound URIs (`patches_lie_at_sound_uris`), and a list that is
//!   had is the listed one, a new set's Release admissible (`routes_end_as_listed`).
//! - What is obtained fits, and wrong patches and stale partial files change no outcome (`obtained_files_fit`). A
//!   new set's Release is admissible and each of its lists fits (`new_sets_are_admissible`).
//! - What a run leaves is determined but for bytes of equal sums, and a source without a new set keeps its files
//!   (`nexts_are_alike`); for a sound plan there is such an end (`next_is_there`), to which the installations in
//!   any order, and the clean-up last, lead (`deeds_lead_to_next`), whether the run commits them one by one or
//!   together (`commits_lead_to_next`). A set that is there already is known (proofs/Theorems).
#![tactic(auto)]

pub use ask::{Ask, Body, Closed, Ending};
pub use cause::Cause;
pub use end::End;
pub use laws::{
    commits_lead_to_next, deeds_lead_to_next, faults_change_no_file, new_sets_are_admissible,
    next_is_there, nexts_are_alike, obtained_files_fit, patches_lie_at_sound_uris,
    routes_ask_little, routes_end_as_listed, routes_end_as_obtained, routes_make_new_sets,
    runs_stand_in_routes,
};
pub use log::{Asked, Heard, RunLog};
pub use settled::{Held, Settled, Verdict2};
pub use wanted::Wanted;

mod ask;
mod cause;
mod end;
mod laws;
mod log;
mod settled;
mod wanted;
