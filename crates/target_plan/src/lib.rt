//! The plan of an update: which sources the configuration's entries name, which lists of each, under which names.
//!
//! The definitions in specs/ go by what entries say (`Offers`), the sources and lists that come of it (`Drafts`) and the
//! plan or the first of its three refusals (`Planning`).
//!
//! `plan` is its definition (`value`): the sources in first-seen order, each with its lists as far as the picker
//! has them, or the first of three refusals. A source is planned exactly where some entry names it (`each_entry`,
//! `each_source`); its targets are of picked kinds (`picked`), all files lie under the list names of their URIs
//! (`named`), which are distinct, of at most 240 bytes and at most 4,096 together (`distinct`, `short`, `few`).
//! Each target is asked for by an entry that names its source (`asked`), and whatever such an entry asks for, by
//! component, kind and architecture or language, is planned under its list name where its kind is switched on
//! (`complete`), whatever the order of work. Of entries and settings as their readers give them the plan is sound
//! (`sound`). Where each source has one entry, whose suite is no exact path, whose components differ and whose
//! paths have no segment that begins with a dot, more than 4,096 files are told before any is drafted; otherwise
//! each file is drafted first. That is the form of the code, and no clause.
#![tactic(auto)]

pub use error::{Place, PlanError};
pub use planning::plan;

mod architectures;
mod checks;
mod draft;
mod error;
mod groups;
mod marks;
mod offers;
mod overfull;
mod places;
mod planning;
