//! The Release file of a source, with a signed frame or without: what it says, which sums it lists, and whether its dates
//! and its head let it replace the installed one.
//!
//! `read_release` answers exactly the value or the first refusal of its definition, with a frame or without
//! (`value`); a path is listed with a sum exactly where a sum line says so (`listed`), and no path stands twice
//! (`distinct`). Where it is read, each sum line reads and contradicts none above it (`allowed`); `BadSums` names
//! the first that doesn't, or the field's line where its first line isn't empty (`refused`). `find_file` gives the
//! listed sum or none. `judge_dates` answers exactly the first of three refusals (`value`), and passes exactly
//! where the Release is admissible in time (`admissible`; as a law, `judged_is_admissible`). `refused_field` is the
//! first of Origin, Label, Suite and Codename that differs and isn't switched on, and `is_allowed` that there is
//! none.
#![tactic(auto)]

pub use changing::{Change, HeadField, is_allowed, refused_field};
pub use error::ReleaseError;
pub use judging::{DateError, judge_dates, judged_is_admissible};
pub use reading::read_release;
pub use release::{Head, Listed, Release};
pub use sums::find_file;

mod changing;
mod date;
mod error;
mod judging;
mod reading;
mod release;
mod sums;
