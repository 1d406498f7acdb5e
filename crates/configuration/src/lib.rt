//! The configuration of an update: from the configuration folder and the options of the command line to the plan, the
//! settings and which changed heads are allowed, or to the first refusal.
//!
//! apt.conf.d counts first, by names, then apt.conf, then the options; settings and change are judged before sources.list
//! is read, sources.list.d follows it by names, and the plan comes last.
//!
//! `configure` gives the plan, the settings and the allowed changes of a configuration folder and the options of
//! the command line, or the first refusal with its file, number and line: by the files that the folder tells, or by
//! some files where it tells none (`answer`). The plan and the settings are sound (`sound`, `settings`). A fault
//! comes only where the folder's count rose, and no file changes (`frame`). That each file is read once is the form
//! of the code, and no clause, and so is that a refusal comes before a fault of a file behind it.
#![tactic(auto)]

pub use change::change_of;
pub use configuring::{Configured, configure};
pub use error::ConfigurationError;

mod change;
mod conf;
mod configuring;
mod error;
mod file;
mod lists;
mod names;
mod planning;
