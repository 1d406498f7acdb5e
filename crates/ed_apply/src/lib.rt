//! Edit scripts (what `diff --ed` writes): read, and applied to files one after another without copying in between.
//!
//! `read_script` is the grammar of `diff --ed` (`value`): it reads exactly what lines spell (`spelled`, `grammar`),
//! the line that it refuses is the first with which no script begins (`refused`), and NoDot comes where the lines
//! with a `.` behind them are a script (`no_dot`). What it gives is sound (`sound`), which the other calls ask for.
//! `Edit` stands for a file: `then` makes of it the file that the relation on lines says (`edited`), refuses only
//! with the first hunk that reaches too far (`refused`), and after a refusal stands for what it did (`kept`);
//! `size` is the file's length, without memory, and `copy_out` the file. `apply` and `apply_all` are written over
//! it; applying scripts one after another is what `apply_all` gives, though it copies once. The relation holds
//! exactly where the function that definitions above cite gives that file (`applied_is_edited`, a law), and a
//! script makes no file exactly where it is refused, at the first hunk that reaches too far
//! (`refused_where_none_is_applied`, a law).
#![tactic(auto)]

pub use applying::{apply, apply_all};
pub use edit::Edit;
pub use error::{ApplyError, ScriptError};
pub use laws::{applied_is_edited, refused_where_none_is_applied};
pub use reading::read_script;
pub use script::{Hunk, Script};

mod applying;
mod changing;
mod command;
mod edit;
mod error;
mod known;
mod laws;
mod layout;
mod lines;
mod reading;
mod script;
mod segment;
