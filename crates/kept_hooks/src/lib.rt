//! Closures that a caller hands in once and the engine calls later, each kept beside the fact of what it answers.
//!
//! The fact is part of the hook's type: whoever has a hook may call it and knows the answer, and a closure that answers
//! otherwise can't be put in.
//!
//! A `Picker` and a `Judge` keep a closure beside the fact about it, which is part of the type: `pick` answers
//! whether a target's kind is switched on, `allows` whether a Release's head may follow the installed one's,
//! whatever closure was put in (one that answers otherwise can't be). Neither takes memory.
#![tactic(auto)]

pub use judge::{HeadTest, Judge};
pub use picker::{Picker, TargetTest};

mod judge;
mod picker;
