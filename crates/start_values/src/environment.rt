//! The environment of a process, as the rest of the crate asks for it.
ghost use Rattle.std.specs.Prelude.{Option, IfSome};
ghost use Rattle.start_values.specs.Environment.{Known, IsWords, IsValue};

use std::alloc::Global;

/// Why the words or a variable can't be had.
#[derive(Clone, Copy, Debug, PartialEq, Eq)]
pub enum Unread {
    /// It isn't UTF-8.
    NotText,
    NoMemory,
}

/// The words and the variables that a process was started with. They never change.
pub trait Environment {
    /// What they are, where it tells them.
    ghost known: { Self → Option Known };

    /// All words, the program's own name first.
    fn words(&self, alloc: Global) -> Result<Vec<String>, Unread>
        ensures { IfSome (known self.now) (λ told. IsWords told.words result) };

    /// The value of a variable, `None` where it isn't set.
    fn variable(&self, alloc: Global, name: &str) -> Result<Option<String>, Unread>
        ensures { IfSome (known self.now) (λ told. IsValue (told.value name.now) result) };
}
