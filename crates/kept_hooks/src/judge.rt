//! The kept closure on heads of Releases. It touches nothing and takes no memory.

ghost use Rattle.std.specs.Prelude.{◌≡◌};
ghost use Rattle.release_file.specs.Changes.{allowed};
ghost use Rattle.kept_hooks.specs.Judging.{Allows};

use release_file::{Change, Head};

/// A closure that says yes or no to a Release's head, given the installed one's.
pub type HeadTest = Box<dyn Fn(&Head, &Head) -> bool>;

/// Which heads may follow which: those that differ only in fields that are switched on in `change`.
#[derive(Drop)]
pub struct Judge {
    test: HeadTest,
    pub change: Change,
    ghost callable: { IsAlwaysCallable test },
    ghost allows: { Allows change (post test) },
}

impl Judge {
    /// Keeps a closure that may be called on any two heads, the installed one first, and says yes exactly where the
    /// second may follow the first.
    pub fn new(test: HeadTest, change: Change) -> Judge
        requires callable { IsAlwaysCallable test }
        requires allows { Allows change (post test) }
        ensures { result.change ≡ change }
    {
        Judge { test, change }
    }

    /// Whether a Release with the head `new` may replace one with the head `old`, as the closure says. It takes no memory.
    pub fn allows(&self, old: &Head, new: &Head) -> bool
        ensures { result ≡ allowed self.now.change old.now new.now }
    {
        (self.test)(old, new)
    }
}
