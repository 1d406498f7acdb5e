//! The kept closure on targets. It touches nothing and takes no memory.

ghost use Rattle.std.specs.Prelude.{◌≡◌};
ghost use Rattle.kept_hooks.specs.Picking.{is_picked, Picks};

use acq_base::{Pick, Target};

/// A closure that says yes or no to a target.
pub type TargetTest = Box<dyn Fn(&Target) -> bool>;

/// Which targets of the sources are planned: those whose kind is switched on in `pick`.
#[derive(Drop)]
pub struct Picker {
    test: TargetTest,
    pub pick: Pick,
    ghost callable: { IsAlwaysCallable test },
    ghost picks: { Picks pick (post test) },
}

impl Picker {
    /// Keeps a closure that may be called on any target and says yes exactly where the target's kind is switched on.
    pub fn new(test: TargetTest, pick: Pick) -> Picker
        requires callable { IsAlwaysCallable test }
        requires picks { Picks pick (post test) }
        ensures { result.pick ≡ pick }
    {
        Picker { test, pick }
    }

    /// Whether the target's kind is switched on, as the closure says. It takes no memory.
    pub fn pick(&self, target: &Target) -> bool
        ensures { result ≡ is_picked self.now.pick target.now }
    {
        (self.test)(target)
    }
}
