//! An input, as the rest of the program asks for it.
ghost use Rattle.std.specs.Prelude.{◌≡◌, ℕ, ◌<◌, ◌≤◌, List, length, take, Option, IfOk, OnErr};
ghost use Rattle.acq_outside.specs.Frame.{GivesBy};
ghost use Rattle.acq_outside.specs.Inlet.{Gave, IsSpent};

use crate::Fault;

/// Where input comes from.
pub trait Inlet: Drop {
    /// How often it failed.
    ghost faults: { Self → ℕ };

    /// How often the end was given.
    ghost ends: { Self → ℕ };

    /// The bytes still to come, where it tells them.
    ghost left: { Self → Option (List ℕ) };

    /// Reads the next bytes into the front of `out` and answers how many: 0 only at the end. After a fault none of them
    /// is lost.
    fn read(&mut self, out: &mut [u8]) -> Result<usize, Fault>
        requires { 0 < length out.old }

        ensures frame { GivesBy faults ends self.old self.new result }

        ensures within { IfOk result (λ n. n ≤ length out.old) }
        ensures room { length out.new ≡ length out.old }
        ensures gave { IfOk result (λ n. Gave (left self.old) (take n out.new) (left self.new)) }
        ensures spent { IfOk result (λ n. n ≡ 0 → IsSpent (left self.old)) }
        ensures err { OnErr result (left self.new ≡ left self.old) };
}
