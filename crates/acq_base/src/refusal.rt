//! What a report names of a refusal.

ghost use Rattle.std.specs.Prelude.{◌≡◌, ℕ};

/// A refusal that a report can name by its number and, where it has one, its line.
pub trait Refusal {
    ghost number: { Self → ℕ };

    ghost line: { Self → ℕ };

    /// The refusal's number, 0 where it has none.
    fn number(&self) -> u32
        ensures { result ≡ number self.now };

    /// The line of the text that is refused, counted from 1, or 0 where the refusal has none.
    fn line(&self) -> u64
        ensures { result ≡ line self.now };
}
