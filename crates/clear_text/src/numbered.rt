//! Lines with their numbers. It touches nothing and takes no memory.

ghost use Rattle.std.specs.Prelude.{◌≡◌, ◌+◌, ◌<◌, ◌^◌, [], ◌∷◌, length, MatchOption};
ghost use Rattle.std.specs.Str.Lines.{lines as text_lines};
ghost use Rattle.clear_text.specs.Lines.{IsCounted};

use bstr::{ByteSlice, Lines};

/// The lines of a text that are still to be taken, and how many stand above them.
#[derive(Drop)]
pub struct Numbered<'a> {
    pub lines: Lines<'a>,
    pub above: u64,
}

impl<'a> Numbered<'a> {
    /// All lines of a text.
    #[tactic(auto, using(crate::proofs::Lines::same_lines))]
    pub fn new(text: &'a [u8]) -> Numbered<'a>
        ensures lines { result.lines ≡ text_lines text.now }
        ensures above { result.above ≡ 0 }
        ensures counted { IsCounted result.above result.lines }
    {
        Numbered {
            lines: text.lines(),
            above: 0,
        }
    }

    /// The next line, if there is one.
    pub fn take(&mut self) -> Option<&'a [u8]>
        requires { IsCounted self.old.above self.old.lines }
        ensures line { MatchOption result (self.old.lines ≡ []) (λ line. self.old.lines ≡ line.now ∷ self.new.lines) }
        ensures above { MatchOption result (self.new.above ≡ self.old.above) (λ line. self.new.above ≡ self.old.above + 1) }
        ensures counted { IsCounted self.new.above self.new.lines }
    {
        let line = self.lines.next()?;
        self.above += 1;
        Some(line)
    }
}
