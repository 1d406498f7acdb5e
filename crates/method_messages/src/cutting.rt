//! Where lines and fields are cut. It touches nothing and takes no memory.

ghost use Rattle.std.specs.Prelude.{◌≡◌, ◌≤◌, ◌==◌, ℕ, ◌++◌, true, List, length, drop, MatchOption};
ghost use Rattle.std.specs.List.{before_first, after_first};
ghost use Rattle.method_messages.specs.Lines.{is_line, ended};
ghost use Rattle.method_messages.specs.Within.{IsNextFeed};

use memchr::{memchr, memrchr};

/// What stands before the first such byte, and what behind it: all of the text and nothing where there is none.
pub fn cut_at(byte: u8, text: &[u8]) -> (&[u8], &[u8])
    ensures front { result.0.now ≡ before_first (λ c. c == byte) text.now }
    ensures behind { result.1.now ≡ after_first (λ c. c == byte) text.now }
{
    match memchr(byte, text) {
        Some(at) => {
            let (front, rest) = text.split_at(at);
            let (_, behind) = rest.split_at(1);
            (front, behind)
        }
        None => text.split_at(text.len()),
    }
}

/// The place of the first line feed from a place on.
pub fn next_feed(text: &[u8], from: usize) -> Option<usize>
    requires { from ≤ length text.now }
    ensures { MatchOption result (is_line (drop from text.now) ≡ true) (λ at. IsNextFeed text.now from at) }
{
    let (_, rest) = text.split_at(from);
    match memchr(b'\n', rest) {
        Some(at) => Some(from + at),
        None => None,
    }
}

/// The lines of a text that have ended, and what stands behind them.
pub fn last_line(text: &[u8]) -> (&[u8], &[u8])
    ensures { (lines : List (List ℕ)) (line : List ℕ) → text.now ≡ ended lines ++ line → is_line line ≡ true
        → (result.0.now ≡ ended lines) × (result.1.now ≡ line) }
{
    match memrchr(b'\n', text) {
        Some(at) => text.split_at(at + 1),
        None => text.split_at(0),
    }
}
