//! The lines of a text. Nothing here takes memory.

ghost use Rattle.std.specs.Prelude.{◌≡◌, ◌==◌, ◌<◌, ◌≤◌, ◌∷◌, length, take, drop};
ghost use Rattle.std.specs.List.{position_or_len};
ghost use Rattle.ed_apply.specs.Edits.{file_lines};
ghost use Rattle.ed_apply.specs.Grammar.{without_feed as unended};

use memchr::memchr;

/// How many bytes the first line of a text has, its line feed included. A text that isn't empty has a line.
#[tactic(auto, using(crate::proofs::FileLines::cuts))]
pub fn first_line_len(text: &[u8]) -> usize
    requires { 0 < length text.now }
    ensures some { 0 < result }
    ensures within { result ≤ length text.now }
    ensures lines { file_lines text.now ≡ take result text.now ∷ file_lines (drop result text.now) }
{
    let at = place_of(b'\n', text);
    if at < text.len() { at + 1 } else { at }
}

/// Where the byte first stands in a text, or the text's length.
pub fn place_of(byte: u8, text: &[u8]) -> usize
    ensures place { result ≡ position_or_len (λ c. c == byte) text.now }
    ensures within { result ≤ length text.now }
{
    match memchr(byte, text) {
        Some(at) => at,
        None => text.len(),
    }
}

/// A line without its line feed.
pub fn without_feed(line: &[u8]) -> &[u8]
    ensures { result.now ≡ unended line.now }
{
    match line {
        [front @ .., b'\n'] => front,
        _ => line,
    }
}
