//! The numbers of lines. It touches nothing and takes no memory.

ghost use Rattle.std.specs.Prelude.{◌≡◌, ◌+◌, ◌<◌, ◌≤◌, ◌^◌, length};
ghost use Rattle.apt_conf.specs.Tokens as lines;

use crate::lexeme::Lexeme;

/// How many lines a text has: a final line feed opens no further line.
#[tactic(auto, unfolding(crate::specs::Tokens::last_line), using(crate::proofs::LineLemmas::last_line_one))]
pub fn last_line(text: &[u8]) -> u64
    ensures { result ≡ lines.last_line text.now }
{
    let mut line = 0;
    let mut rest = text;
    while let [first, _, ..] = rest {
        if *first == b'\n' {
            line += 1;
        }
        rest = &rest[1..];
    }
    if rest.is_empty() { line } else { line + 1 }
}

fn next_line(line: u64, byte: u8) -> u64
    requires { line + 1 < 2 ^ 64 }
    ensures { result ≡ lines.next_line line byte }
{
    if byte == b'\n' { line + 1 } else { line }
}

/// The line behind some bytes that begin on a line.
#[tactic(auto, unfolding(crate::specs::Tokens::line_behind))]
pub fn line_behind(line: u64, bytes: &[u8]) -> u64
    requires { line + length bytes.now < 2 ^ 64 }
    ensures value { result ≡ lines.line_behind line bytes.now }
    ensures bound { result ≤ line + length bytes.now }
{
    let mut reached = line;
    let mut rest = bytes;
    while let [first, after @ ..] = rest {
        reached = next_line(reached, *first);
        rest = after;
    }
    reached
}

/// The line on which a lexeme that begins on a line is refused.
pub fn token_line(last: u64, line: u64, lexeme: Lexeme) -> u64
    ensures { result ≡ lines.token_line last line lexeme }
{
    match lexeme {
        Lexeme::Unclosed => last,
        _ => line,
    }
}
