//! Limits of a head, and texts that end within a target. Nothing here takes memory.
ghost use Rattle.std.specs.Prelude.{◌≡◌, ◌≤◌, List, length};
ghost use Rattle.std.specs.List.{count_by};
ghost use Rattle.http_wire.specs.Forms.{line_feeds};
ghost use Rattle.http_requests.specs.Heads.{behind_blank, is_space};
ghost use Rattle.http_requests.specs.Tests as tests;

use http_wire::lines_behind_blank;

/// The most bytes of a head, the empty lines before it included.
pub const HEAD_BYTES: usize = 65_536;

/// The most fields of a head.
pub const FIELDS: usize = 128;

/// Whether a text has more bytes or more fields than a head may have.
pub fn passes_limits(text: &[u8]) -> bool
    ensures { result ≡ tests.passes_limits text.now }
{
    text.len() > HEAD_BYTES || lines_behind_blank(text) > FIELDS + 1
}

/// Whether a text ends within the target of a request.
pub fn ends_in_target(text: &[u8]) -> bool
    ensures { result ≡ tests.ends_in_target text.now }
{
    let rest = behind_blank(text);
    spaces(rest) == 1 && line_feeds(rest) == 0
}

/// How many spaces there are.
fn spaces(text: &[u8]) -> usize
    ensures { result ≡ count_by is_space text.now }
{
    text.iter().filter(|b| **b == b' ').count()
}

/// How many line feeds there are.
fn line_feeds(text: &[u8]) -> usize
    ensures { result ≡ line_feeds text.now }
{
    text.iter().filter(|b| **b == b'\n').count()
}

/// The text behind the empty lines at its front.
#[tactic(auto, using(crate::proofs::EmptyLines::none_in_front, crate::proofs::EmptyLines::one_in_front))]
fn behind_blank(text: &[u8]) -> &[u8]
    ensures { result.now ≡ behind_blank text.now }
{
    let mut rest = text;
    for _ in 0..text.len() {
        let n = empty_line(rest);
        if n == 0 {
            return rest;
        }
        let (_, more) = rest.split_at(n);
        rest = more;
    }
    rest
}

/// How many bytes the empty line at the front has, or 0 where there is none.
fn empty_line(text: &[u8]) -> usize
    ensures is { result ≡ tests.empty_line text.now }
    ensures within { result ≤ length text.now }
{
    match text {
        [b'\n', ..] => 1,
        [b'\r', b'\n', ..] => 2,
        _ => 0,
    }
}
