//! Runs of bytes: how many stand before what ends them. It touches nothing and takes no memory.

ghost use Rattle.std.specs.Prelude.{◌≡◌, ◌≤◌, ◌<◌, length, slice_index};
ghost use Rattle.apt_conf.specs.Lexemes as lexemes;

/// What a run of bytes stands before.
#[derive(Clone, Copy, Debug, PartialEq, Eq)]
pub enum Stop {
    /// A line feed.
    LineFeed,
    /// `=`
    EqualsSign,
    /// `*/`
    CommentEnd,
    /// White space, a delimiter, a comment or the end.
    WordEnd,
    /// The last byte before a line feed, or before a `"` that no `\` stands before.
    LastQuoted,
}

/// How many bytes of a text stand before the first place at which a run stops, or all of them.
#[tactic(auto, unfolding(crate::specs::Lexemes::length_until))]
pub fn length_until(stop: Stop, text: &[u8]) -> usize
    ensures value { result ≡ lexemes.length_until (lexemes.stops_at stop) text.now }
    ensures within { result ≤ length text.now }
{
    let mut rest = text;
    let mut count = 0;
    while let [_, after @ ..] = rest {
        if stops_at(stop, rest) {
            break;
        }
        count += 1;
        rest = after;
    }
    count
}

/// Whether a run stops at the front of a text.
fn stops_at(stop: Stop, text: &[u8]) -> bool
    ensures { result ≡ lexemes.stops_at stop text.now }
{
    match stop {
        Stop::LineFeed => byte_at(text, 0) == b'\n',
        Stop::EqualsSign => byte_at(text, 0) == b'=',
        Stop::CommentEnd => closes_comment(text),
        Stop::WordEnd => ends_word(text),
        Stop::LastQuoted => closes_quote(text),
    }
}

/// The byte at a place, 0 past the end.
pub fn byte_at(text: &[u8], place: usize) -> u8
    ensures value { result ≡ slice_index text.now place }
    ensures within { 0 < result → place < length text.now }
{
    match text.get(place) {
        Some(byte) => *byte,
        None => 0,
    }
}

/// Whether the text begins with a space, a tab or a line feed.
pub fn is_space(text: &[u8]) -> bool
    ensures { result ≡ lexemes.is_space text.now }
{
    let first = byte_at(text, 0);
    first == b' ' || first == b'\t' || first == b'\n'
}

/// Whether the text begins with a carriage return and a line feed.
pub fn is_line_end(text: &[u8]) -> bool
    ensures { result ≡ lexemes.is_line_end text.now }
{
    byte_at(text, 0) == b'\r' && byte_at(text, 1) == b'\n'
}

fn is_delimiter(text: &[u8]) -> bool
    ensures { result ≡ lexemes.is_delimiter text.now }
{
    let first = byte_at(text, 0);
    first == b'"' || first == b';' || first == b'{' || first == b'}'
}

/// Whether the text begins with the sign of a comment.
pub fn opens_comment(text: &[u8]) -> bool
    ensures { result ≡ lexemes.opens_comment text.now }
{
    let first = byte_at(text, 0);
    let second = byte_at(text, 1);
    first == b'#' || (first == b'/' && (second == b'/' || second == b'*'))
}

/// Whether a word ends before the text.
#[tactic(auto, unfolding(crate::specs::Lexemes::is_boundary))]
pub fn is_boundary(text: &[u8]) -> bool
    ensures { result ≡ lexemes.is_boundary text.now }
{
    text.is_empty() || is_space(text) || is_line_end(text) || is_delimiter(text)
}

#[tactic(auto, unfolding(crate::specs::Lexemes::ends_word))]
fn ends_word(text: &[u8]) -> bool
    ensures { result ≡ lexemes.ends_word text.now }
{
    is_boundary(text) || opens_comment(text)
}

#[tactic(auto, unfolding(crate::specs::Lexemes::closes_comment))]
fn closes_comment(text: &[u8]) -> bool
    ensures { result ≡ lexemes.closes_comment text.now }
{
    byte_at(text, 0) == b'*' && byte_at(text, 1) == b'/'
}

#[tactic(auto, unfolding(crate::specs::Lexemes::closes_quote))]
fn closes_quote(text: &[u8]) -> bool
    ensures { result ≡ lexemes.closes_quote text.now }
{
    let next = byte_at(text, 1);
    next == b'\n' || (next == b'"' && byte_at(text, 0) != b'\\')
}
