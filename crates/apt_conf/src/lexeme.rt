//! What stands at the front of a text. It touches nothing and takes no memory.

ghost use Rattle.std.specs.Prelude.{◌≡◌, ◌≢◌, ◌<◌, ◌^◌, [], length};
ghost use Rattle.apt_conf.specs.Progress.{IsExtent};
ghost use Rattle.apt_conf.specs.Lexemes as lexemes;

use crate::run::{Stop, byte_at, is_boundary, is_line_end, is_space, length_until, opens_comment};

/// What stands at the front of a text: white space or a comment, or a token, with its length in bytes.
#[derive(Clone, Copy, Debug, PartialEq, Eq)]
pub enum Lexeme {
    /// So many bytes of white space or of a comment.
    Gap(usize),
    /// A word of so many bytes, and so many of the `#` comment that ends it, if one does.
    Word(usize, usize),
    /// A quoted value of so many bytes, its two quotes aside.
    Quoted(usize),
    /// `;`
    Semicolon,
    /// `{`
    Open,
    /// `}`
    Close,
    /// Reading stops here: a quoted value that doesn't end in its line, or a command.
    Torn,
    /// A comment that nothing closes.
    Unclosed,
}

/// `#include` and `#clear` are commands, which this profile doesn't carry out.
#[tactic(auto, unfolding(crate::specs::Lexemes::is_command))]
fn is_command(text: &[u8]) -> bool
    ensures { result ≡ lexemes.is_command text.now }
{
    is_word(text, b"#include") || is_word(text, b"#clear")
}

/// Whether a text begins with this word, and the word ends there.
#[tactic(auto, unfolding(crate::specs::Lexemes::is_word))]
fn is_word(text: &[u8], word: &[u8]) -> bool
    ensures { result ≡ lexemes.is_word word.now text.now }
{
    if !text.starts_with(word) {
        return false;
    }
    is_boundary(&text[word.len()..])
}

#[tactic(auto, unfolding(crate::specs::Lexemes::line_comment))]
fn line_comment(text: &[u8]) -> Lexeme
    requires { text.now ≢ [] }
    ensures value { result ≡ lexemes.line_comment text.now }
    ensures within { IsExtent (lexemes.extent result) (length text.now) }
{
    Lexeme::Gap(length_until(Stop::LineFeed, &text[1..]) + 1)
}

#[tactic(auto, unfolding(crate::specs::Lexemes::block_comment))]
fn block_comment(text: &[u8]) -> Lexeme
    requires { text.now ≢ [] }
    ensures value { result ≡ lexemes.block_comment text.now }
    ensures within { IsExtent (lexemes.extent result) (length text.now) }
{
    let Some((_, inside)) = text.split_at_checked(2) else {
        return Lexeme::Unclosed;
    };
    let count = length_until(Stop::CommentEnd, inside);
    if count + 2 <= inside.len() {
        Lexeme::Gap(count + 4)
    } else {
        Lexeme::Unclosed
    }
}

#[tactic(auto, unfolding(crate::specs::Lexemes::comment_at))]
fn comment_at(text: &[u8]) -> Lexeme
    requires { text.now ≢ [] }
    ensures value { result ≡ lexemes.comment_at text.now }
    ensures within { IsExtent (lexemes.extent result) (length text.now) }
{
    if byte_at(text, 0) == b'#' {
        if is_command(text) {
            Lexeme::Torn
        } else {
            line_comment(text)
        }
    } else if byte_at(text, 1) == b'/' {
        line_comment(text)
    } else {
        block_comment(text)
    }
}

#[tactic(auto, unfolding(crate::specs::Lexemes::quoted_at))]
fn quoted_at(text: &[u8]) -> Lexeme
    requires { text.now ≢ [] }
    ensures value { result ≡ lexemes.quoted_at text.now }
    ensures within { IsExtent (lexemes.extent result) (length text.now) }
{
    let count = length_until(Stop::LastQuoted, text);
    if byte_at(text, count + 1) == b'"' {
        Lexeme::Quoted(count)
    } else {
        Lexeme::Torn
    }
}

#[tactic(auto, unfolding(crate::specs::Lexemes::word_at))]
fn word_at(text: &[u8]) -> Lexeme
    requires { text.now ≢ [] }
    ensures value { result ≡ lexemes.word_at text.now }
    ensures within { IsExtent (lexemes.extent result) (length text.now) }
{
    let count = length_until(Stop::WordEnd, &text[1..]) + 1;
    if byte_at(text, count) != b'#' {
        return Lexeme::Word(count, 0);
    }
    let (_, comment) = text.split_at(count);
    Lexeme::Word(count, length_until(Stop::LineFeed, comment))
}

#[tactic(auto, unfolding(crate::specs::Lexemes::token_at))]
fn token_at(text: &[u8]) -> Lexeme
    requires { text.now ≢ [] }
    ensures value { result ≡ lexemes.token_at text.now }
    ensures within { IsExtent (lexemes.extent result) (length text.now) }
{
    let first = byte_at(text, 0);
    if first == b'"' {
        quoted_at(text)
    } else if first == b';' {
        Lexeme::Semicolon
    } else if first == b'{' {
        Lexeme::Open
    } else if first == b'}' {
        Lexeme::Close
    } else {
        word_at(text)
    }
}

/// What stands at the front of a text that isn't empty. Outside of quotes `#`, `//` and `/*` begin comments, as apt.conf(5)
/// has them.
#[tactic(auto, unfolding(crate::specs::Lexemes::lexeme_at))]
pub fn lexeme_at(text: &[u8]) -> Lexeme
    requires { text.now ≢ [] }
    ensures value { result ≡ lexemes.lexeme_at text.now }
    ensures within { IsExtent (lexemes.extent result) (length text.now) }
{
    if is_space(text) {
        Lexeme::Gap(1)
    } else if is_line_end(text) {
        Lexeme::Gap(2)
    } else if opens_comment(text) {
        comment_at(text)
    } else {
        token_at(text)
    }
}

/// How many bytes a lexeme takes, its quotes and the comment that ends a word included.
pub fn extent(lexeme: Lexeme) -> usize
    requires { lexemes.extent lexeme < 2 ^ 64 }
    ensures { result ≡ lexemes.extent lexeme }
{
    match lexeme {
        Lexeme::Gap(count) => count,
        Lexeme::Word(count, more) => count + more,
        Lexeme::Quoted(count) => count + 2,
        _ => 1,
    }
}
