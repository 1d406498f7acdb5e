//! Tokens. Their texts take memory; nothing else is touched.

ghost use Rattle.std.specs.Prelude.{◌≡◌, ◌≤◌, length, IfOk};
ghost use Rattle.apt_conf.specs.Lexemes.{extent};
ghost use Rattle.apt_conf.specs.Tokens.{front_token};

use crate::lexeme::Lexeme;
use acq_base::{NoMemory, Text};
use std::alloc::Global;

/// A token of apt.conf(5).
#[derive(Debug, PartialEq, Drop)]
pub enum Token {
    /// A word outside of quotes: a key, or a value.
    Word(Text),
    /// What stands between two quotes, byte for byte.
    Quoted(Text),
    /// `;`
    Semicolon,
    /// `{`
    Open,
    /// `}`
    Close,
    /// What no statement takes.
    Torn,
}

/// The token that a lexeme at the front of a text is, if it is one.
pub fn token_at(alloc: Global, lexeme: Lexeme, text: &[u8]) -> Result<Option<Token>, NoMemory>
    requires { extent lexeme ≤ length text.now }
    ensures { IfOk result (λ token. token ≡ front_token lexeme text.now) }
{
    match lexeme {
        Lexeme::Gap(_) => Ok(None),
        Lexeme::Word(count, _) => {
            let (word, _) = text.split_at(count);
            Ok(Some(Token::Word(Text::from_bytes(alloc, word)?)))
        }
        Lexeme::Quoted(count) => {
            let (value, _) = text[1..].split_at(count);
            Ok(Some(Token::Quoted(Text::from_bytes(alloc, value)?)))
        }
        Lexeme::Semicolon => Ok(Some(Token::Semicolon)),
        Lexeme::Open => Ok(Some(Token::Open)),
        Lexeme::Close => Ok(Some(Token::Close)),
        Lexeme::Torn | Lexeme::Unclosed => Ok(Some(Token::Torn)),
    }
}
