//! Statements, token by token. It touches nothing and takes no memory.

ghost use Rattle.std.specs.Prelude.{◌≡◌};
ghost use Rattle.apt_conf.specs.Statements as statements;

use crate::key::is_key;
use crate::token::Token;
use acq_base::Text;

/// How far a statement of apt.conf(5) has come.
#[derive(Debug, PartialEq, Drop)]
pub enum Part {
    /// A statement begins.
    Start,
    /// A quoted value stands alone, as in a list.
    Listed,
    /// A key.
    Named(Text),
    /// A key and its value.
    Valued(Text, Text),
}

/// Where a token leads within a statement.
#[derive(Debug, PartialEq, Drop)]
pub enum Step {
    /// The statement goes on, or the next one begins.
    Goes(Part),
    /// The statement sets a key.
    Sets(Text, Text),
    /// A block of this key begins.
    Enters(Text),
    /// The statement sets a key, and a block of that key begins.
    SetsAndEnters(Text, Text),
    /// A block ends.
    Leaves,
    /// No statement goes on with this token.
    Stops,
}

/// Where a token leads from this part of a statement.
pub fn step_of(part: Part, token: Token) -> Step
    ensures { result ≡ statements.step_of part token }
{
    match part {
        Part::Start => step_at_start(token),
        Part::Listed => step_when_listed(token),
        Part::Named(key) => step_when_named(key, token),
        Part::Valued(key, value) => step_when_valued(key, value, token),
    }
}

#[tactic(auto, unfolding(crate::specs::Statements::step_at_start))]
fn step_at_start(token: Token) -> Step
    ensures { result ≡ statements.step_at_start token }
{
    match token {
        Token::Word(text) => {
            if is_key(text.as_bytes()) {
                Step::Goes(Part::Named(text))
            } else {
                Step::Stops
            }
        }
        Token::Quoted(_) => Step::Goes(Part::Listed),
        Token::Semicolon => Step::Goes(Part::Start),
        Token::Close => Step::Leaves,
        Token::Open | Token::Torn => Step::Stops,
    }
}

#[tactic(auto, unfolding(crate::specs::Statements::step_when_listed))]
fn step_when_listed(token: Token) -> Step
    ensures { result ≡ statements.step_when_listed token }
{
    match token {
        Token::Semicolon => Step::Goes(Part::Start),
        _ => Step::Stops,
    }
}

#[tactic(auto, unfolding(crate::specs::Statements::step_when_named))]
fn step_when_named(key: Text, token: Token) -> Step
    ensures { result ≡ statements.step_when_named key token }
{
    match token {
        Token::Word(value) | Token::Quoted(value) => Step::Goes(Part::Valued(key, value)),
        Token::Semicolon => Step::Goes(Part::Start),
        Token::Open => Step::Enters(key),
        Token::Close | Token::Torn => Step::Stops,
    }
}

#[tactic(auto, unfolding(crate::specs::Statements::step_when_valued))]
fn step_when_valued(key: Text, value: Text, token: Token) -> Step
    ensures { result ≡ statements.step_when_valued key value token }
{
    match token {
        Token::Semicolon => Step::Sets(key, value),
        Token::Open => Step::SetsAndEnters(key, value),
        _ => Step::Stops,
    }
}
