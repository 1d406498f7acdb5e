//! The reading of a text, token by token. It may take memory, and touches nothing else.

ghost use Rattle.std.specs.Prelude.{◌≡◌, ◌≢◌, ◌≤◌, ◌++◌, ◌∷◌, [], false, length, IfOk, IfErr, OnOk, OnErr, IsOkUnless};
ghost use Rattle.apt_conf.specs.Lexemes as lexemes;
ghost use Rattle.apt_conf.specs.Progress.{Ends, IsExtent, Steps, nothing_read, taken};
ghost use Rattle.apt_conf.specs.Statements as statements;
ghost use Rattle.apt_conf.specs.Tokens as tokens;

use crate::ConfError;
use crate::entry::Entry;
use crate::lexeme::{extent, lexeme_at};
use crate::line::token_line;
use crate::statement::{Part, Step, step_of};
use crate::token::{Token, token_at};
use acq_base::{Text, TryCopy};
use std::alloc::Global;
use std::marker::Model;
use std::mem;

/// How deep blocks may nest.
const DEPTH: usize = 16;

/// What is read of a text so far. Contracts see the pairs, and the place that was come to.
#[derive(Debug, Drop)]
pub struct Reading {
    entries: Vec<Entry>,
    /// The keys of the blocks that are open, outermost first.
    blocks: Vec<Text>,
    /// How many bytes stand before each key in these blocks.
    prefix: usize,
    /// How far the statement at this place has come.
    part: Part,
}

impl Model for Reading {
    ghost use Rattle.std.specs.Prelude.{[]};
    ghost use Rattle.apt_conf.specs.Entries.{pairs_in};
    ghost use Rattle.apt_conf.specs.Progress.{State, IsAt, state_of};

    ghost Value = { State };

    ghost view = { λ reading. state_of reading.entries.items reading.blocks.items reading.part };

    ghost invariant = { λ reading. IsAt reading.entries.items reading.blocks.items reading.prefix };
}

impl Reading {
    /// Nothing is read yet.
    #[tactic(auto, unfolding(crate::specs::Entries::pairs_in, crate::specs::Entries::last_key))]
    pub fn new(alloc: Global) -> Reading
        ensures { result ≡ nothing_read }
    {
        Reading {
            entries: Vec::new(alloc),
            blocks: Vec::new(alloc),
            prefix: 0,
            part: Part::Start,
        }
    }

    /// Takes what stands at the front of a rest of a text that begins on this line, and answers how many bytes it has.
    pub fn take(
        &mut self,
        alloc: Global,
        last: u64,
        line: u64,
        rest: &[u8],
    ) -> Result<usize, ConfError>
        requires { rest.now ≢ [] }
        ensures extent { IfOk result (λ n. n ≡ lexemes.extent (lexemes.lexeme_at rest.now)) }
        ensures positive { 1 ≤ lexemes.extent (lexemes.lexeme_at rest.now) }
        ensures within { IfOk result (λ n. IsExtent n (length rest.now)) }
        ensures steps { Steps self.old self.new result (statements.on_line (tokens.token_line last line (lexemes.lexeme_at rest.now))
            (taken self.old.place (tokens.front_token (lexemes.lexeme_at rest.now) rest.now))) }
    {
        let lexeme = lexeme_at(rest);
        let count = extent(lexeme);
        if let Some(token) = token_at(alloc, lexeme, rest)? {
            self.take_token(alloc, token, token_line(last, line, lexeme))?;
        }
        Ok(count)
    }

    /// The entries of what was read, where no block and no statement is open.
    pub fn finish(self, last: u64) -> Result<Vec<Entry>, ConfError>
        ensures closed { IfOk result (λ entries. Ends self entries.items) }
        ensures left_open { IfErr result (λ error. (statements.is_closed self.place ≡ false) × (error ≡ ConfError.BadConf last)) }
    {
        if self.is_closed() {
            Ok(self.entries)
        } else {
            Err(ConfError::BadConf(last))
        }
    }

    /// Whether no block and no statement is open.
    fn is_closed(&self) -> bool
        ensures { result ≡ statements.is_closed self.now.place }
    {
        self.blocks.is_empty() && matches!(self.part, Part::Start)
    }

    /// Takes a token that begins on this line.
    fn take_token(&mut self, alloc: Global, token: Token, line: u64) -> Result<(), ConfError>
        ensures { Steps self.old self.new result (statements.on_line line (statements.moved self.old.place token)) }
    {
        let part = mem::replace(&mut self.part, Part::Start);
        self.take_step(alloc, step_of(part, token), line)
    }

    /// Carries out a step on this line.
    fn take_step(&mut self, alloc: Global, step: Step, line: u64) -> Result<(), ConfError>
        ensures { Steps self.old self.new result (statements.on_line line (statements.moved_by self.old.place.blocks step)) }
    {
        match step {
            Step::Goes(part) => {
                self.part = part;
                Ok(())
            }
            Step::Sets(key, value) => self.set(key, value),
            Step::Enters(key) => self.enter(alloc, key, line),
            Step::SetsAndEnters(key, value) => {
                self.set(key.copy(alloc)?, value)?;
                self.enter(alloc, key, line)
            }
            Step::Leaves => self.leave(line),
            Step::Stops => Err(ConfError::BadConf(line)),
        }
    }

    /// Adds a pair with this key, behind the keys of the blocks.
    fn set(&mut self, key: Text, value: Text) -> Result<(), ConfError>
        ensures { Steps self.old self.new result
            (statements.on_line 0 (statements.moved_by self.old.place.blocks (Step.Sets key value))) }
    {
        push(&mut self.entries, self.prefix, key, Some(value))?;
        self.part = Part::Start;
        Ok(())
    }

    /// Opens a block of this key.
    fn enter(&mut self, alloc: Global, key: Text, line: u64) -> Result<(), ConfError>
        ensures { Steps self.old self.new result
            (statements.on_line line (statements.entered self.old.place.blocks key [])) }
    {
        if self.blocks.len() >= DEPTH {
            return Err(ConfError::BadConf(line));
        }
        let mut front = key.copy(alloc)?;
        front.append(b"::")?;
        let Some(prefix) = self.prefix.checked_add(front.len()) else {
            return Err(ConfError::NoMemory);
        };
        push(&mut self.entries, self.prefix, front, None)?;
        self.blocks.push(key)?;
        self.prefix = prefix;
        self.part = Part::Start;
        Ok(())
    }

    /// Closes the innermost block.
    fn leave(&mut self, line: u64) -> Result<(), ConfError>
        ensures { Steps self.old self.new result (statements.on_line line (statements.left self.old.place.blocks)) }
    {
        match self.blocks.pop() {
            None => Err(ConfError::BadConf(line)),
            Some(key) => {
                self.prefix -= key.len() + 2;
                self.part = Part::Start;
                Ok(())
            }
        }
    }
}

/// Adds an entry.
fn push(
    entries: &mut Vec<Entry>,
    shared: usize,
    rest: Text,
    value: Option<Text>,
) -> Result<(), ConfError>
    ensures added { OnOk result (entries.new.items ≡ entries.old.items ++ record { shared = shared; rest = rest; value = value } ∷ []) }
    ensures same { OnErr result (entries.new.items ≡ entries.old.items) }
    ensures memory { IsOkUnless result ConfError.NoMemory }
{
    entries.push(Entry {
        shared,
        rest,
        value,
    })?;
    Ok(())
}
