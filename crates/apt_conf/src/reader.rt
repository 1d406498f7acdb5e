//! Texts of files and the words of options, read into entries. It may take memory, and touches nothing else.

ghost use Rattle.std.specs.Prelude.{◌≡◌, ◌≤◌, length, IfOk, IfErr, Ok, OnErr};
ghost use Rattle.apt_conf.specs.Answers.{Fails};
ghost use Rattle.apt_conf.specs.Progress.{AreRead, Reads};
ghost use Rattle.apt_conf.specs.Reading.{pairs_of, pair_of};
ghost use Rattle.apt_conf.specs.Statements as statements;
ghost use Rattle.apt_conf.specs.Statements.{start, pairs_from};
ghost use Rattle.apt_conf.specs.Tokens as tokens;

use crate::ConfError;
use crate::entry::Entry;
use crate::key::is_key;
use crate::line::{last_line, line_behind};
use crate::reading::Reading;
use crate::run::{Stop, length_until};
use acq_base::Text;
use std::alloc::Global;

/// The most bytes of a file.
const FILE_BYTES: usize = 1_048_576;

/// The entries of a text.
fn read_text(alloc: Global, text: &[u8]) -> Result<Vec<Entry>, ConfError>
    requires { length text.now ≤ 1048576 }
    ensures ok { IfOk result (λ entries. AreRead entries.items
        (pairs_from (tokens.last_line text.now) start (tokens.tokens_of text.now))) }
    ensures err { IfErr result (λ error. Fails error (pairs_from (tokens.last_line text.now) start (tokens.tokens_of text.now))) }
{
    let last = last_line(text);
    let mut reading = Reading::new(alloc);
    let mut rest = text;
    let mut line = 1;
    while !rest.is_empty() {
        let count = reading.take(alloc, last, line, rest)?;
        let (front, behind) = rest.split_at(count);
        line = line_behind(line, front);
        rest = behind;
    }
    reading.finish(last)
}

/// Adds the pairs of a file to entries, or leaves them.
#[tactic(auto, unfolding(crate::specs::Reading::pairs_of))]
pub fn read_file(alloc: Global, entries: &mut Vec<Entry>, bytes: &[u8]) -> Result<(), ConfError>
    ensures reads { Reads entries.old.items entries.new.items result (pairs_of bytes.now) }
    ensures err { OnErr result (entries.new.items ≡ entries.old.items) }
{
    if bytes.len() > FILE_BYTES {
        return Err(ConfError::LongFile);
    }
    let mut read = read_text(alloc, bytes)?;
    entries.append(&mut read)?;
    Ok(())
}

/// Adds the pair of a word to entries, or leaves them.
#[tactic(auto, unfolding(crate::specs::Reading::pair_of))]
pub fn read_pair(alloc: Global, entries: &mut Vec<Entry>, word: &[u8]) -> Result<(), ConfError>
    ensures reads { Reads entries.old.items entries.new.items result (pair_of word.now) }
    ensures err { OnErr result (entries.new.items ≡ entries.old.items) }
{
    let count = length_until(Stop::EqualsSign, word);
    if count == word.len() {
        return Err(ConfError::BadConf(1));
    }
    let (key, _) = word.split_at(count);
    if !is_key(key) {
        return Err(ConfError::BadConf(1));
    }
    let (_, value) = word.split_at(count + 1);
    push_pair(alloc, entries, key, value)
}

/// Adds a pair to entries, or leaves them.
fn push_pair(
    alloc: Global,
    entries: &mut Vec<Entry>,
    key: &[u8],
    value: &[u8],
) -> Result<(), ConfError>
    ensures reads { Reads entries.old.items entries.new.items result (Ok (statements.given key.now value.now)) }
    ensures err { OnErr result (entries.new.items ≡ entries.old.items) }
{
    let entry = Entry {
        shared: 0,
        rest: Text::from_bytes(alloc, key)?,
        value: Some(Text::from_bytes(alloc, value)?),
    };
    entries.push(entry)?;
    Ok(())
}
