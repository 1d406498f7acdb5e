//! A configuration, and the calls on it. `read_conf` and `set` may take memory; nothing else is touched.

ghost use Rattle.apt_conf.specs.Grammar.{Items, Adds, AreItems, Spells, given_by};
ghost use Rattle.apt_conf.specs.Pieces.{Piece, IsInPieces, IsWritten, tokens_in};
ghost use Rattle.apt_conf.specs.Tokens.{tokens_of};
ghost use Rattle.std.specs.Prelude.{◌≡◌, ◌≤◌, List, length, ◌⊎◌, ◌++◌, [], Ok, Err, OnOk, OnErr, IfOk, IfErr};
ghost use Rattle.std.specs.Option.{option_copied};
ghost use Rattle.apt_conf.specs.Keys.{value_of};
ghost use Rattle.apt_conf.specs.Refused.{IsRefused};
ghost use Rattle.apt_conf.specs.Reading.{pairs_of, pair_of, answer};

use crate::ConfError;
use crate::entry::Entry;
use crate::lookup::find_value;
use crate::reader::{read_file, read_pair};
use acq_base::Text;
use std::alloc::Global;
use std::marker::Model;

/// A configuration. Contracts see the list of its pairs of keys and values, in the order in which they were given.
#[derive(Debug, Drop)]
pub struct Conf {
    entries: Vec<Entry>,
}

impl Model for Conf {
    ghost use Rattle.std.specs.Prelude.{List, []};
    ghost use Rattle.apt_conf.specs.Keys.{Pair};
    ghost use Rattle.apt_conf.specs.Entries.{pairs_in};

    ghost Value = { List Pair };

    ghost view = { λ conf. pairs_in [] conf.entries.items };
}

/// The configuration without pairs. It takes no memory.
#[tactic(auto, unfolding(crate::specs::Entries::pairs_in))]
pub fn new(alloc: Global) -> Conf
    ensures { result ≡ [] }
{
    Conf {
        entries: Vec::new(alloc),
    }
}

/// Adds the pairs of a file of apt.conf(5).
///
/// It is refused with `LongFile` where it has more than 1,048,576 bytes, which is looked at first, and else with
/// `BadConf` at the line where reading stops, counted from 1. `NoMemory` where memory ran out. After each of the three the
/// configuration is as it was, and can be used on.
pub fn read_conf(alloc: Global, conf: &mut Conf, bytes: &[u8]) -> Result<(), ConfError>
    ensures answer { (result ≡ Err ConfError.NoMemory) ⊎ (result ≡ answer (pairs_of bytes.now)) }
    ensures ok { OnOk result (IfOk (pairs_of bytes.now) (λ pairs. conf.new ≡ conf.old ++ pairs)) }
    ensures err { OnErr result (conf.new ≡ conf.old) }
    // The tokens: a text that is written piece by piece, in white space, comments and tokens, has the tokens of its pieces.
    ensures written { (pieces : List Piece) → IsWritten bytes.now pieces → tokens_of bytes.now ≡ tokens_in 1 pieces }
    // And back: a text that is read is written in pieces.
    ensures pieces { OnOk result (IsInPieces bytes.now) }
    // The grammar: a text that spells nested statements gives the pairs of the tree.
    ensures grammar { (items : Items) → length bytes.now ≤ 1048576 → AreItems 16 items → Spells bytes.now items
        → pairs_of bytes.now ≡ Ok (given_by [] items) }
    // And back: a text that is read spells nested statements, and their pairs are what was added.
    ensures spelled { OnOk result (Adds conf.old bytes.now conf.new) }
    // The refusal: a text is refused at its first token that no statements allow, or at its end, which leaves one open.
    ensures refused { IfErr result (IsRefused bytes.now) }
{
    read_file(alloc, &mut conf.entries, bytes)
}

/// Adds the pair of an option word `KEY=VALUE`, split at its first `=`.
///
/// It is refused with `BadConf(1)` where it has no `=`, or where no key stands before the first one. `NoMemory` where
/// memory ran out. After either the configuration is as it was.
pub fn set(alloc: Global, conf: &mut Conf, pair: &[u8]) -> Result<(), ConfError>
    ensures answer { (result ≡ Err ConfError.NoMemory) ⊎ (result ≡ answer (pair_of pair.now)) }
    ensures ok { OnOk result (IfOk (pair_of pair.now) (λ pairs. conf.new ≡ conf.old ++ pairs)) }
    ensures err { OnErr result (conf.new ≡ conf.old) }
{
    read_pair(alloc, &mut conf.entries, pair)
}

/// The last value given to a key, which is compared without regard to ASCII case. None where no value was given to it. It
/// takes no memory.
pub fn get<'a>(conf: &'a Conf, key: &[u8]) -> Option<&'a Text>
    ensures { option_copied result ≡ value_of conf.now key.now }
{
    find_value(conf.entries.as_slice(), key)
}
