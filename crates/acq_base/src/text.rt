//! Texts of bytes, which contracts see as lists of them.

ghost use Rattle.std.specs.Prelude.{◌≡◌, ◌++◌, ◌∷◌, [], length, IfOk, MatchResult, nat_eq};

use crate::{Bytes, NoMemory, TryCopy};
use std::alloc::Global;
use std::cmp::Ordering;
use std::marker::Model;

/// A text of bytes, which need not be UTF-8. Contracts see the list of its bytes.
#[derive(Debug, Drop)]
pub struct Text {
    bytes: Vec<u8>,
}

impl Model for Text {
    ghost use Rattle.std.specs.Prelude.{List, ℕ};

    ghost Value = { List ℕ };

    ghost view = { λ text. text.bytes.items };
}

impl Text {
    /// The empty text.
    pub fn new(alloc: Global) -> Text
        ensures { result ≡ [] }
    {
        Text {
            bytes: Vec::new(alloc),
        }
    }

    /// A text of these bytes.
    pub fn from_bytes(alloc: Global, bytes: &[u8]) -> Result<Text, NoMemory>
        ensures { IfOk result (λ text. text ≡ bytes.now) }
    {
        Ok(Text {
            bytes: Vec::from_slice(alloc, bytes)?,
        })
    }

    /// The bytes of the text.
    pub fn as_bytes(&self) -> &[u8]
        ensures { result.now ≡ self.now }
    {
        self.bytes.as_slice()
    }

    /// The bytes, which move out of the text.
    pub fn into_bytes(self) -> Bytes
        ensures { result ≡ self }
    {
        Bytes::from(self.bytes)
    }

    /// Appends one byte. Without memory the text stays as it was.
    pub fn push(&mut self, byte: u8) -> Result<(), NoMemory>
        ensures { MatchResult result (λ _. self.new ≡ self.old ++ byte ∷ []) (λ _. self.new ≡ self.old) }
    {
        self.bytes.push(byte)?;
        Ok(())
    }

    /// Appends bytes. Without memory the text stays as it was.
    pub fn append(&mut self, bytes: &[u8]) -> Result<(), NoMemory>
        ensures { MatchResult result (λ _. self.new ≡ self.old ++ bytes.now) (λ _. self.new ≡ self.old) }
    {
        self.bytes.extend_from_slice(bytes)?;
        Ok(())
    }

    /// How many bytes the text has.
    pub fn len(&self) -> usize
        ensures { result ≡ length self.now }
    {
        self.bytes.len()
    }

    /// Whether the text has no byte.
    pub fn is_empty(&self) -> bool
        ensures { result ≡ nat_eq (length self.now) 0 }
    {
        self.bytes.is_empty()
    }
}

impl From<Vec<u8>> for Text {
    ghost from_gives = { λ bytes text. text ≡ bytes.items };

    fn from(bytes: Vec<u8>) -> Text {
        Text { bytes }
    }
}

impl TryCopy for Text {
    fn copy(&self, alloc: Global) -> Result<Text, NoMemory> {
        Text::from_bytes(alloc, self.as_bytes())
    }
}

impl PartialEq for Text {
    ghost use Rattle.std.specs.Prelude.{bytes_eq};
    ghost use Rattle.std.specs.Cmp.Rules.{comparing};
    ghost use Rattle.std.proofs.Common.{rules};

    ghost eq = { bytes_eq };

    ghost laws = { Prim.search (comparing, rules) };

    fn eq(&self, other: &Text) -> bool {
        self.bytes.as_slice() == other.bytes.as_slice()
    }
}

impl Eq for Text {
    ghost use Rattle.std.specs.Cmp.Rules.{comparing};
    ghost use Rattle.std.proofs.Common.{rules};

    ghost laws = { Prim.search (comparing, rules) };
}

impl Ord for Text {
    ghost use Rattle.std.specs.Ordering.{nat_cmp};
    ghost use Rattle.std.specs.Cmp.Lexicographic.{slice_cmp};
    ghost use Rattle.std.specs.Cmp.Rules.{comparing};
    ghost use Rattle.std.proofs.Common.{rules};

    ghost cmp = { slice_cmp nat_cmp };

    ghost total = { Prim.search (comparing, rules) };

    ghost matches_partial_cmp = { Prim.search (comparing, rules) };

    ghost matches_eq = { Prim.search (comparing, rules) };

    fn cmp(&self, other: &Text) -> Ordering {
        self.bytes.as_slice().cmp(&other.bytes.as_slice())
    }
}

impl PartialOrd for Text {
    ghost use Rattle.std.specs.Ordering.{nat_cmp, as_partial_cmp};
    ghost use Rattle.std.specs.Cmp.Lexicographic.{slice_cmp};
    ghost use Rattle.std.specs.Cmp.{partial_order_from_own_ties};
    ghost use Rattle.std.specs.Cmp.Rules.{comparing};
    ghost use Rattle.std.proofs.Common.{rules};

    ghost partial_cmp = { as_partial_cmp (slice_cmp nat_cmp) };

    ghost laws = { partial_order_from_own_ties (Prim.search (comparing, rules)) (Prim.search (comparing, rules)) };

    fn partial_cmp(&self, other: &Text) -> Option<Ordering> {
        Some(self.cmp(other))
    }
}
