//! Names compared, and their digests. It touches nothing and takes no memory.
ghost use Rattle.std.specs.Prelude.{◌≡◌};
ghost use Rattle.std.specs.Ordering.{nat_cmp};
ghost use Rattle.std.specs.Cmp.Lexicographic.{slice_cmp};
ghost use Rattle.std.specs.Str.{str_eq_ignore_ascii_case, str_to_ascii_lowercase};
ghost use Rattle.deb822_text.specs.Names.{digest_of};

use std::cmp::Ordering;
use std::marker::Model;

/// A field's name. Contracts see it in lower case, so names that differ in ASCII case alone are equal.
#[derive(Debug, Drop)]
pub struct Name<'a> {
    bytes: &'a [u8],
}

impl<'a> Model for Name<'a> {
    ghost use Rattle.std.specs.Prelude.{List, ℕ};
    ghost use Rattle.std.specs.Str.{str_to_ascii_lowercase};

    ghost Value = { List ℕ };

    ghost view = { λ name. str_to_ascii_lowercase name.bytes.now };
}

impl<'a> Name<'a> {
    /// The name of these bytes, which it lends.
    pub fn new(bytes: &'a [u8]) -> Name<'a>
        ensures { result ≡ str_to_ascii_lowercase bytes.entry.now }
    {
        Name { bytes }
    }
}

impl<'a> PartialEq for Name<'a> {
    ghost use Rattle.std.specs.Str.{bytes_eq};
    ghost use Rattle.std.specs.Cmp.Rules.{comparing};
    ghost use Rattle.std.proofs.Common.{rules};

    ghost eq = { bytes_eq };

    ghost laws = { Prim.search (comparing, rules) };

    fn eq(&self, other: &Name<'a>) -> bool {
        same_name(self.bytes, other.bytes)
    }
}

impl<'a> Eq for Name<'a> {
    ghost use Rattle.std.specs.Cmp.Rules.{comparing};
    ghost use Rattle.std.proofs.Common.{rules};

    ghost laws = { Prim.search (comparing, rules) };
}

impl<'a> Ord for Name<'a> {
    ghost use Rattle.std.specs.Ordering.{nat_cmp};
    ghost use Rattle.std.specs.Cmp.Lexicographic.{slice_cmp};
    ghost use Rattle.std.specs.Cmp.Rules.{comparing};
    ghost use Rattle.std.proofs.Common.{rules};

    ghost cmp = { slice_cmp nat_cmp };

    ghost total = { Prim.search (comparing, rules) };

    ghost matches_partial_cmp = { Prim.search (comparing, rules) };

    ghost matches_eq = { Prim.search (comparing, rules) };

    fn cmp(&self, other: &Name<'a>) -> Ordering {
        compare(self.bytes, other.bytes)
    }
}

impl<'a> PartialOrd for Name<'a> {
    ghost use Rattle.std.specs.Ordering.{nat_cmp, as_partial_cmp};
    ghost use Rattle.std.specs.Cmp.Lexicographic.{slice_cmp};
    ghost use Rattle.std.specs.Cmp.{partial_order_from_own_ties};
    ghost use Rattle.std.specs.Cmp.Rules.{comparing};
    ghost use Rattle.std.proofs.Common.{rules};

    ghost partial_cmp = { as_partial_cmp (slice_cmp nat_cmp) };

    ghost laws = { partial_order_from_own_ties (Prim.search (comparing, rules)) (Prim.search (comparing, rules)) };

    fn partial_cmp(&self, other: &Name<'a>) -> Option<Ordering> {
        Some(self.cmp(other))
    }
}

/// Whether two names are one, ASCII case aside.
pub fn same_name(a: &[u8], b: &[u8]) -> bool
    ensures { result ≡ str_eq_ignore_ascii_case a.now b.now }
{
    a.eq_ignore_ascii_case(b)
}

/// A number for a name, the same for names that are one. Different names hardly ever share one, unless a text is made
/// so that they do.
#[tactic(auto, unfolding(crate::specs::Names::digest_of))]
pub fn digest(name: &[u8]) -> u64
    ensures { result ≡ digest_of (str_to_ascii_lowercase name.now) }
{
    let mut digest: u64 = 0;
    for byte in name {
        digest = digest
            .wrapping_mul(1_099_511_628_211)
            .wrapping_add(u64::from(byte.to_ascii_lowercase()));
    }
    digest
}

/// The order of two names, ASCII case aside.
fn compare(a: &[u8], b: &[u8]) -> Ordering
    ensures { result ≡ slice_cmp nat_cmp (str_to_ascii_lowercase a.now) (str_to_ascii_lowercase b.now) }
{
    let mut at = 0;
    while at < a.len() && at < b.len() {
        let order = a[at].to_ascii_lowercase().cmp(&b[at].to_ascii_lowercase());
        if order != Ordering::Equal {
            return order;
        }
        at += 1;
    }
    (a.len() - at).cmp(&(b.len() - at))
}
