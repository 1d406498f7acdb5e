//! The value that entries give to a key. It touches nothing and takes no memory.

ghost use Rattle.std.specs.Prelude.{◌≡◌, ◌≤◌, [], length, if◌then◌else◌, None};
ghost use Rattle.std.specs.Option.{option_copied};
ghost use Rattle.apt_conf.specs.Keys.{common_length as common, compared, later, value_of};
ghost use Rattle.apt_conf.specs.Entries.{pairs_in};

use crate::entry::Entry;
use crate::key::has_empty_part;
use acq_base::Text;

/// How many first bytes of two texts are the same, ASCII case aside.
#[tactic(auto, unfolding(crate::specs::Keys::common_length))]
fn common_length(first: &[u8], second: &[u8]) -> usize
    ensures value { result ≡ common first.now second.now }
    ensures within { result ≤ length first.now }
    ensures within_second { result ≤ length second.now }
{
    let mut count = 0;
    let mut left = first;
    let mut right = second;
    while let [a, left_behind @ ..] = left {
        let [b, right_behind @ ..] = right else {
            break;
        };
        if !b.eq_ignore_ascii_case(a) {
            break;
        }
        count += 1;
        left = left_behind;
        right = right_behind;
    }
    count
}

/// How many first bytes of a key the key of the next entry has, and whether it is that key, ASCII case aside.
///
/// The key of the entry before has `matched` of them. The next takes over its first `shared` bytes, and goes on with
/// `rest`.
#[tactic(auto, unfolding(crate::specs::Keys::compared))]
fn compare(key: &[u8], shared: usize, matched: usize, rest: &[u8]) -> (usize, bool)
    requires { matched ≤ length key.now }
    ensures { result ≡ compared key.now shared matched rest.now }
{
    if shared > matched {
        return (matched, false);
    }
    let (_, behind) = key.split_at(shared);
    let more = common_length(behind, rest);
    (shared + more, more == behind.len() && more == rest.len())
}

/// The value of an entry, where it has one and its key is the one that is looked for, else what was found before.
fn later_of<'a>(entry: &'a Entry, is_same: bool, found: Option<&'a Text>) -> Option<&'a Text>
    ensures { option_copied result ≡ later (if is_same then entry.now.value else None) (option_copied found.entry) }
{
    match &entry.value {
        Some(value) if is_same => Some(value),
        _ => found,
    }
}

/// The last value that entries give to a key, in one pass, whatever the keys of the entries are.
pub fn find_value<'a>(entries: &'a [Entry], key: &[u8]) -> Option<&'a Text>
    ensures { option_copied result ≡ value_of (pairs_in [] entries.now) key.now }
{
    if has_empty_part(key) {
        return None;
    }
    let mut found = None;
    let mut matched = 0usize;
    let mut length = 0usize;
    for entry in entries {
        let shared = entry.shared.min(length);
        let (reached, is_same) = compare(key, shared, matched, entry.rest.as_bytes());
        found = later_of(entry, is_same, found);
        matched = reached;
        length = shared.saturating_add(entry.rest.len());
    }
    found
}
