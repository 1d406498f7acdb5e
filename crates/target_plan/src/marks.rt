//! Marks of names: how long they are, and digests that tell most of them apart. It touches nothing and takes no memory.

ghost use Rattle.std.specs.Prelude.{◌≡◌, ◌≢◌, ◌<◌, fold, true, false, AllPairs};
ghost use Rattle.std.specs.Fmt.{digit_glyph};
ghost use Rattle.std.specs.List.Sorted.{IsStrictlyIncreasing};
ghost use Rattle.acq_base.specs.Uri.{name_byte};
ghost use Rattle.target_plan.specs.Marks as spec;

/// What is known of a name once its bytes were gone over.
#[derive(Clone, Copy)]
pub struct Mark {
    /// How many bytes it has.
    pub size: u64,
    /// The digest: names of different digests are different.
    pub digest: u64,
}

/// The mark of no bytes.
pub const START: Mark = Mark { size: 0, digest: 0 };

/// The prime by which a digest is multiplied at each byte.
const PRIME: u64 = 1099511628211;

/// The mark behind one further byte.
#[tactic(auto, unfolding(crate::specs::Marks::step))]
fn step(mark: Mark, byte: u8) -> Mark
    ensures { result ≡ spec.step mark byte }
{
    Mark {
        size: mark.size.saturating_add(1),
        digest: mark.digest.wrapping_mul(PRIME).wrapping_add(byte as u64),
    }
}

/// The mark behind further bytes.
pub fn over(front: Mark, bytes: &[u8]) -> Mark
    ensures { result ≡ fold spec.step front bytes.now }
{
    let mut mark = front;
    for byte in bytes {
        mark = step(mark, *byte);
    }
    mark
}

/// The mark behind what stands in a list name for further bytes of a URI.
pub fn over_escaped(front: Mark, bytes: &[u8]) -> Mark
    ensures { result ≡ fold spec.step front (spec.escaped bytes.now) }
{
    let mut mark = front;
    for byte in bytes {
        mark = over_escape(mark, *byte);
    }
    mark
}

/// The mark behind what stands in a list name for one byte of a URI.
fn over_escape(mark: Mark, byte: u8) -> Mark
    ensures { result ≡ fold spec.step mark (name_byte byte) }
{
    match byte {
        b'/' => step(mark, b'_'),
        b'.' | b'-' | b'+' | b':' => step(mark, byte),
        _ if byte.is_ascii_alphanumeric() => step(mark, byte),
        _ => step(
            step(step(mark, b'%'), hex_digit(byte / 16)),
            hex_digit(byte % 16),
        ),
    }
}

/// A lower-case hexadecimal digit.
fn hex_digit(value: u8) -> u8
    requires { value < 16 }
    ensures { result ≡ digit_glyph false value }
{
    if value < 10 {
        b'0' + value
    } else {
        b'a' + (value - 10)
    }
}

/// Whether no segment of a path begins with a dot, so that no dot segment is removed. The path may go on from a `/`.
#[tactic(auto, unfolding(crate::specs::Marks::plain_from))]
pub fn is_plain(path: &[u8]) -> bool
    ensures { result ≡ spec.is_plain path.now }
{
    let mut after_slash = true;
    for byte in path {
        if after_slash && *byte == b'.' {
            return false;
        }
        after_slash = *byte == b'/';
    }
    true
}

/// Whether no two of these digests are the same.
pub fn are_distinct(digests: Vec<u64>) -> bool
    ensures { result ≡ true → AllPairs (λ a b. a ≢ b) digests.items }
{
    let mut sorted = digests;
    sorted.sort_unstable();
    is_rising(sorted.as_slice())
}

/// Whether each number is below the next.
fn is_rising(numbers: &[u64]) -> bool
    ensures { result ≡ true → IsStrictlyIncreasing numbers.now }
{
    for at in 1..numbers.len() {
        if numbers[at - 1] >= numbers[at] {
            return false;
        }
    }
    true
}
