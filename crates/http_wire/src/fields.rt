//! The fields of a head, and what their values say.

ghost use Rattle.std.specs.Prelude.{◌≡◌, ◌≤◌, ◌++◌, ◌==◌, not, length, map, take, codes, All, IfOk, OnOk};
ghost use Rattle.std.specs.Char.{is_ascii_digit};
ghost use Rattle.std.specs.List.{flat_map, list_all, prefix_len};
ghost use Rattle.httparse.specs.Spans.{IsHeaderWithin, header_bytes};
ghost use Rattle.http_wire.specs.Fields as spec;

use acq_base::{Bytes, NoMemory, Row, trim_blanks};
use httparse::spans::HeaderSpan;
use std::alloc::Global;
use std::str;

/// Whether two words are the same but for the case of ASCII letters.
pub fn same_word(a: &[u8], b: &[u8]) -> bool
    ensures { result ≡ spec.same_word a.now b.now }
{
    a.eq_ignore_ascii_case(b)
}

/// The values of the fields of a name, in order; names differ in nothing where they differ in the case of ASCII letters
/// alone (RFC 9110, section 5.1). The spans lie in the bytes.
#[tactic(auto, unfolding(crate::specs::Fields::values), using(crate::proofs::Spans::mapped))]
pub fn values(
    alloc: Global,
    bytes: &[u8],
    spans: &[HeaderSpan],
    name: &[u8],
) -> Result<Row<Bytes>, NoMemory>
    requires { All (IsHeaderWithin (length bytes.now)) spans.now }
    ensures { IfOk result (λ found. found ≡ spec.values name.now (map (header_bytes bytes.now) spans.now)) }
{
    let mut found = Row::new(alloc);
    append_values(alloc, bytes, spans, name, &mut found)?;
    Ok(found)
}

/// Appends the values of the fields of a name.
fn append_values(
    alloc: Global,
    bytes: &[u8],
    spans: &[HeaderSpan],
    name: &[u8],
    found: &mut Row<Bytes>,
) -> Result<(), NoMemory>
    requires { All (IsHeaderWithin (length bytes.now)) spans.now }
    ensures { OnOk result (found.new ≡ found.old ++ flat_map (λ span. spec.value_if_named name.now (header_bytes bytes.now span)) spans.now) }
{
    for span in spans {
        append_value(alloc, bytes, *span, name, found)?;
    }
    Ok(())
}

/// Appends the value of a field of that name.
fn append_value(
    alloc: Global,
    bytes: &[u8],
    span: HeaderSpan,
    name: &[u8],
    found: &mut Row<Bytes>,
) -> Result<(), NoMemory>
    requires { IsHeaderWithin (length bytes.now) span }
    ensures { OnOk result (found.new ≡ found.old ++ spec.value_if_named name.now (header_bytes bytes.now span)) }
{
    if same_word(span.name.of(bytes), name) {
        let mut value = Bytes::new(alloc);
        value.append(span.value.of(bytes))?;
        found.push(value)?;
    }
    Ok(())
}

/// Whether a text is one decimal digit or more.
pub fn is_digits(text: &[u8]) -> bool
    ensures { result ≡ spec.is_digits text.now }
{
    !text.is_empty() && all_digits(text)
}

fn all_digits(text: &[u8]) -> bool
    ensures { result ≡ list_all is_ascii_digit text.now }
{
    text.iter().all(|c| c.is_ascii_digit())
}

/// The number that decimal digits write, leading zeros included: `None` exactly where a text isn't of digits alone, or its
/// number is 2^64 or more.
pub fn number(text: &[u8]) -> Option<u64>
    ensures { result ≡ spec.number text.now }
{
    if !is_digits(text) {
        return None;
    }
    match str::from_utf8(text) {
        Ok(digits) => digits.parse::<u64>().ok(),
        Err(_) => None,
    }
}

/// How many bytes stand before the first such byte.
fn place_of(mark: u8, text: &[u8]) -> usize
    ensures place { result ≡ prefix_len (λ c. not (c == mark)) text.now }
    ensures within { result ≤ length text.now }
{
    for (i, c) in text.iter().enumerate() {
        if *c == mark {
            return i;
        }
    }
    text.len()
}

/// The text up to the first such byte.
fn before(mark: u8, text: &[u8]) -> &[u8]
    ensures { result.now ≡ spec.before mark text.now }
{
    let (front, _) = text.split_at(place_of(mark, text));
    front
}

/// The text behind the first such byte.
fn behind(mark: u8, text: &[u8]) -> &[u8]
    ensures { result.now ≡ spec.behind mark text.now }
{
    let (_, back) = text.split_at(place_of(mark, text));
    match back {
        [_, rest @ ..] => rest,
        [] => back,
    }
}

/// Whether a value of Content-Range says that the file's bytes from this one on follow (RFC 9110, section 14.4).
pub fn is_range(from: u64, value: &[u8]) -> bool
    ensures { result ≡ spec.is_range from value.now }
{
    if value.len() < 6 {
        return false;
    }
    let (unit, span) = value.split_at(6);
    unit == b"bytes ".as_slice() && is_span(from, span)
}

/// Whether a text is FIRST-LAST/TOTAL with this first number.
#[tactic(auto, unfolding(crate::specs::Fields::is_span))]
fn is_span(from: u64, text: &[u8]) -> bool
    ensures { result ≡ spec.is_span from text.now }
{
    let first = before(b'-', text);
    let rest = behind(b'-', text);
    number(first) == Some(from) && is_digits(before(b'/', rest)) && is_digits(behind(b'/', rest))
}

/// Whether `close` is among the words of a value of Connection (RFC 9112, section 9.6).
#[tactic(auto, unfolding(crate::specs::Fields::has_close))]
pub fn has_close(value: &[u8]) -> bool
    ensures { result ≡ spec.has_close value.now }
{
    let mut found = false;
    for word in value.split(|c| *c == b',') {
        found = found || same_word(trim_blanks(word), b"close");
    }
    found
}
