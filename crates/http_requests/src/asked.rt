//! What a head asks for.
ghost use Rattle.std.specs.Prelude.{◌≡◌, true, length, map, take, codes, All, IfOk, option_map};
ghost use Rattle.std.specs.List.{list_all, list_any};
ghost use Rattle.std.specs.Str.Parse.{digits_value};
ghost use Rattle.httparse.specs.Spans.{IsHeaderWithin, IsRequestWithin, header_bytes, span_bytes};
ghost use Rattle.http_wire.specs.Fields.{has_close, is_digits, values};
ghost use Rattle.http_requests.specs.Asked as spec;

use crate::{Method, Request};
use acq_base::{Bytes, NoMemory, Row, Text};
use http_wire::{has_close, is_digits, number, same_word, values};
use httparse::spans::{HeaderSpan, RequestSpans};
use std::alloc::Global;

/// The scheme and the two slashes of a target that is a whole URI.
const SCHEME: &[u8] = b"http://";

/// The fields of a head, where they stand in its bytes.
#[derive(Clone, Copy)]
struct Fields<'a> {
    bytes: &'a [u8],
    spans: &'a [HeaderSpan],
}

impl Fields<'_> {
    /// The values of the fields of a name.
    fn named(&self, alloc: Global, name: &[u8]) -> Result<Row<Bytes>, NoMemory>
        requires { All (IsHeaderWithin (length self.now.bytes.now)) self.now.spans.now }
        ensures { IfOk result (λ found. found ≡ values name.now (map (header_bytes self.now.bytes.now) self.now.spans.now)) }
    {
        values(alloc, self.bytes, self.spans, name)
    }

    /// Whether no body follows.
    #[tactic(auto, unfolding(crate::specs::Asked::has_no_body))]
    fn has_no_body(&self, alloc: Global) -> Result<bool, NoMemory>
        requires { All (IsHeaderWithin (length self.now.bytes.now)) self.now.spans.now }
        ensures { IfOk result (λ none. none ≡ spec.has_no_body (map (header_bytes self.now.bytes.now) self.now.spans.now)) }
    {
        let codings = self.named(alloc, b"transfer-encoding")?;
        let sizes = self.named(alloc, b"content-length")?;
        Ok(codings.is_empty() && are_zero(sizes.as_slice()))
    }

    /// Whether one host is named, or none where that may be left out.
    #[tactic(auto, unfolding(crate::specs::Asked::names_host))]
    fn names_host(&self, alloc: Global, minor: u8) -> Result<bool, NoMemory>
        requires { All (IsHeaderWithin (length self.now.bytes.now)) self.now.spans.now }
        ensures { IfOk result (λ one. one ≡ spec.names_host minor (map (header_bytes self.now.bytes.now) self.now.spans.now)) }
    {
        let hosts = self.named(alloc, b"host")?;
        Ok(are_hosts(minor, hosts.as_slice()))
    }

    /// Whether a request with these fields can be answered.
    #[tactic(auto, unfolding(crate::specs::Asked::is_proper))]
    fn is_proper(&self, alloc: Global, minor: u8) -> Result<bool, NoMemory>
        requires { All (IsHeaderWithin (length self.now.bytes.now)) self.now.spans.now }
        ensures { IfOk result (λ proper. proper ≡ spec.is_proper minor (map (header_bytes self.now.bytes.now) self.now.spans.now)) }
    {
        let bare = self.has_no_body(alloc)?;
        let host = self.names_host(alloc, minor)?;
        Ok(bare && host)
    }

    /// From which byte on a part is asked for.
    fn part_asked(&self, alloc: Global, method: Method) -> Result<Option<u64>, NoMemory>
        requires { All (IsHeaderWithin (length self.now.bytes.now)) self.now.spans.now }
        ensures { IfOk result (λ from. from
            ≡ option_map spec.capped (spec.part_asked method (map (header_bytes self.now.bytes.now) self.now.spans.now))) }
    {
        match method {
            Method::Get => {
                let ranges = self.named(alloc, b"range")?;
                Ok(first_of_ranges(ranges.as_slice()))
            }
            Method::Head | Method::Other => Ok(None),
        }
    }

    /// Whether no further request is expected.
    #[tactic(auto, unfolding(crate::specs::Asked::is_last))]
    fn is_last(&self, alloc: Global, minor: u8) -> Result<bool, NoMemory>
        requires { All (IsHeaderWithin (length self.now.bytes.now)) self.now.spans.now }
        ensures { IfOk result (λ last. last ≡ spec.is_last minor (map (header_bytes self.now.bytes.now) self.now.spans.now)) }
    {
        let words = self.named(alloc, b"connection")?;
        Ok(minor == 0 || any_close(words.as_slice()))
    }
}

/// What a head asks for, whose parts stand there.
#[tactic(auto, using(crate::proofs::Asking::spans_in_text))]
pub fn asked(
    alloc: Global,
    text: &[u8],
    head: RequestSpans,
    spans: &[HeaderSpan],
) -> Result<Request, NoMemory>
    requires { IsRequestWithin text.now spans.now head }
    ensures { IfOk result (λ request. request ≡ spec.request_by (span_bytes text.now head.method) (span_bytes text.now head.path)
        head.version (map (header_bytes text.now) (take head.headers spans.now))) }
{
    let (front, _) = spans.split_at(head.headers);
    let fields = Fields {
        bytes: text,
        spans: front,
    };
    let method = method_of(head.method.of(text));
    let proper = fields.is_proper(alloc, head.version)?;
    let path = Text::from_bytes(alloc, path_of(head.path.of(text)))?;
    let from = fields.part_asked(alloc, method)?;
    let last = fields.is_last(alloc, head.version)?;
    Ok(Request {
        proper,
        method,
        path,
        from,
        last,
    })
}

/// The method of that name.
fn method_of(text: &[u8]) -> Method
    ensures { result ≡ spec.method_of text.now }
{
    if text == b"GET".as_slice() {
        Method::Get
    } else if text == b"HEAD".as_slice() {
        Method::Head
    } else {
        Method::Other
    }
}

/// The path of a target.
#[tactic(auto, unfolding(crate::specs::Asked::path_of), using(crate::proofs::Asking::take_front, crate::proofs::Asking::drop_front))]
fn path_of(target: &[u8]) -> &[u8]
    ensures { result.now ≡ spec.path_of target.now }
{
    let (front, behind) = target.split_at(SCHEME.len().min(target.len()));
    if !same_word(front, SCHEME) {
        return target;
    }
    from_slash(behind)
}

/// The text from its first `/` on, or that alone where there is none.
fn from_slash(text: &[u8]) -> &[u8]
    ensures { result.now ≡ spec.from_slash text.now }
{
    for (i, c) in text.iter().enumerate() {
        if *c == b'/' {
            let (_, path) = text.split_at(i);
            return path;
        }
    }
    b"/".as_slice()
}

/// Whether each size is `0`.
fn are_zero(sizes: &[Bytes]) -> bool
    ensures { result ≡ list_all spec.is_zero sizes.now }
{
    sizes.iter().all(|size| is_zero(size.as_slice()))
}

fn is_zero(size: &[u8]) -> bool
    ensures { result ≡ spec.is_zero size.now }
{
    size == b"0".as_slice()
}

/// Whether these are the hosts that a request may have.
fn are_hosts(minor: u8, hosts: &[Bytes]) -> bool
    ensures { result ≡ spec.are_hosts minor hosts.now }
{
    match hosts {
        [] => minor != 1,
        [host] => !any_barred(host.as_slice()),
        _ => false,
    }
}

fn any_barred(host: &[u8]) -> bool
    ensures { result ≡ list_any spec.is_barred host.now }
{
    host.iter().any(|c| is_barred(*c))
}

/// Whether no host has this byte.
fn is_barred(c: u8) -> bool
    ensures { result ≡ spec.is_barred c }
{
    c == b'/' || c == b'@' || c == b'?' || c <= b' ' || c == 127
}

/// The first byte of one range alone.
fn first_of_ranges(ranges: &[Bytes]) -> Option<u64>
    ensures { result ≡ option_map spec.capped (spec.first_of_ranges ranges.now) }
{
    match ranges {
        [range] => first_of_range(range.as_slice()),
        _ => None,
    }
}

/// N of `bytes=N-`.
fn first_of_range(value: &[u8]) -> Option<u64>
    ensures { result ≡ option_map spec.capped (spec.first_of_range value.now) }
{
    if value.len() < 6 {
        return None;
    }
    let (unit, first) = value.split_at(6);
    if unit != b"bytes=".as_slice() {
        return None;
    }
    first_of(first)
}

/// N of `N-`.
fn first_of(text: &[u8]) -> Option<u64>
    ensures { result ≡ option_map spec.capped (spec.first_of text.now) }
{
    let (digits, mark) = text.split_at(text.len().saturating_sub(1));
    if mark != b"-".as_slice() || !are_few_digits(digits) {
        return None;
    }
    Some(capped_number(digits))
}

/// Whether a text is 1 to 20 digits.
fn are_few_digits(text: &[u8]) -> bool
    ensures { result ≡ spec.are_few_digits text.now }
{
    is_digits(text) && text.len() <= 20
}

/// The number that digits write, or the greatest u64 where it is beyond that.
fn capped_number(digits: &[u8]) -> u64
    requires { is_digits digits.now ≡ true }
    ensures { result ≡ spec.capped (digits_value 10 digits.now) }
{
    number(digits).unwrap_or(u64::MAX)
}

/// Whether a value has the word `close`.
fn any_close(values: &[Bytes]) -> bool
    ensures { result ≡ list_any has_close values.now }
{
    values.iter().any(|value| has_close(value.as_slice()))
}
