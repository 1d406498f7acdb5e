//! What the head of a response means.

ghost use Rattle.std.specs.Prelude.{◌≡◌, ◌<◌, ◌≤◌, length, map, codes, All, IfOk};
ghost use Rattle.std.specs.List.{list_all, list_any};
ghost use Rattle.httparse.specs.Spans.{IsHeaderWithin, header_bytes};
ghost use Rattle.http_wire.specs.Fields as fields;
ghost use Rattle.http_wire.specs.Meaning as spec;

use crate::fields::{has_close, is_range, number, same_word, values};
use acq_base::{Bytes, NoMemory, Row, TryCopy};
use httparse::spans::HeaderSpan;
use std::alloc::Global;

/// How a body ends (RFC 9112, section 6.3).
#[derive(Clone, Copy, Debug, PartialEq, Eq)]
pub enum Framing {
    /// With a last chunk and trailers.
    Chunks,
    /// After so many bytes.
    Counted(u64),
    /// With the connection.
    Unbounded,
}

/// What a head says.
#[derive(Debug, PartialEq, Drop)]
pub enum Meaning {
    /// Another head follows.
    Interim,
    /// The file isn't there, with the HTTP status.
    Absent(u16),
    /// The file is elsewhere, at this place.
    Moved(Bytes),
    /// It can't be read in one way only, or isn't what was asked for.
    Wrong,
    /// A body follows, and the connection is kept behind it or not.
    Body(Framing, bool),
}

/// A head's status, minor version and fields, where they stand in its bytes.
#[derive(Clone, Copy)]
pub struct Head<'a> {
    pub status: u16,
    pub minor: u8,
    pub bytes: &'a [u8],
    pub spans: &'a [HeaderSpan],
}

impl Head<'_> {
    /// What the head says to a request for a file from a byte on.
    #[tactic(auto, unfolding(crate::specs::Meaning::meaning))]
    pub fn judge(&self, alloc: Global, from: u64) -> Result<Meaning, NoMemory>
        requires { All (IsHeaderWithin (length self.now.bytes.now)) self.now.spans.now }
        ensures { IfOk result (λ m. m ≡ spec.meaning from self.now.status self.now.minor (map (header_bytes self.now.bytes.now) self.now.spans.now)) }
    {
        match self.status {
            100..=199 => Ok(Meaning::Interim),
            200 if from == 0 => self.body(alloc),
            206 if from != 0 => self.part(alloc, from),
            206 => Ok(Meaning::Wrong),
            301 | 302 | 303 | 307 | 308 => self.moved(alloc),
            status => Ok(Meaning::Absent(status)),
        }
    }

    /// The values of the fields of a name.
    fn values(&self, alloc: Global, name: &[u8]) -> Result<Row<Bytes>, NoMemory>
        requires { All (IsHeaderWithin (length self.now.bytes.now)) self.now.spans.now }
        ensures { IfOk result (λ found. found ≡ fields.values name.now (map (header_bytes self.now.bytes.now) self.now.spans.now)) }
    {
        values(alloc, self.bytes, self.spans, name)
    }

    /// A body follows, unless its end can't be told.
    #[tactic(auto, unfolding(crate::specs::Meaning::body_of))]
    fn body(&self, alloc: Global) -> Result<Meaning, NoMemory>
        requires { All (IsHeaderWithin (length self.now.bytes.now)) self.now.spans.now }
        ensures { IfOk result (λ m. m ≡ spec.body_of self.now.minor (map (header_bytes self.now.bytes.now) self.now.spans.now)) }
    {
        let codings = self.values(alloc, b"transfer-encoding")?;
        let sizes = self.values(alloc, b"content-length")?;
        let keep = self.is_kept(alloc)?;
        Ok(match framing_of(codings.as_slice(), sizes.as_slice()) {
            Some(how) => Meaning::Body(how, keep),
            None => Meaning::Wrong,
        })
    }

    /// A body follows where one Content-Range says that it begins at that byte.
    fn part(&self, alloc: Global, from: u64) -> Result<Meaning, NoMemory>
        requires { All (IsHeaderWithin (length self.now.bytes.now)) self.now.spans.now }
        ensures { IfOk result (λ m. m ≡ spec.part_of from self.now.minor (map (header_bytes self.now.bytes.now) self.now.spans.now)) }
    {
        let ranges = self.values(alloc, b"content-range")?;
        if is_one_range(from, ranges.as_slice()) {
            self.body(alloc)
        } else {
            Ok(Meaning::Wrong)
        }
    }

    /// The first place that is named, or none.
    fn moved(&self, alloc: Global) -> Result<Meaning, NoMemory>
        requires { All (IsHeaderWithin (length self.now.bytes.now)) self.now.spans.now }
        ensures { IfOk result (λ m. m ≡ spec.moved self.now.status (fields.values (codes "location") (map (header_bytes self.now.bytes.now) self.now.spans.now))) }
    {
        let places = self.values(alloc, b"location")?;
        match places.as_slice() {
            [place, ..] => Ok(Meaning::Moved(place.copy(alloc)?)),
            [] => Ok(Meaning::Absent(self.status)),
        }
    }

    /// Whether the connection may serve another request (RFC 9112, section 9.3).
    fn is_kept(&self, alloc: Global) -> Result<bool, NoMemory>
        requires { All (IsHeaderWithin (length self.now.bytes.now)) self.now.spans.now }
        ensures { IfOk result (λ keep. keep ≡ spec.is_kept self.now.minor (map (header_bytes self.now.bytes.now) self.now.spans.now)) }
    {
        let words = self.values(alloc, b"connection")?;
        Ok(self.minor == 1 && !any_close(words.as_slice()))
    }
}

/// Whether a value has the word `close`.
fn any_close(values: &[Bytes]) -> bool
    ensures { result ≡ list_any fields.has_close values.now }
{
    values.iter().any(|value| has_close(value.as_slice()))
}

/// Whether there is one range, and it begins at that byte.
fn is_one_range(from: u64, ranges: &[Bytes]) -> bool
    ensures { result ≡ spec.is_one_range from ranges.now }
{
    match ranges {
        [range] => is_range(from, range.as_slice()),
        _ => false,
    }
}

/// How a body ends, by its codings and sizes (RFC 9112, section 6.3).
fn framing_of(codings: &[Bytes], sizes: &[Bytes]) -> Option<Framing>
    ensures { result ≡ spec.framing codings.now sizes.now }
{
    match codings {
        [] => framing_by_length(sizes),
        [coding] if same_word(coding.as_slice(), b"chunked") => Some(Framing::Chunks),
        _ => None,
    }
}

/// How a body without a coding ends. Sizes that differ are refused.
fn framing_by_length(sizes: &[Bytes]) -> Option<Framing>
    ensures { result ≡ spec.framing_by_length sizes.now }
{
    match sizes {
        [] => Some(Framing::Unbounded),
        [size, others @ ..] => counted(number(size.as_slice()), others),
    }
}

fn counted(size: Option<u64>, others: &[Bytes]) -> Option<Framing>
    ensures { result ≡ spec.counted size others.now }
{
    match size {
        Some(size) if all_say(size, others) => Some(Framing::Counted(size)),
        _ => None,
    }
}

/// Whether each text is a number, and the same one.
fn all_say(size: u64, others: &[Bytes]) -> bool
    ensures { result ≡ list_all (λ other. spec.says size (fields.number other)) others.now }
{
    others
        .iter()
        .all(|other| says(size, number(other.as_slice())))
}

/// Whether a number was read, and it is this one.
fn says(size: u64, read: Option<u64>) -> bool
    ensures { result ≡ spec.says size read }
{
    match read {
        Some(other) => other == size,
        None => false,
    }
}
