//! Heads, size lines and trailers, in texts that are whole or go on.

ghost use Rattle.std.specs.Prelude.{◌≡◌, ◌<◌, ◌≤◌, List, [], length, take, IfOk};
ghost use Rattle.std.specs.List.{prefix_len};
ghost use Rattle.httparse.specs.declared.spans.HeaderSpan.{HeaderSpan};
ghost use Rattle.httparse.specs.Grammar.{ResponseHead};
ghost use Rattle.httparse.specs.Pieces.{is_newline};
ghost use Rattle.http_wire.specs.Forms.{Whole, head_form, line_feeds, lines_behind_blank};
ghost use Rattle.http_wire.specs.Steps.{IsHeadAt, IsHeadRead, IsSizeRead, AreTrailersRead};

use crate::Meaning;
use crate::meaning::Head;
use acq_base::NoMemory;
use httparse::spans::{
    EMPTY_HEADER_SPAN, HeaderSpan, ResponseSpans, parse_headers, parse_response,
};
use httparse::{Error, Status, parse_chunk_size};
use std::alloc::Global;

/// The most bytes of a head or of trailers.
pub const HEAD_BYTES: usize = 65536;

/// The most fields of a head or of trailers.
const FIELDS: usize = 128;

/// The most bytes of a chunk's size line.
const SIZE_BYTES: usize = 4096;

/// What a text is of a head.
#[derive(Debug, PartialEq, Drop)]
pub enum HeadRead {
    More,
    Bad,
    /// A whole head, with its status and what it means.
    Whole(u16, Meaning),
}

/// What a text is of a chunk's size line.
#[derive(Clone, Copy, Debug, PartialEq, Eq)]
pub enum SizeRead {
    More,
    Bad,
    /// A whole line, with the chunk's size.
    Whole(u64),
}

/// What a text is of trailers.
#[derive(Clone, Copy, Debug, PartialEq, Eq)]
pub enum TrailersRead {
    More,
    Bad,
    Whole,
}

/// Where the parts of a head stand in a text, if one is whole.
#[derive(Clone, Copy, Debug, PartialEq, Eq)]
pub enum HeadSpans {
    More,
    Bad,
    Whole(ResponseSpans),
}

/// What a text is of the head of a response to a request for a file from a byte on.
pub fn read_head(alloc: Global, text: &[u8], from: u64) -> Result<HeadRead, NoMemory>
    ensures { IfOk result (λ read. IsHeadRead from text.now read) }
{
    let mut spans = [EMPTY_HEADER_SPAN; FIELDS];
    match find_head(text, &mut spans) {
        HeadSpans::More => Ok(HeadRead::More),
        HeadSpans::Bad => Ok(HeadRead::Bad),
        HeadSpans::Whole(head) => judge_head(alloc, text, from, head, &spans),
    }
}

/// What a text is of a head, whatever that means.
fn scan_head(text: &[u8]) -> HeadSpans
    ensures { (spans : List HeaderSpan) × IsHeadAt text.now spans result }
{
    let mut spans = [EMPTY_HEADER_SPAN; FIELDS];
    find_head(text, &mut spans)
}

/// How many bytes the whole head has that a text begins with, or 0 where it begins with none.
pub fn head_len(text: &[u8]) -> usize
    ensures within { result ≤ length text.now }
    ensures whole { 0 < result → (head : ResponseHead) × Whole head_form (take result text.now) head [] }
{
    match scan_head(text) {
        HeadSpans::Whole(head) => head.len,
        HeadSpans::More | HeadSpans::Bad => 0,
    }
}

/// Where the parts of a head stand.
#[tactic(auto, using(crate::proofs::Parsed::heads))]
fn find_head(text: &[u8], spans: &mut [HeaderSpan]) -> HeadSpans
    requires { length spans.old ≡ 128 }
    ensures { IsHeadAt text.now spans.new result }
{
    match parse_response(text, spans) {
        Ok(Status::Complete(head)) => {
            if head.len > HEAD_BYTES {
                return HeadSpans::Bad;
            }
            HeadSpans::Whole(head)
        }
        Ok(Status::Partial) => {
            if text.len() > HEAD_BYTES {
                return HeadSpans::Bad;
            }
            if lines_behind_blank(text) > FIELDS + 1 {
                return HeadSpans::Bad;
            }
            HeadSpans::More
        }
        Err(Error::TooManyHeaders) => HeadSpans::Bad,
        Err(_) => HeadSpans::Bad,
    }
}

/// What a whole head means.
#[tactic(auto, using(crate::proofs::Parsed::all_within))]
fn judge_head(
    alloc: Global,
    text: &[u8],
    from: u64,
    head: ResponseSpans,
    spans: &[HeaderSpan],
) -> Result<HeadRead, NoMemory>
    requires { IsHeadAt text.now spans.now (HeadSpans.Whole head) }
    ensures { IfOk result (λ read. IsHeadRead from text.now read) }
{
    if head.headers > spans.len() {
        return Ok(HeadRead::Bad);
    }
    let (fields, _) = spans.split_at(head.headers);
    let found = Head {
        status: head.code,
        minor: head.version,
        bytes: text,
        spans: fields,
    };
    let says = found.judge(alloc, from)?;
    Ok(HeadRead::Whole(head.code, says))
}

/// How many lines end behind the empty lines at the front, which are line feeds and carriage returns before the first
/// other byte (RFC 9112, section 2.2).
#[tactic(auto, unfolding(crate::specs::Forms::lines_behind_blank))]
pub fn lines_behind_blank(text: &[u8]) -> usize
    ensures { result ≡ lines_behind_blank text.now }
{
    let blank = blank_len(text);
    if blank > text.len() {
        return 0;
    }
    let (_, rest) = text.split_at(blank);
    line_feeds(rest)
}

/// How many line feeds there are.
fn line_feeds(text: &[u8]) -> usize
    ensures { result ≡ line_feeds text.now }
{
    text.iter().filter(|b| **b == 10).count()
}

/// How many bytes of line ends stand at the front.
fn blank_len(text: &[u8]) -> usize
    ensures { result ≡ prefix_len is_newline text.now }
{
    for (i, b) in text.iter().enumerate() {
        if *b != 13 && *b != 10 {
            return i;
        }
    }
    text.len()
}

/// What a text is of a chunk's size line.
#[tactic(auto, using(crate::proofs::Parsed::sizes))]
pub fn read_size(text: &[u8]) -> SizeRead
    ensures { IsSizeRead text.now result }
{
    match parse_chunk_size(text) {
        Ok(Status::Complete((len, size))) => {
            if len > SIZE_BYTES {
                return SizeRead::Bad;
            }
            SizeRead::Whole(size)
        }
        Ok(Status::Partial) => {
            if text.len() > SIZE_BYTES {
                return SizeRead::Bad;
            }
            SizeRead::More
        }
        Err(_) => SizeRead::Bad,
    }
}

/// What a text is of trailers.
pub fn read_trailers(text: &[u8]) -> TrailersRead
    ensures { AreTrailersRead text.now result }
{
    let mut spans = [EMPTY_HEADER_SPAN; FIELDS];
    find_trailers(text, &mut spans)
}

#[tactic(auto, using(crate::proofs::Parsed::trailers))]
fn find_trailers(text: &[u8], spans: &mut [HeaderSpan]) -> TrailersRead
    requires { length spans.old ≡ 128 }
    ensures { AreTrailersRead text.now result }
{
    match parse_headers(text, spans) {
        Ok(Status::Complete((len, _count))) => {
            if len > HEAD_BYTES {
                return TrailersRead::Bad;
            }
            TrailersRead::Whole
        }
        Ok(Status::Partial) => {
            if text.len() > HEAD_BYTES {
                return TrailersRead::Bad;
            }
            if line_feeds(text) > FIELDS {
                return TrailersRead::Bad;
            }
            TrailersRead::More
        }
        Err(Error::TooManyHeaders) => TrailersRead::Bad,
        Err(_) => TrailersRead::Bad,
    }
}
