//! Where the parts of a head stand in a text. Nothing here takes memory.
ghost use Rattle.std.specs.Prelude.{◌≡◌, List, length};
ghost use Rattle.http_requests.specs.Reading.{IsFound};

use crate::limits::{HEAD_BYTES, ends_in_target, passes_limits};
use httparse::spans::{HeaderSpan, RequestSpans, parse_request};
use httparse::{Error, Status};

/// What a text is of the head of a request.
#[derive(Clone, Copy, Debug, PartialEq, Eq)]
pub enum Found {
    /// None yet, but one may come.
    More,
    /// None can come.
    Bad,
    /// It begins with a whole one, whose parts stand there.
    Whole(RequestSpans),
}

/// What a text is of the head of a request, with its fields in the spans, of which there is room for 128.
#[tactic(auto, using(crate::proofs::Parsed::requests))]
pub fn find_head(text: &[u8], spans: &mut [HeaderSpan]) -> Found
    requires { length spans.old ≡ 128 }
    ensures { IsFound text.now spans.new result }
{
    match parse_request(text, spans) {
        Ok(Status::Complete(head)) => {
            if head.len > HEAD_BYTES {
                return Found::Bad;
            }
            Found::Whole(head)
        }
        Ok(Status::Partial) => {
            if passes_limits(text) {
                return Found::Bad;
            }
            Found::More
        }
        Err(Error::TooManyHeaders) => Found::Bad,
        Err(_) => {
            if passes_limits(text) {
                return Found::Bad;
            }
            if ends_in_target(text) {
                return Found::More;
            }
            Found::Bad
        }
    }
}
