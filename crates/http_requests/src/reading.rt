//! Reads the head of a request.
ghost use Rattle.std.specs.Prelude.{IfOk};
ghost use Rattle.http_requests.specs.Reading.{IsReading};

use crate::Request;
use crate::asked::asked;
use crate::head::{Found, find_head};
use crate::limits::FIELDS;
use acq_base::NoMemory;
use httparse::spans::EMPTY_HEADER_SPAN;
use std::alloc::Global;

/// What a server reads of a text.
#[derive(Debug, PartialEq, Drop)]
pub enum Reading {
    /// No request yet, but one may come, or the text ends within a target, which isn't judged before it has ended.
    More,
    /// No request, and none can come, or none within the limits of a head: 65,536 bytes, the empty lines before it included,
    /// and 128 fields.
    Bad,
    /// It begins with the head of a request, of so many bytes, which asks for this.
    Whole(usize, Request),
}

/// What a server reads of a text.
#[tactic(auto, using(crate::proofs::Asking::asked_by_head))]
pub fn read_request(alloc: Global, text: &[u8]) -> Result<Reading, NoMemory>
    ensures { IfOk result (IsReading text.now) }
{
    let mut spans = [EMPTY_HEADER_SPAN; FIELDS];
    match find_head(text, &mut spans) {
        Found::More => Ok(Reading::More),
        Found::Bad => Ok(Reading::Bad),
        Found::Whole(head) => {
            let request = asked(alloc, text, head, &spans)?;
            Ok(Reading::Whole(head.len, request))
        }
    }
}
