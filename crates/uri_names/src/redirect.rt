//! Where a redirect leads. It may take memory, and touches nothing else.
ghost use Rattle.std.specs.Prelude.{◌≡◌, None, Some, IfOk, IfSome};
ghost use Rattle.std.specs.Char.{is_ascii};
ghost use Rattle.std.specs.List.{list_all};
ghost use Rattle.url.specs.Parser.{parse_url};
ghost use Rattle.acq_base.specs.Uri.{IsSound};
ghost use Rattle.uri_names.specs.Normal.{IsNormal};
ghost use Rattle.uri_names.specs.Reading.{ReadsBack};
ghost use Rattle.uri_names.specs.Redirect as spec;

use crate::names::uri_text;
use crate::parts::{uri_of_url, within};
use crate::reading::is_uri_text;
use acq_base::{NoMemory, Uri};
use std::alloc::Global;
use std::str;
use url::{ParseError, Url};

/// The most bytes of the text of a URI that a redirect leads to.
const TEXT_BYTES: usize = 4096;

/// Where a redirect from a URI to a place leads (RFC 9110, section 10.2.2): the place is joined to the URI by the URL
/// Standard, and its fragment is dropped.
///
/// None where the place isn't at most 4,096 bytes of ASCII without blanks and control characters, where it can't be
/// joined, where `read_uri` would refuse what it leads to, or where that has more than 4,096 bytes.
#[tactic(auto, unfolding(crate::specs::Redirect::resolve_of), using(crate::proofs::Texts::utf8_if_visible, crate::proofs::Texts::utf8_if_ascii))]
pub fn resolve(alloc: Global, from: &Uri, place: &[u8]) -> Result<Option<Uri>, NoMemory>
    ensures value { IfOk result (λ found. found ≡ spec.resolve_of from.now place.now) }
    ensures sound { IfOk result (λ found. IfSome found IsSound) }
    ensures normal { IfOk result (λ found. IfSome found IsNormal) }
    ensures again { IfOk result (λ found. IfSome found ReadsBack) }
{
    if !is_uri_text(place) {
        return Ok(None);
    }
    let text = uri_text(alloc, from)?;
    if !is_ascii_text(text.as_bytes()) {
        return Ok(None);
    }
    match (str::from_utf8(text.as_bytes()), str::from_utf8(place)) {
        (Ok(text), Ok(place)) => join(alloc, text, place),
        _ => Ok(None),
    }
}

fn is_ascii_text(text: &[u8]) -> bool
    ensures { result ≡ list_all is_ascii text.now }
{
    text.iter().all(|byte| byte.is_ascii())
}

/// Where the place leads from the URL that a text reads as.
fn join(alloc: Global, text: &str, place: &str) -> Result<Option<Uri>, NoMemory>
    ensures value { IfOk result (λ found. found ≡ spec.joined_with (parse_url None text.now) place.now) }
    ensures sound { IfOk result (λ found. IfSome found IsSound) }
    ensures normal { IfOk result (λ found. IfSome found IsNormal) }
{
    match Url::parse(alloc, text) {
        Ok(base) => join_to(alloc, &base, place),
        Err(ParseError::OutOfMemory) | Err(ParseError::Overflow) => Err(NoMemory),
        Err(_) => Ok(None),
    }
}

/// Where the place leads from a URL.
fn join_to(alloc: Global, base: &Url, place: &str) -> Result<Option<Uri>, NoMemory>
    ensures value { IfOk result (λ found. found ≡ spec.place_of (parse_url (Some base.now) place.now)) }
    ensures sound { IfOk result (λ found. IfSome found IsSound) }
    ensures normal { IfOk result (λ found. IfSome found IsNormal) }
{
    match base.join(place) {
        Ok(url) => {
            let uri = uri_of_url(alloc, &url)?;
            within(alloc, TEXT_BYTES, uri)
        }
        Err(ParseError::OutOfMemory) | Err(ParseError::Overflow) => Err(NoMemory),
        Err(_) => Ok(None),
    }
}
