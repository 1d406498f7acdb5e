//! Which URLs are URIs of this profile. It may take memory, and touches nothing else.
ghost use Rattle.std.specs.Prelude.{◌≡◌, ◌≤◌, IfOk, IfSome};
ghost use Rattle.std.specs.List.{list_all};
ghost use Rattle.acq_base.specs.Uri.{is_uri_character as is_uri_byte, IsSound};
ghost use Rattle.uri_names.specs.Normal.{IsBase, IsNormal};
ghost use Rattle.uri_names.specs.Parts as spec;

use crate::names::uri_text;
use acq_base::{NoMemory, Scheme, Text, Uri};
use std::alloc::Global;
use url::Url;

/// The URI that a URL is, its fragment aside, if it is one of this profile.
#[tactic(auto, using(crate::proofs::Normals::normal_from))]
pub fn uri_of_url(alloc: Global, url: &Url) -> Result<Option<Uri>, NoMemory>
    ensures value { IfOk result (λ found. found ≡ spec.uri_of_parts url.now) }
    ensures normal { IfOk result (λ found. IfSome found IsNormal) }
{
    let _valid = url.scheme();
    uri_of_parts(alloc, url)
}

/// The URI that a URL is, its fragment aside.
#[tactic(auto, unfolding(crate::specs::Parts::uri_of_parts))]
fn uri_of_parts(alloc: Global, url: &Url) -> Result<Option<Uri>, NoMemory>
    ensures { IfOk result (λ found. found ≡ spec.uri_of_parts url.now) }
{
    if !url.username().is_empty() || url.password().is_some() {
        return Ok(None);
    }
    match url.scheme() {
        "http" => http_uri(alloc, url),
        "file" => file_uri(alloc, url),
        _ => Ok(None),
    }
}

/// The URI that an http URL is, if its path and query hold only the characters of a URI.
#[tactic(auto, unfolding(crate::specs::Parts::http_uri_of))]
fn http_uri(alloc: Global, url: &Url) -> Result<Option<Uri>, NoMemory>
    ensures { IfOk result (λ found. found ≡ spec.http_uri_of url.now) }
{
    let Some(host) = url.host_str() else {
        return Ok(None);
    };
    let path = target(alloc, url)?;
    if !are_uri_characters(path.as_bytes()) {
        return Ok(None);
    }
    Ok(Some(Uri {
        scheme: Scheme::Http,
        host: Text::from_bytes(alloc, host.as_bytes())?,
        port: url.port().unwrap_or(80),
        path,
    }))
}

/// The path and the query of a URL.
fn target(alloc: Global, url: &Url) -> Result<Text, NoMemory>
    ensures { IfOk result (λ found. found ≡ spec.target_of url.now) }
{
    let mut path = Text::from_bytes(alloc, url.path().as_bytes())?;
    if let Some(query) = url.query() {
        path.push(b'?')?;
        path.append(query.as_bytes())?;
    }
    Ok(path)
}

/// The URI that a file URL is, if it has neither host nor query and its path holds only the characters of a URI.
#[tactic(auto, unfolding(crate::specs::Parts::file_uri_of))]
fn file_uri(alloc: Global, url: &Url) -> Result<Option<Uri>, NoMemory>
    ensures { IfOk result (λ found. found ≡ spec.file_uri_of url.now) }
{
    let path = url.path().as_bytes();
    if url.has_host() || url.query().is_some() || !are_uri_characters(path) {
        return Ok(None);
    }
    Ok(Some(Uri {
        scheme: Scheme::File,
        host: Text::new(alloc),
        port: 0,
        path: Text::from_bytes(alloc, path)?,
    }))
}

fn are_uri_characters(bytes: &[u8]) -> bool
    ensures { result ≡ list_all is_uri_byte bytes.now }
{
    bytes.iter().all(|byte| is_uri_character(*byte))
}

/// Whether a byte may stand in a path and query (RFC 3986, section 2).
fn is_uri_character(byte: u8) -> bool
    ensures { result ≡ is_uri_byte byte }
{
    byte.is_ascii_alphanumeric() || b"-._~:/?[]@!$&'()*+,;=%".contains(&byte)
}

/// The URI, where its text has at most so many bytes.
#[tactic(auto, using(crate::proofs::SoundParts::sound_if_short))]
pub fn within(alloc: Global, limit: usize, uri: Option<Uri>) -> Result<Option<Uri>, NoMemory>
    ensures value { IfOk result (λ found. found ≡ spec.within limit uri) }
    ensures normal { IfSome uri IsNormal → IfOk result (λ found. IfSome found IsNormal) }
    ensures base { IfSome uri IsBase → IfOk result (λ found. IfSome found IsBase) }
    ensures sound { IfSome uri IsNormal → limit ≤ 16384 → IfOk result (λ found. IfSome found IsSound) }
{
    let Some(uri) = uri else {
        return Ok(None);
    };
    let text = uri_text(alloc, &uri)?;
    if text.len() <= limit {
        Ok(Some(uri))
    } else {
        Ok(None)
    }
}
