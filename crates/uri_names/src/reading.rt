//! URIs and bases, read from texts. It may take memory, and touches nothing else.
ghost use Rattle.std.specs.Prelude.{◌≡◌, ◌⊎◌, ◌-◌, ◌==◌, None, Some, Ok, Err, IfOk, IfErr, IfSome, length, ok_or, bytes_eq};
ghost use Rattle.std.specs.List.{list_all, list_any, position_or_len, suffix_len};
ghost use Rattle.std.specs.Char.{is_ascii_graphic};
ghost use Rattle.url.specs.Input.{lowercase};
ghost use Rattle.url.specs.Parser.{parse_url};
ghost use Rattle.acq_base.specs.Uri.{IsSound};
ghost use Rattle.uri_names.specs.Normal.{IsBase, IsNormal};
ghost use Rattle.uri_names.specs.Parts as parts;
ghost use Rattle.uri_names.specs.Reading as spec;
ghost use Rattle.uri_names.specs.Refused.{IsRefused, IsBaseRefused};

use crate::UriError;
use crate::parts::{uri_of_url, within};
use acq_base::{NoMemory, Text, Uri};
use std::alloc::Global;
use std::str;
use url::{ParseError, Url};

/// The most bytes of the text of a sound URI.
const SOUND_BYTES: usize = 16384;

/// The most bytes of a text that is read as a URI.
const TEXT_BYTES: usize = 4096;

/// Reads a URI.
///
/// `Scheme` where the text has no `:`, or what stands before the first one is neither `http` nor `file`, in either
/// case; else `BadUri` where the text isn't at most 4,096 bytes of ASCII without blanks and control characters, or
/// is no URL by the URL Standard, or one with a user name, a password, a fragment, or a character in its path and query
/// that RFC 3986 doesn't list, or an http URL without a host, or a file URL with a host or a query.
pub fn read_uri(alloc: Global, text: &[u8]) -> Result<Uri, UriError>
    ensures value { (result ≡ Err UriError.NoMemory) ⊎ (result ≡ spec.read_uri_of text.now) }
    ensures refused { IfErr result (IsRefused text.now) }
    ensures sound { IfOk result IsSound }
    ensures normal { IfOk result IsNormal }
    ensures again { IfOk result spec.ReadsBack }
{
    judged_text(alloc, text)
}

/// The URI of a text: the scheme is judged first, then the text.
#[tactic(auto, unfolding(crate::specs::Reading::read_uri_of), using(crate::proofs::Texts::utf8_if_visible))]
fn judged_text(alloc: Global, text: &[u8]) -> Result<Uri, UriError>
    ensures value { (result ≡ Err UriError.NoMemory) ⊎ (result ≡ spec.read_uri_of text.now) }
    ensures sound { IfOk result IsSound }
    ensures normal { IfOk result IsNormal }
{
    if !has_scheme(text) {
        return Err(UriError::Scheme);
    }
    if !is_uri_text(text) {
        return Err(UriError::BadUri);
    }
    match str::from_utf8(text) {
        Ok(text) => read_url(alloc, text),
        Err(_) => Err(UriError::BadUri),
    }
}

/// Reads the base URI of a source: as `read_uri`, with `BadUri` for a query too. The path then ends with exactly one `/`.
pub fn read_base(alloc: Global, text: &[u8]) -> Result<Uri, UriError>
    ensures value { (result ≡ Err UriError.NoMemory) ⊎ (result ≡ spec.read_base_of text.now) }
    ensures refused { IfErr result (IsBaseRefused text.now) }
    ensures sound { IfOk result IsSound }
    ensures base { IfOk result IsBase }
    ensures again { IfOk result spec.ReadsBack }
{
    judged_base(alloc, text)
}

/// The base of a text: the URI is judged first, then whether it can be a folder.
#[tactic(auto, unfolding(crate::specs::Reading::read_base_of))]
fn judged_base(alloc: Global, text: &[u8]) -> Result<Uri, UriError>
    ensures value { (result ≡ Err UriError.NoMemory) ⊎ (result ≡ spec.read_base_of text.now) }
    ensures sound { IfOk result IsSound }
    ensures base { IfOk result IsBase }
{
    let uri = read_uri(alloc, text)?;
    folder(alloc, uri)
}

/// Whether what stands before the first `:` names a scheme of this profile.
#[tactic(auto, unfolding(crate::specs::Reading::has_scheme), using(crate::proofs::Texts::colon_is_there))]
fn has_scheme(text: &[u8]) -> bool
    ensures { result ≡ spec.has_scheme text.now }
{
    let colon = first_colon(text);
    if colon >= text.len() {
        return false;
    }
    let (name, _) = text.split_at(colon);
    is_scheme_name(name)
}

/// Whether a name is `http` or `file`, in either case.
fn is_scheme_name(name: &[u8]) -> bool
    ensures { result ≡ spec.is_scheme_name name.now }
{
    is_name(name, b"http") || is_name(name, b"file")
}

/// Whether a name is this one, ASCII case aside.
fn is_name(name: &[u8], wanted: &[u8]) -> bool
    ensures { result ≡ bytes_eq (lowercase name.now) (lowercase wanted.now) }
{
    name.eq_ignore_ascii_case(wanted)
}

/// The place of the first `:`, or the length where there is none.
fn first_colon(text: &[u8]) -> usize
    ensures { result ≡ position_or_len spec.is_colon text.now }
{
    for (i, byte) in text.iter().enumerate() {
        if *byte == b':' {
            return i;
        }
    }
    text.len()
}

/// Whether a text is at most 4,096 bytes of ASCII without blanks and control characters.
#[tactic(auto, unfolding(crate::specs::Reading::is_uri_text))]
pub fn is_uri_text(text: &[u8]) -> bool
    ensures { result ≡ spec.is_uri_text text.now }
{
    text.len() <= TEXT_BYTES && is_graphic(text)
}

/// Whether a text is ASCII without blanks and control characters.
fn is_graphic(text: &[u8]) -> bool
    ensures { result ≡ list_all is_ascii_graphic text.now }
{
    text.iter().all(|byte| byte.is_ascii_graphic())
}

/// The URI that the URL Standard reads in a text.
fn read_url(alloc: Global, text: &str) -> Result<Uri, UriError>
    ensures value { (result ≡ Err UriError.NoMemory) ⊎ (result ≡ spec.judged (parse_url None text.now)) }
    ensures sound { IfOk result IsSound }
    ensures normal { IfOk result IsNormal }
{
    match Url::parse(alloc, text) {
        Ok(url) => judge(alloc, &url),
        Err(ParseError::OutOfMemory) | Err(ParseError::Overflow) => Err(UriError::NoMemory),
        Err(_) => Err(UriError::BadUri),
    }
}

/// The URI that a URL is, or `BadUri` where it has a fragment or isn't of this profile.
#[tactic(auto, unfolding(crate::specs::Reading::uri_of_url))]
fn judge(alloc: Global, url: &Url) -> Result<Uri, UriError>
    ensures value { (result ≡ Err UriError.NoMemory) ⊎ (result ≡ ok_or (spec.uri_of_url url.now) UriError.BadUri) }
    ensures sound { IfOk result IsSound }
    ensures normal { IfOk result IsNormal }
{
    if url.fragment().is_some() {
        return Err(UriError::BadUri);
    }
    let uri = uri_of_url(alloc, url)?;
    short(alloc, uri)
}

/// The URI, or `BadUri` where there is none, or one too long to be sound.
fn short(alloc: Global, uri: Option<Uri>) -> Result<Uri, UriError>
    ensures value { (result ≡ Err UriError.NoMemory) ⊎ (result ≡ ok_or (parts.within SOUND_BYTES uri) UriError.BadUri) }
    ensures sound { IfSome uri IsNormal → IfOk result IsSound }
    ensures normal { IfSome uri IsNormal → IfOk result IsNormal }
    ensures base { IfSome uri IsBase → IfOk result IsBase }
{
    match within(alloc, SOUND_BYTES, uri)? {
        Some(uri) => Ok(uri),
        None => Err(UriError::BadUri),
    }
}

/// The URI with one `/` at its end, or `BadUri` where it has a query.
#[tactic(auto, unfolding(crate::specs::Reading::folder_of), using(crate::proofs::Bases::base_from))]
fn folder(alloc: Global, uri: Uri) -> Result<Uri, UriError>
    ensures value { (result ≡ Err UriError.NoMemory) ⊎ (result ≡ spec.folder_of uri) }
    ensures sound { IsNormal uri → IfOk result IsSound }
    ensures base { IsNormal uri → IfOk result IsBase }
{
    let Uri {
        scheme,
        host,
        port,
        path,
    } = uri;
    if has_query(path.as_bytes()) {
        return Err(UriError::BadUri);
    }
    let path = with_one_slash(alloc, path.as_bytes())?;
    short(
        alloc,
        Some(Uri {
            scheme,
            host,
            port,
            path,
        }),
    )
}

/// Whether a path has a `?` in it, and so a query behind it.
fn has_query(path: &[u8]) -> bool
    ensures { result ≡ list_any (λ c. c == 63) path.now }
{
    path.contains(&b'?')
}

/// The path with exactly one `/` at its end.
#[tactic(auto, unfolding(crate::specs::Reading::with_one_slash))]
fn with_one_slash(alloc: Global, path: &[u8]) -> Result<Text, NoMemory>
    ensures { IfOk result (λ text. text ≡ spec.with_one_slash path.now) }
{
    let (front, _) = path.split_at(len_without_slashes(path));
    let mut text = Text::from_bytes(alloc, front)?;
    text.push(b'/')?;
    Ok(text)
}

/// How many bytes stand before the slashes at the end.
fn len_without_slashes(path: &[u8]) -> usize
    ensures { result ≡ length path.now - suffix_len (λ c. c == 47) path.now }
{
    let mut len = path.len();
    while len > 0 && path[len - 1] == b'/' {
        len -= 1;
    }
    len
}
