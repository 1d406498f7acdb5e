//! Requests read. It takes memory, and touches nothing else.

ghost use Rattle.std.specs.Prelude.{◌≡◌, ◌≤◌, length, IfOk, IfSome};
ghost use Rattle.std.specs.Result.{result_ok};
ghost use Rattle.acq_base.specs.Uri.{IsSound};
ghost use Rattle.uri_names.specs.Reading.{read_uri_of};
ghost use Rattle.method_server.specs.Asked as spec;

use crate::fields::value_of;
use crate::wish::Wish;
use acq_base::{Job, NoMemory, Scheme, Sha, Text, TryCopy, Uri, read_digits};
use method_messages::Message;
use std::alloc::Global;
use uri_names::{UriError, read_uri};

/// The longest file name that is taken, in bytes.
const LONGEST_NAME: usize = 4_096;

/// What a request asks for, or `None` where it is a bad one: without a URI of the method's own scheme, over http without
/// a file name of at most 4,096 bytes, or with a size or a digest that is none.
#[tactic(auto, unfolding(crate::specs::Asked::wish_of))]
pub fn read_wish(alloc: Global, http: bool, message: &Message) -> Result<Option<Wish>, NoMemory>
    ensures value { IfOk result (λ wish. wish ≡ spec.wish_of http message.now) }
    ensures sound { IfOk result (λ wish. IfSome wish (λ w. IsSound w.job.uri)) }
    ensures whole { IfOk result (λ wish. IfSome wish (λ w. w.job.from ≡ 0)) }
{
    let Some(text) = value_of(alloc, message, b"URI")? else {
        return Ok(None);
    };
    let Some(uri) = own_uri(alloc, http, text.as_bytes())? else {
        return Ok(None);
    };
    read_rest(alloc, http, message, text, uri)
}

/// What a request asks for whose URI is read.
fn read_rest(
    alloc: Global,
    http: bool,
    message: &Message,
    text: Text,
    uri: Uri,
) -> Result<Option<Wish>, NoMemory>
    requires { IsSound uri }
    ensures value { IfOk result (λ wish. wish ≡ spec.wish_at http message.now text uri) }
    ensures sound { IfOk result (λ wish. IfSome wish (λ w. IsSound w.job.uri)) }
    ensures whole { IfOk result (λ wish. IfSome wish (λ w. w.job.from ≡ 0)) }
{
    let max = max_of(alloc, message)?;
    let wanted = wanted_of(alloc, message)?;
    let name = name_of(alloc, http, message, &uri)?;
    Ok(wish_with(text, uri, max, wanted, name))
}

/// A wish of these parts, where each is there.
fn wish_with(
    text: Text,
    uri: Uri,
    max: Option<u64>,
    wanted: Option<Option<Sha>>,
    name: Option<Text>,
) -> Option<Wish>
    requires { IsSound uri }
    ensures value { result ≡ spec.wish_with text uri max wanted name }
    ensures sound { IfSome result (λ w. IsSound w.job.uri) }
    ensures whole { IfSome result (λ w. w.job.from ≡ 0) }
{
    let max = max?;
    let wanted = wanted?;
    let name = name?;
    let job = Job {
        no: 0,
        uri,
        max,
        from: 0,
    };
    Some(Wish {
        text,
        job,
        wanted,
        name,
    })
}

/// The URI that a text writes, where it is one of this scheme.
fn own_uri(alloc: Global, http: bool, text: &[u8]) -> Result<Option<Uri>, NoMemory>
    ensures value { IfOk result (λ uri. uri ≡ spec.own_uri http text.now) }
    ensures sound { IfOk result (λ uri. IfSome uri IsSound) }
{
    match uri_in(alloc, text)? {
        Some(uri) => Ok(of_scheme(http, uri)),
        None => Ok(None),
    }
}

/// The URI that a text writes, if it writes one.
fn uri_in(alloc: Global, text: &[u8]) -> Result<Option<Uri>, NoMemory>
    ensures value { IfOk result (λ uri. uri ≡ result_ok (read_uri_of text.now)) }
    ensures sound { IfOk result (λ uri. IfSome uri IsSound) }
{
    match read_uri(alloc, text) {
        Ok(uri) => Ok(Some(uri)),
        Err(UriError::NoMemory) => Err(NoMemory),
        Err(_) => Ok(None),
    }
}

/// The URI, where it is one of this scheme.
fn of_scheme(http: bool, uri: Uri) -> Option<Uri>
    requires { IsSound uri }
    ensures value { result ≡ spec.of_scheme http uri }
    ensures sound { IfSome result IsSound }
{
    if is_http(uri.scheme) == http {
        Some(uri)
    } else {
        None
    }
}

fn is_http(scheme: Scheme) -> bool
    ensures { result ≡ spec.is_http scheme }
{
    match scheme {
        Scheme::Http => true,
        Scheme::File => false,
    }
}

/// The most bytes that the file may have: the greatest `u64` where the request doesn't say, `None` where it says no
/// number.
fn max_of(alloc: Global, message: &Message) -> Result<Option<u64>, NoMemory>
    ensures { IfOk result (λ max. max ≡ spec.max_of message.now) }
{
    match value_of(alloc, message, b"Maximum-Size")? {
        Some(text) => Ok(read_digits(text.as_bytes())),
        None => Ok(Some(u64::MAX)),
    }
}

/// The digest that the file should have, if the request says one; `None` where it says what is no digest.
fn wanted_of(alloc: Global, message: &Message) -> Result<Option<Option<Sha>>, NoMemory>
    ensures { IfOk result (λ wanted. wanted ≡ spec.wanted_of message.now) }
{
    match value_of(alloc, message, b"Expected-SHA256")? {
        Some(text) => Ok(some_sha(text.as_bytes())),
        None => Ok(Some(None)),
    }
}

fn some_sha(text: &[u8]) -> Option<Option<Sha>>
    ensures { result ≡ spec.some_sha text.now }
{
    match sha_in(text) {
        Some(sha) => Some(Some(sha)),
        None => None,
    }
}

/// The digest that 64 hexadecimal digits write.
fn sha_in(text: &[u8]) -> Option<Sha>
    ensures { result ≡ spec.sha_in text.now }
{
    let mut sha = [0; 32];
    if hex::decode_to_slice(text, &mut sha).is_err() {
        return None;
    }
    Some(Sha(sha))
}

/// Where the file goes.
fn name_of(
    alloc: Global,
    http: bool,
    message: &Message,
    uri: &Uri,
) -> Result<Option<Text>, NoMemory>
    ensures { IfOk result (λ name. name ≡ spec.name_of http message.now uri.now) }
{
    if !http {
        return Ok(Some(uri.path.copy(alloc)?));
    }
    match value_of(alloc, message, b"Filename")? {
        Some(name) => Ok(short_name(name)),
        None => Ok(None),
    }
}

/// A name that isn't too long.
fn short_name(name: Text) -> Option<Text>
    ensures { result ≡ spec.short_name name }
{
    if name.len() <= LONGEST_NAME {
        Some(name)
    } else {
        None
    }
}
