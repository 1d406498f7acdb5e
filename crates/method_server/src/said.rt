//! What is said, as texts. They take memory, but for the first message.

ghost use Rattle.std.specs.Prelude.{◌≡◌, ◌++◌, codes, IfOk, OnOk};
ghost use Rattle.std.specs.Fmt.{decimal};
ghost use Rattle.hex.specs.Hex.{encode_lower};
ghost use Rattle.method_messages.specs.Written.{field_text};
ghost use Rattle.method_server.specs.Answers as spec;

use crate::fields::value_of;
use crate::wish::Wish;
use acq_base::{NoMemory, NotServed, Sha, Sum, Text};
use method_messages::Message;
use std::alloc::Global;
use uri_names::uri_text;

/// The longest text of a bad request's URI that is repeated, in bytes.
const LONGEST_URI: usize = 4_096;

/// The first message: what the method can do.
#[tactic(auto, unfolding(method_messages::specs::Written::written))]
pub fn capabilities() -> &'static [u8]
    ensures { result.now ≡ spec.capabilities }
{
    b"100 Capabilities\nVersion: 1.0\n\n"
}

/// The last message, where the stream is refused or ends within a message that begins here.
#[tactic(auto, unfolding(crate::specs::Answers::general_failure, method_messages::specs::Written::written), using(crate::proofs::Regrouped::regroup))]
pub fn general_failure(alloc: Global, at: u64) -> Result<Text, NoMemory>
    ensures { IfOk result (λ text. text ≡ spec.general_failure at) }
{
    let why = counted(alloc, b"bad message ", at)?;
    let mut text = Text::from_bytes(alloc, b"401 General Failure\n")?;
    put_field(&mut text, b"Message", why.as_bytes())?;
    text.push(b'\n')?;
    Ok(text)
}

/// The answer to a bad request.
#[tactic(auto, unfolding(crate::specs::Answers::bad_request, method_messages::specs::Written::written), using(crate::proofs::Regrouped::regroup))]
pub fn bad_request(alloc: Global, message: &Message) -> Result<Text, NoMemory>
    ensures { IfOk result (λ text. text ≡ spec.bad_request message.now) }
{
    let uri = value_of(alloc, message, b"URI")?;
    let mut text = Text::from_bytes(alloc, b"400 URI Failure\n")?;
    put_repeated(&mut text, &uri)?;
    put_field(&mut text, b"Message", b"bad request")?;
    text.push(b'\n')?;
    Ok(text)
}

/// Appends the URI's field, where there is a text for it that isn't too long.
fn put_repeated(text: &mut Text, uri: &Option<Text>) -> Result<(), NoMemory>
    ensures { OnOk result (text.new ≡ text.old ++ spec.fields_text (spec.repeated uri.now)) }
{
    match uri {
        Some(uri) if uri.len() <= LONGEST_URI => put_field(text, b"URI", uri.as_bytes()),
        Some(_) => Ok(()),
        None => Ok(()),
    }
}

/// The answer to a request whose file was not served.
pub fn not_served(alloc: Global, wish: &Wish, end: &NotServed) -> Result<Text, NoMemory>
    ensures { IfOk result (λ text. text ≡ spec.not_served wish.now end.now) }
{
    match end {
        NotServed::Moved(Some(to)) => {
            let to = uri_text(alloc, to)?;
            redirect(alloc, wish, to.as_bytes())
        }
        NotServed::Moved(None) => failure(alloc, wish, b"bad redirect"),
        NotServed::Absent(status) => failed_at(alloc, wish, b"status ", u64::from(*status)),
        NotServed::TooBig => failure(alloc, wish, b"too big"),
        NotServed::Garbled(at) => failed_at(alloc, wish, b"garbled at ", *at),
        NotServed::Fault {
            before: _,
            after: _,
        } => failure(alloc, wish, b"fault"),
    }
}

/// The answer to a request whose file has this sum.
pub fn served(alloc: Global, wish: &Wish, sum: &Sum) -> Result<Text, NoMemory>
    ensures { IfOk result (λ text. text ≡ spec.served wish.now sum.now) }
{
    if differs(&wish.wanted, &sum.sha) {
        return failure(alloc, wish, b"hash mismatch");
    }
    let mut text = start(alloc, wish)?;
    text.append(done(alloc, wish, sum)?.as_bytes())?;
    Ok(text)
}

/// Whether another digest than this one is wanted.
fn differs(wanted: &Option<Sha>, sha: &Sha) -> bool
    ensures { result ≡ spec.differs wanted.now sha.now }
{
    match wanted {
        Some(wanted) => *wanted != *sha,
        None => false,
    }
}

#[tactic(auto, unfolding(crate::specs::Answers::start, method_messages::specs::Written::written), using(crate::proofs::Regrouped::regroup))]
fn start(alloc: Global, wish: &Wish) -> Result<Text, NoMemory>
    ensures { IfOk result (λ text. text ≡ spec.start wish.now) }
{
    let mut text = Text::from_bytes(alloc, b"200 URI Start\n")?;
    put_field(&mut text, b"URI", wish.text.as_bytes())?;
    text.push(b'\n')?;
    Ok(text)
}

#[tactic(auto, unfolding(crate::specs::Answers::done, method_messages::specs::Written::written), using(crate::proofs::Regrouped::regroup))]
fn done(alloc: Global, wish: &Wish, sum: &Sum) -> Result<Text, NoMemory>
    ensures { IfOk result (λ text. text ≡ spec.done wish.now sum.now) }
{
    let size = counted(alloc, b"", sum.size)?;
    let digits = hex::encode(alloc, sum.sha.0)?;
    let mut text = Text::from_bytes(alloc, b"201 URI Done\n")?;
    put_field(&mut text, b"URI", wish.text.as_bytes())?;
    put_field(&mut text, b"Filename", wish.name.as_bytes())?;
    put_field(&mut text, b"Size", size.as_bytes())?;
    put_field(&mut text, b"SHA256-Hash", digits.as_bytes())?;
    text.push(b'\n')?;
    Ok(text)
}

#[tactic(auto, unfolding(crate::specs::Answers::redirect, method_messages::specs::Written::written), using(crate::proofs::Regrouped::regroup))]
fn redirect(alloc: Global, wish: &Wish, to: &[u8]) -> Result<Text, NoMemory>
    ensures { IfOk result (λ text. text ≡ spec.redirect wish.now to.now) }
{
    let mut text = Text::from_bytes(alloc, b"103 Redirect\n")?;
    put_field(&mut text, b"URI", wish.text.as_bytes())?;
    put_field(&mut text, b"New-URI", to)?;
    text.push(b'\n')?;
    Ok(text)
}

#[tactic(auto, unfolding(crate::specs::Answers::failure, method_messages::specs::Written::written), using(crate::proofs::Regrouped::regroup))]
fn failure(alloc: Global, wish: &Wish, why: &[u8]) -> Result<Text, NoMemory>
    ensures { IfOk result (λ text. text ≡ spec.failure wish.now why.now) }
{
    let mut text = Text::from_bytes(alloc, b"400 URI Failure\n")?;
    put_field(&mut text, b"URI", wish.text.as_bytes())?;
    put_field(&mut text, b"Message", why)?;
    text.push(b'\n')?;
    Ok(text)
}

/// A failure with a number behind its words.
fn failed_at(alloc: Global, wish: &Wish, words: &[u8], number: u64) -> Result<Text, NoMemory>
    ensures { IfOk result (λ text. text ≡ spec.failure wish.now (words.now ++ decimal number)) }
{
    let why = counted(alloc, words, number)?;
    failure(alloc, wish, why.as_bytes())
}

/// Words, and a number in decimal digits.
fn counted(alloc: Global, words: &[u8], number: u64) -> Result<Text, NoMemory>
    ensures { IfOk result (λ text. text ≡ words.now ++ decimal number) }
{
    let mut text = Text::from_bytes(alloc, words)?;
    let digits = format!(in alloc; "{number}")?;
    text.append(digits.as_bytes())?;
    Ok(text)
}

/// Appends a field's line.
fn put_field(text: &mut Text, name: &[u8], value: &[u8]) -> Result<(), NoMemory>
    ensures { OnOk result (text.new ≡ text.old ++ field_text (name.now, value.now)) }
{
    text.append(name)?;
    text.append(b": ")?;
    text.append(value)?;
    text.push(b'\n')
}
