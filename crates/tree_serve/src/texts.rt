//! How an answer is written. It takes memory, and touches nothing else.
ghost use Rattle.std.specs.Prelude.{◌≡◌, ◌<◌, ◌++◌, IfOk, OnOk};
ghost use Rattle.std.specs.Fmt.{decimal};
ghost use Rattle.tree_serve.specs.Answers.{IsSound};
ghost use Rattle.tree_serve.specs.Texts as spec;

use crate::Answer;
use acq_base::{Bytes, NoMemory};
use http_requests::Method;
use std::alloc::Global;

/// The end of a line.
const LINE_END: &[u8] = b"\r\n";

/// The head of a response, whose connection is closed behind it or not.
#[tactic(auto, unfolding(crate::specs::Texts::head_text))]
pub fn head_text(alloc: Global, answer: Answer, last: bool) -> Result<Bytes, NoMemory>
    requires { IsSound answer }
    ensures { IfOk result (λ text. text ≡ spec.head_text answer last) }
{
    let mut text = status_line(alloc, answer)?;
    text.append(length_line(alloc, answer)?.as_slice())?;
    text.append(own_line(alloc, answer)?.as_slice())?;
    text.append(close_line(alloc, last)?.as_slice())?;
    text.append(LINE_END)?;
    Ok(text)
}

#[tactic(auto, unfolding(crate::specs::Texts::status_line))]
fn status_line(alloc: Global, answer: Answer) -> Result<Bytes, NoMemory>
    ensures { IfOk result (λ line. line ≡ spec.status_line answer) }
{
    let mut line = Bytes::new(alloc);
    line.append(b"HTTP/1.1 ")?;
    line.append(status_text(answer))?;
    line.append(LINE_END)?;
    Ok(line)
}

fn status_text(answer: Answer) -> &'static [u8]
    ensures { result.now ≡ spec.status_text answer }
{
    match answer {
        Answer::Bad => b"400 Bad Request".as_slice(),
        Answer::NotAllowed => b"405 Method Not Allowed".as_slice(),
        Answer::NotFound => b"404 Not Found".as_slice(),
        Answer::Part { from: _, size: _ } => b"206 Partial Content".as_slice(),
        Answer::Beyond { size: _ } => b"416 Range Not Satisfiable".as_slice(),
        Answer::Whole { size: _ } => b"200 OK".as_slice(),
    }
}

/// How many bytes follow the head.
pub fn body_length(answer: Answer) -> u64
    requires { IsSound answer }
    ensures { result ≡ spec.body_length answer }
{
    match answer {
        Answer::Bad | Answer::NotAllowed | Answer::NotFound | Answer::Beyond { size: _ } => 0,
        Answer::Part { from, size } => size - from,
        Answer::Whole { size } => size,
    }
}

/// At which byte of the file they begin.
pub fn body_start(answer: Answer) -> u64
    ensures { result ≡ spec.body_start answer }
{
    match answer {
        Answer::Bad
        | Answer::NotAllowed
        | Answer::NotFound
        | Answer::Beyond { size: _ }
        | Answer::Whole { size: _ } => 0,
        Answer::Part { from, size: _ } => from,
    }
}

/// Whether the head alone answers.
pub fn is_bare(method: Method) -> bool
    ensures { result ≡ spec.is_bare method }
{
    match method {
        Method::Head => true,
        Method::Get | Method::Other => false,
    }
}

#[tactic(auto, unfolding(crate::specs::Texts::length_line))]
fn length_line(alloc: Global, answer: Answer) -> Result<Bytes, NoMemory>
    requires { IsSound answer }
    ensures { IfOk result (λ line. line ≡ spec.length_line answer) }
{
    let mut line = Bytes::new(alloc);
    line.append(b"Content-Length: ")?;
    append_number(alloc, &mut line, body_length(answer))?;
    line.append(LINE_END)?;
    Ok(line)
}

/// The field that this answer alone has, or nothing.
fn own_line(alloc: Global, answer: Answer) -> Result<Bytes, NoMemory>
    requires { IsSound answer }
    ensures { IfOk result (λ line. line ≡ spec.own_line answer) }
{
    match answer {
        Answer::Bad | Answer::NotFound | Answer::Whole { size: _ } => Ok(Bytes::new(alloc)),
        Answer::NotAllowed => allow_line(alloc),
        Answer::Part { from, size } => part_line(alloc, from, size),
        Answer::Beyond { size } => size_line(alloc, size),
    }
}

#[tactic(auto, unfolding(crate::specs::Texts::allow_line))]
fn allow_line(alloc: Global) -> Result<Bytes, NoMemory>
    ensures { IfOk result (λ line. line ≡ spec.allow_line) }
{
    let mut line = Bytes::new(alloc);
    line.append(b"Allow: GET, HEAD")?;
    line.append(LINE_END)?;
    Ok(line)
}

#[tactic(auto, unfolding(crate::specs::Texts::part_line))]
fn part_line(alloc: Global, from: u64, size: u64) -> Result<Bytes, NoMemory>
    requires { from < size }
    ensures { IfOk result (λ line. line ≡ spec.part_line from size) }
{
    let mut line = Bytes::new(alloc);
    line.append(b"Content-Range: bytes ")?;
    append_number(alloc, &mut line, from)?;
    line.append(b"-")?;
    append_number(alloc, &mut line, size - 1)?;
    line.append(b"/")?;
    append_number(alloc, &mut line, size)?;
    line.append(LINE_END)?;
    Ok(line)
}

#[tactic(auto, unfolding(crate::specs::Texts::size_line))]
fn size_line(alloc: Global, size: u64) -> Result<Bytes, NoMemory>
    ensures { IfOk result (λ line. line ≡ spec.size_line size) }
{
    let mut line = Bytes::new(alloc);
    line.append(b"Content-Range: bytes */")?;
    append_number(alloc, &mut line, size)?;
    line.append(LINE_END)?;
    Ok(line)
}

/// The field of a response behind which the connection is closed, or nothing.
fn close_line(alloc: Global, last: bool) -> Result<Bytes, NoMemory>
    ensures { IfOk result (λ line. line ≡ spec.close_line last) }
{
    if last {
        closing_line(alloc)
    } else {
        Ok(Bytes::new(alloc))
    }
}

#[tactic(auto, unfolding(crate::specs::Texts::closing_line))]
fn closing_line(alloc: Global) -> Result<Bytes, NoMemory>
    ensures { IfOk result (λ line. line ≡ spec.closing_line) }
{
    let mut line = Bytes::new(alloc);
    line.append(b"Connection: close")?;
    line.append(LINE_END)?;
    Ok(line)
}

/// Appends a number in decimal digits.
fn append_number(alloc: Global, text: &mut Bytes, number: u64) -> Result<(), NoMemory>
    ensures { OnOk result (text.new ≡ text.old ++ decimal number) }
{
    let written = format!(in alloc; "{number}")?;
    text.append(written.as_bytes())
}
