//! The request for a file. It takes memory, and touches nothing else.

ghost use Rattle.std.specs.Prelude.{◌≡◌, ◌++◌, IfOk, OnOk};
ghost use Rattle.acq_base.specs.Uri.{IsSound, port_text};
ghost use Rattle.acq_base.specs.declared.uri.Scheme.TheVariants.{Http};
ghost use Rattle.http_wire.specs.Request as spec;

use acq_base::{Bytes, NoMemory, Uri};
use std::alloc::Global;

/// The end of a line.
const LINE_END: &[u8] = b"\r\n";

/// The request for a file, from one of its bytes on (RFC 9112, section 3; RFC 9110, sections 7.2 and 14.2): the lines
/// `GET PATH HTTP/1.1`, `Host`, with the port where it isn't 80, `User-Agent: acquire-engine/1`,
/// `Accept-Encoding: identity`, where `from` isn't 0 `Range: bytes=FROM-`, and an empty line. Each ends in CR LF.
pub fn request(alloc: Global, uri: &Uri, from: u64) -> Result<Bytes, NoMemory>
    requires sound { IsSound uri.now }
    requires http { uri.now.scheme ≡ Http }
    ensures { IfOk result (λ text. text ≡ spec.request_text uri.now from) }
{
    let mut text = request_line(alloc, uri.path.as_bytes())?;
    text.append(host_line(alloc, uri.host.as_bytes(), uri.port)?.as_slice())?;
    text.append(fixed_lines(alloc)?.as_slice())?;
    text.append(range_line(alloc, from)?.as_slice())?;
    text.append(LINE_END)?;
    Ok(text)
}

#[tactic(auto, unfolding(crate::specs::Request::request_line))]
fn request_line(alloc: Global, path: &[u8]) -> Result<Bytes, NoMemory>
    ensures { IfOk result (λ line. line ≡ spec.request_line path.now) }
{
    let mut line = Bytes::new(alloc);
    line.append(b"GET ")?;
    line.append(path)?;
    line.append(b" HTTP/1.1")?;
    line.append(LINE_END)?;
    Ok(line)
}

#[tactic(auto, unfolding(crate::specs::Request::host_line))]
fn host_line(alloc: Global, host: &[u8], port: u16) -> Result<Bytes, NoMemory>
    ensures { IfOk result (λ line. line ≡ spec.host_line host.now port) }
{
    let mut line = Bytes::new(alloc);
    line.append(b"Host: ")?;
    line.append(host)?;
    append_port(alloc, &mut line, port)?;
    line.append(LINE_END)?;
    Ok(line)
}

/// `:` and the port, or nothing for the default port of http.
fn append_port(alloc: Global, text: &mut Bytes, port: u16) -> Result<(), NoMemory>
    ensures { OnOk result (text.new ≡ text.old ++ port_text port) }
{
    if port == 80 {
        return Ok(());
    }
    let written = format!(in alloc; ":{port}")?;
    text.append(written.as_bytes())
}

/// The lines that each request has.
#[tactic(auto, unfolding(crate::specs::Request::fixed_lines))]
fn fixed_lines(alloc: Global) -> Result<Bytes, NoMemory>
    ensures { IfOk result (λ lines. lines ≡ spec.fixed_lines) }
{
    let mut lines = Bytes::new(alloc);
    lines.append(b"User-Agent: acquire-engine/1")?;
    lines.append(LINE_END)?;
    lines.append(b"Accept-Encoding: identity")?;
    lines.append(LINE_END)?;
    Ok(lines)
}

/// The line of a range that has no end, or nothing for the whole file.
fn range_line(alloc: Global, from: u64) -> Result<Bytes, NoMemory>
    ensures { IfOk result (λ line. line ≡ spec.range_line from) }
{
    if from == 0 {
        return Ok(Bytes::new(alloc));
    }
    let mut line = Bytes::from(format!(in alloc; "Range: bytes={from}-")?.into_bytes());
    line.append(LINE_END)?;
    Ok(line)
}
