//! Streams of HTTP peers, and requests.

ghost use Rattle.std.specs.Prelude.{IfOk};
ghost use Rattle.acq_base.specs.Uri.{IsSound};

use crate::cases::{Argument, Refused, Step, joined};
use crate::page::Page;
use acq_base::{Scheme, Uri};
use http_wire::{State, Wire, request};
use std::alloc::Global;
use uri_names::{UriError, read_uri};

/// The URI that is asked for.
fn asked(alloc: Global) -> Result<Uri, UriError>
    ensures { IfOk result IsSound }
{
    read_uri(alloc, b"http://m.example/d/x")
}

/// Puts what a case of one step comes to.
pub fn answer(
    alloc: Global,
    page: &mut Page,
    name: &str,
    arguments: &[Argument],
) -> Result<(), Refused> {
    match (name, arguments) {
        ("heard", [Argument::Number(max), Argument::Number(from), stream @ ..]) => {
            let stream = joined(alloc, stream)?;
            let wanted = Wanted {
                max: *max,
                from: *from,
            };
            heard(alloc, page, wanted, stream.as_slice())
        }
        ("state", [Argument::Number(max), stream @ ..]) => {
            let stream = joined(alloc, stream)?;
            state(alloc, page, *max, stream.as_slice())
        }
        ("request", [Argument::Text(uri), Argument::Number(from)]) => {
            asks(alloc, page, uri.as_bytes(), *from)
        }
        _ => Err(Refused::NoCase),
    }
}

/// The most bytes of a file that is asked for, and the first of them.
#[derive(Clone, Copy)]
struct Wanted {
    max: u64,
    from: u64,
}

/// Puts the reply that a stream gives with the peer's end behind it. It must be the same wherever the stream is cut in two,
/// and byte by byte; else it is told for what else it comes.
fn heard(alloc: Global, page: &mut Page, wanted: Wanted, stream: &[u8]) -> Result<(), Refused> {
    let whole = reply(alloc, wanted, &[stream])?;
    page.put(whole.text()?);
    compare(alloc, page, wanted, stream, whole.text()?)
}

/// Compares the reply to a whole stream with those to its pieces, up to the first that differs.
fn compare(
    alloc: Global,
    page: &mut Page,
    wanted: Wanted,
    stream: &[u8],
    whole: &str,
) -> Result<(), Refused> {
    for cut in 0..=stream.len() {
        let (front, back) = stream.split_at(cut);
        let line = reply(alloc, wanted, &[front, back])?;
        if line.text()? != whole {
            page.put_number(", cut at ", cut as u64);
            page.put(line.text()?);
            return Ok(());
        }
    }
    let line = by_bytes(alloc, wanted, stream)?;
    if line.text()? != whole {
        page.put(", byte by byte");
        page.put(line.text()?);
    }
    Ok(())
}

/// The reply to pieces and the peer's end.
fn reply(alloc: Global, wanted: Wanted, pieces: &[&[u8]]) -> Result<Page, Refused> {
    let mut wire = Wire::new(alloc, wanted.max, wanted.from);
    for piece in pieces {
        wire.feed(alloc, piece)?;
    }
    ended(alloc, wire)
}

/// The reply to single bytes and the peer's end.
fn by_bytes(alloc: Global, wanted: Wanted, stream: &[u8]) -> Result<Page, Refused> {
    let mut wire = Wire::new(alloc, wanted.max, wanted.from);
    feed_bytes(alloc, &mut wire, stream)?;
    ended(alloc, wire)
}

fn feed_bytes(alloc: Global, wire: &mut Wire, stream: &[u8]) -> Result<(), Refused> {
    for byte in stream {
        wire.feed(alloc, &[*byte])?;
    }
    Ok(())
}

/// The reply once the peer has ended.
fn ended(alloc: Global, wire: Wire) -> Result<Page, Refused> {
    let mut page = Page::new(alloc);
    put_ended(alloc, &mut page, wire)?;
    Ok(page)
}

/// Ends the peer, and puts the reply.
fn put_ended(alloc: Global, page: &mut Page, wire: Wire) -> Result<(), Refused> {
    let uri = asked(alloc)?;
    let mut wire = wire;
    wire.ended();
    page.put_reply(&wire.reply(alloc, &uri));
    Ok(())
}

/// Puts where the reading of a stream stands, the same in one piece and byte by byte.
fn state(alloc: Global, page: &mut Page, max: u64, stream: &[u8]) -> Result<(), Refused> {
    let mut wire = Wire::new(alloc, max, 0);
    wire.feed(alloc, stream)?;
    let whole = wire.state();
    put_state(page, whole);
    wire = Wire::new(alloc, max, 0);
    feed_bytes(alloc, &mut wire, stream)?;
    if wire.state() != whole {
        page.put(", byte by byte");
        put_state(page, wire.state());
    }
    Ok(())
}

fn put_state(page: &mut Page, state: State) {
    match state {
        State::More => page.put(" more"),
        State::Done { keep: true } => page.put(" done, connection kept"),
        State::Done { keep: false } => page.put(" done, connection not kept"),
        State::TooBig => page.put(" too big"),
        State::Garbled(at) => page.put_number(" garbled ", at),
    }
}

/// Puts what a reader of a response answers to steps, one after another.
pub fn answer_steps(
    alloc: Global,
    page: &mut Page,
    arguments: &[Argument],
    steps: &[Step],
) -> Result<(), Refused> {
    let [Argument::Number(max), Argument::Number(from)] = arguments else {
        return Err(Refused::NoCase);
    };
    let mut wire = Wire::new(alloc, *max, *from);
    if go_all(alloc, page, &mut wire, steps)? {
        put_ended(alloc, page, wire)?;
    }
    Ok(())
}

/// Takes the steps up to `end`, behind which the peer ends, and says whether there is one.
fn go_all(
    alloc: Global,
    page: &mut Page,
    wire: &mut Wire,
    steps: &[Step],
) -> Result<bool, Refused> {
    for step in steps {
        if step.name.as_str() == "end" {
            return Ok(true);
        }
        go(alloc, page, wire, step)?;
    }
    Ok(false)
}

/// Takes a step: `feed` puts how many bytes it takes, `at` where the body begins, `take` the body's bytes since the last one,
/// and `state` where it stands.
fn go(alloc: Global, page: &mut Page, wire: &mut Wire, step: &Step) -> Result<(), Refused> {
    match step.name.as_str() {
        "feed" => {
            let piece = joined(alloc, step.arguments.as_slice())?;
            let taken = wire.feed(alloc, piece.as_slice())?;
            page.put_number(" took ", taken as u64);
        }
        "at" => page.put_number(" at ", wire.at()),
        "take" => page.put_bytes(" ", wire.take(alloc)?.as_slice()),
        "state" => put_state(page, wire.state()),
        _ => return Err(Refused::NoCase),
    }
    Ok(())
}

/// Puts the request for a URI from a byte on.
fn asks(alloc: Global, page: &mut Page, uri: &[u8], from: u64) -> Result<(), Refused> {
    let uri = read_uri(alloc, uri)?;
    match uri.scheme {
        Scheme::Http => page.put_bytes(" ", request(alloc, &uri, from)?.as_slice()),
        Scheme::File => page.put(" no request"),
    }
    Ok(())
}
