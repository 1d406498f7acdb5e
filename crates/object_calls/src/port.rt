//! Calls of a port over TCP, and of one in memory.

use crate::page::Page;
use crate::words::{Refused, short};
use acq_base::{Bytes, Row, Text, read_digits};
use acq_net::{MemPort, Port, TcpPort};
use std::alloc::Global;

/// Puts what a call of the port over TCP answers.
pub fn real_answer(
    page: &mut Page,
    port: &mut TcpPort<HostRuntime>,
    call: &str,
    words: &[Text],
) -> Result<(), Refused> {
    if call == "faults" {
        put_faults(page, port.faults(), port.lost());
        return Ok(());
    }
    answer(page, port, call, words)
}

/// Puts what a call of the port in memory answers.
pub fn memory_answer(
    page: &mut Page,
    port: &mut MemPort,
    call: &str,
    words: &[Text],
) -> Result<(), Refused> {
    match (call, words) {
        ("listen", [at]) => page.put_done(port.listen(short(at)?)),
        ("sent", []) => put_sent(page, port.sent()),
        ("faults", []) => {
            put_faults(page, port.faults(), port.lost());
            page.put(", ");
            page.put_number(port.dry());
            page.put(" for want of memory");
        }
        _ => return answer(page, port, call, words),
    }
    Ok(())
}

/// Puts what a call of any port answers.
fn answer<P: Port>(
    page: &mut Page,
    port: &mut P,
    call: &str,
    words: &[Text],
) -> Result<(), Refused> {
    match (call, words) {
        ("accept", []) => page.put_done(port.accept()),
        ("receive", []) => receive(page, port),
        ("send", [text]) => page.put_done(port.send(text.as_bytes())),
        ("close", []) => {
            port.close();
            page.put("closed");
        }
        _ => return Err(Refused::NoCall),
    }
    Ok(())
}

/// Receives into a buffer of four stars.
fn receive<P: Port>(page: &mut Page, port: &mut P) {
    let mut out = *b"****";
    let received = port.receive(&mut out);
    page.put_piece(received, &out);
}

fn put_faults(page: &mut Page, faults: u64, lost: u64) {
    page.put_number(faults);
    page.put(", ");
    page.put_number(lost);
    page.put(" of them lost");
}

/// Puts the bytes sent on each connection, with a blank between two; `""` stands for none.
fn put_sent(page: &mut Page, rows: &Row<Bytes>) {
    for (at, row) in rows.as_slice().iter().enumerate() {
        if at > 0 {
            page.put(" ");
        }
        if row.is_empty() {
            page.put("\"\"");
        }
        page.put_bytes(row.as_slice());
    }
}

/// A port in memory. Of the calls those fail whose numbers the first word has, with a comma between two, or `none`; each
/// further word is what a peer says, with a comma between two pieces.
pub fn begin(alloc: Global, words: &[Text]) -> Result<MemPort, Refused> {
    let [failing, peers @ ..] = words else {
        return Err(Refused::NoCall);
    };
    let failing = failing_calls(alloc, failing)?;
    Ok(MemPort::new(alloc, connections(alloc, peers)?, failing))
}

fn failing_calls(alloc: Global, word: &Text) -> Result<Row<u64>, Refused> {
    let mut failing = Row::new(alloc);
    if matches!(word.as_bytes(), b"none") {
        return Ok(failing);
    }
    for piece in word.as_bytes().split(is_comma) {
        failing.push(read_digits(piece).ok_or(Refused::NoCall)?)?;
    }
    Ok(failing)
}

fn connections(alloc: Global, words: &[Text]) -> Result<Row<Row<Bytes>>, Refused> {
    let mut connections = Row::new(alloc);
    for word in words {
        connections.push(pieces(alloc, word)?)?;
    }
    Ok(connections)
}

fn pieces(alloc: Global, word: &Text) -> Result<Row<Bytes>, Refused> {
    let mut pieces = Row::new(alloc);
    for piece in word.as_bytes().split(is_comma) {
        pieces.push(Text::from_bytes(alloc, piece)?.into_bytes())?;
    }
    Ok(pieces)
}

fn is_comma(byte: &u8) -> bool {
    *byte == b','
}
