//! Connections in memory whose peers follow a script.

use crate::cases::{Argument, Refused, Step, numbers_of, texts};
use crate::page::Page;
use acq_base::{Row, Text};
use acq_net::{Link, ScriptLink};
use acq_outside::Fault;
use std::alloc::Global;

/// A link whose n-th connection has the pieces of the n-th step `peer`, and whose calls fail that a step `fail` numbers.
pub fn link_of(alloc: Global, steps: &[Step]) -> Result<ScriptLink, Refused> {
    let mut connections = Row::new(alloc);
    for step in steps {
        if step.name.as_str() == "peer" {
            connections.push(texts(alloc, step.arguments.as_slice())?)?;
        }
    }
    let failing = numbers_of(alloc, steps, "fail")?;
    Ok(ScriptLink::new(alloc, connections, failing))
}

/// Puts what a link answers to steps, one after another.
pub fn answer(alloc: Global, page: &mut Page, steps: &[Step]) -> Result<(), Refused> {
    let mut link = link_of(alloc, steps)?;
    let host = Text::from_bytes(alloc, b"h")?;
    go_all(page, &mut link, &host, steps)
}

/// Takes the steps, of which `connect` leads to a host.
fn go_all(
    page: &mut Page,
    link: &mut ScriptLink,
    host: &Text,
    steps: &[Step],
) -> Result<(), Refused> {
    for step in steps {
        match (step.name.as_str(), step.arguments.as_slice()) {
            ("peer" | "fail", _) => {}
            ("connect", []) => put_done(page, link.connect(host, 80)),
            ("send", [Argument::Text(text)]) => put_done(page, link.send(text.as_bytes())),
            (name, []) => go(page, link, name)?,
            _ => return Err(Refused::NoCase),
        }
    }
    Ok(())
}

/// Takes a step that has no argument.
fn go(page: &mut Page, link: &mut ScriptLink, name: &str) -> Result<(), Refused> {
    match name {
        "receive" => receive(page, link),
        "sent" => page.put_bytes(" sent ", link.sent().as_slice()),
        "close" => link.close(),
        "connections" => page.put_number(" connections ", link.made()),
        "faults" => {
            page.put_number(" faults ", link.faults());
            page.put_number(", for want of memory ", link.dry());
        }
        _ => return Err(Refused::NoCase),
    }
    Ok(())
}

fn put_done(page: &mut Page, done: Result<(), Fault>) {
    page.put(match done {
        Ok(()) => " done",
        Err(Fault) => " fault",
    });
}

/// Receives bytes, at most four.
fn receive(page: &mut Page, link: &mut ScriptLink) {
    let mut out = *b"****";
    match link.receive(&mut out) {
        Ok(n) => {
            page.put_number(" ", n as u64);
            page.put_bytes(" ", &out[..n]);
        }
        Err(Fault) => page.put(" fault"),
    }
}
