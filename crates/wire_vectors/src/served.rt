//! A server over connections and files in memory.

use crate::cases::{Argument, Refused, Step, numbers_of};
use crate::page::Page;
use crate::trees::files_of;
use acq_base::{Bytes, Row, Text};
use acq_memory::MemTree;
use acq_net::MemPort;
use std::alloc::Global;
use tree_serve::{Stop, serve};

/// Puts how a server of so many connections ended, and what it sent on each: it serves the files that steps `file` name below
/// a root; the n-th peer sends the pieces of the n-th step `peer`; calls of the tree fail that a step `fail` numbers, and
/// calls of the port that a step `lose` does.
pub fn answer(
    alloc: Global,
    page: &mut Page,
    arguments: &[Argument],
    steps: &[Step],
) -> Result<(), Refused> {
    let [Argument::Text(root), Argument::Number(connections)] = arguments else {
        return Err(Refused::NoCase);
    };
    let files = files_of(alloc, steps)?;
    if !MemTree::takes(&files) {
        return Err(Refused::NoCase);
    }
    let mut tree = MemTree::new(files, numbers_of(alloc, steps, "fail")?);
    let mut port = port_of(alloc, steps)?;
    put_served(alloc, page, &mut port, &mut tree, root, *connections);
    Ok(())
}

/// A port whose n-th peer sends the pieces of the n-th step `peer`.
fn port_of(alloc: Global, steps: &[Step]) -> Result<MemPort, Refused> {
    let mut peers = Row::new(alloc);
    for step in steps {
        if step.name.as_str() == "peer" {
            peers.push(pieces(alloc, step.arguments.as_slice())?)?;
        }
    }
    let failing = numbers_of(alloc, steps, "lose")?;
    Ok(MemPort::new(alloc, peers, failing))
}

/// The texts, each by itself. A number before a text says how often it stands in its piece.
fn pieces(alloc: Global, arguments: &[Argument]) -> Result<Row<Bytes>, Refused> {
    let mut row = Row::new(alloc);
    let mut times = 1;
    for argument in arguments {
        match argument {
            Argument::Number(number) => times = *number,
            Argument::Text(text) => {
                row.push(repeated(alloc, text, times)?)?;
                times = 1;
            }
        }
    }
    Ok(row)
}

fn repeated(alloc: Global, text: &Text, times: u64) -> Result<Bytes, Refused> {
    let mut piece = Bytes::new(alloc);
    for _ in 0..times {
        piece.append(text.as_bytes())?;
    }
    Ok(piece)
}

fn put_served(
    alloc: Global,
    page: &mut Page,
    port: &mut MemPort,
    tree: &mut MemTree,
    root: &Text,
    connections: u64,
) {
    match serve(alloc, port, tree, root, 80, connections) {
        Ok(()) => page.put(" served"),
        Err(Stop::Port) => page.put(" lost"),
        Err(Stop::NoMemory) => page.fall_short(),
    }
    for sent in port.sent().as_slice() {
        page.put_bytes(" ", sent.as_slice());
    }
}
