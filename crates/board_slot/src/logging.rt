//! What the log has of an answer to a source.

ghost use Rattle.std.specs.Prelude.{◌≡◌, IfOk, option_copied};
ghost use Rattle.board_model.specs.Keys.{name_at, path_at};
ghost use Rattle.update_model.specs.Files.{sum_of_body};
ghost use Rattle.update_model.specs.Points.{entry as entry_of};
ghost use Rattle.update_model.specs.Trails.{heard_of};

use acq_base::{ListName, NoMemory, Source, Sum, Text, TryCopy, sum_of};
use std::alloc::Global;
use update_model::{Ask, Asked, Body, Closed, Heard};

/// The path that stands for the item at a place: `Release` at 0, and the lists' behind it.
pub fn path(alloc: Global, source: &Source, place: usize) -> Result<Text, NoMemory>
    ensures { IfOk result (λ path. path ≡ path_at source.now place) }
{
    if place == 0 {
        return Text::from_bytes(alloc, b"Release");
    }
    match source.targets.as_slice().get(place - 1) {
        Some(target) => target.path.copy(alloc),
        None => Ok(Text::new(alloc)),
    }
}

/// The name of the list at a place, the first of which is 1; a Release is no list. It takes no memory.
pub fn list_name(source: &Source, place: usize) -> Option<&ListName>
    ensures { option_copied result ≡ name_at source.now place }
{
    if place == 0 {
        return None;
    }
    match source.targets.as_slice().get(place - 1) {
        Some(target) => Some(&target.name),
        None => None,
    }
}

/// The log's entry of an answer to an ask.
pub fn entry(
    alloc: Global,
    source: u32,
    path: Text,
    ask: &Ask,
    lane: u32,
    closed: &Closed,
) -> Result<Asked, NoMemory>
    ensures { IfOk result (λ entry. entry ≡ entry_of source path ask.now (record { lane = lane; closed = closed.now })) }
{
    Ok(Asked {
        source,
        path,
        uri: ask.uri.copy(alloc)?,
        from: ask.from,
        lane,
        heard: heard(alloc, closed)?,
    })
}

/// An answer as the log keeps it: a file by its sum.
fn heard(alloc: Global, closed: &Closed) -> Result<Heard, NoMemory>
    ensures { IfOk result (λ heard. heard ≡ heard_of closed.now) }
{
    Ok(match closed {
        Closed::Served(body) => Heard::Served(body_sum(body)),
        Closed::Not(end) => Heard::Not(end.copy(alloc)?),
    })
}

/// The sum by which a file is known.
fn body_sum(body: &Body) -> Sum
    ensures { result ≡ sum_of_body body.now }
{
    match body {
        Body::Bytes(bytes) => sum_of(bytes.as_slice()),
        Body::Staged(sum) => *sum,
    }
}
