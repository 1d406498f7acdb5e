//! The objects in memory over which a run goes.

ghost use Rattle.std.specs.Prelude.{IfOk};
ghost use Rattle.acq_base.specs.Fetch.{IsSoundAnswer};
ghost use Rattle.acq_memory.specs.MapMethod.{HasSoundAnswers};

use crate::gated::{Gate, GatedMethod};
use crate::given::{Configured, Folder, Given, Has, Held, Server};
use crate::refused::Refused;
use acq_base::{Answer, Bytes, Mirror, NoMemory, Row, Text, TryCopy};
use acq_memory::{MapMethod, MemDisk, MemEtc, MemTree};
use acq_net::ScriptLink;
use acq_outside::Place;
use file_method::FileMethod;
use http_method::HttpMethod;
use served_link::ServedLink;
use std::alloc::Global;
use std::sync::Arc;
use uri_names::read_uri;

/// A method over HTTP whose peer is a server in memory.
pub type Served = HttpMethod<ServedLink<MemTree>>;

fn letters(alloc: Global, size: u64) -> Result<Bytes, NoMemory> {
    let mut bytes = Bytes::new(alloc);
    for _ in 0..size {
        bytes.push(b'a')?;
    }
    Ok(bytes)
}

fn answer(alloc: Global, has: &Has) -> Result<Answer, Refused>
    ensures { IfOk result IsSoundAnswer }
{
    Ok(match has {
        Has::File(bytes) => Answer::Served(bytes.copy(alloc)?),
        Has::Letters(size) => Answer::Served(letters(alloc, *size)?),
        Has::Moved(Some(place)) => Answer::Moved(Some(read_uri(alloc, place.as_bytes())?)),
        Has::Moved(None) => Answer::Moved(None),
        Has::Absent(status) => Answer::Absent(*status),
        Has::Whole(_) | Has::TooBig | Has::Garbled(_) => return Err(Refused::Methods),
    })
}

fn mirror(alloc: Global, given: &[(Text, Has)]) -> Result<Mirror, Refused>
    ensures { IfOk result (λ mirror. HasSoundAnswers mirror.rows) }
{
    let mut rows = Row::new(alloc);
    for row in given {
        rows.push((read_uri(alloc, row.0.as_bytes())?, answer(alloc, &row.1)?))?;
    }
    Ok(Mirror { rows })
}

/// The method of this number, which gives the mirror.
pub fn map_method(alloc: Global, given: &Given, lane: u8) -> Result<MapMethod, Refused> {
    let mirror = mirror(alloc, given.mirror.as_slice())?;
    let fails = &given.fails;
    let (begin, more) = match fails.lanes.as_slice().iter().find(|row| row.lane == lane) {
        Some(own) => (&own.begin, &own.more),
        None => (&fails.begin, &fails.more),
    };
    Ok(MapMethod::new(mirror, begin.copy(alloc)?, more.copy(alloc)?))
}

/// A gate that the methods share.
pub fn gate_of(alloc: Global, held: &Held) -> Result<Arc<Gate>, Refused> {
    let gate = Gate::new(held.host.copy(alloc)?, held.awaited.copy(alloc)?);
    Ok(Arc::new(alloc, gate)?)
}

/// The method of this number behind a gate.
pub fn gated_method(
    alloc: Global,
    given: &Given,
    gate: &Arc<Gate>,
    lane: u8,
) -> Result<GatedMethod, Refused> {
    let method = map_method(alloc, given, lane)?;
    Ok(GatedMethod::new(method, Arc::try_clone(gate)?))
}

/// A file with its name.
fn named(alloc: Global, name: &Text, content: &Bytes) -> Result<(Text, Bytes), NoMemory> {
    let name = name.copy(alloc)?;
    Ok((name, content.copy(alloc)?))
}

/// A method that gives the tree's files.
pub fn file_method(alloc: Global, given: &Given) -> Result<FileMethod<MemTree>, Refused> {
    let failing = given.fails.tree.copy(alloc)?;
    Ok(FileMethod::new(tree(alloc, given.tree.as_slice(), failing)?))
}

/// A method that asks the server of the tree's files.
pub fn served_method(alloc: Global, given: &Given, server: &Server) -> Result<Served, Refused> {
    let failing = given.fails.tree.copy(alloc)?;
    let tree = tree(alloc, given.tree.as_slice(), failing)?;
    let root = server.root.copy(alloc)?;
    let host = server.host.copy(alloc)?;
    Ok(HttpMethod::new(ServedLink::new(alloc, tree, root, host, server.port)))
}

/// A tree of these files.
fn tree(alloc: Global, files: &[(Text, Bytes)], failing: Row<u64>) -> Result<MemTree, Refused> {
    let files = copies(alloc, files)?;
    if !MemTree::takes(&files) {
        return Err(Refused::Names);
    }
    Ok(MemTree::new(files, failing))
}

/// The same files.
fn copies(alloc: Global, files: &[(Text, Bytes)]) -> Result<Row<(Text, Bytes)>, NoMemory> {
    let mut rows = Row::new(alloc);
    for file in files {
        rows.push(named(alloc, &file.0, &file.1)?)?;
    }
    Ok(rows)
}

/// A method that asks the peers.
pub fn http_method(alloc: Global, given: &Given) -> Result<HttpMethod<ScriptLink>, Refused> {
    let mut connections = Row::new(alloc);
    for peer in given.peers.as_slice() {
        connections.push(peer.copy(alloc)?)?;
    }
    let failing = given.fails.link.copy(alloc)?;
    Ok(HttpMethod::new(ScriptLink::new(alloc, connections, failing)))
}

/// A lists folder of these files, of which these calls are to fail.
pub fn disk_of(
    alloc: Global,
    folder: &Folder,
    held: bool,
    failing: Row<u64>,
) -> Result<MemDisk, Refused> {
    let files = rows_of(alloc, folder)?;
    if !MemDisk::takes(&files) {
        return Err(Refused::Names);
    }
    Ok(MemDisk::new(alloc, files, held, failing)?)
}

/// The files of a folder.
fn rows_of(alloc: Global, folder: &Folder) -> Result<Row<(Text, Bytes)>, NoMemory> {
    let mut rows = Row::new(alloc);
    for (name, content) in folder.iter() {
        rows.push(named(alloc, name, content)?)?;
    }
    Ok(rows)
}

/// The configuration folder.
pub fn etc_of(alloc: Global, given: &Given) -> Result<MemEtc, Refused> {
    let failing = given.fails.etc.copy(alloc)?;
    etc(alloc, given.etc.as_slice(), failing)
}

/// A configuration folder of these files, of which these calls are to fail.
fn etc(alloc: Global, files: &[Configured], failing: Row<u64>) -> Result<MemEtc, Refused> {
    let files = placed(alloc, files)?;
    if !MemEtc::takes(&files) {
        return Err(Refused::Names);
    }
    Ok(MemEtc::new(files, failing))
}

/// The same files of a configuration folder.
fn placed(alloc: Global, files: &[Configured]) -> Result<Row<(Place, Text, Bytes)>, NoMemory> {
    let mut rows = Row::new(alloc);
    for file in files {
        let (name, content) = named(alloc, &file.name, &file.content)?;
        rows.push((file.place, name, content))?;
    }
    Ok(rows)
}
