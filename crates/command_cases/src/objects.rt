//! The objects in memory over which a call goes.

ghost use Rattle.std.specs.Prelude.{IfOk};
ghost use Rattle.acq_base.specs.Fetch.{IsSoundAnswer};
ghost use Rattle.acq_memory.specs.MapMethod.{HasSoundAnswers};

use crate::counted::Counted;
use crate::folders::{Folder, folder, rows};
use crate::steps::{Step, bytes, failing, has, number_or, pieces};
use acq_base::{Answer, Bytes, Mirror, Row, Text, TryCopy, Uri};
use acq_memory::{FixedClock, MapMethod, MemDisk, MemEtc, MemFiles, MemInlet, MemSink, MemTree};
use acq_net::MemPort;
use acq_outside::Place;
use case_words::{Refused, number, readable};
use std::alloc::Global;
use update_program::Aside;
use uri_names::read_uri;

/// The moment of each call, in seconds since 1970-01-01 00:00:00 UTC.
const NOW: i64 = 1_700_000_000;

/// What a call is lent.
#[derive(Drop)]
pub struct Objects {
    pub etc: MemEtc,
    pub disk: MemDisk,
    pub methods: Vec<Counted<MapMethod>>,
    pub clock: FixedClock,
    pub out: MemSink,
    pub aside: Aside<MemInlet, MemFiles, MemPort, MemTree, MemDisk>,
}

/// The objects that a case names, with this folder for package files.
pub fn make_objects(alloc: Global, steps: &[Step], place: MemDisk) -> Result<Objects, Refused> {
    Ok(Objects {
        etc: etc(alloc, steps)?,
        disk: disk(alloc, steps, b"disk", has(steps, b"held"))?,
        methods: methods(alloc, steps)?,
        clock: FixedClock::new(NOW),
        out: MemSink::new(alloc, failing(alloc, steps, b"sink")?),
        aside: aside(alloc, steps, place)?,
    })
}

/// What a case lends beside the objects of an update.
fn aside(
    alloc: Global,
    steps: &[Step],
    place: MemDisk,
) -> Result<Aside<MemInlet, MemFiles, MemPort, MemTree, MemDisk>, Refused> {
    Ok(Aside {
        input: input(alloc, steps)?,
        files: MemFiles::new(alloc, failing(alloc, steps, b"files")?),
        port: port(alloc, steps)?,
        tree: tree(alloc, steps)?,
        place,
    })
}

fn input(alloc: Global, steps: &[Step]) -> Result<MemInlet, Refused> {
    let failing = failing(alloc, steps, b"input")?;
    Ok(MemInlet::new(bytes(alloc, steps, b"input")?, failing))
}

fn port(alloc: Global, steps: &[Step]) -> Result<MemPort, Refused> {
    let failing = failing(alloc, steps, b"port")?;
    let peers = pieces(alloc, steps, b"peer")?;
    Ok(MemPort::new(alloc, peers, failing))
}

fn tree(alloc: Global, steps: &[Step]) -> Result<MemTree, Refused> {
    let files = rows(alloc, &folder(alloc, steps, b"file")?)?;
    if !MemTree::takes(&files) {
        return Err(Refused::NoCall);
    }
    Ok(MemTree::new(files, failing(alloc, steps, b"tree")?))
}

/// The folder whose files the lines with this first word name.
pub fn disk(alloc: Global, steps: &[Step], name: &[u8], held: bool) -> Result<MemDisk, Refused> {
    let files = rows(alloc, &folder(alloc, steps, name)?)?;
    if !MemDisk::takes(&files) {
        return Err(Refused::NoCall);
    }
    Ok(MemDisk::new(alloc, files, held, failing(alloc, steps, name)?)?)
}

fn etc(alloc: Global, steps: &[Step]) -> Result<MemEtc, Refused> {
    let files = placed(alloc, &folder(alloc, steps, b"etc")?)?;
    if !MemEtc::takes(&files) {
        return Err(Refused::NoCall);
    }
    Ok(MemEtc::new(files, failing(alloc, steps, b"etc")?))
}

/// The files of a configuration folder, by their places.
fn placed(alloc: Global, folder: &Folder) -> Result<Row<(Place, Text, Bytes)>, Refused> {
    let mut rows = Row::new(alloc);
    for (path, content) in folder.iter() {
        let place = place_of(path.as_bytes())?;
        rows.push((place, Text::new(alloc), content.copy(alloc)?))?;
    }
    Ok(rows)
}

fn place_of(path: &[u8]) -> Result<Place, Refused> {
    match path {
        b"sources.list" => Ok(Place::SourcesList),
        b"apt.conf" => Ok(Place::Conf),
        _ => Err(Refused::NoCall),
    }
}

fn methods(alloc: Global, steps: &[Step]) -> Result<Vec<Counted<MapMethod>>, Refused> {
    let mut methods = Vec::new(alloc);
    for _ in 0..number_or(steps, b"methods", 1)? {
        methods.push(Counted::new(method(alloc, steps)?))?;
    }
    Ok(methods)
}

fn method(alloc: Global, steps: &[Step]) -> Result<MapMethod, Refused> {
    let begins = failing(alloc, steps, b"begin")?;
    let mores = failing(alloc, steps, b"more")?;
    Ok(MapMethod::new(mirror(alloc, steps)?, begins, mores))
}

/// The mirror of a case. The later lines come first, since the first answer for a URI counts.
fn mirror(alloc: Global, steps: &[Step]) -> Result<Mirror, Refused>
    ensures { IfOk result (λ mirror. HasSoundAnswers mirror.rows) }
{
    let mut rows = Row::new(alloc);
    for step in steps.iter().rev() {
        if is_of_mirror(step) {
            rows.push((uri(alloc, step)?, answer(alloc, step)?))?;
        }
    }
    Ok(Mirror { rows })
}

/// Whether a line says what the mirror has.
fn is_of_mirror(step: &Step) -> bool {
    step.is(b"mirror") || step.is(b"moved") || step.is(b"absent")
}

/// For which URI a line says so.
fn uri(alloc: Global, step: &Step) -> Result<Uri, Refused> {
    let (uri, _) = step.pair()?;
    readable(read_uri(alloc, uri.as_bytes()))
}

/// What a line says that the mirror has.
fn answer(alloc: Global, step: &Step) -> Result<Answer, Refused>
    ensures { IfOk result IsSoundAnswer }
{
    let (_, says) = step.pair()?;
    if step.is(b"mirror") {
        return Ok(Answer::Served(says.copy(alloc)?.into_bytes()));
    }
    if step.is(b"moved") {
        return moved(alloc, says.as_bytes());
    }
    absent(number(says.as_bytes())?)
}

/// A move to this URI, or to none.
fn moved(alloc: Global, place: &[u8]) -> Result<Answer, Refused>
    ensures { IfOk result IsSoundAnswer }
{
    if place == b"-".as_slice() {
        return Ok(Answer::Moved(None));
    }
    Ok(Answer::Moved(Some(readable(read_uri(alloc, place))?)))
}

fn absent(status: u64) -> Result<Answer, Refused>
    ensures { IfOk result IsSoundAnswer }
{
    match u16::try_from(status) {
        Ok(status) => Ok(Answer::Absent(status)),
        Err(_) => Err(Refused::NoCall),
    }
}
