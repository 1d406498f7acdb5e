//! Methods over objects in memory.

ghost use Rattle.std.specs.Prelude.{IfOk, IsTrue};
ghost use Rattle.acq_base.specs.Fetch.{IsSoundAnswer};
ghost use Rattle.acq_memory.specs.MapMethod.{HasSoundAnswers};

use crate::cases::{Argument, Refused, Step, numbers_of};
use crate::fetches::{pattern_byte, put_all};
use crate::links::link_of;
use crate::page::Page;
use acq_base::{Answer, Bytes, Mirror, NoMemory, Row, Text};
use acq_memory::{MapMethod, MemTree};
use both_method::BothMethod;
use file_method::FileMethod;
use http_method::HttpMethod;
use std::alloc::Global;
use uri_names::{UriError, read_uri};

/// Puts the words of a method.
pub fn answer(
    alloc: Global,
    page: &mut Page,
    name: &str,
    arguments: &[Argument],
    steps: &[Step],
) -> Result<(), Refused> {
    match (name, arguments) {
        ("http", []) => over_link(alloc, page, steps),
        ("tree", [Argument::Number(size)]) => over_tree(alloc, page, *size, steps),
        ("map", [Argument::Number(size)]) => over_map(alloc, page, *size, steps),
        ("both", []) => over_both(alloc, page, steps),
        _ => Err(Refused::NoCase),
    }
}

/// Puts the words of the method for http, how often it connected and, where a step says so, what it sent on the last
/// connection.
fn over_link(alloc: Global, page: &mut Page, steps: &[Step]) -> Result<(), Refused> {
    let mut method = HttpMethod::new(link_of(alloc, steps)?);
    let put = put_all(alloc, page, &mut method, steps, &["peer", "fail", "sent"]);
    let link = method.into_link();
    page.put_number(" connections ", link.made());
    if steps.iter().any(|step| step.name.as_str() == "sent") {
        page.put_bytes(" sent ", link.sent().as_slice());
    }
    put
}

/// A file's bytes, of which no two pieces are alike.
pub fn pattern(alloc: Global, size: u64) -> Result<Bytes, NoMemory> {
    let mut bytes = Bytes::new(alloc);
    for at in 0..size {
        bytes.push(pattern_byte(at))?;
    }
    Ok(bytes)
}

/// Puts the words of the method for files over a tree with one file, `/srv/a`.
fn over_tree(alloc: Global, page: &mut Page, size: u64, steps: &[Step]) -> Result<(), Refused> {
    let mut files = Row::new(alloc);
    files.push((Text::from_bytes(alloc, b"/srv/a")?, pattern(alloc, size)?))?;
    if !MemTree::takes(&files) {
        return Err(Refused::NoCase);
    }
    let mut method = FileMethod::new(MemTree::new(files, numbers_of(alloc, steps, "fail")?));
    put_all(alloc, page, &mut method, steps, &["fail"])
}

/// A mirror with that file.
fn mirror(alloc: Global, size: u64) -> Result<Mirror, UriError>
    ensures { IfOk result (λ mirror. HasSoundAnswers mirror.rows) }
{
    let mut rows = Row::new(alloc);
    rows.push((
        read_uri(alloc, b"file:///srv/a")?,
        Answer::Served(pattern(alloc, size)?),
    ))?;
    Ok(Mirror { rows })
}

/// Puts the words of a mirror's method.
fn over_map(alloc: Global, page: &mut Page, size: u64, steps: &[Step]) -> Result<(), Refused> {
    let begins = numbers_of(alloc, steps, "fail")?;
    let mores = numbers_of(alloc, steps, "fail-more")?;
    let mut method = MapMethod::new(mirror(alloc, size)?, begins, mores);
    put_all(alloc, page, &mut method, steps, &["fail", "fail-more"])
}

/// A file of one byte.
fn served(alloc: Global, byte: u8) -> Result<Answer, NoMemory>
    ensures { IfOk result IsSoundAnswer }
{
    let mut bytes = Bytes::new(alloc);
    bytes.push(byte)?;
    Ok(Answer::Served(bytes))
}

/// A mirror with one byte under a URI of each scheme.
fn mirror_of_byte(alloc: Global, byte: u8) -> Result<Mirror, UriError>
    ensures { IfOk result (λ mirror. HasSoundAnswers mirror.rows) }
{
    let mut rows = Row::new(alloc);
    rows.push((read_uri(alloc, b"file:///a")?, served(alloc, byte)?))?;
    rows.push((read_uri(alloc, b"http://h/a")?, served(alloc, byte)?))?;
    Ok(Mirror { rows })
}

/// Puts the words of the method for both schemes, over a method that has the byte `f` for files and one that has `h` for
/// http, whose fetches fail that a step `fail` numbers.
fn over_both(alloc: Global, page: &mut Page, steps: &[Step]) -> Result<(), Refused> {
    let failing = numbers_of(alloc, steps, "fail")?;
    let files = of_byte(alloc, b'f', Row::new(alloc))?;
    let mut method = BothMethod::new(files, of_byte(alloc, b'h', failing)?);
    put_all(alloc, page, &mut method, steps, &["fail"])
}

/// The method of a mirror that has this byte under each URI.
fn of_byte(alloc: Global, byte: u8, failing: Row<u64>) -> Result<MapMethod, UriError> {
    Ok(MapMethod::new(mirror_of_byte(alloc, byte)?, failing, Row::new(alloc)))
}
