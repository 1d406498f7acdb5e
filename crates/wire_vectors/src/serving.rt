//! The method interface over objects in memory.

ghost use Rattle.std.specs.Prelude.{IfOk};
ghost use Rattle.acq_base.specs.Fetch.{IsSoundAnswer};
ghost use Rattle.acq_memory.specs.MapMethod.{HasSoundAnswers};

use crate::cases::{Argument, Refused, Step, joined, numbers_of};
use crate::links::link_of;
use crate::methods::pattern;
use crate::page::Page;
use acq_base::{Answer, Bytes, Mirror, NoMemory, Row, Text};
use acq_memory::{MapMethod, MemFiles, MemInlet, MemSink};
use acq_outside::Method;
use http_method::HttpMethod;
use method_server::serve_method;
use std::alloc::Global;
use uri_names::{UriError, read_uri};

/// Puts the status that serving an input comes to, what is said, and the files that steps name.
pub fn answer(
    alloc: Global,
    page: &mut Page,
    name: &str,
    arguments: &[Argument],
    steps: &[Step],
) -> Result<(), Refused> {
    match (name, arguments) {
        ("serve-file", [Argument::Number(size)]) => over_map(alloc, page, false, *size, steps),
        ("serve-http", [Argument::Number(size)]) => over_map(alloc, page, true, *size, steps),
        ("serve-link", []) => over_link(alloc, page, steps),
        _ => Err(Refused::NoCase),
    }
}

/// Over the method of a mirror in memory.
fn over_map(
    alloc: Global,
    page: &mut Page,
    http: bool,
    size: u64,
    steps: &[Step],
) -> Result<(), Refused> {
    let begins = numbers_of(alloc, steps, "fail")?;
    let mores = numbers_of(alloc, steps, "fail-more")?;
    let mut method = MapMethod::new(mirror(alloc, size)?, begins, mores);
    put_served(alloc, page, http, &mut method, steps)
}

/// Over the method for http, whose peers follow a script.
fn over_link(alloc: Global, page: &mut Page, steps: &[Step]) -> Result<(), Refused> {
    let mut method = HttpMethod::new(link_of(alloc, steps)?);
    put_served(alloc, page, true, &mut method, steps)
}

/// A mirror with `abc` at `file:/srv/a` and a pattern of so many bytes at `http://h/a`, to which `http://h/m` moves;
/// `http://h/n` moves to a place that is none.
fn mirror(alloc: Global, size: u64) -> Result<Mirror, UriError>
    ensures { IfOk result (λ mirror. HasSoundAnswers mirror.rows) }
{
    let mut rows = Row::new(alloc);
    let bytes = pattern(alloc, size)?;
    rows.push((read_uri(alloc, b"file:/srv/a")?, served(alloc, b"abc")?))?;
    rows.push((read_uri(alloc, b"http://h/a")?, Answer::Served(bytes)))?;
    let place = read_uri(alloc, b"http://h/a")?;
    rows.push((read_uri(alloc, b"http://h/m")?, Answer::Moved(Some(place))))?;
    rows.push((read_uri(alloc, b"http://h/n")?, Answer::Moved(None)))?;
    Ok(Mirror { rows })
}

/// A file of these bytes.
fn served(alloc: Global, bytes: &[u8]) -> Result<Answer, NoMemory>
    ensures { IfOk result IsSoundAnswer }
{
    let mut copy = Bytes::new(alloc);
    copy.append(bytes)?;
    Ok(Answer::Served(copy))
}

fn put_served<M: Method>(
    alloc: Global,
    page: &mut Page,
    http: bool,
    method: &mut M,
    steps: &[Step],
) -> Result<(), Refused> {
    let mut input = MemInlet::new(
        input_of(alloc, steps)?,
        numbers_of(alloc, steps, "fail-input")?,
    );
    let mut files = MemFiles::new(alloc, numbers_of(alloc, steps, "fail-files")?);
    let mut out = MemSink::new(alloc, numbers_of(alloc, steps, "fail-output")?);
    let end = serve_method(alloc, http, &mut input, method, &mut files, &mut out);
    page.put_number(" status ", u64::from(end.status()));
    page.put_bytes(" said ", out.written().as_slice());
    put_files(alloc, page, &files, steps)
}

/// The bytes of all steps `input`.
fn input_of(alloc: Global, steps: &[Step]) -> Result<Bytes, Refused> {
    let mut bytes = Bytes::new(alloc);
    for step in steps {
        if step.name.as_str() == "input" {
            bytes.append(joined(alloc, step.arguments.as_slice())?.as_slice())?;
        }
    }
    Ok(bytes)
}

/// Puts each file that a step `file` names.
fn put_files(
    alloc: Global,
    page: &mut Page,
    files: &MemFiles,
    steps: &[Step],
) -> Result<(), Refused> {
    for step in steps {
        match step.name.as_str() {
            "file" => {
                let name = joined(alloc, step.arguments.as_slice())?;
                put_file(page, files, &Text::from(name.into_vec()));
            }
            "input" | "peer" | "fail" | "fail-more" | "fail-input" | "fail-files" | "fail-output" =>
                {}
            _ => return Err(Refused::NoCase),
        }
    }
    Ok(())
}

fn put_file(page: &mut Page, files: &MemFiles, name: &Text) {
    match files.file(name) {
        Some(bytes) => page.put_bytes(" file ", bytes.as_slice()),
        None => page.put(" no file"),
    }
}
