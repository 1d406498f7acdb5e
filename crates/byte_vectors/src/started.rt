//! What a program is given when it starts.
ghost use Rattle.std.specs.Io.{WritesAtMost};

use acq_base::{NoMemory, Row, Text};
use case_words::{Page, Refused};
use start_values::{
    Environment, MemEnvironment, RealEnvironment, Refused as Unstarted, Start, read_lanes,
    read_place, read_start,
};
use std::alloc::Global;
use std::env::FillError;
use std::rt::Env;

/// A process that was started with these words and variables.
#[derive(Drop)]
struct Given {
    words: Vec<Text>,
    variables: Vec<(Text, Text)>,
}

impl Env for Given {
    fn arg(&self, i: usize, buf: &mut [u8]) -> Result<usize, FillError> {
        match self.words.get(i) {
            Some(word) => fill(word.as_bytes(), buf),
            None => Err(FillError::NotPresent),
        }
    }

    fn var(&self, name: &str, buf: &mut [u8]) -> Result<usize, FillError> {
        for (known, value) in self.variables.as_slice() {
            if known.as_bytes() == name.as_bytes() {
                return fill(value.as_bytes(), buf);
            }
        }
        Err(FillError::NotPresent)
    }

    fn var_at(&self, _i: usize, _buf: &mut [u8]) -> Result<usize, FillError> {
        Err(FillError::NotPresent)
    }
}

fn fill(bytes: &[u8], buf: &mut [u8]) -> Result<usize, FillError>
    ensures { WritesAtMost result buf.new }
{
    if bytes.len() > buf.len() {
        return Err(FillError::TooLong);
    }
    buf[..bytes.len()].copy_from_slice(bytes);
    Ok(bytes.len())
}

/// A process that was started with these words, and behind a `+` with pairs of variables and values.
fn process_of(alloc: Global, words: &[&[u8]]) -> Result<Given, Refused> {
    let mut parts = words.split(|word| *word == b"+".as_slice());
    let words = words_of(alloc, parts.next().unwrap_or(&[]))?;
    let variables = variables_of(alloc, parts.next().unwrap_or(&[]))?;
    Ok(Given { words, variables })
}

fn words_of(alloc: Global, words: &[&[u8]]) -> Result<Vec<Text>, Refused> {
    let mut texts = Vec::new(alloc);
    for word in words {
        texts.push(Text::from_bytes(alloc, word)?)?;
    }
    Ok(texts)
}

fn variables_of(alloc: Global, words: &[&[u8]]) -> Result<Vec<(Text, Text)>, Refused> {
    let mut variables = Vec::new(alloc);
    for pair in words.chunks(2) {
        variables.push(variable_of(alloc, pair)?)?;
    }
    Ok(variables)
}

fn variable_of(alloc: Global, pair: &[&[u8]]) -> Result<(Text, Text), Refused> {
    let [name, value] = pair else {
        return Err(Refused::NoCall);
    };
    let name = Text::from_bytes(alloc, name)?;
    let value = Text::from_bytes(alloc, value)?;
    Ok((name, value))
}

/// Appends what a program goes by that was started so.
pub fn put_started(alloc: Global, page: &mut Page, words: &[&[u8]]) -> Result<(), Refused> {
    let environment = RealEnvironment::new((process_of(alloc, words)?, alloc));
    put_read(alloc, page, &environment);
    Ok(())
}

/// Appends the same over such words and variables in memory, which are told.
pub fn put_told(alloc: Global, page: &mut Page, words: &[&[u8]]) -> Result<(), Refused> {
    let given = process_of(alloc, words)?;
    let environment = MemEnvironment::new(Row::from(given.words), Row::from(given.variables));
    put_read(alloc, page, &environment);
    Ok(())
}

fn put_read<E: Environment>(alloc: Global, page: &mut Page, environment: &E) {
    match read_all(alloc, environment) {
        Ok((start, lanes)) => put_start(page, &start, lanes),
        Err(refused) => put_unstarted(page, refused),
    }
}

/// What a program goes by, and how many workers it may have.
fn read_all<E: Environment>(alloc: Global, environment: &E) -> Result<(Start, u8), Unstarted> {
    let start = read_start(alloc, environment)?;
    let lanes = read_lanes(alloc, environment)?;
    Ok((start, lanes))
}

/// Appends the folder for package files of a program that was started so.
pub fn put_place(alloc: Global, page: &mut Page, words: &[&[u8]]) -> Result<(), Refused> {
    let environment = RealEnvironment::new((process_of(alloc, words)?, alloc));
    match read_place(alloc, &environment) {
        Ok(place) => page.put(place.as_str()),
        Err(refused) => put_unstarted(page, refused),
    }
    Ok(())
}

fn put_start(page: &mut Page, start: &Start, lanes: u8) {
    for word in &start.words {
        page.put(word.as_str());
        page.put(" ");
    }
    let etc = start.etc.as_str();
    let lists = start.lists.as_str();
    page.show(format_args!("| {etc} {lists} {lanes}"));
}

fn put_unstarted(page: &mut Page, refused: Unstarted) {
    let status = refused.status();
    let line = refused.line().trim_end();
    page.show(format_args!("status {status}, {line}"));
}

/// Appends how want of memory is told: by a refusal's number and line and in words, and at the end of a program that can't
/// start.
pub fn put_without_memory(page: &mut Page) {
    page.put_refusal(&NoMemory);
    page.put(": ");
    page.show(NoMemory);
    page.put("; ");
    put_unstarted(page, Unstarted::NoMemory);
}
