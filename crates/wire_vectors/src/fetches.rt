//! Fetches of any method, as the words that it says.
ghost use Rattle.std.specs.Prelude.{◌≡◌, IfOk, IsSome};
ghost use Rattle.acq_base.specs.Uri.{IsSound};
ghost use Rattle.acq_outside.specs.Word.{CanBegin};

use crate::cases::{Argument, Refused, Step};
use crate::page::Page;
use acq_base::{Job, Text};
use acq_outside::{Method, Word};
use std::alloc::Global;
use uri_names::read_uri;

/// How many words of a fetch are told at most, behind the first.
const MOST_WORDS: u8 = 40;

/// The longest piece that is shown as it is, in bytes.
const MOST_SHOWN: usize = 20;

/// Carries the steps out that ask a method. Steps with one of the words `made` were for its making.
pub fn put_all<M: Method>(
    alloc: Global,
    page: &mut Page,
    method: &mut M,
    steps: &[Step],
    made: &[&str],
) -> Result<(), Refused> {
    for step in steps {
        let name = step.name.as_str();
        if !is_one_of(name, made) {
            ask(alloc, page, method, name, step.arguments.as_slice())?;
        }
    }
    Ok(())
}

fn is_one_of(name: &str, words: &[&str]) -> bool {
    words.iter().any(|word| *word == name)
}

/// Asks a method: `fetch` puts each word of a fetch, `whole` the reply to a fetch of the whole, and `faults` how often it
/// failed.
fn ask<M: Method>(
    alloc: Global,
    page: &mut Page,
    method: &mut M,
    name: &str,
    arguments: &[Argument],
) -> Result<(), Refused> {
    match (name, arguments) {
        (
            "fetch",
            [
                Argument::Text(uri),
                Argument::Number(max),
                Argument::Number(from),
            ],
        ) => { fetch(alloc, page, method, uri, *max, *from) }
        ("whole", [Argument::Text(uri), Argument::Number(max)]) => {
            fetch_whole(alloc, page, method, uri, *max)
        }
        ("faults", []) => {
            page.put_number(" faults ", method.faults());
            Ok(())
        }
        _ => Err(Refused::NoCase),
    }
}

/// Puts the words of a fetch of at most `max` bytes from the byte `from` on.
fn fetch<M: Method>(
    alloc: Global,
    page: &mut Page,
    method: &mut M,
    uri: &Text,
    max: u64,
    from: u64,
) -> Result<(), Refused> {
    if from >= max {
        return Err(Refused::NoCase);
    }
    let uri = read_uri(alloc, uri.as_bytes())?;
    let job = Job {
        no: 0,
        uri,
        max,
        from,
    };
    put_words(alloc, page, method, &job);
    page.put(";");
    Ok(())
}

/// Puts the words of a fetch.
#[tactic(auto, using(crate::proofs::Going::goes_on_first))]
fn put_words<M: Method>(alloc: Global, page: &mut Page, method: &mut M, job: &Job)
    requires sound { IsSound job.now.uri }
    requires from { CanBegin job.now }
{
    let word = method.begin(alloc, job);
    put_word(page, &word);
    if let Word::Piece { at: _, bytes: _ } = word {
        go_on(alloc, page, method, MOST_WORDS);
    }
}

/// Puts the words behind a piece.
#[tactic(auto, using(crate::proofs::Going::goes_on))]
fn go_on<M: Method>(alloc: Global, page: &mut Page, method: &mut M, most: u8)
    requires { IsSome (M.under method.old) }
{
    if most == 0 {
        return;
    }
    let word = method.more(alloc);
    put_word(page, &word);
    if let Word::Piece { at: _, bytes: _ } = word {
        go_on(alloc, page, method, most - 1);
    }
}

/// Puts the reply to a fetch of the whole.
fn fetch_whole<M: Method>(
    alloc: Global,
    page: &mut Page,
    method: &mut M,
    uri: &Text,
    max: u64,
) -> Result<(), Refused> {
    let uri = read_uri(alloc, uri.as_bytes())?;
    let job = Job {
        no: 0,
        uri,
        max,
        from: 0,
    };
    page.put_reply(&method.fetch(alloc, &job));
    page.put(";");
    Ok(())
}

fn put_word(page: &mut Page, word: &Word) {
    match word {
        Word::Piece { at, bytes } => put_piece(page, *at, bytes.as_slice()),
        Word::Done { size } => page.put_number(" =", *size),
        Word::Not(end) => page.put_not_served(end),
        Word::NoMemory => page.fall_short(),
    }
}

/// Puts where a piece begins, and its bytes; of a long one how many they are, and whether they are the pattern's.
fn put_piece(page: &mut Page, at: u64, bytes: &[u8]) {
    page.put_number(" ", at);
    if bytes.len() <= MOST_SHOWN {
        page.put_bytes("+", bytes);
        return;
    }
    page.put_number("+", bytes.len() as u64);
    if !is_pattern(at, bytes) {
        page.put(" other bytes");
    }
}

/// What the pattern has at a place: no two of its pieces are alike.
pub fn pattern_byte(at: u64) -> u8 {
    (at % 251) as u8
}

/// Whether bytes are those that the pattern has from a place on.
fn is_pattern(at: u64, bytes: &[u8]) -> bool {
    for (i, byte) in bytes.iter().enumerate() {
        if *byte != pattern_byte(at.wrapping_add(i as u64)) {
            return false;
        }
    }
    true
}
