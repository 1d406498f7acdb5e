//! The words as clap reads them. It may take memory, and touches nothing else.

ghost use Rattle.std.specs.Prelude.{◌≡◌, [], codes, map, option_map, unwrap_or, string_bytes, IfOk};
ghost use Rattle.clap.specs.Words.{all_of, first_of, found_of, rows_of};
ghost use Rattle.command_words.specs.Words as asked;

use crate::command::{NUMBER, OPTION, TOGETHER, acquire};
use crate::{Options, Request};
use acq_base::{NoMemory, Row, Text, read_digits};
use clap::ArgMatches;
use clap::error::ErrorKind;
use std::alloc::Global;

/// What the words of a command line ask for, the program's own name left out. None where the command doesn't take them,
/// or where the word behind `generate` isn't 1 to 20 decimal digits of a number below 2^64.
///
/// `update` takes `-o KEY=VALUE`, `-oKEY=VALUE`, `-o=KEY=VALUE`, `--option KEY=VALUE` and `--option=KEY=VALUE`, at will,
/// and `--together` once. What stands in a pair isn't judged here.
#[tactic(auto, unfolding(crate::specs::Words::request_of))]
pub fn read_words(alloc: Global, words: &[String]) -> Result<Option<Request>, NoMemory>
    ensures { IfOk result (λ request. request ≡ asked.request_of (map string_bytes words.now)) }
{
    let command = acquire(alloc)?;
    let matches = match command.try_get_matches_from(words) {
        Ok(matches) => matches,
        Err(error) if error.kind() == ErrorKind::OutOfMemory => return Err(NoMemory),
        Err(_) => return Ok(None),
    };
    match matches.subcommand() {
        Some((name, found)) => request_in(alloc, name, found),
        None => Ok(None),
    }
}

/// What a subcommand and its values ask for.
fn request_in(alloc: Global, name: &str, found: &ArgMatches) -> Result<Option<Request>, NoMemory>
    ensures { IfOk result (λ request. request ≡ asked.request_in (name.now, rows_of (found_of found.now))) }
{
    if name == "update" {
        Ok(Some(Request::Update(options_in(alloc, found)?)))
    } else {
        Ok(number_in(found).map(Request::Generate))
    }
}

/// The options of `update`.
fn options_in(alloc: Global, found: &ArgMatches) -> Result<Options, NoMemory>
    ensures { IfOk result (λ options. options ≡ asked.options_in (rows_of (found_of found.now))) }
{
    Ok(Options {
        pairs: pairs_in(alloc, found)?,
        together: is_given(found, TOGETHER),
    })
}

/// The values of the option, in their order.
fn pairs_in(alloc: Global, found: &ArgMatches) -> Result<Row<Text>, NoMemory>
    ensures { IfOk result (λ pairs. pairs ≡ unwrap_or (all_of (codes "option") (rows_of (found_of found.now))) []) }
{
    match values_of(found, OPTION) {
        Some(values) => texts(alloc, values),
        None => Ok(Row::new(alloc)),
    }
}

/// Copies of texts.
fn texts(alloc: Global, values: &[&str]) -> Result<Row<Text>, NoMemory>
    ensures { IfOk result (λ texts. texts ≡ map (λ value. value.now) values.now) }
{
    let mut texts = Row::new(alloc);
    for value in values {
        texts.push(Text::from_bytes(alloc, value.as_bytes())?)?;
    }
    Ok(texts)
}

/// Whether a flag was given.
fn is_given(found: &ArgMatches, id: &str) -> bool
    ensures { result ≡ asked.is_given id.now (rows_of (found_of found.now)) }
{
    match value_of(found, id) {
        Some(text) => text == "true",
        None => false,
    }
}

/// The number behind `generate`.
fn number_in(found: &ArgMatches) -> Option<u64>
    ensures { result ≡ asked.number_in (rows_of (found_of found.now)) }
{
    match value_of(found, NUMBER) {
        Some(text) => read_digits(text.as_bytes()),
        None => None,
    }
}

/// The first value of an argument.
fn value_of<'a>(found: &ArgMatches<'a>, id: &str) -> Option<&'a str>
    ensures { option_map (λ text. text.now) result ≡ first_of id.now (rows_of (found_of found.now)) }
{
    found.get_str(id)
}

/// All values of an argument.
fn values_of<'m, 'a>(found: &'m ArgMatches<'a>, id: &str) -> Option<&'m [&'a str]>
    ensures { option_map (λ values. map (λ value. value.now) values.now) result ≡ all_of id.now (rows_of (found_of found.now)) }
{
    found.get_strs(id)
}
