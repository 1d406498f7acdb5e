//! `method file` and `method http`: a method of APT's, over input and output.

ghost use Rattle.std.specs.Prelude.{◌≡◌, ◌≤◌, vec_len, map, string_bytes, None};
ghost use Rattle.command_words.specs.Side.{method_in, method_of, side_by};
ghost use Rattle.update_program.specs.Said.{BlamesOutput};
ghost use Rattle.update_program.specs.Sides.{Speaks, SpeaksByFirst, scheme_of, side_asked};

use crate::{Ran, Status};
use acq_outside::{Files, Inlet, Method, Sink};
use method_server::serve_method;
use std::alloc::Global;

/// Whether words ask for the method of `http`, or for that of `file`; None where they ask for neither. It takes no memory, since
/// nothing else than its messages may be written where a method is asked for.
#[tactic(auto, unfolding(command_words::specs::Side::side_of))]
pub fn asked_scheme(words: &[String]) -> Option<bool>
    ensures { result ≡ scheme_of (side_asked words.now) }
{
    match words {
        [command, rest @ ..] => scheme_by(command.as_str(), rest),
        [] => None,
    }
}

/// What a command asks for with the words behind it.
#[tactic(auto, using(crate::proofs::Schemes::no_command))]
fn scheme_by(command: &str, words: &[String]) -> Option<bool>
    ensures { result ≡ scheme_of (side_by command.now (map string_bytes words.now)) }
{
    match command {
        "method" => scheme_alone(words),
        _ => None,
    }
}

fn scheme_alone(words: &[String]) -> Option<bool>
    ensures { result ≡ scheme_of (method_of (map string_bytes words.now)) }
{
    match words {
        [word] => scheme_in(word.as_str()),
        _ => None,
    }
}

/// The scheme of this name.
fn scheme_in(scheme: &str) -> Option<bool>
    ensures { result ≡ scheme_of (method_in scheme.now) }
{
    match scheme {
        "file" => Some(false),
        "http" => Some(true),
        _ => None,
    }
}

/// Serves the first of the methods over its input, and answers how that ended.
pub fn method_call<I: Inlet, M: Method, F: Files, S: Sink>(
    alloc: Global,
    http: bool,
    input: &mut I,
    methods: &mut Vec<M>,
    files: &mut F,
    out: &mut S,
) -> Ran
    requires { 1 ≤ vec_len methods.old }
    ensures log { result.log ≡ None }
    ensures output { BlamesOutput (S.faults out.old) (S.faults out.new) result.status.0 }
    ensures speaks { SpeaksByFirst I.Inlet M.Method F.Files S.Sink input.old input.new methods.old methods.new files.old files.new
        out.old out.new result http }
{
    speak(alloc, http, input, &mut methods[0], files, out)
}

fn speak<I: Inlet, M: Method, F: Files, S: Sink>(
    alloc: Global,
    http: bool,
    input: &mut I,
    method: &mut M,
    files: &mut F,
    out: &mut S,
) -> Ran
    ensures log { result.log ≡ None }
    ensures output { BlamesOutput (S.faults out.old) (S.faults out.new) result.status.0 }
    ensures speaks { Speaks I.Inlet M.Method F.Files S.Sink http input.old input.new method.old method.new files.old files.new
        out.old out.new result.status.0 }
{
    let end = serve_method(alloc, http, input, method, files, out);
    Ran::without_log(Status(end.status()))
}
