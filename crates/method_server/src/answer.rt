//! Messages answered, one after another.

ghost use Rattle.std.specs.Prelude.{◌≡◌, ◌∷◌, [], IfErr, IfOk, OnErr, OnOk};
ghost use Rattle.acq_base.specs.Uri.{IsSound};
ghost use Rattle.acq_outside.specs.Count.{one_more};
ghost use Rattle.acq_outside.specs.Fetches.{Fetches};
ghost use Rattle.acq_outside.specs.Frame.{CountsOnly};
ghost use Rattle.acq_outside.specs.Sink.{Wrote, WrotePart};
ghost use Rattle.method_server.specs.Asked.{is_request as asks, wish_of};
ghost use Rattle.method_server.specs.Fetching.{fetched_text as text_of};
ghost use Rattle.method_server.specs.Taking.{AnswersAllCall};
ghost use Rattle.method_server.specs.Turns.{AnswersCall, BeginsAtMostOne, ChangesOnly, RepliesCall, TouchesFor};

use crate::end::Stop;
use crate::fetching::{Fetched, fetch};
use crate::reading::read_wish;
use crate::said::{bad_request, not_served, served};
use crate::wish::Wish;
use acq_base::{NoMemory, Text};
use acq_outside::{Files, Method, OutError, Sink};
use method_messages::Message;
use std::alloc::Global;

/// The number of a request, `URI Acquire`.
const REQUEST: u32 = 600;

/// Answers messages in order. The first answer that can't be given ends it.
pub fn answer_all<M: Method, F: Files, S: Sink>(
    alloc: Global,
    http: bool,
    messages: &[Message],
    method: &mut M,
    files: &mut F,
    out: &mut S,
) -> Result<(), Stop>
    ensures method { Fetches M.Method method.old method.new }
    ensures files { CountsOnly Stop.Files (F.faults files.old) (F.faults files.new) result }
    ensures output { CountsOnly Stop.Output (S.faults out.old) (S.faults out.new) result }
    ensures answers { AnswersAllCall M.Method F.Files S.Sink http messages.now method.old method.new files.old files.new out.old out.new result }
{
    let mut rest = messages;
    while let Some((message, others)) = rest.split_first() {
        answer(alloc, http, message, method, files, out)?;
        rest = others;
    }
    Ok(())
}

/// Answers a message. One that is no request has no answer.
fn answer<M: Method, F: Files, S: Sink>(
    alloc: Global,
    http: bool,
    message: &Message,
    method: &mut M,
    files: &mut F,
    out: &mut S,
) -> Result<(), Stop>
    ensures method { Fetches M.Method method.old method.new }
    ensures files { CountsOnly Stop.Files (F.faults files.old) (F.faults files.new) result }
    ensures output { CountsOnly Stop.Output (S.faults out.old) (S.faults out.new) result }
    ensures answers { AnswersAllCall M.Method F.Files S.Sink http (message.now ∷ [])
        method.old method.new files.old files.new out.old out.new result }
{
    if !is_request(message) {
        return Ok(());
    }
    let text = find_answer(alloc, http, message, method, files)?;
    say(out, text.as_bytes())
}

fn is_request(message: &Message) -> bool
    ensures { result ≡ asks message.now }
{
    message.number == REQUEST
}

/// Writes a text.
pub fn say<S: Sink>(out: &mut S, text: &[u8]) -> Result<(), Stop>
    ensures output { CountsOnly Stop.Output (S.faults out.old) (S.faults out.new) result }
    ensures alone { IfErr result (λ stop. stop ≡ Stop.Output) }
    ensures ok { OnOk result (Wrote (S.written out.old) text.now (S.written out.new)) }
    ensures err { OnErr result (WrotePart (S.written out.old) text.now (S.written out.new)) }
{
    match out.write(text) {
        Ok(()) => Ok(()),
        Err(_) => Err(Stop::Output),
    }
}

/// The answer to a request, once its file is fetched.
fn find_answer<M: Method, F: Files>(
    alloc: Global,
    http: bool,
    message: &Message,
    method: &mut M,
    files: &mut F,
) -> Result<Text, OutError>
    ensures method { Fetches M.Method method.old method.new }
    ensures files { CountsOnly OutError.Fault (F.faults files.old) (F.faults files.new) result }
    ensures begins { BeginsAtMostOne (M.begins method.old) (M.begins method.new) }
    ensures touches { TouchesFor http (wish_of http message.now) (F.files files.old) (F.files files.new) }
    ensures text { IfOk result (AnswersCall M.Method F.Files http message.now method.old method.new files.old files.new) }
{
    match read_wish(alloc, http, message)? {
        Some(wish) => answer_wish(alloc, http, &wish, method, files),
        None => Ok(bad_request(alloc, message)?),
    }
}

/// The answer to a request that asks for this.
fn answer_wish<M: Method, F: Files>(
    alloc: Global,
    http: bool,
    wish: &Wish,
    method: &mut M,
    files: &mut F,
) -> Result<Text, OutError>
    requires sound { IsSound wish.now.job.uri }
    requires whole { wish.now.job.from ≡ 0 }
    ensures method { Fetches M.Method method.old method.new }
    ensures files { CountsOnly OutError.Fault (F.faults files.old) (F.faults files.new) result }
    ensures begins { M.begins method.new ≡ one_more (M.begins method.old) }
    ensures only { ChangesOnly http wish.now.name (F.files files.old) (F.files files.new) }
    ensures text { IfOk result (RepliesCall M.Method F.Files http wish.now method.old method.new files.old files.new) }
{
    let fetched = fetch(alloc, http, wish, method, files)?;
    Ok(fetched_text(alloc, wish, &fetched)?)
}

fn fetched_text(alloc: Global, wish: &Wish, fetched: &Fetched) -> Result<Text, NoMemory>
    ensures { IfOk result (λ text. text ≡ text_of wish.now fetched.now) }
{
    match fetched {
        Fetched::Whole(sum) => served(alloc, wish, sum),
        Fetched::Not(end) => not_served(alloc, wish, end),
    }
}
