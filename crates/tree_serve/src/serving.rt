//! Serves one connection.
ghost use Rattle.std.specs.Prelude.{◌≡◌, ◌≢◌, ◌+◌, ◌<◌, ◌≤◌, true, not, length, drop, IfOk, IfSome, OnErr, option_map};
ghost use Rattle.httparse.specs.Grammar.{RequestHead};
ghost use Rattle.acq_net.specs.Talk.{sends};
ghost use Rattle.acq_net.specs.Talks.{SendsPartOfLatest, on_first};
ghost use Rattle.http_requests.specs.Asked.{request_of};
ghost use Rattle.tree_serve.specs.Answers.{closes};
ghost use Rattle.tree_serve.specs.Frame.{Converses, Serves};
ghost use Rattle.tree_serve.specs.Talks.{Goes, IsCut, IsFresh, IsServed, WhereTold, others_of};
ghost use Rattle.tree_serve.specs.Texts.{refusal, response_to};
ghost use Rattle.tree_serve.specs.Turns.{IsAnswered, IsAnsweredInPart, IsTurned};

use crate::answering::MOST_RESPONSES;
use crate::hearing::{Next, hear_next};
use crate::planning::plan;
use crate::sending::{send, send_planned};
use crate::texts::head_text;
use crate::{Answer, ServeError};
use acq_base::{Bytes, Text};
use acq_net::Port;
use acq_outside::Tree;
use http_requests::Request;
use std::alloc::Global;
use std::mem;

/// What came of the next request.
#[derive(Clone, Copy, Debug, PartialEq, Eq)]
pub enum Turn {
    /// It was answered, and the connection stays open.
    Kept,
    /// The connection is over, after so many responses.
    Over(u64),
}

/// Serves the connection that was accepted last, from the files below `root`, and answers how many responses it sent. The
/// connection is closed behind it, whatever came of it.
pub fn serve_one<P: Port, T: Tree>(
    alloc: Global,
    port: &mut P,
    tree: &mut T,
    root: &Text,
) -> Result<u64, ServeError>
    requires { IfSome (P.talks port.old) IsFresh }
    ensures frame { Serves P.Port T.Tree port.old port.new tree.old tree.new result }
    ensures others { others_of (P.talks port.new) ≡ others_of (P.talks port.old) }
    ensures served { IfOk result (λ count. WhereTold (T.files tree.old) (P.talks port.new) (IsServed root.now count)) }
    ensures cut { OnErr result (WhereTold (T.files tree.old) (P.talks port.new) (IsCut root.now)) }
{
    let served = serve_all(alloc, port, tree, root);
    port.close();
    served
}

/// Serves one request after another.
fn serve_all<P: Port, T: Tree>(
    alloc: Global,
    port: &mut P,
    tree: &mut T,
    root: &Text,
) -> Result<u64, ServeError>
    requires { IfSome (P.talks port.old) IsFresh }
    ensures frame { Serves P.Port T.Tree port.old port.new tree.old tree.new result }
    ensures others { others_of (P.talks port.new) ≡ others_of (P.talks port.old) }
    ensures served { IfOk result (λ count. WhereTold (T.files tree.old) (P.talks port.new) (IsServed root.now count)) }
    ensures cut { OnErr result (WhereTold (T.files tree.old) (P.talks port.new) (IsCut root.now)) }
{
    let mut unread = Bytes::new(alloc);
    for done in 0..MOST_RESPONSES {
        match take_turn(alloc, port, tree, root, done, &mut unread)? {
            Turn::Kept => {}
            Turn::Over(count) => return Ok(count),
        }
    }
    unreachable!()
}

/// Hears the next request behind the unread bytes, and answers it.
fn take_turn<P: Port, T: Tree>(
    alloc: Global,
    port: &mut P,
    tree: &mut T,
    root: &Text,
    done: u64,
    unread: &mut Bytes,
) -> Result<Turn, ServeError>
    requires few { done < 10000 }
    requires goes { WhereTold (T.files tree.old) (P.talks port.old) (Goes root.now done unread.old) }
    ensures frame { Serves P.Port T.Tree port.old port.new tree.old tree.new result }
    ensures others { others_of (P.talks port.new) ≡ others_of (P.talks port.old) }
    ensures few { IfOk result (λ turn. turn ≡ Turn.Kept → done + 1 < 10000) }
    ensures turned { IfOk result (λ turn. WhereTold (T.files tree.old) (P.talks port.new) (IsTurned root.now done unread.new turn)) }
    ensures cut { OnErr result (WhereTold (T.files tree.old) (P.talks port.new) (IsCut root.now)) }
{
    match hear_next(alloc, port, unread)? {
        Next::End => Ok(Turn::Over(done)),
        Next::Bad => {
            refuse(alloc, port)?;
            Ok(Turn::Over(done + 1))
        }
        Next::Request(len, request) => {
            let keep = respond(alloc, port, tree, root, done + 1, &request)?;
            if !keep {
                return Ok(Turn::Over(done + 1));
            }
            forget(alloc, unread, len);
            Ok(Turn::Kept)
        }
    }
}

/// Answers bytes of which no request can come.
#[tactic(auto, unfolding(crate::specs::Texts::refusal))]
fn refuse<P: Port>(alloc: Global, port: &mut P) -> Result<(), ServeError>
    ensures frame { Converses P.Port port.old port.new result }
    ensures others { others_of (P.talks port.new) ≡ others_of (P.talks port.old) }
    ensures sent { IsAnswered refusal (P.talks port.old) (P.talks port.new) result }
    ensures part { IsAnsweredInPart refusal (P.talks port.old) (P.talks port.new) result }
{
    let text = head_text(alloc, Answer::Bad, true)?;
    send(port, text.as_slice())
}

/// Answers a request by the response of this number, and says whether the connection stays open.
fn respond<P: Port, T: Tree>(
    alloc: Global,
    port: &mut P,
    tree: &mut T,
    root: &Text,
    number: u64,
    request: &Request,
) -> Result<bool, ServeError>
    ensures frame { Serves P.Port T.Tree port.old port.new tree.old tree.new result }
    ensures others { others_of (P.talks port.new) ≡ others_of (P.talks port.old) }
    ensures most { IfOk result (λ keep. keep ≡ true → number ≢ 10000) }
    ensures keep { IfSome (T.files tree.old) (λ files. (h : RequestHead) → request.now ≡ request_of h
        → IfOk result (λ keep. keep ≡ not (closes files root.now number h))) }
    ensures sent { IfSome (T.files tree.old) (λ files. (h : RequestHead) → request.now ≡ request_of h
        → IsAnswered (response_to files root.now number h) (P.talks port.old) (P.talks port.new) result) }
    ensures part { IfSome (T.files tree.old) (λ files. (h : RequestHead) → request.now ≡ request_of h
        → IsAnsweredInPart (response_to files root.now number h) (P.talks port.old) (P.talks port.new) result) }
{
    let planned = plan(alloc, tree, root, number, request)?;
    send_planned(alloc, port, tree, &planned)?;
    Ok(planned.keep)
}

/// Drops bytes at the front.
fn forget(alloc: Global, unread: &mut Bytes, len: usize)
    requires { len ≤ length unread.old }
    ensures { unread.new ≡ drop len unread.old }
{
    let mut bytes = mem::replace(unread, Bytes::new(alloc)).into_vec();
    bytes.as_mut_slice().rotate_left(len);
    let left = bytes.len() - len;
    bytes.truncate(left);
    *unread = Bytes::from(bytes);
}
