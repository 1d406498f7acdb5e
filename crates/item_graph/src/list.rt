//! The whole asks for a list, and what comes after each.

ghost use Rattle.std.specs.Prelude.{◌≡◌, ℕ, None, Some, IfOk, MatchResult};
ghost use Rattle.hash_gate.specs.Verdict.{verdict as verdict_on};
ghost use Rattle.release_file.specs.Release.{same_sum};
ghost use Rattle.update_model.specs.Files.{sum_of_body};
ghost use Rattle.update_model.specs.Obtained.{list_cause as cause_of};
ghost use Rattle.update_model.specs.Points.{start};
ghost use Rattle.update_model.specs.Walks.{list_ask as asked_list, plain_walk, candidates_walk, resume_walk, fitting_body};
ghost use Rattle.item_graph.specs.Nexts.{after, point_in};

use crate::state::{Next, State};
use acq_base::{NoMemory, Sum, TryCopy, Uri, sum_of};
use hash_gate::Verdict;
use std::alloc::Global;
use update_model::{Ask, Body, Cause, End, Ending, Wanted};

/// An ask for a list that goes into its partial file, of which the first `from` bytes are there.
fn list_ask(uri: Uri, wanted: &Wanted, from: u64) -> Ask
    ensures { result ≡ asked_list uri wanted.now from }
{
    Ask {
        uri,
        max: wanted.sum.size,
        from,
        stage: true,
    }
}

/// A list at its own URI.
pub fn plain(alloc: Global, retries: u32, wanted: Wanted) -> Result<State, NoMemory>
    ensures { IfOk result (λ state. point_in state ≡ start retries (plain_walk wanted)) }
{
    let ask = list_ask(wanted.uri.copy(alloc)?, &wanted, 0);
    Ok(State::first(ask, retries, Next::Plain(wanted)))
}

/// A list under its digest, where it is asked for there, and then at its own URI.
fn candidates(alloc: Global, retries: u32, wanted: Wanted) -> Result<State, NoMemory>
    ensures { IfOk result (λ state. point_in state ≡ start retries (candidates_walk wanted wanted.hashed)) }
{
    match wanted.hashed.copy(alloc)? {
        None => plain(alloc, retries, wanted),
        Some(uri) => {
            let ask = list_ask(uri, &wanted, 0);
            Ok(State::first(ask, retries, Next::Hashed(wanted)))
        }
    }
}

/// The rest of a partial file of so many bytes, where that has some and fewer than the list, and then the whole list.
pub fn resume(alloc: Global, retries: u32, wanted: Wanted, part: u64) -> Result<State, NoMemory>
    ensures { IfOk result (λ state. point_in state ≡ start retries (resume_walk wanted part)) }
{
    if part == 0 || part >= wanted.sum.size {
        return candidates(alloc, retries, wanted);
    }
    let uri = match &wanted.hashed {
        Some(uri) => uri.copy(alloc)?,
        None => wanted.uri.copy(alloc)?,
    };
    let ask = list_ask(uri, &wanted, part);
    Ok(State::first(ask, retries, Next::Resumed(wanted)))
}

/// Behind a list's own URI, which shows the cause.
pub fn after_plain(wanted: Wanted, ending: Ending) -> State
    ensures { (retries : ℕ) → point_in result ≡ start retries (after (Next.Plain wanted) ending) }
{
    match fitting(&wanted.sum, ending) {
        Ok(body) => State::Ended(End::Got(body)),
        Err(ending) => State::Ended(End::Ended(list_cause(wanted, ending))),
    }
}

/// Behind the URI under the digest.
pub fn after_hashed(
    alloc: Global,
    retries: u32,
    wanted: Wanted,
    ending: Ending,
) -> Result<State, NoMemory>
    ensures { IfOk result (λ state. point_in state ≡ start retries (after (Next.Hashed wanted) ending)) }
{
    match fitting(&wanted.sum, ending) {
        Ok(body) => Ok(State::Ended(End::Got(body))),
        Err(_) => plain(alloc, retries, wanted),
    }
}

/// Behind the rest of a partial file.
pub fn after_resumed(
    alloc: Global,
    retries: u32,
    wanted: Wanted,
    ending: Ending,
) -> Result<State, NoMemory>
    ensures { IfOk result (λ state. point_in state ≡ start retries (after (Next.Resumed wanted) ending)) }
{
    match fitting(&wanted.sum, ending) {
        Ok(body) => Ok(State::Ended(End::Got(body))),
        Err(_) => candidates(alloc, retries, wanted),
    }
}

/// The file of a trail, where it has this sum; else the ending again.
fn fitting(sum: &Sum, ending: Ending) -> Result<Body, Ending>
    ensures { MatchResult result (λ body. fitting_body sum.now ending ≡ Some body) (λ other. (other ≡ ending) × (fitting_body sum.now ending ≡ None)) }
{
    match ending {
        Ending::Served(body) if body_sum(&body) == *sum => Ok(body),
        other => Err(other),
    }
}

/// The sum by which a file is known. A list is staged, so that its bytes were hashed as they came.
fn body_sum(body: &Body) -> Sum
    ensures { result ≡ sum_of_body body.now }
{
    match body {
        Body::Bytes(bytes) => sum_of(bytes.as_slice()),
        Body::Staged(sum) => *sum,
    }
}

/// Why there is no list, by how the trail from its own URI ended.
fn list_cause(wanted: Wanted, ending: Ending) -> Cause
    ensures { result ≡ cause_of wanted ending }
{
    let path = wanted.path;
    match ending {
        Ending::Served(body) => Cause::Differs {
            path,
            wanted: wanted.sum,
            got: verdict(&wanted.sum, &body_sum(&body)),
        },
        Ending::TooBig => Cause::Differs {
            path,
            wanted: wanted.sum,
            got: Verdict::Long,
        },
        Ending::Absent(status) => Cause::Missing { path, status },
        Ending::Lost => Cause::Redirects(path),
        Ending::Garbled(at) => Cause::Garbled { path, at },
        Ending::Dead {
            lane,
            before,
            after,
        } => Cause::Method {
            path,
            lane,
            before,
            after,
        },
    }
}

/// How a file of one sum compares with the sum that it should have.
fn verdict(wanted: &Sum, got: &Sum) -> Verdict
    ensures { result ≡ verdict_on wanted.now got.now }
{
    if got.size < wanted.size {
        return Verdict::Short(got.size);
    }
    if wanted.size < got.size {
        return Verdict::Long;
    }
    if got.sha == wanted.sha {
        return Verdict::Fits;
    }
    Verdict::Differs(got.sha)
}
