//! What comes after the asks for a Release.

ghost use Rattle.std.specs.Prelude.{◌≡◌, ◌≤◌, length, IfOk};
ghost use Rattle.acq_base.specs.Uri.{IsSound, list_name};
ghost use Rattle.update_model.specs.Points.{start};
ghost use Rattle.update_model.specs.Releases.{release_end as end_of, release_limit, release_text as text};
ghost use Rattle.update_model.specs.Walks.{whole_ask as asked_whole, release_walk};
ghost use Rattle.item_graph.specs.Nexts.{after, point_in};
ghost use Rattle.item_graph.specs.Sound.{IsSoundAt};

use crate::state::{Next, State};
use acq_base::{NoMemory, Source, Text, TryCopy, Uri};
use by_hash::beside;
use std::alloc::Global;
use update_model::{Ask, Cause, End, Ending};

/// The most bytes that a Release may have.
const RELEASE_LIMIT: u64 = 16_777_216;

/// An ask for a file that is held in memory.
pub fn whole_ask(uri: Uri, max: u64) -> Ask
    ensures { result ≡ asked_whole uri max }
{
    Ask {
        uri,
        max,
        from: 0,
        stage: false,
    }
}

/// The first ask for a source's Release: InRelease in its folder.
pub fn release(alloc: Global, retries: u32, source: &Source) -> Result<State, NoMemory>
    ensures walk { IfOk result (λ state. point_in state ≡ start retries (release_walk source.now)) }
    ensures sound { IsSound source.now.release → length (list_name source.now.release) ≤ 240 → IfOk result (λ state. IsSoundAt (point_in state)) }
{
    let uri = beside(alloc, &source.release, b"InRelease")?;
    let next = Next::InRelease(source.release.copy(alloc)?);
    Ok(State::first(whole_ask(uri, RELEASE_LIMIT), retries, next))
}

/// Behind InRelease. Where it was never answered, no other file may stand in for it.
pub fn after_in_release(
    alloc: Global,
    retries: u32,
    release: Uri,
    ending: Ending,
) -> Result<State, NoMemory>
    ensures { IfOk result (λ state. point_in state ≡ start retries (after (Next.InRelease release) ending)) }
{
    match ending {
        Ending::Served(_) | Ending::Dead { .. } => after_release(alloc, ending),
        Ending::TooBig | Ending::Absent(_) | Ending::Lost | Ending::Garbled(_) => Ok(State::first(
            whole_ask(release, RELEASE_LIMIT),
            retries,
            Next::Release,
        )),
    }
}

/// Behind Release.
pub fn after_release(alloc: Global, ending: Ending) -> Result<State, NoMemory>
    ensures { IfOk result (λ state. state ≡ State.Ended (end_of ending)) }
{
    Ok(State::Ended(release_end(alloc, ending)?))
}

/// What the trail of a Release comes to.
fn release_end(alloc: Global, ending: Ending) -> Result<End, NoMemory>
    ensures { IfOk result (λ end. end ≡ end_of ending) }
{
    Ok(match ending {
        Ending::Served(body) => End::Got(body),
        Ending::TooBig => End::Ended(Cause::TooBig(RELEASE_LIMIT)),
        Ending::Absent(status) => End::Ended(Cause::NoRelease(status)),
        Ending::Lost => End::Ended(Cause::Redirects(release_text(alloc)?)),
        Ending::Garbled(at) => End::Ended(Cause::Garbled {
            path: release_text(alloc)?,
            at,
        }),
        Ending::Dead {
            lane,
            before,
            after,
        } => End::Ended(Cause::Method {
            path: release_text(alloc)?,
            lane,
            before,
            after,
        }),
    })
}

/// The path that stands for a Release in causes.
fn release_text(alloc: Global) -> Result<Text, NoMemory>
    ensures { IfOk result (λ path. path ≡ text) }
{
    Text::from_bytes(alloc, b"Release")
}
