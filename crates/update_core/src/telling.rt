//! What is told of answers, and of sources that are settled.

ghost use Rattle.std.specs.Prelude.{◌≡◌, ◌<◌, length, [], ◌∷◌, ◌++◌, Some, IfOk, OnOk, IsSome, slice_get};
ghost use Rattle.acq_base.specs.declared.plan.Source.{Source as AnySource};
ghost use Rattle.board_model.specs.Keys.{path_at};
ghost use Rattle.board_model.specs.Slots.{ask_of, item_at};
ghost use Rattle.host_queues.specs.Lanes.{changed_at};
ghost use Rattle.update_core.specs.Refinement.{slots_of};
ghost use Rattle.update_model.specs.Points.{entry as entry_of};
ghost use Rattle.update_model.specs.declared.ask.Ask.{Ask as AnyAsk};

use crate::sources::Sources;
use acq_base::{NoMemory, Row, Source, TryCopy};
use board_model::Key;
use board_slot::{entry, path};
use board_source::Setup;
use std::alloc::Global;
use std::mem;
use update_model::{Ask, Asked, Closed, Verdict2};

/// The log has an answer to an item, which asks.
pub fn log(
    alloc: Global,
    all: &mut Row<Asked>,
    setup: &Setup,
    sources: &Sources,
    key: Key,
    lane: u32,
    closed: &Closed,
) -> Result<(), NoMemory>
    requires source { key.source < length setup.now.sources }
    requires asks { IsSome (ask_of (item_at (slots_of sources.now.slots.items) key)) }
    ensures { (source : AnySource) (ask : AnyAsk) → slice_get setup.now.sources key.source ≡ Some source
        → ask_of (item_at (slots_of sources.now.slots.items) key) ≡ Some ask
        → OnOk result (all.new ≡ all.old ++ entry_of key.source (path_at source key.place) ask (record { lane = lane; closed = closed.now }) ∷ []) }
{
    let Some(ask) = sources.ask(key) else {
        unreachable!()
    };
    let source = &setup.sources.as_slice()[key.source as usize];
    let entry = log_entry(alloc, source, key, ask, lane, closed)?;
    all.push(entry)
}

/// A source is settled, and has come to this.
pub fn log_verdict(
    alloc: Global,
    settled: &mut Row<u32>,
    verdicts: &mut Vec<Verdict2>,
    place: u32,
    verdict: &Verdict2,
) -> Result<(), NoMemory>
    ensures settled { OnOk result (settled.new ≡ settled.old ++ place ∷ []) }
    ensures verdicts { OnOk result (verdicts.new.items ≡ changed_at place (λ other. verdict.now) verdicts.old.items) }
    ensures count { length verdicts.new.items ≡ length verdicts.old.items }
{
    settled.push(place)?;
    put_verdict(verdicts, place, verdict.copy(alloc)?);
    Ok(())
}

/// The log's entry of an answer to what an item of a source asks.
fn log_entry(
    alloc: Global,
    source: &Source,
    key: Key,
    ask: &Ask,
    lane: u32,
    closed: &Closed,
) -> Result<Asked, NoMemory>
    ensures { IfOk result (λ told. told ≡ entry_of key.source (path_at source.now key.place) ask.now (record { lane = lane; closed = closed.now })) }
{
    let path = path(alloc, source, key.place)?;
    entry(alloc, key.source, path, ask, lane, closed)
}

/// A source has come to this.
fn put_verdict(verdicts: &mut Vec<Verdict2>, place: u32, verdict: Verdict2)
    ensures { verdicts.new.items ≡ changed_at place (λ other. verdict) verdicts.old.items }
{
    let at = place as usize;
    if at >= verdicts.len() {
        drop(verdict);
        return;
    }
    drop(mem::replace(&mut verdicts[at], verdict));
}
