//! Where each source stands, and which are ready.

ghost use Rattle.std.specs.Prelude.{◌≡◌, ◌<◌, ◌^◌, ℕ, nat_eq, Bool, false, true, if◌then◌else◌, length, Some, IfOk, OnOk, OnErr, IfSome, option_copied, option_and_then, slice_get};
ghost use Rattle.std.specs.BTreeSet.{contains};
ghost use Rattle.std.specs.Ordering.{nat_cmp};
ghost use Rattle.acq_base.specs.declared.plan.Source.{Source as AnySource};
ghost use Rattle.board_model.specs.Boards as boards;
ghost use Rattle.board_model.specs.Settling.{settled_in};
ghost use Rattle.board_model.specs.Slots as model;
ghost use Rattle.acq_outside.specs.Stays.{ReadsCounting};
ghost use Rattle.board_slot.specs.Refinement.{slot_of};
ghost use Rattle.board_source.specs.Refinement.{config_of};
ghost use Rattle.host_queues.specs.Lanes.{changed_at};
ghost use Rattle.host_queues.specs.Refinement.{lanes_of};
ghost use Rattle.update_core.specs.Refinement.{AreReady, ready_at, slots_of};
ghost use Rattle.update_core.specs.TakenIn.{AreHeardAnew};

use crate::asks::put_heard;
use acq_base::NoMemory;
use acq_outside::{Disk, OutError};
use board_model::Key;
use board_slot::Slot;
use board_source::Setup;
use host_queues::Queues;
use kept_hooks::Judge;
use std::alloc::Global;
use std::collections::BTreeSet;
use std::mem;
use update_model::{Ask, Closed, Settled};

/// Where each source stands, in plan order, with the places of those that are ready.
#[derive(Drop)]
pub struct Sources {
    pub slots: Vec<Slot>,
    pub ready: BTreeSet<u32>,
    ghost told: { AreReady slots.items ready },
}

impl Sources {
    /// What an item asks, if it asks.
    pub fn ask(&self, key: Key) -> Option<&Ask>
        ensures { option_copied result ≡ model.ask_of (model.item_at (slots_of self.now.slots.items) key) }
    {
        match self.slots.get(key.source as usize) {
            Some(slot) => slot.ask(key.place),
            None => None,
        }
    }

    /// The first that is ready.
    pub fn first_ready(&self) -> Option<u32>
        ensures { result ≡ boards.first_ready (slots_of self.now.slots.items) }
    {
        match self.ready.first() {
            Some(place) => Some(*place),
            None => None,
        }
    }

    /// An item that asks hears an answer of this lane.
    pub fn hear<D: Disk>(
        &mut self,
        alloc: Global,
        judge: &Judge,
        disk: &mut D,
        setup: &Setup,
        key: Key,
        lane: u32,
        closed: Closed,
    ) -> Result<(), OutError>
        requires change { judge.now.change ≡ setup.now.change }
        requires slot { key.source < length self.old.slots.items }
        requires source { key.source < length setup.now.sources }
        requires asks { ready_at (slots_of self.old.slots.items) key.source ≡ false }
        ensures count { length self.new.slots.items ≡ length self.old.slots.items }
        ensures frame { ReadsCounting OutError.Fault D.Disk disk.old disk.new result }
        ensures slots { (source : AnySource) → slice_get setup.now.sources key.source ≡ Some source
            → OnOk result (AreHeardAnew (D.tells disk.old) (D.files disk.old) (config_of setup.now) source key (record { lane = lane; closed = closed })
            (slots_of self.old.slots.items) (slots_of self.new.slots.items)) }
    {
        let at = key.source as usize;
        let source = &setup.sources.as_slice()[at];
        let old = mem::replace(&mut self.slots[at], Slot::Settled);
        let new = old.hear(alloc, judge, disk, setup, source, key.place, lane, closed)?;
        if let Err(error) = mark(&mut self.ready, key.source, new.is_ready()) {
            drop(new);
            return Err(error.into());
        }
        drop(mem::replace(&mut self.slots[at], new));
        Ok(())
    }

    /// What asks once an item has heard an answer waits for its host.
    pub fn put_heard(
        &self,
        alloc: Global,
        queues: &mut Queues,
        number: u64,
        key: Key,
    ) -> Result<(), NoMemory>
        requires { number < 2 ^ 63 }
        ensures { OnOk result (lanes_of queues.new
            ≡ boards.put_heard number key.place (slice_get (slots_of self.now.slots.items) key.source) (lanes_of queues.old)) }
    {
        match self.slots.get(key.source as usize) {
            Some(slot) => put_heard(alloc, queues, number, key.place, slot),
            None => Ok(()),
        }
    }

    /// What the source at a place, which is ready, comes to. It is settled then.
    pub fn settle(&mut self, alloc: Global, setup: &Setup, place: u32) -> Result<Settled, NoMemory>
        requires slot { place < length self.old.slots.items }
        requires source { place < length setup.now.sources }
        requires ready { ready_at (slots_of self.old.slots.items) place ≡ true }
        ensures settled { (source : AnySource) (slot : model.Slot) → slice_get setup.now.sources place ≡ Some source → slice_get (slots_of self.old.slots.items) place ≡ Some slot
            → IfOk result (λ settled. settled_in source slot ≡ Some settled) }
        ensures count { length self.new.slots.items ≡ length self.old.slots.items }
        ensures slots { OnOk result (slots_of self.new.slots.items ≡ changed_at place (λ slot. model.SettledSlot) (slots_of self.old.slots.items)) }
    {
        let at = place as usize;
        let source = &setup.sources.as_slice()[at];
        self.ready.remove(&place);
        let slot = mem::replace(&mut self.slots[at], Slot::Settled);
        let settled = slot.settle(alloc, source)?;
        Ok(settled)
    }
}

/// A place that isn't among these is, where its source is ready.
fn mark(ready: &mut BTreeSet<u32>, place: u32, is_ready: bool) -> Result<(), NoMemory>
    requires { contains nat_cmp ready.old place ≡ false }
    ensures marked { OnOk result ((other : ℕ) → contains nat_cmp ready.new other ≡ (if nat_eq place other then is_ready else contains nat_cmp ready.old other)) }
    ensures failed { OnErr result ((other : ℕ) → contains nat_cmp ready.new other ≡ contains nat_cmp ready.old other) }
{
    if !is_ready {
        return Ok(());
    }
    ready.insert(place)?;
    Ok(())
}
