//! How a board begins.

ghost use Rattle.std.specs.Prelude.{◌≡◌, ◌<◌, ◌≤◌, ◌++◌, ◌∷◌, [], length, map, replicate, Some, None, IfOk, OnOk};
ghost use Rattle.board_model.specs.Boards as model;
ghost use Rattle.board_model.specs.Keys as keys;
ghost use Rattle.board_model.specs.Slots as slots;
ghost use Rattle.board_slot.specs.Refinement.{slot_of};
ghost use Rattle.board_source.specs.Refinement.{config_of};
ghost use Rattle.host_queues.specs.Lanes.{no_hosts};
ghost use Rattle.host_queues.specs.Refinement.{lanes_of};
ghost use Rattle.lists_dir.specs.Refinement.{old_in};
ghost use Rattle.update_core.specs.Refinement.{slots_of};

use crate::asks::put_ask;
use acq_base::{NoMemory, Row, Source};
use board_model::Key;
use board_slot::Slot;
use board_source::Setup;
use host_queues::Queues;
use lists_dir::Installed;
use std::alloc::Global;
use update_model::Verdict2;

/// The items of the sources so far with their numbers, where these stand, and the Releases that wait.
#[derive(Drop)]
pub struct Beginning {
    pub keys: Vec<Key>,
    pub slots: Vec<Slot>,
    pub queues: Queues,
}

/// Each source of a plan begins beside what is installed of it.
pub fn begin_board(
    alloc: Global,
    setup: &Setup,
    old: Row<Installed>,
    lanes: u32,
) -> Result<Beginning, NoMemory>
    requires few { length setup.now.sources ≤ 4096 }
    requires each { length old ≡ length setup.now.sources }
    requires lanes { 1 ≤ lanes }
    ensures keys { IfOk result (λ begun. begun.keys.items ≡ keys.keys_from 0 setup.now.sources) }
    ensures slots { IfOk result (λ begun. slots_of begun.slots.items ≡ model.first_slots (config_of setup.now) setup.now.sources (map old_in old)) }
    ensures queues { IfOk result (λ begun. lanes_of begun.queues ≡ model.put_releases (config_of setup.now) 0 setup.now.sources (no_hosts lanes)) }
{
    let mut rest = old.into_vec();
    rest.reverse();
    let mut begun = Beginning {
        keys: Vec::new(alloc),
        slots: Vec::new(alloc),
        queues: Queues::new(alloc, lanes)?,
    };
    for source in setup.sources.as_slice() {
        let Some(old) = rest.pop() else {
            unreachable!()
        };
        let slot = Slot::begin(alloc, setup, source, old)?;
        begun.add(alloc, source, slot)?;
    }
    Ok(begun)
}

impl Beginning {
    /// One more source begins, which stands so.
    fn add(&mut self, alloc: Global, source: &Source, slot: Slot) -> Result<(), NoMemory>
        requires { length self.old.slots.items < 4096 }
        ensures keys { OnOk result (self.new.keys.items ≡ self.old.keys.items ++ keys.keys_in (length self.old.slots.items) source.now) }
        ensures slots { OnOk result (self.new.slots.items ≡ self.old.slots.items ++ slot ∷ []) }
        ensures queues { OnOk result (lanes_of self.new.queues
            ≡ model.put_ask (length self.old.keys.items) (slots.ask_of (slots.item_in (slot_of slot) 0)) (lanes_of self.old.queues)) }
    {
        let place = self.slots.len();
        let number = self.keys.len() as u64;
        self.slots.push(slot)?;
        put_ask(alloc, &mut self.queues, number, self.slots[place].ask(0))?;
        add_keys(&mut self.keys, place as u32, source)
    }
}

/// The items of a source have the next numbers: its Release, and as many lists.
fn add_keys(all: &mut Vec<Key>, place: u32, source: &Source) -> Result<(), NoMemory>
    ensures { OnOk result (all.new.items ≡ all.old.items ++ keys.keys_in place source.now) }
{
    all.push(Key {
        source: place,
        place: 0,
    })?;
    let lists = source.targets.len();
    for list in 0..lists {
        all.push(Key {
            source: place,
            place: list + 1,
        })?;
    }
    Ok(())
}

/// No job of these lanes is out.
pub fn none_out(alloc: Global, lanes: u32) -> Result<Vec<Option<u64>>, NoMemory>
    ensures { IfOk result (λ out. out.items ≡ replicate lanes None) }
{
    let mut out = Vec::new(alloc);
    for _ in 0..lanes {
        out.push(None)?;
    }
    Ok(out)
}

/// What stands for the verdicts of as many sources as long as they aren't settled.
pub fn no_verdicts(alloc: Global, count: usize) -> Result<Vec<Verdict2>, NoMemory>
    ensures { IfOk result (λ verdicts. verdicts.items ≡ replicate count model.no_verdict) }
{
    let mut verdicts = Vec::new(alloc);
    for _ in 0..count {
        verdicts.push(Verdict2::Older(0))?;
    }
    Ok(verdicts)
}
