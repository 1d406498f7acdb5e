//! Asks wait for their hosts.

ghost use Rattle.std.specs.Prelude.{◌≡◌, ◌<◌, ◌^◌, Some, OnOk, option_copied};
ghost use Rattle.board_model.specs.Boards as model;
ghost use Rattle.board_model.specs.Slots.{items_in};
ghost use Rattle.board_slot.specs.Refinement.{slot_of};
ghost use Rattle.host_queues.specs.Refinement.{lanes_of};

use acq_base::NoMemory;
use board_slot::Slot;
use host_queues::Queues;
use std::alloc::Global;
use update_model::Ask;
use uri_names::host_key;

/// The item of a number waits in its host's lane, if it asks.
pub fn put_ask(
    alloc: Global,
    queues: &mut Queues,
    number: u64,
    ask: Option<&Ask>,
) -> Result<(), NoMemory>
    ensures { OnOk result (lanes_of queues.new ≡ model.put_ask number (option_copied ask.entry) (lanes_of queues.old)) }
{
    match ask {
        Some(ask) => {
            let host = host_key(alloc, &ask.uri)?;
            queues.put(alloc, &host, number)
        }
        None => Ok(()),
    }
}

/// Each item of a source that asks does, the first of which has this number.
pub fn put_items(
    alloc: Global,
    queues: &mut Queues,
    number: u64,
    slot: &Slot,
) -> Result<(), NoMemory>
    requires { number < 2 ^ 63 }
    ensures { OnOk result (lanes_of queues.new ≡ model.put_items number (items_in (slot_of slot.now)) (lanes_of queues.old)) }
{
    let count = slot.count();
    for place in 0..count {
        put_ask(alloc, queues, number + place as u64, slot.ask(place))?;
    }
    Ok(())
}

/// What asks once the item of a number, at a place of a source, has heard an answer: that item, or each list of the source
/// whose Release has come.
pub fn put_heard(
    alloc: Global,
    queues: &mut Queues,
    number: u64,
    place: usize,
    slot: &Slot,
) -> Result<(), NoMemory>
    requires { number < 2 ^ 63 }
    ensures { OnOk result (lanes_of queues.new ≡ model.put_heard number place (Some (slot_of slot.now)) (lanes_of queues.old)) }
{
    if place == 0 {
        return put_items(alloc, queues, number, slot);
    }
    put_ask(alloc, queues, number, slot.ask(place))
}
