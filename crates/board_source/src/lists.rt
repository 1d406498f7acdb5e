//! The lists of a source whose Release may be installed.

ghost use Rattle.std.specs.Prelude.{◌≡◌, ◌+◌, ◌<◌, ◌≤◌, IfOk, OnOk, option_map, option_copied, slice_get};
ghost use Rattle.std.specs.List.{list_all};
ghost use Rattle.host_queues.specs.Lanes.{changed_at};
ghost use Rattle.board_model.specs.Slots.{ask_of, has_ended, joined, item_after};
ghost use Rattle.board_source.specs.Listed.{count_asking, is_asking as asks_now, one_if, standing_of, standings};

use acq_base::NoMemory;
use item_graph::Item;
use std::alloc::Global;
use std::mem;
use update_model::{Ask, Closed};

/// The lists of a source in plan order, `None` for one that the Release doesn't name.
#[derive(Drop)]
pub struct Lists {
    pub items: Vec<Option<Item>>,
    /// How many of them ask.
    pub asking: usize,
    ghost counted: { asking ≡ count_asking items.items },
}

/// How many of the lists ask.
pub fn count(items: &[Option<Item>]) -> usize
    ensures { result ≡ count_asking items.now }
{
    let mut asking = 0;
    for item in items {
        if is_asking(item) {
            asking += 1;
        }
    }
    asking
}

/// Whether a list asks.
fn is_asking(item: &Option<Item>) -> bool
    ensures { result ≡ asks_now item.now }
{
    match item {
        Some(item) => item.ask().is_some(),
        None => false,
    }
}

/// How many ask without a list.
fn without(asking: usize, item: &Option<Item>) -> usize
    requires { one_if (asks_now item.now) ≤ asking }
    ensures { result + one_if (asks_now item.now) ≡ asking }
{
    if is_asking(item) { asking - 1 } else { asking }
}

/// How many ask with one list more.
fn with(asking: usize, item: &Option<Item>) -> usize
    requires { asking < 18446744073709551615 }
    ensures { result ≡ asking + one_if (asks_now item.now) }
{
    if is_asking(item) { asking + 1 } else { asking }
}

/// A list hears an answer.
fn heard(
    alloc: Global,
    item: Option<Item>,
    lane: u32,
    closed: Closed,
) -> Result<Option<Item>, NoMemory>
    ensures { IfOk result (λ new. option_map standing_of new ≡ option_map (item_after (record { lane = lane; closed = closed })) (option_map standing_of item)) }
{
    match item {
        Some(mut item) => {
            item.answer(alloc, lane, closed)?;
            Ok(Some(item))
        }
        None => Ok(None),
    }
}

impl Lists {
    /// What the list at a place asks, if it asks.
    pub fn ask(&self, place: usize) -> Option<&Ask>
        ensures { option_copied result ≡ ask_of (joined (slice_get (standings self.now.items.items) place)) }
    {
        match self.items.get(place) {
            Some(Some(item)) => item.ask(),
            _ => None,
        }
    }

    /// Whether all have ended.
    pub fn have_ended(&self) -> bool
        ensures { result ≡ list_all has_ended (standings self.now.items.items) }
    {
        self.asking == 0
    }

    /// The list at a place hears an answer.
    pub fn answer(
        &mut self,
        alloc: Global,
        place: usize,
        lane: u32,
        closed: Closed,
    ) -> Result<(), NoMemory>
        ensures { OnOk result (standings self.new.items.items ≡ changed_at place (option_map (item_after (record { lane = lane; closed = closed }))) (standings self.old.items.items)) }
    {
        if place >= self.items.len() {
            drop(closed);
            return Ok(());
        }
        let old = mem::replace(&mut self.items[place], None);
        self.asking = without(self.asking, &old);
        let new = heard(alloc, old, lane, closed)?;
        self.asking = with(self.asking, &new);
        drop(mem::replace(&mut self.items[place], new));
        Ok(())
    }
}
