//! Where a source stands.

ghost use Rattle.std.specs.Prelude.{◌≡◌, ◌≤◌, ◌^◌, [], ◌∷◌, length, true, Some, None, IfOk, option_copied, slice_get};
ghost use Rattle.board_source.specs.Names.{HasDiskNames, NamesDiffer};
ghost use Rattle.acq_outside.specs.Stays.{ReadsCounting};
ghost use Rattle.board_model.specs.Boards.{first_release};
ghost use Rattle.board_model.specs.Settling.{settled_in};
ghost use Rattle.board_model.specs.Slots as model;
ghost use Rattle.board_source.specs.Listed.{standing_of, standings};
ghost use Rattle.board_source.specs.Refinement.{config_of};
ghost use Rattle.lists_dir.specs.Refinement.{old_in};
ghost use Rattle.board_slot.specs.Heard.{HearsAnew};
ghost use Rattle.board_slot.specs.Refinement.{slot_of};

use crate::hearing::{hear_list, hear_release};
use crate::settling::{settle_lists, unchanged};
use acq_base::{NoMemory, Source};
use acq_outside::{Disk, OutError};
use board_source::{AdmittedRelease, Lists, Setup, Staying};
use item_graph::Item;
use kept_hooks::Judge;
use lists_dir::Installed;
use std::alloc::Global;
use update_model::{Ask, Closed, Settled};

/// A source whose Release is asked for.
#[derive(Drop)]
pub struct Asking {
    /// What is installed of it.
    pub old: Installed,
    pub release: Item,
}

/// A source whose Release may be installed, with its lists.
#[derive(Drop)]
pub struct Listing {
    pub found: AdmittedRelease,
    /// Whether just this set is installed already.
    pub there: bool,
    pub lists: Lists,
}

/// Where a source stands.
#[derive(Drop)]
pub enum Slot {
    Asking(Asking),
    Listing(Listing),
    /// Its Release may not be installed.
    Refused(Staying),
    /// It is settled.
    Settled,
}

impl Slot {
    /// A source whose Release is to be asked for, beside what is installed of it.
    pub fn begin(
        alloc: Global,
        setup: &Setup,
        source: &Source,
        old: Installed,
    ) -> Result<Slot, NoMemory>
        ensures { IfOk result (λ slot. slot_of slot ≡ model.Asking (old_in old) (first_release (config_of setup.now) source.now)) }
    {
        let release = Item::for_release(alloc, source, &setup.settings)?;
        Ok(Slot::Asking(Asking { old, release }))
    }

    /// What the item at a place asks: the Release at 0, and the lists behind it. `None` where none is there, or it has
    /// ended. It takes no memory.
    pub fn ask(&self, place: usize) -> Option<&Ask>
        ensures { option_copied result ≡ model.ask_of (model.item_in (slot_of self.now) place) }
    {
        match self {
            Slot::Asking(asking) => release_ask(&asking.release, place),
            Slot::Listing(listing) => list_ask(&listing.lists, place),
            Slot::Refused(_) | Slot::Settled => None,
        }
    }

    /// How many items it has. It takes no memory.
    pub fn count(&self) -> usize
        ensures value { result ≡ length (model.items_in (slot_of self.now)) }
        ensures few { result ≤ 2 ^ 63 }
    {
        match self {
            Slot::Asking(_) => 1,
            Slot::Listing(listing) => listing.lists.items.len() + 1,
            Slot::Refused(_) | Slot::Settled => 0,
        }
    }

    /// Whether its items have ended, and it isn't settled. It takes no memory.
    pub fn is_ready(&self) -> bool
        ensures { result ≡ model.is_ready (slot_of self.now) }
    {
        match self {
            Slot::Asking(_) | Slot::Settled => false,
            Slot::Listing(listing) => listing.lists.have_ended(),
            Slot::Refused(_) => true,
        }
    }

    /// The item at a place hears an answer of this lane. Once the Release has ended it is judged, and where it may be
    /// installed its lists begin, beside their installed files. `Fault` only where the disk's count of faults rose.
    pub fn hear<D: Disk>(
        self,
        alloc: Global,
        judge: &Judge,
        disk: &mut D,
        setup: &Setup,
        source: &Source,
        place: usize,
        lane: u32,
        closed: Closed,
    ) -> Result<Slot, OutError>
        requires named { NamesDiffer source.now }
        requires fits { HasDiskNames source.now }
        requires change { judge.now.change ≡ setup.now.change }
        ensures frame { ReadsCounting OutError.Fault D.Disk disk.old disk.new result }
        ensures heard { IfOk result (λ slot. HearsAnew (D.tells disk.old) (D.files disk.old) (config_of setup.now) source.now place
            (record { lane = lane; closed = closed }) (slot_of self) (slot_of slot)) }
    {
        match self {
            Slot::Asking(asking) => hear_release(
                alloc, judge, disk, setup, source, asking, place, lane, closed,
            ),
            Slot::Listing(listing) => {
                let slot = hear_list(alloc, listing, place, lane, closed)?;
                Ok(slot)
            }
            Slot::Refused(why) => {
                drop(closed);
                Ok(Slot::Refused(why))
            }
            Slot::Settled => {
                drop(closed);
                Ok(Slot::Settled)
            }
        }
    }

    /// What the source comes to, and which of its files change for it.
    pub fn settle(self, alloc: Global, source: &Source) -> Result<Settled, NoMemory>
        requires ended { model.is_ready (slot_of self) ≡ true }
        ensures { IfOk result (λ settled. settled_in source.now (slot_of self) ≡ Some settled) }
    {
        match self {
            Slot::Listing(listing) => settle_lists(alloc, source, listing),
            Slot::Refused(why) => Ok(unchanged(alloc, why.verdict())),
            Slot::Asking(_) | Slot::Settled => unreachable!(),
        }
    }
}

/// What a Release asks, which is the item at place 0.
fn release_ask(release: &Item, place: usize) -> Option<&Ask>
    ensures { option_copied result ≡ model.ask_of (model.joined (slice_get (Some (standing_of release.now) ∷ []) place)) }
{
    if place == 0 { release.ask() } else { None }
}

/// What the list at a place asks, the first of which is 1.
fn list_ask(lists: &Lists, place: usize) -> Option<&Ask>
    ensures { option_copied result ≡ model.ask_of (model.joined (slice_get (None ∷ standings lists.now.items.items) place)) }
{
    if place == 0 {
        return None;
    }
    lists.ask(place - 1)
}
