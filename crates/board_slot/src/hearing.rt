//! What an answer makes of a source.

ghost use Rattle.std.specs.Prelude.{◌≡◌, ◌<◌, IfOk, OnOk, Ok};
ghost use Rattle.board_source.specs.Names.{HasDiskNames, NamesDiffer};
ghost use Rattle.acq_outside.specs.Stays.{ReadsCounting};
ghost use Rattle.lists_dir.specs.Refinement.{old_in};
ghost use Rattle.update_model.specs.Outcomes.{admitted};
ghost use Rattle.board_model.specs.Slots as model;
ghost use Rattle.board_source.specs.Anew.{Anew};
ghost use Rattle.board_source.specs.Listed.{standing_of};
ghost use Rattle.board_source.specs.Refinement.{config_of, found_of};
ghost use Rattle.acq_base.specs.declared.plan.Source.{Source as AnySource};
ghost use Rattle.board_slot.specs.Refinement.{slot_of};
ghost use Rattle.board_slot.specs.declared.slot.Slot.TheVariants as slots;

use crate::slot::{Asking, Listing, Slot};
use acq_base::{NoMemory, Source};
use acq_outside::{Disk, OutError};
use board_source::{Admission, AdmittedRelease, NewLists, Setup, admit, begin_lists};
use kept_hooks::Judge;
use lists_dir::Installed;
use std::alloc::Global;
use update_model::{Closed, End};

/// The Release hears an answer, which is the item at place 0.
pub fn hear_release<D: Disk>(
    alloc: Global,
    judge: &Judge,
    disk: &mut D,
    setup: &Setup,
    source: &Source,
    asking: Asking,
    place: usize,
    lane: u32,
    closed: Closed,
) -> Result<Slot, OutError>
    requires named { NamesDiffer source.now }
    requires fits { HasDiskNames source.now }
    requires change { judge.now.change ≡ setup.now.change }
    ensures frame { ReadsCounting OutError.Fault D.Disk disk.old disk.new result }
    ensures heard { IfOk result (λ slot. Anew (D.tells disk.old) (D.files disk.old) source.now (old_in asking.old) (λ old. slot_of slot
        ≡ model.heard_at (config_of setup.now) source.now place (record { lane = lane; closed = closed }) (model.Asking old (standing_of asking.release)))) }
{
    if place != 0 {
        drop(closed);
        return Ok(Slot::Asking(asking));
    }
    let Asking { old, mut release } = asking;
    release.answer(alloc, lane, closed)?;
    judge_release(alloc, judge, disk, setup, source, Asking { old, release })
}

/// A source whose Release has heard an answer: it asks on, or it has ended.
fn judge_release<D: Disk>(
    alloc: Global,
    judge: &Judge,
    disk: &mut D,
    setup: &Setup,
    source: &Source,
    asking: Asking,
) -> Result<Slot, OutError>
    requires named { NamesDiffer source.now }
    requires fits { HasDiskNames source.now }
    requires change { judge.now.change ≡ setup.now.change }
    ensures frame { ReadsCounting OutError.Fault D.Disk disk.old disk.new result }
    ensures released { IfOk result (λ slot. Anew (D.tells disk.old) (D.files disk.old) source.now (old_in asking.old) (λ old. slot_of slot
        ≡ model.released (config_of setup.now) source.now old (standing_of asking.release))) }
{
    if asking.release.ask().is_some() {
        return Ok(Slot::Asking(asking));
    }
    let Asking { old, release } = asking;
    listed(alloc, judge, disk, setup, source, old, release.end())
}

/// A source whose Release came to this.
fn listed<D: Disk>(
    alloc: Global,
    judge: &Judge,
    disk: &mut D,
    setup: &Setup,
    source: &Source,
    old: Installed,
    end: End,
) -> Result<Slot, OutError>
    requires named { NamesDiffer source.now }
    requires fits { HasDiskNames source.now }
    requires change { judge.now.change ≡ setup.now.change }
    ensures frame { ReadsCounting OutError.Fault D.Disk disk.old disk.new result }
    ensures listed { IfOk result (λ slot. Anew (D.tells disk.old) (D.files disk.old) source.now (old_in old) (λ anew. slot_of slot ≡ model.listed (config_of setup.now) source.now anew
        (admitted end anew.release setup.now.settings setup.now.change setup.now.moment))) }
{
    match admit(alloc, judge, setup, end, &old.release)? {
        Admission::Admitted(found) => listing(alloc, disk, setup, source, old, found),
        Admission::Stays(why) => Ok(Slot::Refused(why)),
    }
}

/// A source whose Release may be installed.
fn listing<D: Disk>(
    alloc: Global,
    disk: &mut D,
    setup: &Setup,
    source: &Source,
    old: Installed,
    found: AdmittedRelease,
) -> Result<Slot, OutError>
    requires named { NamesDiffer source.now }
    requires fits { HasDiskNames source.now }
    ensures frame { ReadsCounting OutError.Fault D.Disk disk.old disk.new result }
    ensures listed { IfOk result (λ slot. Anew (D.tells disk.old) (D.files disk.old) source.now (old_in old) (λ anew. slot_of slot
        ≡ model.listed (config_of setup.now) source.now anew (Ok (found_of found)))) }
{
    let NewLists { lists, there } = begin_lists(alloc, disk, setup, source, old, &found)?;
    Ok(Slot::Listing(Listing {
        found,
        there,
        lists,
    }))
}

/// The list at a place hears an answer, the first of which is 1.
pub fn hear_list(
    alloc: Global,
    listing: Listing,
    place: usize,
    lane: u32,
    closed: Closed,
) -> Result<Slot, NoMemory>
    ensures { (config : model.Setup) (source : AnySource) → IfOk result (λ slot. slot_of slot
        ≡ model.heard_at config source place (record { lane = lane; closed = closed }) (slot_of (slots.Listing listing))) }
{
    if place == 0 {
        drop(closed);
        return Ok(Slot::Listing(listing));
    }
    let mut listing = listing;
    listing.lists.answer(alloc, place - 1, lane, closed)?;
    Ok(Slot::Listing(listing))
}
