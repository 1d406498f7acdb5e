//! What a source comes to.

ghost use Rattle.std.specs.Prelude.{◌≡◌, IfOk, Some};
ghost use Rattle.board_model.specs.Settling.{settled_in, unchanged as unchanged_with};
ghost use Rattle.board_source.specs.Refinement.{found_of};
ghost use Rattle.board_slot.specs.Ended.{changed_set};
ghost use Rattle.board_slot.specs.Refinement.{slot_of};
ghost use Rattle.board_slot.specs.declared.slot.Slot.TheVariants as slots;

use crate::changes::{drops, puts};
use crate::ends::{ends, first_cause};
use crate::held::held;
use crate::slot::Listing;
use crate::sums::sums_by_path;
use acq_base::{NoMemory, Row, Source};
use board_source::AdmittedRelease;
use std::alloc::Global;
use update_model::{End, Settled, Verdict2};

/// A source none of whose files changes.
pub fn unchanged(alloc: Global, verdict: Verdict2) -> Settled
    ensures { result ≡ unchanged_with verdict }
{
    Settled {
        verdict,
        release: None,
        puts: Row::new(alloc),
        drops: Row::new(alloc),
    }
}

/// What a source comes to whose lists have ended.
pub fn settle_lists(alloc: Global, source: &Source, listing: Listing) -> Result<Settled, NoMemory>
    ensures { IfOk result (λ settled. settled_in source.now (slot_of (slots.Listing listing)) ≡ Some settled) }
{
    let Listing {
        found,
        there,
        lists,
    } = listing;
    let ends = ends(alloc, lists.items)?;
    match first_cause(alloc, ends.as_slice())? {
        Some(cause) => Ok(unchanged(alloc, Verdict2::Kept(cause))),
        None => settle_set(alloc, source, found, there, ends),
    }
}

/// What a source comes to that has a new set.
fn settle_set(
    alloc: Global,
    source: &Source,
    found: AdmittedRelease,
    there: bool,
    ends: Vec<Option<End>>,
) -> Result<Settled, NoMemory>
    ensures { IfOk result (λ settled. settled ≡ changed_set source.now (found_of found) ends.items there) }
{
    let targets = source.targets.as_slice();
    let sums = sums_by_path(alloc, &found.release)?;
    let held = held(alloc, source, &found, &sums)?;
    if there {
        return Ok(unchanged(alloc, Verdict2::Hit(held)));
    }
    Ok(Settled {
        verdict: Verdict2::Installed(held),
        release: Some(found.bytes),
        puts: puts(alloc, targets, ends)?,
        drops: drops(alloc, targets, &sums)?,
    })
}
