//! What a set is known by.

ghost use Rattle.std.specs.Prelude.{◌≡◌, ℕ, List, IfOk, filter_map};
ghost use Rattle.std.specs.BTreeMap.{get};
ghost use Rattle.std.specs.Cmp.Lexicographic.{slice_cmp};
ghost use Rattle.std.specs.Ordering.{nat_cmp};
ghost use Rattle.release_file.specs.Release.{listed_sum};
ghost use Rattle.board_model.specs.Settling.{held_of};
ghost use Rattle.board_source.specs.Refinement.{found_of};
ghost use Rattle.board_slot.specs.Ended.{held_list};

use acq_base::{ListName, NoMemory, Row, Source, Sum, Target, Text, TryCopy, sum_of};
use board_source::AdmittedRelease;
use std::alloc::Global;
use std::collections::BTreeMap;
use update_model::Held;

/// What a set is known by; `sums` are those of its Release.
pub fn held(
    alloc: Global,
    source: &Source,
    found: &AdmittedRelease,
    sums: &BTreeMap<Text, Sum>,
) -> Result<Held, NoMemory>
    requires { (path : List ℕ) → get (slice_cmp nat_cmp) sums.now path ≡ listed_sum found.now.release path }
    ensures { IfOk result (λ held. held ≡ held_of source.now (found_of found.now)) }
{
    Ok(Held {
        release: sum_of(found.bytes.as_slice()),
        date: found.release.date,
        lists: held_lists(alloc, source.targets.as_slice(), sums)?,
    })
}

/// The lists that have a sum, each with it.
fn held_lists(
    alloc: Global,
    targets: &[Target],
    sums: &BTreeMap<Text, Sum>,
) -> Result<Row<(ListName, Sum)>, NoMemory>
    ensures { IfOk result (λ lists. lists ≡ filter_map (held_list (get (slice_cmp nat_cmp) sums.now)) targets.now) }
{
    let mut lists = Row::new(alloc);
    for target in targets {
        if let Some(sum) = sums.get(&target.path) {
            lists.push((target.name.copy(alloc)?, *sum))?;
        }
    }
    Ok(lists)
}
