//! Which files of a source change.

ghost use Rattle.std.specs.Prelude.{◌≡◌, ◌++◌, IfOk, OnOk, filter_map, option_map, option_to_list};
ghost use Rattle.std.specs.BTreeMap.{get};
ghost use Rattle.std.specs.Cmp.Lexicographic.{slice_cmp};
ghost use Rattle.std.specs.Ordering.{nat_cmp};
ghost use Rattle.acq_base.specs.declared.plan.Target.{Target as AnyTarget};
ghost use Rattle.board_model.specs.Settling.{put_of};
ghost use Rattle.board_slot.specs.Ended.{dropped_list, puts_in};

use acq_base::{ListName, NoMemory, Row, Sum, Target, Text, TryCopy};
use std::alloc::Global;
use std::collections::BTreeMap;
use update_model::{Body, End};

/// The files that came, under their lists' names.
pub fn puts(
    alloc: Global,
    targets: &[Target],
    ends: Vec<Option<End>>,
) -> Result<Row<(ListName, Body)>, NoMemory>
    ensures { IfOk result (λ puts. puts ≡ puts_in targets.now ends.items) }
{
    let mut rest = ends;
    rest.reverse();
    let mut puts = Row::new(alloc);
    for target in targets {
        let Some(end) = rest.pop() else {
            return Ok(puts);
        };
        put(alloc, &mut puts, target, end)?;
    }
    Ok(puts)
}

/// The file of a list comes last, where it came.
fn put(
    alloc: Global,
    puts: &mut Row<(ListName, Body)>,
    target: &Target,
    end: Option<End>,
) -> Result<(), NoMemory>
    ensures { OnOk result (puts.new ≡ puts.old ++ put_of target.now end) }
{
    match file(end) {
        Some(body) => {
            puts.push((target.name.copy(alloc)?, body))?;
            Ok(())
        }
        None => Ok(()),
    }
}

/// The file that came, if one did.
fn file(end: Option<End>) -> Option<Body>
    ensures { (target : AnyTarget) → option_to_list (option_map (λ body. (target.name, body)) result) ≡ put_of target end }
{
    match end {
        Some(End::Got(body)) => Some(body),
        Some(End::Ended(_cause)) => None,
        Some(End::Stands) | None => None,
    }
}

/// The names of the lists that have no sum.
pub fn drops(
    alloc: Global,
    targets: &[Target],
    sums: &BTreeMap<Text, Sum>,
) -> Result<Row<ListName>, NoMemory>
    ensures { IfOk result (λ drops. drops ≡ filter_map (dropped_list (get (slice_cmp nat_cmp) sums.now)) targets.now) }
{
    let mut drops = Row::new(alloc);
    for target in targets {
        if sums.get(&target.path).is_none() {
            drops.push(target.name.copy(alloc)?)?;
        }
    }
    Ok(drops)
}
