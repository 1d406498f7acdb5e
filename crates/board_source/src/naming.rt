//! What rows have under list names, found without looking at all of them.

ghost use Rattle.std.specs.Prelude.{◌≡◌, ℕ, List, IfOk};
ghost use Rattle.std.specs.BTreeMap.{get};
ghost use Rattle.std.specs.Cmp.Lexicographic.{slice_cmp};
ghost use Rattle.std.specs.Ordering.{nat_cmp};
ghost use Rattle.board_model.specs.Keys.{named};

use acq_base::{ListName, NoMemory, Row, Text};
use std::alloc::Global;
use std::collections::BTreeMap;

/// The rows by their names. Of several rows with one name the first counts.
pub fn by_name<V: Drop>(
    alloc: Global,
    rows: Row<(ListName, V)>,
) -> Result<BTreeMap<Text, V>, NoMemory>
    ensures { IfOk result (λ map. (name : List ℕ) → get (slice_cmp nat_cmp) map name ≡ named rows name) }
{
    let mut map = BTreeMap::new(alloc);
    let mut rest = rows.into_vec();
    while let Some((name, value)) = rest.pop() {
        drop(map.insert(name.0, value)?);
    }
    Ok(map)
}
