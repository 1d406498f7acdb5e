//! Places by key, looked up in n log n time. It may take memory, and touches nothing else.

ghost use Rattle.std.specs.Prelude.{◌≡◌, IfOk, OnOk, Some, None, IsSome, IfNone, IfSome};
ghost use Rattle.std.specs.BTreeMap.{get, Updates, IsUnchanged};

use acq_base::NoMemory;
use std::collections::BTreeMap;

/// The place at which a key was entered first. A new key is entered at `place`.
pub fn enter<K: Ord + Drop>(
    places: &mut BTreeMap<K, usize>,
    key: K,
    place: usize,
) -> Result<Option<usize>, NoMemory>
    ensures found { IfOk result (λ found. found ≡ get K.cmp places.old key) }
    ensures known { IfOk result (λ found. IsSome found → IsUnchanged places.old places.new) }
    ensures entered { IfOk result (λ found. found ≡ None → Updates K.cmp places.old places.new key (Some place)) }
{
    if let Some(earlier) = places.get(&key) {
        return Ok(Some(*earlier));
    }
    places.insert(key, place)?;
    Ok(None)
}
