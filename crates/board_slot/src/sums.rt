//! The sums of a Release by their paths, so that no list is looked for among all files.

ghost use Rattle.std.specs.Prelude.{◌≡◌, ℕ, List, IfOk};
ghost use Rattle.std.specs.BTreeMap.{get};
ghost use Rattle.std.specs.Cmp.Lexicographic.{slice_cmp};
ghost use Rattle.std.specs.Ordering.{nat_cmp};
ghost use Rattle.release_file.specs.Release.{listed_sum};

use acq_base::{NoMemory, Sum, Text, TryCopy};
use release_file::Release;
use std::alloc::Global;
use std::collections::BTreeMap;

/// The sums that a Release lists, by their paths.
pub fn sums_by_path(alloc: Global, release: &Release) -> Result<BTreeMap<Text, Sum>, NoMemory>
    ensures { IfOk result (λ sums. (path : List ℕ) → get (slice_cmp nat_cmp) sums path ≡ listed_sum release.now path) }
{
    let mut sums = BTreeMap::new(alloc);
    let files = release.files.as_slice();
    let mut at = files.len();
    while at > 0 {
        at -= 1;
        let listed = &files[at];
        sums.insert(listed.path.copy(alloc)?, listed.sum)?;
    }
    Ok(sums)
}
