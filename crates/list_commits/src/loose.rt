//! The names of the lists folder that belong to no source.
ghost use Rattle.std.specs.Prelude.{◌≡◌, ◌↔◌, ◌++◌, ◌∷◌, [], ◌≤◌, ◌<◌, ◌^◌, ℕ, All, Contains, List, filter, length, IfOk, OnOk, IsTrue};
ghost use Rattle.std.specs.BTreeSet.{contains};
ghost use Rattle.std.specs.Cmp.Lexicographic.{slice_cmp};
ghost use Rattle.std.specs.Ordering.{nat_cmp};
ghost use Rattle.acq_outside.specs.Disk.{IsName};
ghost use Rattle.acq_outside.specs.Stays.{ReadsCounting};
ghost use Rattle.journal_model.specs.Names.{partial};
ghost use Rattle.list_commits.specs.Loose.{AreLooseNames, AreSorted, IsLoose, is_loose, kept_names, kept_of};

use acq_base::{ListName, NoMemory, Row, Source, Text, TryCopy};
use acq_outside::{Disk, OutError};
use journal_model::is_inside;
use std::alloc::Global;
use std::collections::BTreeSet;

/// The names of the folder that belong to no source, each once and in byte order: all but `lock`, `journal`, the lists of
/// these sources, and those lists on their way. A name that leads out of the folder is passed over, since no record may
/// have it. Nothing is changed.
///
/// `Fault` only where the disk's count of faults rose, and `NoMemory` where memory ran out.
pub fn loose_names<D: Disk>(
    alloc: Global,
    disk: &mut D,
    sources: &[Source],
) -> Result<Row<Text>, OutError>
    ensures frame { ReadsCounting OutError.Fault D.Disk disk.old disk.new result }

    ensures sorted { IfOk result AreSorted }
    ensures loose { IfOk result (All (IsLoose sources.now)) }
    ensures named { IfOk result (All IsName) }
    ensures few { IfOk result (λ names. length names < 2 ^ 31) }
    ensures told { IsTrue (D.tells disk.old) → IfOk result (AreLooseNames (D.files disk.old) sources.now) }
{
    let kept = kept_set(alloc, sources)?;
    let names = disk.names(alloc)?;
    let others = without(alloc, names, &kept)?;
    let loose = sorted(alloc, others)?;
    Ok(loose)
}

/// The names that stay, as a set.
fn kept_set(alloc: Global, sources: &[Source]) -> Result<BTreeSet<Text>, NoMemory>
    ensures { IfOk result (λ kept. (name : List ℕ)
        → IsTrue (contains (slice_cmp nat_cmp) kept name) ↔ Contains (kept_names sources.now) name) }
{
    let names = kept_row(alloc, sources)?;
    let set = BTreeSet::from_iter(alloc, names.into_vec())?;
    Ok(set)
}

/// The names that stay.
fn kept_row(alloc: Global, sources: &[Source]) -> Result<Row<Text>, NoMemory>
    ensures { IfOk result (λ kept. kept ≡ kept_names sources.now) }
{
    let mut kept = Row::new(alloc);
    kept.push(Text::from_bytes(alloc, b"lock".as_slice())?)?;
    kept.push(Text::from_bytes(alloc, b"journal".as_slice())?)?;
    for source in sources {
        keep_source(alloc, source, &mut kept)?;
    }
    Ok(kept)
}

/// Adds the names of a source.
fn keep_source(alloc: Global, source: &Source, kept: &mut Row<Text>) -> Result<(), NoMemory>
    ensures { OnOk result (kept.new ≡ kept.old ++ kept_of source.now) }
{
    keep_name(alloc, &source.release_name, kept)?;
    for target in source.targets.as_slice() {
        keep_name(alloc, &target.name, kept)?;
    }
    Ok(())
}

/// Adds a list's name, and that under which it is on its way.
fn keep_name(alloc: Global, name: &ListName, kept: &mut Row<Text>) -> Result<(), NoMemory>
    ensures { OnOk result (kept.new ≡ kept.old ++ name.now.0 ∷ partial name.now.0 ∷ []) }
{
    kept.push(name.0.copy(alloc)?)?;
    let mut part = Text::from_bytes(alloc, b"partial/".as_slice())?;
    part.append(name.0.as_bytes())?;
    kept.push(part)?;
    Ok(())
}

/// The names that aren't kept and stay in the folder, in their order.
fn without(alloc: Global, names: Row<Text>, kept: &BTreeSet<Text>) -> Result<Row<Text>, NoMemory>
    ensures { IfOk result (λ others. others ≡ filter (is_loose kept.now) names) }
{
    let mut others = Row::new(alloc);
    let mut rest = names.into_vec();
    rest.reverse();
    while let Some(name) = rest.pop() {
        add_other(name, kept, &mut others)?;
    }
    Ok(others)
}

/// Adds a name that isn't kept, if it stays in the folder.
fn add_other(name: Text, kept: &BTreeSet<Text>, others: &mut Row<Text>) -> Result<(), NoMemory>
    ensures { OnOk result (others.new ≡ others.old ++ filter (is_loose kept.now) (name ∷ [])) }
{
    if kept.contains(&name) || !is_inside(name.as_bytes()) {
        return Ok(());
    }
    others.push(name)?;
    Ok(())
}

/// The names in byte order, each once.
fn sorted(alloc: Global, names: Row<Text>) -> Result<Row<Text>, NoMemory>
    ensures sorted { IfOk result AreSorted }
    ensures same { IfOk result (λ sorted. (name : List ℕ) → Contains sorted name ↔ Contains names name) }
    ensures few { IfOk result (λ sorted. length sorted ≤ length names) }
{
    let set = BTreeSet::from_iter(alloc, names.into_vec())?;
    let row = keys_of(alloc, set)?;
    Ok(row)
}

/// The keys of a set, in their order.
fn keys_of(alloc: Global, set: BTreeSet<Text>) -> Result<Row<Text>, NoMemory>
    ensures { IfOk result (λ row. row ≡ set.keys) }
{
    let mut rest = set;
    let mut row = Row::new(alloc);
    while let Some(name) = rest.pop_first() {
        row.push(name)?;
    }
    Ok(row)
}
