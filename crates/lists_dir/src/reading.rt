//! What is installed of sources. It may take memory, and changes nothing.

ghost use Rattle.std.specs.Prelude.{◌≡◌, ◌++◌, ◌∷◌, All, Option, List, ℕ, IfOk, OnOk, IsTrue, length, map};
ghost use Rattle.std.specs.List.{flat_map};
ghost use Rattle.acq_base.specs.Plan.{IsPlanned};
ghost use Rattle.acq_outside.specs.Disk.{Files};
ghost use Rattle.acq_outside.specs.Stays.{ReadsCounting};
ghost use Rattle.lists_dir.specs.Installed.{installed_of, lists_of, listed, target_names};
ghost use Rattle.lists_dir.specs.Refinement.{old_in};

use crate::batch::sum_all;
use crate::summed::{Installed, Summed};
use acq_base::{ListName, NoMemory, Row, Source, Target, TryCopy};
use acq_outside::{Disk, OutError, read_whole};
use std::alloc::Global;
use std::collections::VecDeque;
use std::thread::Threads;

/// What is installed of each of these sources: its Release, and of the files under its planned targets' names the sums,
/// in the order of the targets. A target without a file has none there.
///
/// The sources are those of a sound plan. The lists of all sources are summed side by side, at most as many at once as
/// `threads`, and at most 12 MiB of all lists is held; with 0 or 1 no thread is started. `Fault` only where the disk's
/// count of faults rose, and `NoMemory` where memory ran out.
pub fn installed<R: Threads + Sync, D: Disk>(
    rt: &R,
    alloc: Global,
    disk: &mut D,
    sources: &[Source],
    threads: usize,
) -> Result<Row<Installed>, OutError>
    requires { All IsPlanned sources.now }
    ensures frame { ReadsCounting OutError.Fault D.Disk disk.old disk.new result }
    ensures each { IfOk result (λ olds. length olds ≡ length sources.now) }
    ensures told { IsTrue (D.tells disk.old) → IfOk result (λ olds. map old_in olds ≡ map (installed_of (D.files disk.old)) sources.now) }
{
    let names = all_names(alloc, sources)?;
    let sums = sum_all(rt, alloc, disk, names.as_slice(), threads.max(1))?;
    deal_out(alloc, disk, sources, sums)
}

/// The names of all targets, in plan order.
fn all_names(alloc: Global, sources: &[Source]) -> Result<Row<ListName>, NoMemory>
    ensures { IfOk result (λ names. names ≡ flat_map target_names sources.now) }
{
    let mut names = Row::new(alloc);
    for source in sources {
        add_names(alloc, source.targets.as_slice(), &mut names)?;
    }
    Ok(names)
}

/// Adds the targets' names.
fn add_names(alloc: Global, targets: &[Target], names: &mut Row<ListName>) -> Result<(), NoMemory>
    ensures { OnOk result (names.new ≡ names.old ++ map (λ target. target.name) targets.now) }
{
    for target in targets {
        names.push(target.name.copy(alloc)?)?;
    }
    Ok(())
}

/// What is installed of each source, where its lists' sums stand in their order.
fn deal_out<D: Disk>(
    alloc: Global,
    disk: &mut D,
    sources: &[Source],
    mut sums: VecDeque<Option<Summed>>,
) -> Result<Row<Installed>, OutError>
    requires { All IsPlanned sources.now }
    ensures frame { ReadsCounting OutError.Fault D.Disk disk.old disk.new result }
    ensures each { IfOk result (λ olds. length olds ≡ length sources.now) }
    ensures told { IsTrue (D.tells disk.old) → sums.items ≡ map (λ name. D.files disk.old name.0) (flat_map target_names sources.now)
        → IfOk result (λ olds. map old_in olds ≡ map (installed_of (D.files disk.old)) sources.now) }
{
    let mut olds = Row::new(alloc);
    for source in sources {
        let old = deal(alloc, disk, source, &mut sums)?;
        olds.push(old)?;
    }
    Ok(olds)
}

/// What is installed of a source, whose lists' sums are the first ones of `sums` and are taken out.
fn deal<D: Disk>(
    alloc: Global,
    disk: &mut D,
    source: &Source,
    sums: &mut VecDeque<Option<Summed>>,
) -> Result<Installed, OutError>
    requires { IsPlanned source.now }
    ensures frame { ReadsCounting OutError.Fault D.Disk disk.old disk.new result }
    ensures told { IsTrue (D.tells disk.old) → (rest : List (Option (List ℕ))) → sums.old.items ≡ map (λ name. D.files disk.old name.0) (target_names source.now) ++ rest
        → IfOk result (λ old. (old_in old ≡ installed_of (D.files disk.old) source.now) × (sums.new.items ≡ rest)) }
{
    let release = read_whole(alloc, disk, source.release_name.0.as_bytes())?;
    let lists = take_lists(alloc, source.targets.as_slice(), sums)?;
    Ok(Installed { release, lists })
}

/// The lists of these targets, whose sums are the first ones of `sums` and are taken out.
fn take_lists(
    alloc: Global,
    targets: &[Target],
    sums: &mut VecDeque<Option<Summed>>,
) -> Result<Row<(ListName, Summed)>, NoMemory>
    ensures { (files : Files) (rest : List (Option (List ℕ))) → sums.old.items ≡ map (λ target. files target.name.0) targets.now ++ rest
        → IfOk result (λ lists. (lists ≡ lists_of files targets.now) × (sums.new.items ≡ rest)) }
{
    let mut lists = Row::new(alloc);
    for target in targets {
        take_list(alloc, target, sums, &mut lists)?;
    }
    Ok(lists)
}

/// Adds the list of a target, if the next sum is there, which is taken out.
fn take_list(
    alloc: Global,
    target: &Target,
    sums: &mut VecDeque<Option<Summed>>,
    lists: &mut Row<(ListName, Summed)>,
) -> Result<(), NoMemory>
    ensures { (file : Option (List ℕ)) (rest : List (Option (List ℕ))) → sums.old.items ≡ file ∷ rest
        → OnOk result ((lists.new ≡ lists.old ++ listed target.now file) × (sums.new.items ≡ rest)) }
{
    if let Some(Some(summed)) = sums.pop_front() {
        lists.push((target.name.copy(alloc)?, summed))?;
    }
    Ok(())
}
