//! Which of the lists are there, so that only these take places among those that are summed side by side.

ghost use Rattle.std.specs.Prelude.{◌≡◌, ◌++◌, ◌∷◌, [], All, Bool, List, Option, ℕ, IfOk, OnOk, IsTrue, cond, map};
ghost use Rattle.std.specs.List.{filter};
ghost use Rattle.std.specs.Option.{is_some};
ghost use Rattle.acq_outside.specs.Disk.{Files, IsName};
ghost use Rattle.acq_outside.specs.Stays.{ReadsCounting};
ghost use Rattle.lists_dir.specs.Summing.{IsFound, has_file};

use crate::summed::Summed;
use acq_base::{ListName, NoMemory, Row, TryCopy};
use acq_outside::{Disk, OutError};
use std::alloc::Global;
use std::collections::VecDeque;

/// Which of some names have a file.
#[derive(Drop)]
pub(crate) struct Found {
    /// The names that have one, in order.
    pub(crate) present: Row<ListName>,
    /// Of each name, whether it has one.
    pub(crate) flags: Row<bool>,
}

/// Asks the disk which of these names have a file.
pub(crate) fn find_present<D: Disk>(
    alloc: Global,
    disk: &mut D,
    names: &[ListName],
) -> Result<Found, OutError>
    requires { All (λ name. IsName name.0) names.now }
    ensures frame { ReadsCounting OutError.Fault D.Disk disk.old disk.new result }
    ensures named { IfOk result (λ found. All (λ name. IsName name.0) found.present) }
    ensures told { IsTrue (D.tells disk.old) → IfOk result (IsFound (D.files disk.old) names.now) }
{
    let mut present = Row::new(alloc);
    let mut flags = Row::new(alloc);
    for name in names {
        let there = disk.size(name.0.as_bytes())?.is_some();
        add_if(alloc, there, name, &mut present)?;
        flags.push(there)?;
    }
    Ok(Found { present, flags })
}

/// Adds a name whose file is there.
fn add_if(
    alloc: Global,
    there: bool,
    name: &ListName,
    present: &mut Row<ListName>,
) -> Result<(), NoMemory>
    ensures { OnOk result (present.new ≡ present.old ++ filter (λ _. there) (name.now ∷ [])) }
{
    if there {
        present.push(name.copy(alloc)?)?;
    }
    Ok(())
}

/// The sums of the lists that are there, each in its name's place, and `None` for the others.
pub(crate) fn spread(
    alloc: Global,
    flags: &[bool],
    mut sums: VecDeque<Option<Summed>>,
) -> Result<VecDeque<Option<Summed>>, NoMemory>
    ensures { (files : Files) (names : List ListName) → flags.now ≡ map (has_file files) names → sums.items ≡ map (λ name. files name.0) (filter (has_file files) names)
        → IfOk result (λ all. all.items ≡ map (λ name. files name.0) names) }
{
    let mut all = VecDeque::new(alloc);
    for there in flags {
        all.push_back(next_sum(*there, &mut sums))?;
    }
    Ok(all)
}

/// The next sum, which is taken out, where a list is there.
fn next_sum(there: bool, sums: &mut VecDeque<Option<Summed>>) -> Option<Summed>
    ensures { (file : Option (List ℕ)) (rest : List (Option (List ℕ))) → there ≡ is_some file → sums.old.items ≡ cond (is_some file) (file ∷ rest) rest
        → (result ≡ file) × (sums.new.items ≡ rest) }
{
    if there {
        return sums.pop_front().unwrap_or(None);
    }
    None
}
