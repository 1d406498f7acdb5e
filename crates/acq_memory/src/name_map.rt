//! Which file each name leads to, as a sorted map, and what each change of names does to it.
ghost use Rattle.std.specs.Prelude.{◌≡◌, None, Some, OnOk};
ghost use Rattle.acq_outside.specs.Crash.{with_name, renamed};
ghost use Rattle.acq_memory.specs.Replay.{names_in};

use acq_base::{NoMemory, Text, TryCopy};
use acq_outside::NameChange;
use std::alloc::Global;
use std::collections::BTreeMap;

#[tactic(auto, using(crate::proofs::NameMap::updated))]
fn put(names: &mut BTreeMap<Text, usize>, name: Text, file: usize) -> Result<(), NoMemory>
    ensures { OnOk result (names_in names.new ≡ with_name (names_in names.old) name (Some file)) }
{
    names.insert(name, file)?;
    Ok(())
}

#[tactic(auto, using(crate::proofs::NameMap::updated))]
fn forget(names: &mut BTreeMap<Text, usize>, name: &Text)
    ensures { names_in names.new ≡ with_name (names_in names.old) name.now None }
{
    names.remove(name);
}

/// Does a change to the names.
pub fn rename_one(
    alloc: Global,
    names: &mut BTreeMap<Text, usize>,
    change: &NameChange,
) -> Result<(), NoMemory>
    ensures { OnOk result (names_in names.new ≡ renamed (names_in names.old) change.now) }
{
    match change {
        NameChange::Made(name, file) => put(names, name.copy(alloc)?, *file),
        NameChange::Removed(name) => {
            forget(names, name);
            Ok(())
        }
        NameChange::Moved(from, to) => move_one(alloc, names, from, to),
    }
}

#[tactic(auto, using(crate::proofs::NameMap::not_moved, crate::proofs::NameMap::moved))]
fn move_one(
    alloc: Global,
    names: &mut BTreeMap<Text, usize>,
    from: &Text,
    to: &Text,
) -> Result<(), NoMemory>
    ensures { OnOk result (names_in names.new ≡ renamed (names_in names.old) (NameChange.Moved from.now to.now)) }
{
    let file = match names.get(from) {
        Some(file) => *file,
        None => return Ok(()),
    };
    let to = to.copy(alloc)?;
    forget(names, from);
    put(names, to, file)
}
