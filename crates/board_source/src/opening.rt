//! How the lists of a source begin.

ghost use Rattle.std.specs.Prelude.{◌≡◌, ◌++◌, ◌∷◌, [], IfOk, IsTrue, OnOk, option_map};
ghost use Rattle.acq_outside.specs.Disk.{IsName};
ghost use Rattle.acq_outside.specs.Stays.{ReadsCounting};
ghost use Rattle.item_graph.specs.OldFiles.{IsEnough, bytes_of};
ghost use Rattle.lists_dir.specs.Refinement.{old_in};
ghost use Rattle.update_model.specs.Next.{same_bytes};
ghost use Rattle.board_source.specs.Anew.{Anew, AreFirst, IsFirst, is_wanted, wanted_start};
ghost use Rattle.board_source.specs.Listed.{standing_of, standings};
ghost use Rattle.board_source.specs.Names.{HasDiskNames, NamesDiffer};
ghost use Rattle.board_source.specs.Refinement.{config_of, found_of};

use crate::found::AdmittedRelease;
use crate::lists::{Lists, count};
use crate::naming::by_name;
use crate::setup::Setup;
use acq_base::{Bytes, NoMemory, Source, Target};
use acq_outside::{Disk, OutError, read_whole};
use item_graph::{Item, OldFile, want};
use lists_dir::{Installed, Summed};
use release_file::{Release, find_file};
use std::alloc::Global;
use update_model::Wanted;

/// The lists of a source, and whether just this set is installed already.
#[derive(Drop)]
pub struct NewLists {
    pub lists: Lists,
    pub there: bool,
}

/// The lists that a Release names begin, each with the file that is installed under its name. The source is one of a sound
/// plan.
///
/// Of a file from which patches may lead on the bytes are needed, so it is read anew: what is read then counts. `Fault` only
/// where the disk's count of faults rose.
pub fn begin_lists<D: Disk>(
    alloc: Global,
    disk: &mut D,
    setup: &Setup,
    source: &Source,
    old: Installed,
    found: &AdmittedRelease,
) -> Result<NewLists, OutError>
    requires named { NamesDiffer source.now }
    requires fits { HasDiskNames source.now }
    ensures frame { ReadsCounting OutError.Fault D.Disk disk.old disk.new result }
    ensures begun { IfOk result (λ begun. Anew (D.tells disk.old) (D.files disk.old) source.now (old_in old)
        (AreFirst (config_of setup.now) source.now (found_of found.now) (standings begun.lists.items.items) begun.there)) }
{
    let Installed { release, lists } = old;
    let mut installed = by_name(alloc, lists)?;
    let mut there = is_same(&release, &found.bytes);
    let mut items = Vec::new(alloc);
    for target in source.targets.as_slice() {
        // No other target has this name.
        let file = installed.remove(&target.name.0);
        let list = begin_list(alloc, disk, setup, source, &found.release, target, file)?;
        there = there && list.there;
        add(&mut items, list.item)?;
    }
    let asking = count(&items);
    Ok(NewLists {
        lists: Lists { items, asking },
        there,
    })
}

/// Puts one more list behind the others.
fn add(items: &mut Vec<Option<Item>>, item: Option<Item>) -> Result<(), NoMemory>
    ensures { OnOk result (items.new.items ≡ items.old.items ++ item ∷ []) }
{
    items.push(item)?;
    Ok(())
}

/// Whether the installed Release has these bytes.
fn is_same(old: &Option<Bytes>, new: &Bytes) -> bool
    ensures { result ≡ same_bytes old.now new.now }
{
    match old {
        Some(bytes) => bytes == new,
        None => false,
    }
}

/// A list, and whether what is installed under its name is what the Release says.
#[derive(Drop)]
struct BegunList {
    item: Option<Item>,
    there: bool,
}

/// A list begins, where the Release names it, with the file that is installed under its name.
fn begin_list<D: Disk>(
    alloc: Global,
    disk: &mut D,
    setup: &Setup,
    source: &Source,
    release: &Release,
    target: &Target,
    file: Option<Summed>,
) -> Result<BegunList, OutError>
    requires { IsName target.now.name.0 }
    ensures frame { ReadsCounting OutError.Fault D.Disk disk.old disk.new result }
    ensures begun { IfOk result (λ list. IsFirst (D.tells disk.old) (D.files disk.old) (config_of setup.now) source.now release.now target.now file
        (option_map standing_of list.item) list.there) }
{
    let Some(sum) = find_file(release, target.path.as_bytes()) else {
        return Ok(BegunList {
            item: None,
            there: file.is_none(),
        });
    };
    let wanted = want(alloc, source, target, release, &setup.settings, sum)?;
    let file = old_file(alloc, disk, target, &wanted, file)?;
    let list = begin_wanted(alloc, setup, target, wanted, file)?;
    Ok(list)
}

/// A list's installed file, which is read anew where patches may lead on from it.
fn old_file<D: Disk>(
    alloc: Global,
    disk: &mut D,
    target: &Target,
    wanted: &Wanted,
    file: Option<Summed>,
) -> Result<Option<OldFile>, OutError>
    requires { IsName target.now.name.0 }
    ensures frame { ReadsCounting OutError.Fault D.Disk disk.old disk.new result }
    ensures enough { IfOk result (λ old. IsEnough old wanted.now) }
    ensures told { IsTrue (D.tells disk.old) → file ≡ D.files disk.old target.now.name.0 → IfOk result (λ old. option_map bytes_of old ≡ file) }
{
    let Some(file) = file else {
        return Ok(None);
    };
    if wanted.index.is_none() || file.sum() == wanted.sum {
        return Ok(Some(OldFile::Summed(file)));
    }
    match read_whole(alloc, disk, target.name.0.as_bytes())? {
        Some(bytes) => Ok(Some(OldFile::Read(bytes))),
        None => Ok(None),
    }
}

/// A wanted list begins beside its installed file.
fn begin_wanted(
    alloc: Global,
    setup: &Setup,
    target: &Target,
    wanted: Wanted,
    file: Option<OldFile>,
) -> Result<BegunList, NoMemory>
    requires { IsEnough file wanted }
    ensures item { IfOk result (λ list. option_map standing_of list.item ≡ wanted_start (config_of setup.now) target.now wanted (option_map bytes_of file)) }
    ensures there { IfOk result (λ list. list.there ≡ is_wanted wanted (option_map bytes_of file)) }
{
    let part = setup.size(&target.name);
    let item = Item::for_list(alloc, wanted, file, part, &setup.settings)?;
    let there = item.ask().is_none();
    Ok(BegunList {
        item: Some(item),
        there,
    })
}
