//! Which names a real disk lists, as a function of the entries that its two folders have. It touches nothing.
ghost use Rattle.std.specs.Prelude.{◌≡◌, ◌<◌, ◌^◌, length, All, AllPairs, IfOk};
ghost use Rattle.std.specs.Ordering.{nat_cmp};
ghost use Rattle.std.specs.declared.cmp.Ordering.TheVariants.{Less};
ghost use Rattle.std.specs.Cmp.Lexicographic.{slice_cmp};
ghost use Rattle.acq_outside.specs.Disk.{IsName};
ghost use Rattle.acq_real.specs.Folder.{IsInside};
ghost use Rattle.acq_real.specs.Listing.{Keeps, listed_name, plain_names};

use crate::path::{PARTIAL, is_listed};
use acq_base::{NoMemory, Row, Text, TryCopy};
use std::alloc::Global;

/// More names than a disk gives.
const MOST_NAMES: usize = 2_147_483_648;

/// What stands in one of a real disk's two folders.
#[derive(Drop)]
pub struct Entry {
    /// Whether it stands in `partial`.
    pub is_partial: bool,
    /// Its name in its folder.
    pub name: Text,
    /// Whether it is a plain file or a link: no folder, pipe, socket or device.
    pub is_plain: bool,
}

/// The names of the plain files and links among these entries, as the disk's calls take them: each once, sorted by bytes.
/// One with a control character is passed over. Where there are 2^31 or more it answers `NoMemory`.
pub fn list(alloc: Global, entries: &[Entry]) -> Result<Row<Text>, NoMemory>
    ensures listing { IfOk result (λ names. Keeps (plain_names entries.now) names) }
    ensures sorted { IfOk result (AllPairs (λ a b. slice_cmp nat_cmp a b ≡ Less)) }
    ensures named { IfOk result (λ names. All IsName names) }
    ensures inside { IfOk result (λ names. All IsInside names) }
    ensures few { IfOk result (λ names. length names < 2 ^ 31) }
{
    let plain = list_plain(alloc, entries)?;
    let mut names = keep_taken(alloc, plain.as_slice())?;
    names.sort_unstable();
    names.dedup();
    if names.len() >= MOST_NAMES {
        return Err(NoMemory);
    }
    Ok(Row::from(names))
}

/// The names of the plain files and links.
fn list_plain(alloc: Global, entries: &[Entry]) -> Result<Vec<Text>, NoMemory>
    ensures { IfOk result (λ names. names.items ≡ plain_names entries.now) }
{
    let mut names = Vec::new(alloc);
    for entry in entries {
        if entry.is_plain {
            names.push(name_of(alloc, entry)?)?;
        }
    }
    Ok(names)
}

/// An entry's name below the disk's folder.
fn name_of(alloc: Global, entry: &Entry) -> Result<Text, NoMemory>
    ensures { IfOk result (λ name. name ≡ listed_name entry.now) }
{
    if entry.is_partial {
        let mut name = Text::from_bytes(alloc, PARTIAL)?;
        name.append(entry.name.as_bytes())?;
        Ok(name)
    } else {
        entry.name.copy(alloc)
    }
}

/// Those of some names that are listed.
fn keep_taken(alloc: Global, names: &[Text]) -> Result<Vec<Text>, NoMemory>
    ensures { IfOk result (λ kept. Keeps names.now kept.items) }
{
    let mut kept = Vec::new(alloc);
    for name in names {
        if is_listed(name.as_bytes()) {
            kept.push(name.copy(alloc)?)?;
        }
    }
    Ok(kept)
}
