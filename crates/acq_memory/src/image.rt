//! What a crash leaves of a disk in memory, as the files of a fresh one.
ghost use Rattle.std.specs.Prelude.{◌≡◌, [], get_or, IfOk};
ghost use Rattle.std.specs.Ordering.{nat_cmp};
ghost use Rattle.std.specs.Cmp.Lexicographic.{slice_cmp};
ghost use Rattle.std.specs.BTreeMap.{IsOrdered};
ghost use Rattle.acq_outside.specs.Choice.{image_of};
ghost use Rattle.acq_outside.specs.Crash.{all_renamed};
ghost use Rattle.acq_outside.specs.History.{IsStart, start_files};
ghost use Rattle.acq_memory.specs.Replay.{HasOnlyNames, names_in, nowhere, rows_in, state_of};

use crate::choice::{draw_files, draw_part};
use crate::name_map::rename_one;
use crate::replay::Replay;
use acq_base::{Bytes, NoMemory, Row, Text, TryCopy};
use acq_outside::NameChange;
use std::alloc::Global;
use std::collections::BTreeMap;

/// The files that a crash leaves, by a choice of bytes.
pub fn left(alloc: Global, replay: &Replay, choice: &[u8]) -> Result<Row<(Text, Bytes)>, NoMemory>
    requires { HasOnlyNames (state_of replay.now) }
    ensures start { IfOk result IsStart }
    ensures files { IfOk result (λ rows. start_files rows ≡ image_of (state_of replay.now) choice.now) }
{
    let mut names = base_names(alloc, replay.settled.as_slice())?;
    let rest = draw_part(alloc, choice, replay.pending.as_slice(), choice, &mut names)?;
    let contents = draw_files(alloc, choice, replay.files.as_slice(), rest)?;
    rows_of(alloc, &names, contents.as_slice())
}

/// Where names lead after these changes.
fn base_names(alloc: Global, settled: &[NameChange]) -> Result<BTreeMap<Text, usize>, NoMemory>
    ensures { IfOk result (λ names. names_in names ≡ all_renamed nowhere settled.now) }
{
    let mut names = BTreeMap::new(alloc);
    for change in settled {
        rename_one(alloc, &mut names, change)?;
    }
    Ok(names)
}

/// The names with the contents that they lead to.
fn rows_of(
    alloc: Global,
    names: &BTreeMap<Text, usize>,
    contents: &[Bytes],
) -> Result<Row<(Text, Bytes)>, NoMemory>
    ensures rows { IfOk result (λ rows. rows ≡ rows_in names.now contents.now) }
    ensures ordered { IfOk result (λ _. IsOrdered (slice_cmp nat_cmp) names.now) }
{
    let mut rows = Row::new(alloc);
    for (name, file) in names {
        rows.push((name.copy(alloc)?, content_of(alloc, contents, *file)?))?;
    }
    Ok(rows)
}

/// A file's content, which is empty where there is none.
fn content_of(alloc: Global, contents: &[Bytes], file: usize) -> Result<Bytes, NoMemory>
    ensures { IfOk result (λ content. content ≡ get_or contents.now file []) }
{
    match contents.get(file) {
        Some(content) => content.copy(alloc),
        None => Ok(Bytes::new(alloc)),
    }
}
