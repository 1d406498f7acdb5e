//! A choice of bytes, read as what a crash leaves of a disk. It touches nothing else.
ghost use Rattle.std.specs.Prelude.{◌≡◌, IfOk, OnOk, nat_eq, if◌then◌else◌};
ghost use Rattle.acq_outside.specs.Choice.{next_byte, next_rest, cell_byte, drawn_part, drawn_bytes, drawn_files};
ghost use Rattle.acq_outside.specs.Crash.{all_renamed, renamed};
ghost use Rattle.acq_memory.specs.Replay.{names_in};

use crate::name_map::rename_one;
use acq_base::{Bytes, NoMemory, Row, Text, TryCopy};
use acq_outside::{FileState, NameChange};
use std::alloc::Global;
use std::collections::BTreeMap;

/// The next byte of a choice, which begins again where it ends, and what is then left of it.
fn next<'a>(whole: &'a [u8], rest: &'a [u8]) -> (u8, &'a [u8])
    ensures byte { result.0 ≡ next_byte whole.now rest.now }
    ensures rest { result.1.now ≡ next_rest whole.now rest.now }
{
    match rest.split_first() {
        Some((byte, rest)) => (*byte, rest),
        None => match whole.split_first() {
            Some((byte, rest)) => (*byte, rest),
            None => (0, rest),
        },
    }
}

fn byte_of(cell: Option<u8>, byte: u8) -> u8
    ensures { result ≡ cell_byte cell byte }
{
    match cell {
        Some(kept) => kept,
        None => byte,
    }
}

/// What a crash leaves of a file, by a choice.
pub fn draw_bytes<'a>(
    alloc: Global,
    whole: &'a [u8],
    least: u64,
    cells: &[Option<u8>],
    rest: &'a [u8],
) -> Result<(Bytes, &'a [u8]), NoMemory>
    ensures value { IfOk result (λ drawn. drawn.0 ≡ (drawn_bytes whole.now least cells.now rest.now).value) }
    ensures rest { IfOk result (λ drawn. drawn.1.now ≡ (drawn_bytes whole.now least cells.now rest.now).rest) }
{
    let mut bytes = Row::new(alloc);
    let mut rest = rest;
    let mut least = least;
    for cell in cells {
        let (ends, after) = next(whole, rest);
        if ends == 0 && least == 0 {
            return Ok((bytes, after));
        }
        let (byte, later) = next(whole, after);
        bytes.push(byte_of(*cell, byte))?;
        least = least.saturating_sub(1);
        rest = later;
    }
    Ok((bytes, rest))
}

/// What a crash leaves of each file.
pub fn draw_files<'a>(
    alloc: Global,
    whole: &'a [u8],
    files: &[FileState],
    rest: &'a [u8],
) -> Result<Row<Bytes>, NoMemory>
    ensures { IfOk result (λ drawn. drawn ≡ (drawn_files whole.now files.now rest.now).value) }
{
    let mut all = Row::new(alloc);
    let mut rest = rest;
    for file in files {
        let (bytes, later) = draw_bytes(alloc, whole, file.least, file.cells.as_slice(), rest)?;
        all.push(bytes)?;
        rest = later;
    }
    Ok(all)
}

/// Does a change of names unless the choice's byte is 0.
fn take_or_leave(
    alloc: Global,
    names: &mut BTreeMap<Text, usize>,
    change: &NameChange,
    taken: u8,
) -> Result<(), NoMemory>
    ensures { OnOk result (names_in names.new ≡ if nat_eq taken 0 then names_in names.old else renamed (names_in names.old) change.now) }
{
    if taken == 0 {
        return Ok(());
    }
    rename_one(alloc, names, change)?;
    Ok(())
}

/// Which of the pending changes of names happened. They are carried out on the names.
pub fn draw_part<'a>(
    alloc: Global,
    whole: &'a [u8],
    pending: &[NameChange],
    rest: &'a [u8],
    names: &mut BTreeMap<Text, usize>,
) -> Result<&'a [u8], NoMemory>
    ensures rest { IfOk result (λ left. left.now ≡ (drawn_part whole.now pending.now rest.now).rest) }
    ensures names { OnOk result (names_in names.new ≡ all_renamed (names_in names.old) (drawn_part whole.now pending.now rest.now).value) }
{
    let mut rest = rest;
    for change in pending {
        let (taken, later) = next(whole, rest);
        take_or_leave(alloc, names, change, taken)?;
        rest = later;
    }
    Ok(rest)
}
