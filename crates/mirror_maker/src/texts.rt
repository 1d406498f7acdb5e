//! A source's Release and its patch index. They take memory, and touch nothing else.
ghost use Rattle.std.specs.Prelude.{◌≡◌, ◌++◌, OnOk, IfOk, string_bytes};
ghost use Rattle.mirror_maker.specs.Texts.{current_line, date_of, history_lines, index_text, listed, listed_index, patched_release, patches_lines, release_text};
ghost use Rattle.mirror_maker.specs.Texts as spec;

use crate::lists::{Day, Lists};
use acq_base::{NoMemory, Text, sum_of};
use std::alloc::Global;

/// The Release of a source on a day, which names this list alone.
pub fn release(alloc: Global, source: u8, day: Day, list: &[u8]) -> Result<Text, NoMemory>
    ensures { IfOk result (λ text. text ≡ release_text source day list.now) }
{
    let mut text = Text::from_bytes(alloc, date(day))?;
    if source == 0 {
        text.append(b"Acquire-By-Hash: yes\n".as_slice())?;
    }
    text.append(b"SHA256:\n".as_slice())?;
    append_listed(alloc, &mut text, list)?;
    Ok(text)
}

/// The Release of a source on its second day, which names this list and its patch index.
pub fn release_with_index(
    alloc: Global,
    source: u8,
    list: &[u8],
    index: &[u8],
) -> Result<Text, NoMemory>
    ensures { IfOk result (λ text. text ≡ patched_release source list.now index.now) }
{
    let mut text = release(alloc, source, Day::Second, list)?;
    append_index(alloc, &mut text, index)?;
    Ok(text)
}

fn date(day: Day) -> &'static [u8]
    ensures { result.now ≡ date_of day }
{
    match day {
        Day::First => b"Date: Sat, 10 Jun 2023 08:53:33 UTC\n",
        Day::Second => b"Date: Sun, 11 Jun 2023 08:53:33 UTC\n",
    }
}

/// Appends the sum line of a list.
#[tactic(auto, unfolding(crate::specs::Texts::listed))]
fn append_listed(alloc: Global, text: &mut Text, list: &[u8]) -> Result<(), NoMemory>
    ensures { OnOk result (text.new ≡ text.old ++ listed list.now) }
{
    let sum = sum_text(alloc, list)?;
    let line = format!(in alloc; " {sum} main/binary-amd64/Packages\n")?;
    text.append(line.as_bytes())?;
    Ok(())
}

/// Appends the sum line of a patch index.
#[tactic(auto, unfolding(crate::specs::Texts::listed_index))]
fn append_index(alloc: Global, text: &mut Text, index: &[u8]) -> Result<(), NoMemory>
    ensures { OnOk result (text.new ≡ text.old ++ listed_index index.now) }
{
    let sum = sum_text(alloc, index)?;
    let line = format!(in alloc; " {sum} main/binary-amd64/Packages.diff/Index\n")?;
    text.append(line.as_bytes())?;
    Ok(())
}

/// A file's digest and size.
#[tactic(auto, unfolding(crate::specs::Texts::sum_text))]
fn sum_text(alloc: Global, file: &[u8]) -> Result<String, NoMemory>
    ensures { IfOk result (λ text. string_bytes text ≡ spec.sum_text file.now) }
{
    let sum = sum_of(file);
    let digest = hex::encode(alloc, sum.sha.0)?;
    let size = sum.size;
    Ok(format!(in alloc; "{digest} {size}")?)
}

/// The patch index of a source on its second day (Debian repository format, "indices diff files").
pub fn index(alloc: Global, lists: &Lists) -> Result<Text, NoMemory>
    ensures { IfOk result (λ text. text ≡ index_text lists.now) }
{
    let mut text = Text::new(alloc);
    append_current(alloc, &mut text, lists.second.as_bytes())?;
    append_history(alloc, &mut text, lists.first.as_bytes())?;
    append_patches(alloc, &mut text, lists.script.as_bytes())?;
    Ok(text)
}

#[tactic(auto, unfolding(crate::specs::Texts::current_line))]
fn append_current(alloc: Global, text: &mut Text, list: &[u8]) -> Result<(), NoMemory>
    ensures { OnOk result (text.new ≡ text.old ++ current_line list.now) }
{
    let sum = sum_text(alloc, list)?;
    let line = format!(in alloc; "SHA256-Current: {sum}\n")?;
    text.append(line.as_bytes())?;
    Ok(())
}

#[tactic(auto, unfolding(crate::specs::Texts::history_lines))]
fn append_history(alloc: Global, text: &mut Text, former: &[u8]) -> Result<(), NoMemory>
    ensures { OnOk result (text.new ≡ text.old ++ history_lines former.now) }
{
    let sum = sum_text(alloc, former)?;
    let lines = format!(in alloc; "SHA256-History:\n {sum} p1\n")?;
    text.append(lines.as_bytes())?;
    Ok(())
}

#[tactic(auto, unfolding(crate::specs::Texts::patches_lines))]
fn append_patches(alloc: Global, text: &mut Text, patch: &[u8]) -> Result<(), NoMemory>
    ensures { OnOk result (text.new ≡ text.old ++ patches_lines patch.now) }
{
    let sum = sum_text(alloc, patch)?;
    let lines = format!(in alloc; "SHA256-Patches:\n {sum} p1\n")?;
    text.append(lines.as_bytes())?;
    Ok(())
}
