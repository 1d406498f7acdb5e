//! The lists of a source on two days, and the edit script from one to the other. They take memory, and touch nothing else.
ghost use Rattle.std.specs.Prelude.{◌≡◌, ◌++◌, ◌<◌, ◌^◌, IfOk, OnOk, length, string_bytes};
ghost use Rattle.mirror_maker.specs.Lists.{command_at, lists_of, list_from, paragraph, script_from, version_on};
ghost use Rattle.mirror_maker.specs.Lists as spec;

use crate::packages::Package;
use acq_base::{NoMemory, Text};
use std::alloc::Global;

/// The day of a list.
#[derive(Clone, Copy, Debug, PartialEq, Eq)]
pub enum Day {
    First,
    Second,
}

/// A source's lists.
#[derive(Debug, Drop)]
pub struct Lists {
    pub first: Text,
    pub second: Text,
    /// The edit script that makes the second of the first (POSIX ed, as `diff --ed` writes it).
    pub script: Text,
}

/// The lists of these packages.
pub fn write_lists(alloc: Global, packages: &[Package]) -> Result<Lists, NoMemory>
    requires { length packages.now < 10000 }
    ensures { IfOk result (λ lists. lists ≡ lists_of packages.now) }
{
    Ok(Lists {
        first: list(alloc, packages, Day::First)?,
        second: list(alloc, packages, Day::Second)?,
        script: script(alloc, packages)?,
    })
}

/// A day's list: a paragraph for each package (Debian Policy, section 5.1).
fn list(alloc: Global, packages: &[Package], day: Day) -> Result<Text, NoMemory>
    requires { length packages.now < 10000 }
    ensures { IfOk result (λ text. text ≡ list_from day 0 packages.now) }
{
    let mut text = Text::new(alloc);
    let mut left = packages;
    let mut place: u64 = 0;
    while let [one, rest @ ..] = left {
        append_paragraph(alloc, &mut text, place, one, day)?;
        left = rest;
        place += 1;
    }
    Ok(text)
}

fn append_paragraph(
    alloc: Global,
    text: &mut Text,
    place: u64,
    one: &Package,
    day: Day,
) -> Result<(), NoMemory>
    ensures { OnOk result (text.new ≡ text.old ++ paragraph place (version_on day place one.now.version) one.now.size) }
{
    let version = match day {
        Day::Second if place % 10 == 0 => later(one.version),
        _ => u64::from(one.version),
    };
    let size = one.size;
    let lines = format!(in alloc; "Package: p{place}\nVersion: {version}\nSize: {size}\n\n")?;
    text.append(lines.as_bytes())?;
    Ok(())
}

/// The commands that give every tenth package its later version, from the last to the first, so that none moves the lines
/// of another.
fn script(alloc: Global, packages: &[Package]) -> Result<Text, NoMemory>
    requires { length packages.now < 10000 }
    ensures { IfOk result (λ text. text ≡ script_from 0 packages.now) }
{
    let mut text = Text::new(alloc);
    let mut place = packages.len();
    while place > 0 {
        place -= 1;
        append_command(alloc, &mut text, place as u64, packages[place])?;
    }
    Ok(text)
}

/// Appends the command of a package whose place ten divides.
fn append_command(alloc: Global, text: &mut Text, place: u64, one: Package) -> Result<(), NoMemory>
    requires { place < 10000 }
    ensures { OnOk result (text.new ≡ text.old ++ command_at place one.version) }
{
    if place % 10 != 0 {
        return Ok(());
    }
    let line = line_of(place);
    let number = format!(in alloc; "{line}")?;
    let lines = change(alloc, later(one.version))?;
    text.append(number.as_bytes())?;
    text.append(lines.as_bytes())?;
    Ok(())
}

/// A command behind its line's number, which puts this version in its place (POSIX ed).
#[tactic(auto, unfolding(crate::specs::Lists::change))]
fn change(alloc: Global, version: u64) -> Result<String, NoMemory>
    ensures { IfOk result (λ lines. string_bytes lines ≡ spec.change version) }
{
    Ok(format!(in alloc; "c\nVersion: {version}\n.\n")?)
}

/// The second of a package's four lines, counted from 1.
#[tactic(auto, unfolding(crate::specs::Lists::line_of))]
fn line_of(place: u64) -> u64
    requires { place < 10000 }
    ensures { result ≡ spec.line_of place }
{
    4 * place + 2
}

/// The version a day later.
#[tactic(auto, unfolding(crate::specs::Lists::later))]
fn later(version: u32) -> u64
    ensures { result ≡ spec.later version }
{
    u64::from(version) + 1000
}
