//! The whole report. It takes memory.

ghost use Rattle.std.specs.Prelude.{◌≡◌, ◌++◌, length, map, IfOk, OnOk};
ghost use Rattle.std.specs.Cmp.Lexicographic.{slice_cmp};
ghost use Rattle.std.specs.List.{flat_map};
ghost use Rattle.std.specs.List.Sorted.{IsPermutation, IsSorted};
ghost use Rattle.std.specs.Ordering.{nat_cmp};
ghost use Rattle.report_text.specs.Report.{IsReport, all_lines, removed_line};
ghost use Rattle.report_text.specs.Sources.{source_lines};

use crate::source::source_text;
use crate::total::total_text;
use acq_base::{Bytes, ListName, NoMemory, Plan, Source, Text, TryCopy};
use std::alloc::Global;
use update_model::{RunLog, Verdict2};

/// The report of a run over a plan.
///
/// Each source has its line in plan order: `Get` or `Hit` with a line for the Release and for each list of its set, `Older`
/// with the date of the Release that came, or `Keep` with a cause. Behind them stand the lists that were removed, in the byte
/// order of their names, and last how many sources there are of each kind. Dates are in seconds since 1970-01-01 00:00:00 UTC.
pub fn report(alloc: Global, plan: &Plan, log: &RunLog) -> Result<Bytes, NoMemory>
    requires { length log.now.verdicts ≡ length plan.now.sources }
    ensures { IfOk result (IsReport plan.now log.now) }
{
    let mut text = Text::new(alloc);
    append_sources(
        alloc,
        &mut text,
        plan.sources.as_slice(),
        log.verdicts.as_slice(),
    )?;
    let names = sorted(alloc, log.removed.as_slice())?;
    append_removed(&mut text, names.as_slice())?;
    text.append(total_text(alloc, log.verdicts.as_slice())?.as_bytes())?;
    Ok(text.into_bytes())
}

/// Appends the lines of each source.
fn append_sources(
    alloc: Global,
    text: &mut Text,
    sources: &[Source],
    verdicts: &[Verdict2],
) -> Result<(), NoMemory>
    requires { length verdicts.now ≡ length sources.now }
    ensures { OnOk result (text.new ≡ text.old ++ all_lines sources.now verdicts.now) }
{
    let mut left = sources;
    let mut told = verdicts;
    while let Some((source, others)) = left.split_first() {
        let Some((verdict, more)) = told.split_first() else {
            break;
        };
        append_source(alloc, text, source, verdict)?;
        left = others;
        told = more;
    }
    Ok(())
}

fn append_source(
    alloc: Global,
    text: &mut Text,
    source: &Source,
    verdict: &Verdict2,
) -> Result<(), NoMemory>
    ensures { OnOk result (text.new ≡ text.old ++ source_lines source.now verdict.now) }
{
    text.append(source_text(alloc, source, verdict)?.as_bytes())
}

/// Appends a line for each list that was removed.
fn append_removed(text: &mut Text, names: &[Text]) -> Result<(), NoMemory>
    ensures { OnOk result (text.new ≡ text.old ++ flat_map removed_line names.now) }
{
    let mut rest = names;
    while let Some((name, others)) = rest.split_first() {
        append_name(text, name)?;
        rest = others;
    }
    Ok(())
}

fn append_name(text: &mut Text, name: &Text) -> Result<(), NoMemory>
    ensures { OnOk result (text.new ≡ text.old ++ removed_line name.now) }
{
    text.append(b"Removed ")?;
    text.append(name.as_bytes())?;
    text.push(b'\n')
}

/// The names in byte order.
fn sorted(alloc: Global, names: &[ListName]) -> Result<Vec<Text>, NoMemory>
    ensures same { IfOk result (λ sorted. IsPermutation (map (λ name. name.0) names.now) sorted.items) }
    ensures order { IfOk result (λ sorted. IsSorted (slice_cmp nat_cmp) sorted.items) }
{
    let mut sorted = copies(alloc, names)?;
    sorted.sort_unstable();
    Ok(sorted)
}

fn copies(alloc: Global, names: &[ListName]) -> Result<Vec<Text>, NoMemory>
    ensures { IfOk result (λ copies. copies.items ≡ map (λ name. name.0) names.now) }
{
    let mut copies = Vec::new(alloc);
    let mut rest = names;
    while let Some((name, others)) = rest.split_first() {
        copies.push(name.0.copy(alloc)?)?;
        rest = others;
    }
    Ok(copies)
}
