//! Reading the lines of a history and of a list of patches. What takes memory is handed an allocator.

ghost use Rattle.std.specs.Prelude.{◌≡◌, ◌&&◌, ℕ, List, [], not, is_some, IsTrue, IfOk, OnOk};
ghost use Rattle.std.specs.BTreeMap.{get};
ghost use Rattle.std.specs.Cmp.Lexicographic.{slice_cmp};
ghost use Rattle.std.specs.List.{list_all};
ghost use Rattle.std.specs.Ordering.{nat_cmp};
ghost use Rattle.std.specs.Result.{result_ok};
ghost use Rattle.acq_base.specs.Sum.{sum_of_texts};
ghost use Rattle.pdiff_index.specs.Index.{are_dots, is_name, is_name_character, step_as, step_of_line, steps_below, steps_of};
ghost use Rattle.pdiff_index.specs.Sums.{sum_beside};

use crate::Step;
use crate::sums::add_sum;
use acq_base::{NoMemory, Row, Sum, Text, TryCopy, read_sum, words};
use std::alloc::Global;
use std::collections::BTreeMap;

/// The steps that the lines of a field list, the first of which is to be empty, or the line that isn't allowed. The
/// field stands at the line `at`. With `once`, no name may stand twice.
#[tactic(auto, unfolding(crate::specs::Index::steps_of))]
pub fn read_steps(
    alloc: Global,
    lines: &[Text],
    at: u64,
    once: bool,
) -> Result<Result<Row<Step>, u64>, NoMemory>
    ensures { IfOk result (λ steps. steps ≡ steps_of once lines.now at) }
{
    match lines {
        [first, rest @ ..] if first.is_empty() => {
            step_lines(alloc, rest, at.saturating_add(1), once)
        }
        _ => Ok(Err(at)),
    }
}

/// The steps of lines that are numbered from `at`.
fn step_lines(
    alloc: Global,
    lines: &[Text],
    at: u64,
    once: bool,
) -> Result<Result<Row<Step>, u64>, NoMemory>
    ensures { IfOk result (λ steps. steps ≡ steps_below once [] at lines.now) }
{
    let mut steps = Row::new(alloc);
    let mut sums = BTreeMap::new(alloc);
    let mut at = at;
    for line in lines {
        let Some(step) = read_step(alloc, line.as_bytes())? else {
            return Ok(Err(at));
        };
        if !may_stand(alloc, &mut sums, &step, once)? {
            return Ok(Err(at));
        }
        steps.push(step)?;
        at = at.saturating_add(1);
    }
    Ok(Ok(steps))
}

/// Whether a step may stand behind those whose sums these are, where with `once` no name may stand twice. Its sum is put
/// beside them then.
fn may_stand(
    alloc: Global,
    sums: &mut BTreeMap<Text, Sum>,
    step: &Step,
    once: bool,
) -> Result<bool, NoMemory>
    ensures may { IfOk result (λ may. may ≡ not (once && is_some (get (slice_cmp nat_cmp) sums.old step.now.name))) }
    ensures sums { OnOk result (IsTrue once → (name : List ℕ) → get (slice_cmp nat_cmp) sums.new name
        ≡ sum_beside (get (slice_cmp nat_cmp) sums.old name) step.now name) }
{
    if !once {
        return Ok(true);
    }
    add_sum(alloc, sums, step)
}

/// The step that a line writes, if it is one.
#[tactic(auto, unfolding(crate::specs::Index::step_of_line))]
fn read_step(alloc: Global, line: &[u8]) -> Result<Option<Step>, NoMemory>
    ensures { IfOk result (λ step. step ≡ step_of_line line.now) }
{
    let words = words(alloc, line)?;
    match words.as_slice() {
        [hash, size, name] => step_at(alloc, hash.as_bytes(), size.as_bytes(), name),
        _ => Ok(None),
    }
}

/// The step of this name with the sum that the two texts write, if they write one and the name is allowed.
fn step_at(alloc: Global, hash: &[u8], size: &[u8], name: &Text) -> Result<Option<Step>, NoMemory>
    ensures { IfOk result (λ step. step ≡ step_as name.now (result_ok (sum_of_texts hash.now size.now))) }
{
    match read_sum(hash, size) {
        Ok(sum) if names_patch(name.as_bytes()) => Ok(Some(Step {
            sum,
            name: name.copy(alloc)?,
        })),
        _ => Ok(None),
    }
}

/// Whether a text can name a patch.
fn names_patch(name: &[u8]) -> bool
    ensures { result ≡ is_name name.now }
{
    1 <= name.len() && name.len() <= 240 && name_bytes(name) && !is_dots(name)
}

fn name_bytes(name: &[u8]) -> bool
    ensures { result ≡ list_all is_name_character name.now }
{
    name.iter().all(|byte| is_name_byte(*byte))
}

/// Whether the name would be a folder's own, or the one above it.
fn is_dots(name: &[u8]) -> bool
    ensures { result ≡ are_dots name.now }
{
    matches!(name, b"." | b"..")
}

/// Whether a byte can stand in a patch's name.
fn is_name_byte(byte: u8) -> bool
    ensures { result ≡ is_name_character byte }
{
    byte.is_ascii_alphanumeric() || matches!(byte, b'.' | b'_' | b'-' | b'+')
}
