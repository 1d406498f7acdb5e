//! The patches that lead from an installed file to the wanted one. What takes memory is handed an allocator.

ghost use Rattle.std.specs.Prelude.{◌≡◌, ◌⊎◌, Err, IfOk, option_copied};
ghost use Rattle.std.specs.List.{sum_by};
ghost use Rattle.pdiff_index.specs.Chain.{links, links_from, limited, patches_of, entry_on, lines_used, within, are_too_many, are_too_large};
ghost use Rattle.pdiff_index.specs.Listed.{LeadsOn};

use crate::sums::sums_by_name;
use crate::{Index, NoChain, Step};
use acq_base::{Row, Sum, TryCopy};
use std::alloc::Global;

/// The patches that lead from the file of the sum `have` to that of the sum `want`, in the order in which they apply.
///
/// They are those of the history's lines from the last with the sum `have` on; where the patches are merged, that line's
/// alone. `file_limit` is the most patches, and `size_limit` the most bytes together in percent of the wanted file's; 0
/// is no limit. The causes why there is no chain are looked for in the order of [`NoChain`].
pub fn chain(
    alloc: Global,
    index: &Index,
    have: &Sum,
    want: &Sum,
    file_limit: u32,
    size_limit: u32,
) -> Result<Row<Step>, NoChain>
    ensures value { (result ≡ Err NoChain.NoMemory) ⊎ (result ≡ links index.now have.now want.now file_limit size_limit) }
    // Each step is one of the patches, under the names of the history's lines in their order.
    ensures listed { IfOk result (λ steps. LeadsOn index.now have.now steps) }
{
    chain_to(alloc, index, have, want, file_limit, size_limit)
}

/// The patches that lead to the file of the sum `want`.
#[tactic(auto, unfolding(crate::specs::Chain::links))]
fn chain_to(
    alloc: Global,
    index: &Index,
    have: &Sum,
    want: &Sum,
    file_limit: u32,
    size_limit: u32,
) -> Result<Row<Step>, NoChain>
    ensures { (result ≡ Err NoChain.NoMemory) ⊎ (result ≡ links index.now have.now want.now file_limit size_limit) }
{
    if index.current != *want {
        return Err(NoChain::WrongCurrent);
    }
    let lines = entry(index.history.as_slice(), have);
    chain_from(alloc, index, lines, want, file_limit, size_limit)
}

/// The patches of these lines of the history.
#[tactic(auto, unfolding(crate::specs::Chain::links_from))]
fn chain_from(
    alloc: Global,
    index: &Index,
    lines: Option<&[Step]>,
    want: &Sum,
    file_limit: u32,
    size_limit: u32,
) -> Result<Row<Step>, NoChain>
    ensures { (result ≡ Err NoChain.NoMemory) ⊎ (result ≡ links_from index.now (option_copied lines.entry) want.now file_limit size_limit) }
{
    match lines {
        None => Err(NoChain::NoEntry),
        Some(lines) => {
            let used = used_lines(index.merged, lines);
            let patches = listed(alloc, index.patches.as_slice(), used)?;
            limit(patches, want, file_limit, size_limit)
        }
    }
}

/// The history from its last line with this sum on.
fn entry<'a>(history: &'a [Step], have: &Sum) -> Option<&'a [Step]>
    ensures { option_copied result ≡ entry_on history.entry.now have.now }
{
    let mut at = history.len();
    while at > 0 {
        at -= 1;
        if history[at].sum == *have {
            return Some(history.split_at(at).1);
        }
    }
    None
}

/// The lines whose patches are asked for: the entry alone, where each patch leads to the current file.
fn used_lines(merged: bool, lines: &[Step]) -> &[Step]
    ensures { result.now ≡ lines_used merged lines.entry.now }
{
    match lines {
        [_, ..] if merged => lines.split_at(1).0,
        _ => lines,
    }
}

/// The patches of these lines, in order. A map finds them by their names.
fn listed(alloc: Global, patches: &[Step], lines: &[Step]) -> Result<Row<Step>, NoChain>
    ensures { (result ≡ Err NoChain.NoMemory) ⊎ (result ≡ patches_of patches.now lines.now) }
{
    let sums = sums_by_name(alloc, patches)?;
    let mut found = Row::new(alloc);
    for line in lines {
        let name = line.name.copy(alloc)?;
        match sums.get(&line.name) {
            Some(sum) => found.push(Step { sum: *sum, name })?,
            None => return Err(NoChain::NoPatch(name)),
        }
    }
    Ok(found)
}

/// Refuses more patches, or more bytes in them, than the limits allow.
fn limit(
    patches: Row<Step>,
    want: &Sum,
    file_limit: u32,
    size_limit: u32,
) -> Result<Row<Step>, NoChain>
    ensures { result ≡ within file_limit size_limit want.now patches }
{
    let steps = patches.as_slice();
    if too_many(steps, file_limit) || too_large(steps, want.size, size_limit) {
        return Err(NoChain::Limit);
    }
    Ok(patches)
}

/// Whether the patches are more than a limit that isn't 0.
fn too_many(patches: &[Step], file_limit: u32) -> bool
    ensures { result ≡ are_too_many file_limit patches.now }
{
    file_limit != 0 && patches.len() > file_limit as usize
}

/// Whether the patches have more bytes together than a limit that isn't 0, in percent of the wanted file's.
fn too_large(patches: &[Step], wanted: u64, size_limit: u32) -> bool
    ensures { result ≡ are_too_large size_limit wanted patches.now }
{
    let limit = u128::from(size_limit) * u128::from(wanted);
    size_limit != 0 && total_size(patches) > limit / 100
}

/// How many bytes the patches have together.
fn total_size(patches: &[Step]) -> u128
    ensures { result ≡ sum_by (λ patch. patch.sum.size) patches.now }
{
    let mut total = 0;
    for patch in patches {
        total += u128::from(patch.sum.size);
    }
    total
}
