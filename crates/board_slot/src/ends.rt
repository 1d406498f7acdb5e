//! How the lists of a source ended.

ghost use Rattle.std.specs.Prelude.{◌≡◌, IfOk, map, option_map, reverse};
ghost use Rattle.update_model.specs.Outcomes.{Kept};
ghost use Rattle.board_model.specs.Settling.{end_in};
ghost use Rattle.board_source.specs.Admitting.{against};
ghost use Rattle.board_source.specs.Listed.{standing_of, standings};
ghost use Rattle.board_slot.specs.Ended.{all_had_in};

use acq_base::{NoMemory, TryCopy};
use item_graph::Item;
use std::alloc::Global;
use update_model::{Cause, End};

/// How each list ended, in order; `None` for one that isn't named.
pub fn ends(alloc: Global, items: Vec<Option<Item>>) -> Result<Vec<Option<End>>, NoMemory>
    ensures { IfOk result (λ ends. ends.items ≡ map end_in (standings items.items)) }
{
    let mut rest = items;
    rest.reverse();
    let mut ends = Vec::new(alloc);
    while let Some(item) = rest.pop() {
        ends.push(end(item))?;
    }
    Ok(ends)
}

/// How a list ended, if it is one and has.
fn end(item: Option<Item>) -> Option<End>
    ensures { result ≡ end_in (option_map standing_of item) }
{
    let item = item?;
    if item.ask().is_some() {
        return None;
    }
    Some(item.end())
}

/// The cause of the first list that has no file, if there is one.
pub fn first_cause(alloc: Global, ends: &[Option<End>]) -> Result<Option<Cause>, NoMemory>
    ensures { IfOk result (λ cause. against (option_map Kept cause) ≡ all_had_in ends.now) }
{
    for end in ends {
        if let Some(End::Ended(cause)) = end {
            return Ok(Some(cause.copy(alloc)?));
        }
    }
    Ok(None)
}
