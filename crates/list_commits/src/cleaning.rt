//! The changes of a clean-up, and what is told of it.
ghost use Rattle.std.specs.Prelude.{◌≡◌, IfOk};
ghost use Rattle.journal_model.specs.Names.{is_partial};
ghost use Rattle.list_commits.specs.Changes.{drops_for};
ghost use Rattle.list_commits.specs.Loose.{removed_names};

use acq_base::{ListName, NoMemory, Row, Text, TryCopy};
use commit_journal::Change;
use std::alloc::Global;

/// The changes that remove these names, in their order.
pub fn drops_of(alloc: Global, names: Row<Text>) -> Result<Row<Change>, NoMemory>
    ensures { IfOk result (λ changes. changes ≡ drops_for names) }
{
    let mut rest = names.into_vec();
    rest.reverse();
    let mut changes = Row::new(alloc);
    while let Some(name) = rest.pop() {
        changes.push(Change::Drop { name })?;
    }
    Ok(changes)
}

/// Those of the names under which no list is on its way, in their order: what is told to be removed.
pub fn removed_of(alloc: Global, names: &[Text]) -> Result<Row<ListName>, NoMemory>
    ensures { IfOk result (λ removed. removed ≡ removed_names names.now) }
{
    let mut removed = Row::new(alloc);
    for name in names {
        if !is_on_its_way(name.as_bytes()) {
            removed.push(ListName(name.copy(alloc)?))?;
        }
    }
    Ok(removed)
}

/// Whether a list is on its way under this name.
#[tactic(auto, using(crate::proofs::Fronts::front_is))]
fn is_on_its_way(name: &[u8]) -> bool
    ensures { result ≡ is_partial name.now }
{
    name.starts_with(b"partial/".as_slice())
}
