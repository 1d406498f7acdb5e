//! The steps of a commit's record.
ghost use Rattle.std.specs.Prelude.{◌≡◌, ◌++◌, IfOk, OnOk};
ghost use Rattle.journal_model.specs.Spelling.{all_steps as all_steps_of};
ghost use Rattle.commit_journal.specs.Changes.{step_of as one_step_of, steps_of as list_of, steps_in};

use crate::Change;
use acq_base::{NoMemory, Row, Text};
use journal_model::Step;
use std::alloc::Global;

fn step_of(alloc: Global, change: &Change) -> Result<Step, NoMemory>
    ensures { IfOk result (λ step. step ≡ one_step_of change.now) }
{
    match change {
        Change::Put { name, .. } => Ok(Step::Put(Text::from_bytes(alloc, name.0.as_bytes())?)),
        Change::Drop { name } => Ok(Step::Drop(Text::from_bytes(alloc, name.as_bytes())?)),
    }
}

/// Appends the steps of these changes.
fn add_steps(alloc: Global, steps: &mut Row<Step>, changes: &[Change]) -> Result<(), NoMemory>
    ensures { OnOk result (steps.new ≡ steps.old ++ list_of changes.now) }
{
    for change in changes {
        steps.push(step_of(alloc, change)?)?;
    }
    Ok(())
}

fn steps_of(alloc: Global, changes: &[Change]) -> Result<Row<Step>, NoMemory>
    ensures { IfOk result (λ steps. steps ≡ list_of changes.now) }
{
    let mut steps = Row::new(alloc);
    add_steps(alloc, &mut steps, changes)?;
    Ok(steps)
}

/// The steps of these groups, group by group.
pub fn record_of(alloc: Global, groups: &[Row<Change>]) -> Result<Row<Row<Step>>, NoMemory>
    ensures { IfOk result (λ rows. rows ≡ steps_in groups.now) }
{
    let mut rows = Row::new(alloc);
    for group in groups {
        rows.push(steps_of(alloc, group.as_slice())?)?;
    }
    Ok(rows)
}

/// The steps of these groups, one after another.
pub fn all_steps(alloc: Global, groups: &[Row<Change>]) -> Result<Row<Step>, NoMemory>
    ensures { IfOk result (λ steps. steps ≡ all_steps_of (steps_in groups.now)) }
{
    let mut steps = Row::new(alloc);
    for group in groups {
        add_steps(alloc, &mut steps, group.as_slice())?;
    }
    Ok(steps)
}
