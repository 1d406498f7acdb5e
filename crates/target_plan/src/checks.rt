//! The three refusals of a plan. It may take memory, and touches nothing else.

ghost use Rattle.std.specs.Prelude.{◌≡◌, ◌<◌, ◌++◌, IfOk, OnOk, length, map, slice_index_or};
ghost use Rattle.target_plan.specs.Drafts.{files_of as files_of_draft, file_of};
ghost use Rattle.target_plan.specs.Planning as spec;

use crate::draft::{Draft, Planned};
use crate::places::enter;
use crate::{Place, PlanError};
use acq_base::{ListName, NoMemory, TryCopy};
use std::alloc::Global;
use std::collections::BTreeMap;

/// The most sources and targets together.
pub const MOST_FILES: usize = 4096;

/// The most bytes of a list name.
pub const LONGEST_NAME: usize = 240;

/// A file of a plan: a source's Release or one of its lists, and where the entry stands that first gave it.
#[derive(Drop)]
pub struct File {
    pub name: ListName,
    pub origin: Place,
}

/// Appends a source's files: its Release, and its lists in order.
#[tactic(auto, unfolding(crate::specs::Drafts::files_of))]
pub fn append_files(alloc: Global, draft: &Draft, files: &mut Vec<File>) -> Result<(), NoMemory>
    ensures { OnOk result (files.new.items ≡ files.old.items ++ files_of_draft draft.now) }
{
    files.push(File {
        name: draft.source.release_name.copy(alloc)?,
        origin: draft.origin.copy(alloc)?,
    })?;
    for planned in draft.lists.as_slice() {
        files.push(file_in(alloc, planned)?)?;
    }
    Ok(())
}

fn file_in(alloc: Global, planned: &Planned) -> Result<File, NoMemory>
    ensures { IfOk result (λ file. file ≡ file_of planned.now) }
{
    Ok(File {
        name: planned.target.name.copy(alloc)?,
        origin: planned.origin.copy(alloc)?,
    })
}

/// Refuses a name that is too long.
pub fn check_name(alloc: Global, name: &ListName) -> Result<(), PlanError>
    ensures { spec.AnswersRefusal (spec.name_refusal name.now) result }
{
    if name.0.len() > LONGEST_NAME {
        return Err(PlanError::LongName(name.copy(alloc)?));
    }
    Ok(())
}

/// Refuses the first list whose name is too long.
#[tactic(auto, unfolding(crate::specs::Planning::long_name))]
pub fn check_names(alloc: Global, lists: &[Planned]) -> Result<(), PlanError>
    ensures { spec.AnswersRefusal (spec.long_name (map file_of lists.now)) result }
{
    for planned in lists {
        check_name(alloc, &planned.target.name)?;
    }
    Ok(())
}

/// Refuses the first file that has the name of an earlier one.
#[tactic(auto, unfolding(crate::specs::Planning::clash_behind))]
pub fn check_clashes(alloc: Global, files: &[File]) -> Result<(), PlanError>
    ensures { spec.AnswersRefusal (spec.clash files.now) result }
{
    let mut places = BTreeMap::new(alloc);
    for at in 0..files.len() {
        let file = &files[at];
        if let Some(first) = enter(&mut places, file.name.0.copy(alloc)?, at)? {
            return Err(clash(alloc, files, first, file)?);
        }
    }
    Ok(())
}

fn clash(alloc: Global, files: &[File], first: usize, second: &File) -> Result<PlanError, NoMemory>
    requires { first < length files.now }
    ensures { IfOk result (λ error. error ≡ spec.clash_of (slice_index_or files.now first second.now) second.now) }
{
    Ok(PlanError::Clash {
        first: files[first].origin.copy(alloc)?,
        second: second.origin.copy(alloc)?,
    })
}

/// Refuses more files than a plan may have.
#[tactic(auto, unfolding(crate::specs::Planning::too_many))]
pub fn check_count(files: &[File]) -> Result<(), PlanError>
    ensures { spec.AnswersRefusal (spec.too_many files.now) result }
{
    if files.len() > MOST_FILES {
        return Err(PlanError::TooMany);
    }
    Ok(())
}
