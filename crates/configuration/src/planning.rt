//! The plan of entries, with the closure that picks lists. It may take memory, and touches nothing else.

ghost use Rattle.std.specs.Prelude.{◌≡◌, All, IfOk, IsErrOf};
ghost use Rattle.acq_base.specs.Plan.{IsSound};
ghost use Rattle.acq_base.specs.Settings.{IsSound as IsSoundSettings};
ghost use Rattle.kept_hooks.specs.Picking.{is_picked};
ghost use Rattle.source_lists.specs.Sound.{IsSound as IsSoundEntry};
ghost use Rattle.target_plan.specs.Planning as plans;
ghost use Rattle.configuration.specs.Answers.{Gives};
ghost use Rattle.configuration.specs.Refusals.{in_plan};

use crate::ConfigurationError;
use acq_base::{Kind, Pick, Plan, Row, Settings, Target};
use kept_hooks::Picker;
use source_lists::Entry;
use std::alloc::Global;
use target_plan::plan;

/// The plan of these entries, of the kinds of lists that the settings pick.
pub fn plan_of(
    alloc: Global,
    entries: &Row<Entry>,
    settings: &Settings,
) -> Result<Plan, ConfigurationError>
    ensures read { Gives (in_plan (plans.plan_of settings.now.pick settings.now entries.now)) result }
    ensures sound { All IsSoundEntry entries.now → IsSoundSettings settings.now → IfOk result IsSound }
    ensures outside { ¬ (IsErrOf result ConfigurationError.Fault) }
{
    let pick = settings.pick;
    let test = Box::new(alloc, move |target: &Target| is_wanted(&pick, target))?;
    let picker = Picker::new(test, pick);
    Ok(plan(alloc, entries, settings, &picker)?)
}

/// Whether a target is of a kind that is picked.
fn is_wanted(pick: &Pick, target: &Target) -> bool
    ensures { result ≡ is_picked pick.now target.now }
{
    match target.kind {
        Kind::Packages(_) => pick.packages,
        Kind::Sources => pick.sources,
        Kind::Translation(_) => pick.translations,
    }
}
