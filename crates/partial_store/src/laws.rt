//! What follows for lists on their way, as laws that callers may rest on. It touches nothing.
ghost use Rattle.std.specs.Prelude.{◌≡◌, ℕ, List, []};
ghost use Rattle.acq_outside.specs.Crash.{State, after};
ghost use Rattle.acq_outside.specs.declared.change.DiskCall.TheVariants.{SyncNames};
ghost use Rattle.journal_model.specs.Rest.{IsPartSynced};
ghost use Rattle.partial_store.specs.Refinement.{LeavesPart};

/// Once a list's file is finished and the names are synced, whatever a crash leaves has it with all that was put; so has
/// what it leaves where no change of names is pending.
pub fn finished_lasts()
    ensures synced { (name bytes : List ℕ) (s : State) → IsPartSynced name bytes s → LeavesPart name bytes (after s SyncNames) }
    ensures unmoved { (name bytes : List ℕ) (s : State) → IsPartSynced name bytes s → s.pending ≡ [] → LeavesPart name bytes s }
{}
