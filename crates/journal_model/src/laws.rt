//! What follows from the definitions, as laws that callers may rest on. It touches nothing.
ghost use Rattle.std.specs.Prelude.{◌≡◌, ◌<◌, ◌≤◌, ◌^◌, ℕ, List, [], length, Ok};
ghost use Rattle.acq_outside.specs.Choice.{AreBytes};
ghost use Rattle.acq_outside.specs.Crash.{State, IsSound, reads};
ghost use Rattle.journal_model.specs.Reading.{steps_of_body, journal_state_of};
ghost use Rattle.journal_model.specs.Reopen.{installed_files};
ghost use Rattle.journal_model.specs.Rest.{IsIdle, IsSynced, IsAtRest, LeavesShut, AllChangeNoInstalledName};
ghost use Rattle.journal_model.specs.Spelling.{body_of, old_body_of, all_steps, AreAllowed, AreShort, IsRecord};
ghost use Rattle.journal_model.specs.declared.step.JournalState.TheVariants.{Damaged};
ghost use Rattle.journal_model.specs.declared.step.Step.{Step};

/// What is spelled as a record is read as the steps that it spells, in the version that is written and in the one before.
pub fn records_are_read()
    ensures new { (groups : List (List Step)) → length groups < 2 ^ 32 → AreShort groups → AreAllowed [] (all_steps groups) → steps_of_body (body_of groups) ≡ Ok (all_steps groups) }
    ensures old { (steps : List Step) → length steps < 2 ^ 32 → AreAllowed [] steps → steps_of_body (old_body_of steps) ≡ Ok steps }
{}

/// What is read as a record was spelled as one, of either version: its steps are allowed, and the bytes are theirs.
pub fn records_only()
    ensures { (body : List ℕ) (steps : List Step) → AreBytes body → steps_of_body body ≡ Ok steps → IsRecord body steps }
{}

/// The place of damage is behind the gate, and within the file or at its end.
pub fn damage_is_within()
    ensures { (bytes : List ℕ) (at : ℕ) → journal_state_of bytes ≡ Damaged at → (1 ≤ at) × (at ≤ length bytes) }
{}

/// A commit may be prepared where no change of a list's name or of the journal's is pending, and whatever a crash leaves
/// has a journal whose gate is 0; and there alone.
pub fn idle_is_shut()
    ensures shut { (s : State) → IsIdle s → LeavesShut s }
    ensures idle { (s : State) → IsSound s → AllChangeNoInstalledName s.pending → LeavesShut s → IsIdle s }
{}

/// Where a commit may be prepared and no list is written or cut since its last sync, a crash leaves the lists that reads
/// give.
pub fn idle_rests()
    ensures { (s : State) → IsIdle s → IsSynced s → IsAtRest (installed_files (reads s)) s }
{}
