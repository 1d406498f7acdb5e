//! What follows for runs of commits, as laws that callers may rest on. It touches nothing.
ghost use Rattle.std.specs.Prelude.{◌≡◌, ◌<◌, ◌^◌, ℕ, List, [], length, Some, None, Ok};
ghost use Rattle.acq_outside.specs.Disk.{Files};
ghost use Rattle.acq_outside.specs.Crash.{State};
ghost use Rattle.journal_model.specs.Reading.{steps_of_body};
ghost use Rattle.journal_model.specs.Reopen.{reopened};
ghost use Rattle.journal_model.specs.Spelling.{body_of, all_steps, AreAllowed};
ghost use Rattle.commit_journal.specs.Changes.{steps_in, all_changes, CanRecord};
ghost use Rattle.commit_journal.specs.Opening.{damage_of};
ghost use Rattle.commit_journal.specs.declared.changing.Change.{Change};
ghost use Rattle.commit_journal.specs.Commits.{IsPrepared};
ghost use Rattle.commit_journal.specs.Recorded.{LeavesRecord};
ghost use Rattle.commit_journal.specs.Runs.{Commit, CommitProgress, CrashLeavesWholeNow, CrashLeavesWholeSince};

/// Any commits one after another, stopped at any moment: whatever a crash leaves then has, once its journal is opened
/// again, the lists after the first so many of the commits, each made as a whole, at least those that were acknowledged
/// and at most those that were begun. So it has at each moment before.
pub fn commits_are_whole()
    ensures now { (commits : List Commit) (acknowledged begun : ℕ) (old now : List State)
        → CommitProgress commits acknowledged begun old now → CrashLeavesWholeNow commits acknowledged begun old now }
    ensures since { (commits : List Commit) (acknowledged begun : ℕ) (old now : List State)
        → CommitProgress commits acknowledged begun old now → CrashLeavesWholeSince commits begun old now }
{}

/// What has lists once its journal is opened has no damage that an opening would tell.
pub fn whole_is_undamaged()
    ensures { (files folder : Files) → reopened files ≡ Some folder → damage_of files ≡ None }
{}

/// Where a commit may be made, whatever a crash leaves has a journal whose gate is 0 before the record of its changes, and
/// all that the record puts, each list under the name on its way.
pub fn ready_is_recorded()
    ensures { (groups : List (List Change)) (s : State) → IsPrepared groups s → LeavesRecord groups s }
{}

/// Changes may be recorded just where they are few enough to be counted and a record may have their steps, and their
/// record is read as these steps.
pub fn recorded_is_read()
    ensures read { (groups : List (List Change)) → CanRecord groups → steps_of_body (body_of (steps_in groups)) ≡ Ok (all_steps (steps_in groups)) }
    ensures allowed { (groups : List (List Change)) → CanRecord groups → AreAllowed [] (all_steps (steps_in groups)) }
    ensures recordable { (groups : List (List Change)) → length groups < 2 ^ 32 → length (all_changes groups) < 2 ^ 32
        → AreAllowed [] (all_steps (steps_in groups)) → CanRecord groups }
{}
