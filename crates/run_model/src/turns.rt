//! The commits of a run, moment by moment.

ghost use Rattle.run_model.specs.InTurn as law;

/// At any moment of a run that began at rest, each commit that is begun was so where the one before it was acknowledged.
/// What a crash leaves has the lists after all commits that were acknowledged then, and perhaps those of the one that was
/// begun.
#[tactic(auto, using(crate::proofs::Moments::commits_are_in_turn))]
pub fn commits_are_in_turn()
    ensures { law.CommitsAreInTurn }
{}
