//! What holds of a lane's words over a whole run.

ghost use Rattle.lane_pool.specs.Laws as law;

/// The faults that come over a lane don't overlap, and lie between its method's counts at the start and at the end. Words of
/// the coordinator's own fetch are such words too, so the same holds of lane 0.
pub fn faults_are_apart()
    ensures apart { law.FaultsAreApart }
    ensures own { law.OwnWordsAreHeard }
{}
