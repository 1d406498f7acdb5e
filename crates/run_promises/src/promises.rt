//! What runs promise, in the words of those who keep lists: laws, each a function without a body.

ghost use Rattle.run_promises.specs.Claims as claim;
ghost use Rattle.run_promises.specs.Promise as law;

/// Over a mirror, a run that answers a log leaves the lists that the mirror's answers define, unless a fetch was given up, and
/// none was where no method failed.
pub fn lists_match_mirror()
    ensures { law.RunsEndAsServed }
{}

/// A source that a log tells to have a set has just that, and each other one its former files. Beside the lists and the journal
/// no file changes but lists on their way, as answers left them; a clean-up leaves no file of no source.
pub fn lists_match_log()
    ensures { law.RunsEndAsTold }
{}

/// Whatever a run answers, each source has at each moment, in whatever a crash leaves, its former set or a new one, whole, of
/// a Release that may be installed.
pub fn runs_stop_with_sets()
    ensures { law.RunsStopWithSets }
{}

/// Over a mirror such a new set is the one that the mirror's answers define.
pub fn runs_stop_as_served()
    ensures { law.RunsStopAsServed }
{}

/// The log of a run is what items of its plan heard, and shows of each source the routes of its items, in order, what they
/// came to, and that little was asked.
pub fn logs_show_runs()
    ensures { claim.LogsShowRuns }
{}

/// A mirror that serves a source whole has a new set for it, which a log tells where no fetch was given up.
pub fn runs_tell_served()
    ensures logs { claim.RunsTellServed }
    ensures sets { claim.ServedSourcesHaveSets }
{}

/// Once its journal was open a run leaves none that is damaged, in whatever a crash leaves.
pub fn runs_stop_undamaged()
    ensures { claim.RunsStopUndamaged }
{}

/// A run that memory stopped leaves the same lists whatever a crash leaves, in which each source has its former set or a new
/// one, whole; or, before its journal was open, what a crash left at entry.
pub fn runs_stop_on_same_lists()
    ensures { claim.RunsStopOnSameLists }
{}

/// A stop in the midst of a call of the disk leaves each source a whole set, where one before the call and one behind it do.
pub fn stops_within_calls()
    ensures { claim.StopsWithinCalls }
{}
