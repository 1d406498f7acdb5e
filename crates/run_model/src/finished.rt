//! A run that has ended.

ghost use Rattle.run_model.specs.Laws as law;

/// What a source's items came to is told in the log, and left under its names: the new set whole, or what was there. Whatever
/// was answered, a source that is told to have a set has just that under its names, and it may be installed beside the
/// former one; each other source has its former files. The names of no source go exactly where they are to, and the log tells
/// those that are gone.
pub fn runs_leave_outcomes()
    ensures outcomes { law.RunsLeaveOutcomes }
    ensures told { law.RunsHoldAsTold }
    ensures others { law.RunsKeepOthers }
    ensures cleans { law.RunsCleanUp }
    ensures removed { law.RunsTellRemoved }
    ensures begun { law.RunsHaveBegun }
{}
