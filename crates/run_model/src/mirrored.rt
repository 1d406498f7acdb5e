//! A run that heard a mirror.

ghost use Rattle.run_model.specs.Laws as law;

/// Where each answer was a mirror's or a fault, the set that is told of a source is the mirror's. Where no ask was given up,
/// what the mirror has is told of each source, and the lists are those that are next. So two such runs tell the same and
/// leave alike lists, in whatever order the answers came.
pub fn runs_lead_to_next()
    ensures sets { law.RunsHoldMirrored }
    ensures mirrored { law.RunsLeaveMirrored }
    ensures complete { law.RunsAreComplete }
    ensures next { law.RunsLeadToNext }
    ensures alike { law.RunsLeaveAlike }
    ensures same { law.RunsTellTheSame }
{}
