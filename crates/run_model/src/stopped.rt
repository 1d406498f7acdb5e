//! A run that may have been stopped.

ghost use Rattle.run_model.specs.Laws as law;

/// After any of its commits, each source of the plan has under its names what was there when the run began, or the new set
/// that it came to, whole. So it has, at any moment, in whatever a crash leaves, once the journal is opened again. A new set may
/// be installed beside the former one, and is the mirror's where each answer was a mirror's or a fault.
pub fn commits_leave_whole()
    ensures sets { law.GroupsMakeSets }
    ensures commits { law.CommitsLeaveWhole }
    ensures crashes { law.CrashesLeaveWhole }
    ensures admissible { law.NewSetsAreAdmissible }
    ensures mirrors { law.NewSetsAreMirrors }
{}
