//! What the sources of a board come to, in whatever order their asks are answered.

ghost use Rattle.board_model.specs.CauseLaws as cause;
ghost use Rattle.board_model.specs.RunLaws as law;
ghost use Rattle.board_model.specs.SetLaws as set;

/// The log of a finished board tells of each source what its items' routes come to. Where all that was heard was a
/// mirror's, and no ask was given up, that is what the mirror has for the source. So two finished runs that agree with one
/// mirror tell the same of each source, in whatever order and over however many lanes they went.
pub fn finished_boards_tell()
    ensures tell { law.FinishedBoardsTell }
    ensures mirrors { law.FinishedBoardsTellMirrors }
    ensures agree { law.FinishedRunsAgree }
{}

/// The changes of a source that is settled touch its own names alone, each once, and leave under them the set of its
/// outcome, or what was there.
pub fn changes_leave_outcomes()
    ensures slots { set.ChangesLeaveOutcomes }
    ensures boards { law.ReadySourcesLeaveOutcomes }
    ensures own { set.TouchedAreOwn }
    ensures apart { set.TouchedAreApart }
{}

/// Whatever is answered, the set that is told of a source is that of an admissible Release, with each list as this one
/// names it. Where each answer that is no fault was a mirror's, it is the mirror's set, whichever asks were given up.
pub fn told_sets_hold()
    ensures listed { law.ToldSetsAreListed }
    ensures mirrors { law.ToldSetsAreMirrors }
{}

/// Each source comes to what the last answer to its Release shows, and each list that has no file has the cause that the
/// last answer to it shows.
pub fn last_answers_show_ends()
    ensures lists { cause.LastAnswersShowCauses }
    ensures releases { cause.LastAnswersShowReleases }
    ensures sources { cause.LastAnswersShowOutcomes }
{}
