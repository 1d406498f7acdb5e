//! What holds of the definitions of `specs/`, whatever mirrors hold and methods answer.

ghost use Rattle.std.specs.Prelude.{codes, IsTrue};
ghost use Rattle.pdiff_index.specs.Index.{is_name};
ghost use Rattle.update_model.specs.Carried.{DeedsLeadToNext, NextIsThere, CommitsDoTheSame, TogetherIsOneCommit, CommitsLeadToNext};
ghost use Rattle.update_model.specs.Faults as fault;
ghost use Rattle.update_model.specs.Laws as law;

/// A route that agrees with a mirror and in which each ask is answered ends as what is obtained from that mirror; over
/// each mirror there is such a route.
pub fn routes_end_as_obtained()
    ensures lists { law.ListsEndAsObtained }
    ensures releases { law.ReleasesEndAsObtained }
    ensures given { law.MirrorsGiveRoutes }
{}

/// Whatever is answered, with faults and moves in any order, the entries so far are the front of a route, and what is
/// asked is the next of it.
pub fn runs_stand_in_routes()
    ensures { law.RunsStandInRoutes }
{}

/// A route has few entries in the log, whatever is answered, and so have those of a whole source.
pub fn routes_ask_little()
    ensures lists { law.ListsAskLittle }
    ensures releases { law.ReleasesAskLittle }
    ensures sources { law.SourcesAskLittle }
{}

/// A list's patch Index, and each patch that it may name, lies at a sound URI where the list does. So each ask for a
/// list is for a sound URI, whatever is answered.
pub fn patches_lie_at_sound_uris()
    ensures sound { law.PatchUrisAreSound }
    ensures short { law.PatchUrisAreShort }
    ensures index { IsTrue (is_name (codes "Index")) }
    ensures asks { law.AsksAreSound }
{}

/// The file that a list comes to is the one that the Release names. It has one exactly where the installed file, the
/// patched one, the resumed one or one that is reached is that; patches and partial files do no harm.
pub fn obtained_files_fit()
    ensures only { law.ObtainedFilesFit }
    ensures each { law.FilesAreObtained }
    ensures patches { law.PatchesOnlyHelp }
    ensures parts { law.PartsOnlyHelp }
{}

/// A new set comes exactly from an admissible Release each of whose lists has a file, and over a mirror these files are
/// the ones that the Release names.
pub fn new_sets_are_admissible()
    ensures exactly { law.SetsAreAdmissible }
    ensures fit { law.NewSetsFit }
{}

/// Routes of a source that agree with a mirror, and in which each ask is answered, come to its new set, or to why there
/// is none. What another mirror has elsewhere makes no difference.
pub fn routes_make_new_sets()
    ensures made { law.RoutesMakeNewSets }
    ensures enough { law.RoutesAreEnough }
{}

/// Whatever is answered, with a mirror behind the answers or without: a list that has a file has the one that is
/// listed, a Release is a file that came, and a new set is that of an admissible Release, with each list as this one
/// names it.
pub fn routes_end_as_listed()
    ensures lists { fault.ListsEndAsListed }
    ensures releases { fault.ReleasesEndAsServed }
    ensures sets { fault.SetsAreAsListed }
{}

/// Faults of methods put nothing else in a file's place: over routes that agree with a mirror, whichever asks were
/// never answered, a file is the one that is obtained from the mirror, and a new set is the mirror's.
pub fn faults_change_no_file()
    ensures lists { fault.ListsHadAreObtained }
    ensures releases { fault.ReleasesHadAreObtained }
    ensures sets { fault.SetsMadeAreNew }
{}

/// What a run leaves is determined, bytes of equal sums aside. Where clean-up is on and no source keeps its set for a
/// cause, no name of no source is left; a source without a new set keeps its former files.
pub fn nexts_are_alike()
    ensures alike { law.NextsAreAlike }
    ensures clean { law.NextsAreClean }
    ensures kept { law.NextsKeep }
{}

/// What is done for the sources of a plan, in any order, and the clean-up behind it leave what is next.
pub fn deeds_lead_to_next()
    ensures { DeedsLeadToNext }
{}

/// The commits of a run do the same for its sources whether they are made one by one or together, and together they are
/// at most one. In either form they leave what is next.
pub fn commits_lead_to_next()
    ensures same { CommitsDoTheSame }
    ensures once { TogetherIsOneCommit }
    ensures next { CommitsLeadToNext }
{}

/// A sound plan has a directory that is next, whatever the mirror holds and whatever is installed.
pub fn next_is_there()
    ensures { NextIsThere }
{}
