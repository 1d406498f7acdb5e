//! What follows for commits, as laws that callers may rest on. It touches nothing.
ghost use Rattle.list_commits.specs.CarryLaws as carry_law;
ghost use Rattle.list_commits.specs.SetLaws as set_law;

/// The changes of a source make its set of what is on its way; where that is a new set, they install it and do nothing
/// else.
pub fn changes_make_sets()
    ensures made { set_law.ChangesMakeSets }
    ensures installed { set_law.MadeSetsAreInstalled }
{}

/// The changes of a clean-up remove its names and nothing else, and the names of no source that a disk has are such names
/// of its lists.
pub fn drops_clean_up()
    ensures gone { set_law.DropsCleanUp }
    ensures loose { set_law.LooseNamesAreLoose }
{}

/// A commit of the changes of settled sources, and of a clean-up behind them, makes their sets one after another and does
/// the clean-up. It leaves no file among the lists that is no list's.
pub fn gathered_are_carried()
    ensures carried { carry_law.GatheredAreCarried }
    ensures alone { carry_law.CommitsKeepLists }
    ensures lists { carry_law.ListsAreAlone }
{}
