//! For what a run asks.

ghost use Rattle.run_model.specs.Asked as law;

/// Nothing is heard but by items of the plan, just that is told by the log, and of a source's lists just those have heard
/// anything that its Release names, where that may be installed.
pub fn notes_are_of_items()
    ensures items { law.NotesAreOfItems }
    ensures log { law.LogsTellNotes }
    ensures others { law.OthersHearNothing }
{}
