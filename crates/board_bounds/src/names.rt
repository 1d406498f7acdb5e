//! What the names of a plan's lists are.

ghost use Rattle.board_bounds.specs.Names as law;

/// A record may put a list under each name of a source of a sound plan. Each is the name of a list, and of none on its way.
pub fn planned_names_are_put_names()
    ensures put { law.PlannedNamesArePutNames }
    ensures lists { law.PlannedNamesAreLists }
    ensures others { law.PartialNamesAreOthers }
{}
