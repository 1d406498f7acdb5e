//! What holds of boards over whole runs, whatever is called and answered.

ghost use Rattle.board_model.specs.Laws as law;

/// Whatever goes out, is answered and taken in, in whatever order, each source stands to what its items have heard: the
/// log's entries of each item are the front of a route of its walk, and the item asks the next of it. A board is finished
/// exactly where each source is settled.
pub fn boards_walk_routes()
    ensures stand { law.BoardsStand }
    ensures next { law.ItemsAskNext }
    ensures finished { law.FinishedExactly }
{}

/// A source that is settled has the verdict of the outcome of the routes with which its items ended. Where its items heard a
/// mirror, and no ask was given up, that is what the mirror has for it; it is a hit where that is installed already.
pub fn verdicts_are_of_outcomes()
    ensures come { law.SettledSourcesCome }
    ensures mirrors { law.VerdictsAreMirrors }
    ensures there { law.SetsThereAreHeld }
{}
