//! Whether what a board asks may be handed to a method.

ghost use Rattle.board_bounds.specs.Fetching as law;

/// Over a sound plan, and where answers led to sound places alone, each item asks at a sound URI, for the whole file or from
/// below its limit on. So each job that goes out, or is out, may be handed to a method.
pub fn asks_may_be_fetched()
    ensures asks { law.AsksMayBeFetched }
    ensures issued { law.IssuedJobsMayBeHanded }
    ensures out { law.JobsOutMayBeHanded }
{}
