//! What holds of a board behind each call.

ghost use Rattle.board_model.specs.CallLaws as law;
ghost use Rattle.board_model.specs.CountLaws as count;

/// Each item that asks waits or is out, once, in the lane of the host that it asks, and what is out or was answered is
/// what its item asks. No job goes out of a lane exactly where one of the lane is out, or each item that asks a host of
/// the lane has its job out. A board on which nothing goes out or is out asks nothing, and then each source is ready or
/// settled.
pub fn jobs_stand()
    ensures jobs { law.JobsAlwaysStand }
    ensures out { law.OutNumbersAsk }
    ensures none { law.NoneGoesOutExactly }
    ensures idle { law.BoardsWithoutJobsAskNothing }
    ensures quiet { law.QuietBoardsAreReady }
{}

/// Each source is settled at most once, and those that are settled have a settled slot.
pub fn sources_are_settled_once()
    ensures { law.SourcesAreSettledOnce }
{}

/// Whatever is answered, the log has few entries, where a patch Index leads by no more patches than it has bytes, and the
/// sizes that a Release lists are below 2^64.
pub fn asks_are_few()
    ensures { count.AsksAreFewByReading }
{}
