//! How much is asked, whatever is answered.

ghost use Rattle.board_bounds.specs.Readings.{ListedSumsAreWritten};
ghost use Rattle.board_bounds.specs.Sources.{SourceAsksAreFew};
ghost use Rattle.board_model.specs.CountLaws.{AsksAreFew, ChainsAreShort, ListedSizesFit};

/// A patch Index of fewer than 2^64 bytes leads by at most 2^64 patches. The sums that a Release lists are as its text
/// writes them: sizes below 2^64, and digests of 32 bytes.
pub fn readings_are_small()
    ensures chains { ChainsAreShort }
    ensures sums { ListedSumsAreWritten }
    ensures sizes { ListedSizesFit }
{}

/// The log of a board that calls led to has few entries, and no more than the plan and the number of retries allow.
pub fn logs_are_short()
    ensures { AsksAreFew }
{}

/// Of each source the log has few entries: for each list no more than its own chain of patches asks for.
pub fn sources_ask_little()
    ensures { SourceAsksAreFew }
{}
