//! What a Release that came is: one that may be installed, or why it may not.

ghost use Rattle.std.specs.Prelude.{◌≡◌};
ghost use Rattle.board_model.specs.Settling.{staying_verdict};
ghost use Rattle.board_source.specs.Refinement.{staying_of};

use acq_base::Bytes;
use release_file::Release;
use update_model::{Cause, Verdict2};

/// A Release that may be installed, with its bytes.
#[derive(Drop)]
pub struct AdmittedRelease {
    pub bytes: Bytes,
    pub release: Release,
}

/// Why a source keeps its set before a list is asked for.
#[derive(Drop)]
pub enum Staying {
    /// The installed Release has a later date than this one.
    Older(i64),
    Kept(Cause),
}

impl Staying {
    /// What the source comes to.
    pub fn verdict(self) -> Verdict2
        ensures { result ≡ staying_verdict (staying_of self) }
    {
        match self {
            Staying::Older(date) => Verdict2::Older(date),
            Staying::Kept(cause) => Verdict2::Kept(cause),
        }
    }
}
