//! A word that came over a lane.

use acq_base::Job;
use acq_outside::Word;

/// A word that a worker's method said to a job.
#[derive(Debug, PartialEq, Drop)]
pub struct Told {
    /// The worker's lane, 1 to 8.
    pub lane: u32,
    pub job: Job,
    pub word: Word,
}
