//! A run over several methods: workers and a coordinator fetch its jobs, several at once, each source is committed as it
//! is ready or all together, and the clean-up comes last.
//!
//! `run_update` opens the journal, reads what is installed and how much there is of each list on its way, asks and
//! commits until each source is settled, and cleans up last. Whatever it answers, over a disk that tells and was
//! synced, a crash at any moment leaves what it left at entry or, once the journal was open, the run's commits as far
//! as they had got, and the disk is synced again (the definition `SurvivesCrash`); where memory ran out, each commit
//! that was begun is acknowledged (`dry` of `Runs`). Where it answers a log, the log is that of a board to which the
//! run's calls led and which is finished; each answer in it is the mirror's or a fault, and the faults of each method
//! are told in order, within what it counted; over a disk that tells and was synced, the run's commits are all made,
//! the disk is at rest with the lists after them, beside them only lists on their way change, as answers left them,
//! and where names of no source go none of them is left (`LogIsTrue`). The coordinator's method began just as many fetches as
//! the log tells of it, and a worker's no more than that and one (`BeginsAsTold`). Damage of the journal is told only where it is there, and
//! then no log is answered. A fault of the disk is told only where its count rose, and none goes untold beside a log
//! (`frame`). It may wait for a worker; that it comes to an end is claimed nowhere.
#![tactic(auto)]

pub use top::run_update;

mod beginning;
mod ending;
mod gathering;
mod looping;
mod reading;
mod settling;
mod top;
