//! Workers that fetch beside the coordinator, each with a method of its own, and the lanes over which jobs go out to them
//! and words come back.
//!
//! Lane 0 is the coordinator's own method. Each further lane is a worker's, which takes one job at a time and sends each
//! word of its method by itself. All words come over one channel, whose rule says that each is the word of its lane's
//! method to the job that it names. Nothing here says that a word comes, or in which order words of different lanes do.
//!
//! `start` takes the methods, `give` hands a job out or back (`back`), `take` gives a word that is its lane's
//! method's to the very job that is out there (`told`), or none, `own` and `own_more` are the coordinator's own
//! fetch, and `finish` hands the methods back, in their order, with their mirrors. The own method begins one fetch for each
//! `own`, and a worker's no more than one for each job that it was handed (`begins`): a second channel, of a lane's jobs, has
//! a rule that counts them. Faults of one lane don't overlap (`faults_are_apart`, a law). That a word comes, and when, is
//! claimed nowhere.
#![tactic(auto)]

pub use lanes::Lanes;
pub use laws::faults_are_apart;
pub use starting::start;
pub use told::Told;

mod desk;
mod finishing;
mod job_rule;
mod jobs;
mod lane;
mod lanes;
mod laws;
mod replies;
mod rule;
mod sent;
mod slot;
mod starting;
#[cfg(test)]
mod tests;
mod told;
mod work;
mod worker;
