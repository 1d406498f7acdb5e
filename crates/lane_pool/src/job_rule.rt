//! The rule of a lane's channel of jobs, and its kinds of step.
//!
//! What the rule asks stands in specs/JobRule.antt. The types here carry those definitions into the channel's calls, and no
//! value of them is made. An item of the channel is a job, or the mark that no job comes any more.

use crate::sent::Sent;
use crossbeam_channel::protocol::{Join, Lesson, Outcome, Protocol, Split};
use crossbeam_channel::{Pass, RuledReceiver, RuledSender};

/// Which ends of the channel a pass stands for, and how many jobs went in and came out there.
pub struct Tally {
    pub gives: bool,
    pub takes: bool,
    pub handed: u64,
    pub received: u64,
}

/// The rule.
pub struct JobRule;

impl Protocol<Option<Sent>, Tally> for JobRule {
    ghost use Rattle.lane_pool.specs.JobRule.{AreCounted, nothing_yet};

    ghost holds = { AreCounted };

    ghost first = { nothing_yet };
}

/// Parting the ends.
pub struct Parts;

impl Split<Tally> for Parts {
    ghost use Rattle.lane_pool.specs.JobRule.{giving, taking};

    ghost left = { giving };

    ghost right = { taking };
}

/// The coordinator's send.
pub struct Hands;

impl Outcome<Option<Sent>, Tally> for Hands {
    ghost use Rattle.lane_pool.specs.JobRule.{IsHanded};

    ghost then = { IsHanded };
}

impl Lesson<Option<Sent>, Tally> for Hands {
    ghost use Rattle.std.specs.Prelude.{⊤};

    ghost fact = { λ v items. ⊤ };
}

/// The worker's receive.
pub struct Takes;

impl Outcome<Option<Sent>, Tally> for Takes {
    ghost use Rattle.lane_pool.specs.JobRule.{IsTaken};

    ghost then = { IsTaken };
}

impl Lesson<Option<Sent>, Tally> for Takes {
    ghost use Rattle.std.specs.Prelude.{⊤};

    ghost fact = { λ v items. ⊤ };
}

/// Putting the ends' passes together again.
pub struct Rejoins;

impl Join<Tally> for Rejoins {
    ghost use Rattle.lane_pool.specs.JobRule.{both, spent};

    ghost both = { both };

    ghost spent = { spent };
}

/// What is learned then.
pub struct Received;

impl Lesson<Option<Sent>, Tally> for Received {
    ghost use Rattle.std.specs.Prelude.{◌≤◌};

    ghost fact = { λ v items. v.received ≤ v.handed };
}

/// The sending end of the channel.
pub type JobSender = RuledSender<Option<Sent>, Tally, JobRule>;

/// The receiving end of the channel.
pub type JobReceiver = RuledReceiver<Option<Sent>, Tally, JobRule>;

/// A pass of the channel.
pub type JobPass = Pass<Option<Sent>, Tally>;
