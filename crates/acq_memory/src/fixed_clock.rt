//! A clock in memory.
ghost use Rattle.std.specs.Prelude.{◌≡◌, None, Some};

use acq_outside::Clock;

/// A clock that gives one moment again and again.
#[derive(Debug, Drop)]
pub struct FixedClock {
    moment: i64,
    given: u64,
    last: Option<i64>,
}

impl FixedClock {
    ghost use Rattle.acq_memory.specs.FixedClock.{moment_of, given_by, last_of};

    /// A clock of this moment, in seconds since 1970-01-01 00:00:00 UTC. It has given none yet.
    pub fn new(moment: i64) -> FixedClock
        ensures moment { moment_of result ≡ moment }
        ensures given { given_by result ≡ 0 }
        ensures last { last_of result ≡ None }
    {
        FixedClock {
            moment,
            given: 0,
            last: None,
        }
    }
}

impl Clock for FixedClock {
    ghost use Rattle.std.specs.Prelude.{◌≡◌, Some};
    ghost use Rattle.acq_outside.specs.Count.{one_more};
    ghost use Rattle.acq_memory.specs.FixedClock.{moment_of, given_by, last_of};

    ghost given = { given_by };

    ghost last = { last_of };

    fn moment(&mut self) -> i64
        ensures given { given_by self.new ≡ one_more (given_by self.old) }
        ensures last { last_of self.new ≡ Some result }
        ensures fixed { result ≡ moment_of self.old }
        ensures same { moment_of self.new ≡ moment_of self.old }
    {
        self.given = self.given.saturating_add(1);
        self.last = Some(self.moment);
        self.moment
    }
}
