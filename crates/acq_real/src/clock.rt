//! The system's clock.
ghost use Rattle.std.specs.Prelude.{◌≡◌, None, Some};

use crate::answer::seconds;
use acq_outside::Clock;
use std::rt;
use std::time::SystemTime;

/// The system's clock.
#[derive(Drop)]
pub struct RealClock<R: Drop> {
    rt: R,
    given: u64,
    last: Option<i64>,
}

impl<R: rt::Clock + Drop> RealClock<R> {
    ghost use Rattle.std.specs.Prelude.{◌≡◌, None};
    ghost use Rattle.acq_real.specs.RealClock.{given_by, last_of};

    /// The clock of this system. It has given no moment yet.
    pub fn new(rt: R) -> RealClock<R>
        ensures given { given_by result ≡ 0 }
        ensures last { last_of result ≡ None }
    {
        RealClock {
            rt,
            given: 0,
            last: None,
        }
    }
}

impl<R: rt::Clock + Drop> Clock for RealClock<R> {
    ghost given = { λ clock. clock.given };

    ghost last = { λ clock. clock.last };

    // Where the system gives no time, the moment is 0.
    fn moment(&mut self) -> i64 {
        let moment = seconds(SystemTime::now(&self.rt));
        self.given = self.given.saturating_add(1);
        self.last = Some(moment);
        moment
    }
}
