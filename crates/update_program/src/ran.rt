//! What a call comes to. Nothing here takes memory.

ghost use Rattle.std.specs.Prelude.{◌≡◌, None};

use update_model::RunLog;

/// The status that the program ends with.
#[derive(Clone, Copy, Debug, PartialEq, Eq)]
pub struct Status(pub u8);

/// What a call came to.
#[derive(Debug, PartialEq, Drop)]
pub struct Ran {
    pub status: Status,
    /// The log of the run that the call made, where one was made and came to its end.
    pub log: Option<RunLog>,
}

impl Ran {
    /// A call that made no run, or one that gave up.
    pub fn without_log(status: Status) -> Ran
        ensures status { result.status ≡ status }
        ensures log { result.log ≡ None }
    {
        Ran { status, log: None }
    }
}
