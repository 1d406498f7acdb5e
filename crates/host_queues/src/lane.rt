//! One lane. Only a number that is put into it takes memory.

ghost use Rattle.std.specs.Prelude.{◌≡◌, OnOk};
ghost use Rattle.host_queues.specs.Lanes.{empty_queue, with_last, first, without_first, freed};

use acq_base::NoMemory;
use std::alloc::Global;
use std::collections::VecDeque;
use std::marker::Model;

/// The numbers that wait in a lane, and whether one that was handed out isn't done yet.
#[derive(Drop)]
pub struct Lane {
    waiting: VecDeque<u64>,
    is_out: bool,
}

impl Model for Lane {
    ghost use Rattle.host_queues.specs.Lanes.{Queue};

    ghost Value = { Queue };

    ghost view = { λ lane. record { waiting = lane.waiting.items; is_out = lane.is_out } };
}

impl Lane {
    /// A lane in which nothing waits.
    pub fn new(alloc: Global) -> Lane
        ensures { result ≡ empty_queue }
    {
        Lane {
            waiting: VecDeque::new(alloc),
            is_out: false,
        }
    }

    /// A number comes last.
    pub fn put(&mut self, no: u64) -> Result<(), NoMemory>
        ensures { OnOk result (self.new ≡ with_last no self.old) }
    {
        self.waiting.push_back(no)?;
        Ok(())
    }

    /// The oldest number, which is out then; `None` where one is out already, or nothing waits.
    pub fn next(&mut self) -> Option<u64>
        ensures first { result ≡ first self.old }
        ensures left { self.new ≡ without_first self.old }
    {
        if self.is_out {
            return None;
        }
        let no = self.waiting.pop_front()?;
        self.is_out = true;
        Some(no)
    }

    /// What was out is done.
    pub fn done(&mut self)
        ensures { self.new ≡ freed self.old }
    {
        self.is_out = false;
    }
}
