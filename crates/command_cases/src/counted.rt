//! A method that tells how many fetches were begun.

use acq_base::Job;
use acq_outside::{Method, Word};
use std::alloc::Global;

/// A method whose begun fetches are counted.
#[derive(Drop)]
pub struct Counted<M: Method> {
    method: M,
    begun: u64,
}

impl<M: Method> Counted<M> {
    /// This method, of which no fetch is begun yet.
    pub fn new(method: M) -> Counted<M> {
        Counted { method, begun: 0 }
    }

    /// How many fetches were begun.
    pub fn begun(&self) -> u64 {
        self.begun
    }
}

impl<M: Method> Method for Counted<M> {
    ghost faults = { λ counted. M.faults counted.method };

    ghost world = { λ counted. M.world counted.method };

    ghost under = { λ counted. M.under counted.method };

    ghost begins = { λ counted. M.begins counted.method };

    fn faults(&self) -> u64 {
        self.method.faults()
    }

    fn begin(&mut self, alloc: Global, job: &Job) -> Word {
        self.begun = self.begun.saturating_add(1);
        self.method.begin(alloc, job)
    }

    fn more(&mut self, alloc: Global) -> Word {
        self.method.more(alloc)
    }
}
