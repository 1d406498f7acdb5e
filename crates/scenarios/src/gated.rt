//! A method that holds what one host answers until another has answered.

ghost use Rattle.acq_memory.specs.MapMethod.{begins_of, faults_of, mirror_of};

use acq_base::{Job, Text};
use acq_memory::MapMethod;
use acq_outside::{Method, Word};
use std::alloc::Global;
use std::marker::Model;
use std::sync::Arc;
use std::sync::atomic::AtomicBool;
use std::sync::atomic::Ordering::SeqCst;
use std::thread;

/// How often a held fetch looks whether it may go on before it goes on all the same.
const TURNS: u32 = 10_000_000;

/// What the methods of a run share: which host is held, until which other one has answered, and what came of it.
#[derive(Drop)]
pub struct Gate {
    held: Text,
    awaited: Text,
    opened: AtomicBool,
    late: AtomicBool,
}

impl Gate {
    /// A gate that holds the first host until the second one has answered.
    pub fn new(held: Text, awaited: Text) -> Gate {
        Gate {
            held,
            awaited,
            opened: AtomicBool::new(false),
            late: AtomicBool::new(false),
        }
    }

    /// Whether a fetch was held for so long that it went on before the other host had answered.
    pub fn was_late(&self) -> bool {
        self.late.load(SeqCst)
    }

    /// Waits with a job that is held, as long as that may last.
    fn pass(&self, job: &Job) {
        if job.uri.host.as_bytes() != self.held.as_bytes() {
            return;
        }
        for _ in 0..TURNS {
            if self.opened.load(SeqCst) {
                return;
            }
            thread::yield_now();
        }
        self.late.store(true, SeqCst);
    }

    /// A job was answered.
    fn answered(&self, job: &Job) {
        if job.uri.host.as_bytes() == self.awaited.as_bytes() {
            self.opened.store(true, SeqCst);
        }
    }
}

/// A method in memory behind a gate.
#[derive(Drop)]
pub struct GatedMethod {
    method: MapMethod,
    gate: Arc<Gate>,
}

impl GatedMethod {
    /// This method, behind this gate.
    pub fn new(method: MapMethod, gate: Arc<Gate>) -> GatedMethod {
        GatedMethod { method, gate }
    }
}

impl Model for GatedMethod {
    ghost use Rattle.acq_memory.specs.MapMethod.{MapState};

    ghost Value = { MapState };

    ghost view = { λ gated. gated.method };
}

impl Method for GatedMethod {
    ghost faults = { faults_of };

    ghost world = { mirror_of };

    ghost under = { λ method. method.under };

    ghost begins = { begins_of };

    fn faults(&self) -> u64 {
        self.method.faults()
    }

    fn begin(&mut self, alloc: Global, job: &Job) -> Word {
        self.gate.pass(job);
        let word = self.method.begin(alloc, job);
        self.gate.answered(job);
        word
    }

    fn more(&mut self, alloc: Global) -> Word {
        self.method.more(alloc)
    }
}
