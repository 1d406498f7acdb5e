//! The channel of replies, as the coordinator has it while workers run.
ghost use Rattle.std.specs.Prelude.{◌≡◌, true, length, IfOk, IfSome, IfNone};
ghost use Rattle.crossbeam_channel.specs.Claims.{view, IsSeatAt};
ghost use Rattle.crossbeam_channel.specs.Ends.{sends_on, receives_on};
ghost use Rattle.lane_pool.specs.Rule.{fresh, with_lane, worker_of, IsReceived};

use crate::Told;
use crate::desk::Coordinator;
use crate::rule::{
    LanePass, LaneRule, Opening, Receives, ReplyReceiver, ReplySender, Splits, View,
};
use acq_base::NoMemory;
use acq_outside::Method;
use crossbeam_channel::bounded_with;
use std::alloc::Global;
use std::sync::Wait;

/// How many words may wait for the coordinator.
const WAITING: usize = 64;

/// The coordinator's ends of the channel, and its pass.
#[derive(Drop)]
pub struct Replies {
    pub sends: ReplySender,
    pub receives: ReplyReceiver,
    pub pass: LanePass,
    ghost one: { receives_on receives ≡ sends_on sends },
    ghost seat: { IsSeatAt (sends_on sends) pass },
    ghost live: { (view pass).live ≡ true },
    ghost coordinator: { (view pass).lane ≡ 0 },
}

impl Replies {
    /// Makes the channel.
    pub fn open(alloc: Global) -> Result<Replies, NoMemory>
        ensures { IfOk result (λ replies. view replies.pass ≡ fresh) }
    {
        let (sends, receives, pass) = bounded_with::<Told, View, LaneRule, Global>(alloc, WAITING)?;
        Ok(Replies {
            sends,
            receives,
            pass,
        })
    }

    /// Splits off the pass of a new worker's lane, which has this method.
    pub fn split<B: Opening, M: Method>(&mut self, method: &M) -> LanePass
        requires world { B.world ≡ M.world method.now }
        requires count { B.count ≡ M.faults method.now }
        ensures sends { self.new.sends ≡ self.old.sends }
        ensures seat { IsSeatAt (sends_on self.new.sends) result }
        ensures view { view self.new.pass ≡ with_lane (M.world method.now) (M.faults method.now) (view self.old.pass) }
        ensures worker { view result ≡ worker_of (M.world method.now) (M.faults method.now) (view self.old.pass) }
    {
        let _ = method;
        self.sends.another::<Splits<B>>(&mut self.pass)
    }

    /// Receives a word, or `None` where none came. It waits for one where `waits` holds.
    pub fn receive<R: Wait>(&mut self, rt: &R, waits: bool) -> Option<Told>
        ensures sends { self.new.sends ≡ self.old.sends }
        ensures some { IfSome result (λ told. IsReceived (view self.old.pass) told (view self.new.pass)) }
        ensures none { IfNone result (view self.new.pass ≡ view self.old.pass) }
    {
        if waits {
            self.receives
                .recv_as::<Receives, R>(rt, &mut self.pass)
                .ok()
        } else {
            self.receives
                .try_recv_as::<Receives, R>(rt, &mut self.pass)
                .ok()
        }
    }

    /// Gives up receiving.
    pub fn close(self) -> Coordinator
        ensures sends { result.sends ≡ self.sends }
        ensures pass { result.pass ≡ self.pass }
    {
        let Replies {
            sends,
            receives,
            pass,
        } = self;
        drop(receives);
        Coordinator { sends, pass }
    }
}
