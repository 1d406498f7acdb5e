//! The rule of the channel of replies, and its five kinds of step.
//!
//! What the rule asks stands in specs/Rule.antt. The types here carry those definitions into the channel's calls, and no
//! value of them is made.

use crate::Told;
use acq_base::{Answer, Row, Uri};
use crossbeam_channel::protocol::{Join, Lesson, Outcome, Protocol, Split};
use crossbeam_channel::{Pass, RuledReceiver, RuledSender};
use std::collections::LinkedList;
use std::marker::{Brand, PhantomData};

/// What a pass knows of the lanes.
pub struct View {
    pub live: bool,
    pub lane: u32,
    pub world: Option<Row<(Uri, Answer)>>,
    pub last: u64,
    pub worlds: LinkedList<Option<Row<(Uri, Answer)>>>,
    pub taken: LinkedList<u64>,
    pub notes: LinkedList<u64>,
}

/// The rule. Making the channel is the first kind of step.
pub struct LaneRule;

impl Protocol<Told, View> for LaneRule {
    ghost use Rattle.lane_pool.specs.Rule.{IsKept, fresh};

    ghost holds = { IsKept };

    ghost first = { fresh };
}

/// What a new lane begins with, picked by each call: the mirror that its method tells, and its method's count.
pub trait Opening {
    ghost use Rattle.std.specs.Prelude.{ℕ, Option};
    ghost use Rattle.acq_base.specs.Mirror.{MirrorMap};

    ghost world: { Option MirrorMap };

    ghost count: { ℕ };
}

impl Opening for Brand {
    ghost use Rattle.std.specs.Prelude.{None};

    ghost world = { None };

    ghost count = { 0 };
}

/// Splitting off a new worker's pass.
pub struct Splits<B> {
    marker: PhantomData<B>,
}

impl<B: Opening> Split<View> for Splits<B> {
    ghost use Rattle.lane_pool.specs.Rule.{with_lane, worker_of};

    ghost left = { with_lane B.world B.count };

    ghost right = { worker_of B.world B.count };
}

/// A worker's send.
pub struct Sends;

impl Outcome<Told, View> for Sends {
    ghost use Rattle.lane_pool.specs.Rule.{IsSent};

    ghost then = { IsSent };
}

impl Lesson<Told, View> for Sends {
    ghost use Rattle.std.specs.Prelude.{⊤};

    ghost fact = { λ v items. ⊤ };
}

/// The coordinator's receive.
pub struct Receives;

impl Outcome<Told, View> for Receives {
    ghost use Rattle.lane_pool.specs.Rule.{IsReceived};

    ghost then = { IsReceived };
}

impl Lesson<Told, View> for Receives {
    ghost use Rattle.std.specs.Prelude.{⊤};

    ghost fact = { λ v items. ⊤ };
}

/// Taking a worker's pass back in.
pub struct TakesBack;

impl Join<View> for TakesBack {
    ghost use Rattle.lane_pool.specs.Rule.{with_note, gone};

    ghost both = { with_note };

    ghost spent = { gone };
}

/// What the coordinator learns of the lanes that are back.
pub struct Bounds;

impl Lesson<Told, View> for Bounds {
    ghost use Rattle.lane_pool.specs.Rule.{AreBounded};

    ghost fact = { λ v items. AreBounded v };
}

/// A sending end of the channel.
pub type ReplySender = RuledSender<Told, View, LaneRule>;

/// The receiving end of the channel.
pub type ReplyReceiver = RuledReceiver<Told, View, LaneRule>;

/// A pass of the channel.
pub type LanePass = Pass<Told, View>;
