//! The coordinator's pass, where workers' passes are taken back in.
ghost use Rattle.std.specs.Prelude.{◌≡◌, true, length};
ghost use Rattle.crossbeam_channel.specs.Claims.{view, IsSeatAt};
ghost use Rattle.crossbeam_channel.specs.Ends.{sends_on};
ghost use Rattle.lane_pool.specs.Rule.{with_note, AreBounded};

use crate::rule::{Bounds, LanePass, ReplySender, TakesBack};

/// The coordinator's pass once nothing is received any more.
#[derive(Drop)]
pub struct Coordinator {
    pub sends: ReplySender,
    pub pass: LanePass,
    ghost seat: { IsSeatAt (sends_on sends) pass },
    ghost live: { (view pass).live ≡ true },
    ghost coordinator: { (view pass).lane ≡ 0 },
}

impl Coordinator {
    /// Takes the pass of the next worker's lane back in.
    pub fn take_back(&mut self, pass: LanePass)
        requires seat { IsSeatAt (sends_on self.old.sends) pass }
        requires live { (view pass).live ≡ true }
        requires lane { (view pass).lane ≡ length (view self.old.pass).notes }
        ensures sends { self.new.sends ≡ self.old.sends }
        ensures view { view self.new.pass ≡ with_note (view self.old.pass) (view pass) }
    {
        self.sends.absorb::<TakesBack>(&mut self.pass, pass);
    }

    /// What was taken of the lanes that are back is at or below their last counts.
    pub fn learn_counts(&mut self)
        ensures sends { self.new.sends ≡ self.old.sends }
        ensures view { view self.new.pass ≡ view self.old.pass }
        ensures bounds { AreBounded (view self.new.pass) }
    {
        self.sends.learn_as::<Bounds>(&mut self.pass);
    }
}
