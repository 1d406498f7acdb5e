//! Numbers drawn one after another. It touches nothing and takes no memory.
ghost use Rattle.std.specs.Prelude.{◌≡◌, ◌<◌, ◌≤◌};
ghost use Rattle.mirror_maker.specs.Draws.{drawn, next};

/// The state of a linear congruential generator modulo 2^64.
#[derive(Clone, Copy, Debug, PartialEq, Eq)]
pub struct Draws {
    pub state: u64,
}

impl Draws {
    /// A number below `below`, from the high half of the next state.
    #[tactic(auto, using(crate::proofs::Remainders::next_is))]
    pub fn below(&mut self, below: u32) -> u32
        requires { 1 ≤ below }
        ensures drawn { result ≡ drawn self.old.state below }
        ensures state { self.new.state ≡ next self.old.state }
        ensures small { result < below }
    {
        self.state = self
            .state
            .wrapping_mul(6_364_136_223_846_793_005)
            .wrapping_add(1_442_695_040_888_963_407);
        (self.state >> 32) as u32 % below
    }
}
