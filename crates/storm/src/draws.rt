//! The generator of the load's numbers. `asking` draws from it.

ghost use Rattle.std.specs.Prelude.{◌≡◌, ◌<◌};
ghost use Rattle.storm.specs.Generator.{draw, state_after};
ghost use Rattle.storm.specs.Places.{draws_of};

use crate::kind::{BLOCK, Kind, kind_of};

/// The multiplier of the generator.
pub const MULTIPLIER: u64 = 6_364_136_223_846_793_005;

/// The increment of the generator.
pub const INCREMENT: u64 = 1_442_695_040_888_963_407;

/// The generator, by its state.
#[derive(Drop)]
pub(crate) struct Draws {
    pub(crate) state: u64,
}

impl Draws {
    /// Goes on as if the request with this number drew.
    #[tactic(auto, unfolding(crate::specs::Generator::state_after))]
    pub(crate) fn pass(&mut self, i: u32)
        ensures { self.new.state ≡ state_after self.old.state (draws_of i) }
    {
        match kind_of(i / BLOCK) {
            Kind::AwaitedProduce | Kind::FollowerFetch => self.step(),
            Kind::PromptProduce => {}
            Kind::ConsumerFetch => {
                self.step();
                self.step();
                self.step();
            }
        }
    }

    #[tactic(auto, unfolding(crate::specs::Generator::state_after))]
    fn step(&mut self)
        ensures { self.new.state ≡ state_after self.old.state 1 }
    {
        self.state = self.state.wrapping_mul(MULTIPLIER).wrapping_add(INCREMENT);
    }

    /// The next number, below `most`.
    pub(crate) fn draw(&mut self, most: u32) -> u32
        requires { 0 < most }
        ensures state { self.new.state ≡ state_after self.old.state 1 }
        ensures drawn { result ≡ draw self.old.state 0 most }
        ensures below { result < most }
    {
        self.step();
        ((self.state >> 33) % u64::from(most)) as u32
    }
}
