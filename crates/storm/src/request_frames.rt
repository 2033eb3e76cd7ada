//! The frames of a load's requests, one after the other. Who plays a load makes each as it comes to it.

ghost use Rattle.std.specs.Prelude.{◌≡◌, ◌<◌, IfOk};
ghost use Rattle.storm.specs.Generator.{state_after};
ghost use Rattle.storm.specs.Lines.{frame_from};
ghost use Rattle.storm.specs.Places.{draws_of};

use crate::asking::{LONGEST_WAIT, PROMPT_TIMEOUT, consumer_wish, follower_wish};
use crate::draws::Draws;
use crate::fetch_form::FetchForm;
use crate::kind::{BLOCK, Kind, kind_of};
use crate::load::MOST_REQUESTS;
use crate::produce_form::ProduceForm;
use kbytes::NoMemory;
use std::alloc::Global;
use std::marker::Model;

/// The generator, and the last produce and the last fetch, over which the next ones are written. So no memory is taken for a request. A clause sees
/// the generator's state and the frame that was made last.
#[derive(Drop)]
pub struct RequestFrames {
    draws: Draws,
    produce: ProduceForm,
    fetch: FetchForm,
    is_fetch: bool,
}

impl Model for RequestFrames {
    ghost use Rattle.std.specs.Prelude.{if◌then◌else◌};
    ghost use Rattle.storm.specs.RequestFrames.{FramesView};

    ghost Value = { FramesView };

    ghost view = { λ f. record { state = f.draws.state; frame = if f.is_fetch then f.fetch else f.produce } };
}

impl RequestFrames {
    /// Before the first request of a load that this seed gives.
    pub fn new(alloc: Global, seed: u64) -> Result<RequestFrames, NoMemory>
        ensures { IfOk result (λ frames. frames.state ≡ seed) }
    {
        Ok(RequestFrames {
            draws: Draws { state: seed },
            produce: ProduceForm::new(alloc)?,
            fetch: FetchForm::new(alloc)?,
            is_fetch: false,
        })
    }

    /// Makes the frame of the request with this number.
    #[tactic(auto, unfolding(crate::specs::Generator::state_after))]
    pub fn make(&mut self, i: u32)
        requires { i < MOST_REQUESTS }
        ensures is { self.new.frame ≡ frame_from self.old.state i }
        ensures drawn { self.new.state ≡ state_after self.old.state (draws_of i) }
    {
        let block = i / BLOCK;
        match kind_of(block) {
            Kind::AwaitedProduce => {
                let timeout = 1 + self.draws.draw(LONGEST_WAIT);
                self.produce.write(i, -1, timeout);
                self.is_fetch = false;
            }
            Kind::FollowerFetch => {
                self.fetch.write(i, follower_wish(&mut self.draws, block));
                self.is_fetch = true;
            }
            Kind::PromptProduce => {
                self.produce.write(i, 1, PROMPT_TIMEOUT);
                self.is_fetch = false;
            }
            Kind::ConsumerFetch => {
                self.fetch.write(i, consumer_wish(&mut self.draws, block));
                self.is_fetch = true;
            }
        }
    }

    /// The frame that was made last.
    pub fn frame(&self) -> &[u8]
        ensures { result.now ≡ self.now.frame }
    {
        if self.is_fetch {
            self.fetch.frame()
        } else {
            self.produce.frame()
        }
    }

    /// Goes on as if the frame of the request with this number had been made. The one that was made last stays.
    pub fn pass(&mut self, i: u32)
        ensures drawn { self.new.state ≡ state_after self.old.state (draws_of i) }
        ensures kept { self.new.frame ≡ self.old.frame }
    {
        self.draws.pass(i);
    }
}
