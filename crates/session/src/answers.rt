//! A request of a session is answered, without its link: the clock is asked, the frame is handled, and where the request waits, so does this.
ghost use Rattle.std.specs.Prelude.{◌≡◌, ◌≤◌, IfErr, IfOk, IsSome, None, OnErr, false};
ghost use Rattle.session.specs.Answering.{HasAnswered, HasOnlyLooked, IsCutShort, IsFinished};
ghost use Rattle.outside.specs.shared.clock.ClockViews.{IsPassOf};
ghost use Rattle.shared_broker.specs.Passes.{made_with};
ghost use Rattle.shared_broker.specs.Sessions.{is_cut_off};

use audit::SessionEnd;
use kbytes::{Bytes, NoMemory};
use outside::Clock;
use outside::shared::clock::{ClockPass, Shared};
use shared_broker::{Broker, Collected, Handled, Pass};
use std::alloc::Global;
use std::sync::Wait;
use std::time::Duration;

/// Where a session is served: a broker, the clock that it is told, and what a session takes of the machine.
#[derive(Drop)]
pub(crate) struct Room<'a, C: Clock, R: Wait> {
    pub(crate) rt: &'a R,
    pub(crate) alloc: Global,
    pub(crate) broker: &'a Broker,
    pub(crate) clock: &'a Shared<C>,
}

/// What became of a frame.
#[derive(Drop)]
pub(crate) enum Answered {
    /// The whole frame of the reply.
    Reply(Bytes),
    /// The request asks for none.
    Quiet,
    /// The session is to end so.
    Ended(SessionEnd),
}

impl<C: Clock, R: Wait> Room<'_, C, R> {
    // The clock of the broker is told what moment it is.
    fn tick(&self, pass: &mut Pass, seat: &mut ClockPass<C>) -> Result<(), NoMemory>
        requires made { made_with pass.old ≡ self.now.broker.now }
        requires seat { IsPassOf self.now.clock.now seat.old }
        ensures looked { HasOnlyLooked seat.new.told pass.old pass.new }
        ensures seat { seat.new.made ≡ seat.old.made }
        ensures later { seat.old.told ≤ seat.new.told }
    {
        let moment = self.clock.now(self.rt, seat)?;
        self.broker.tick(self.rt, pass, moment)
    }

    // The request that waits wasn't won yet: rests, and ticks where its deadline has come. Answers the moment after the rest.
    fn rest(&self, pass: &mut Pass, seat: &mut ClockPass<C>, deadline: u64) -> u64
        requires made { made_with pass.old ≡ self.now.broker.now }
        requires seat { IsPassOf self.now.clock.now seat.old }
        ensures looked { HasOnlyLooked seat.new.told pass.old pass.new }
        ensures seat { seat.new.made ≡ seat.old.made }
        ensures later { seat.old.told ≤ seat.new.told }
    {
        let moment = self.clock.rest(self.rt, seat);
        if moment >= deadline {
            // Where memory runs out here, the session goes on waiting.
            let _ = self.tick(pass, seat);
        }
        moment
    }

    // Waits until the request that waits is won, by another or by its deadline, and takes the reply.
    fn collect(
        &self,
        pass: &mut Pass,
        seat: &mut ClockPass<C>,
        deadline: u64,
    ) -> Result<Bytes, NoMemory>
        requires made { made_with pass.old ≡ self.now.broker.now }
        requires seat { IsPassOf self.now.clock.now seat.old }
        requires waits { IsSome pass.old.waits }
        ensures reply { IfOk result (IsFinished seat.new.told pass.old pass.new) }
        ensures refused { OnErr result (IsCutShort seat.new.told pass.old pass.new) }
        ensures seat { seat.new.made ≡ seat.old.made }
        ensures later { seat.old.told ≤ seat.new.told }
    {
        let mut moment = seat.told();
        for _ in self.rt.forever() {
            let most = Duration::from_millis(deadline.saturating_sub(moment));
            self.broker.wait(self.rt, pass, most);
            match self.broker.collect(self.rt, pass) {
                Collected::Reply(frame) => return Ok(frame),
                Collected::NotYet => moment = self.rest(pass, seat, deadline),
                Collected::NoMemory => return Err(NoMemory),
            }
        }
        unreachable!()
    }

    /// The body of a frame is handled as one call, at the moment that it is; where its request waits, the reply is waited for.
    pub(crate) fn answer(&self, pass: &mut Pass, seat: &mut ClockPass<C>, body: &[u8]) -> Answered
        requires made { made_with pass.old ≡ self.now.broker.now }
        requires seat { IsPassOf self.now.clock.now seat.old }
        requires begun { IsSome pass.old.going }
        requires none { pass.old.waits ≡ None }
        requires whole { is_cut_off pass.old.going ≡ false }
        ensures answered { HasAnswered seat.new.told body.now result pass.old pass.new }
        ensures seat { seat.new.made ≡ seat.old.made }
        ensures later { seat.old.told ≤ seat.new.told }
    {
        if self.tick(pass, seat).is_err() {
            return Answered::Ended(SessionEnd::NoMemory);
        }
        match self.broker.handle(self.rt, pass, body) {
            Handled::Reply(frame) => Answered::Reply(frame),
            Handled::Quiet => Answered::Quiet,
            Handled::Parked { deadline } => match self.collect(pass, seat, deadline) {
                Ok(frame) => Answered::Reply(frame),
                Err(NoMemory) => Answered::Ended(SessionEnd::NoMemory),
            },
            Handled::Ended(end) => Answered::Ended(end),
            Handled::NoMemory => Answered::Ended(SessionEnd::NoMemory),
        }
    }
}
