//! One session, from its link's bytes to its link's bytes.
ghost use Rattle.std.specs.Prelude.{◌≡◌, ◌≤◌, None, true};
ghost use Rattle.session.specs.Flows.{link_of};
ghost use Rattle.session.specs.Onwards.{HasGoneOn};
ghost use Rattle.session.specs.Served.{HasServed};
ghost use Rattle.session.specs.Standing.{HasStepped, IsEnding, IsServing, Start as Began, began};
ghost use Rattle.outside.specs.shared.clock.ClockViews.{IsPassOf};
ghost use Rattle.shared_broker.specs.Passes.{made_with};

use crate::answers::{Answered, Room};
use crate::intake::Intake;
use audit::SessionEnd;
use kbytes::NoMemory;
use kwire::Frame;
use outside::shared::clock::{ClockPass, Shared};
use outside::{Clock, Link, write_whole};
use shared_broker::{Broker, Pass};
use std::alloc::Global;
use std::sync::Wait;

impl<C: Clock, R: Wait> Room<'_, C, R> {
    // One frame is served where one is there, and else more is read.
    fn step<L: Link>(
        &self,
        pass: &mut Pass,
        seat: &mut ClockPass<C>,
        link: &mut L,
        intake: &mut Intake,
    ) -> Option<SessionEnd>
        requires made { made_with pass.old ≡ self.now.broker.now }
        requires seat { IsPassOf self.now.clock.now seat.old }
        requires serving { (start : Began) × IsServing start seat.old.told pass.old
            (link_of (L.taken link.old) (L.left link.old) (L.written link.old) (L.faults link.old)) intake.old.inbox }
        ensures stepped { (start : Began) → IsServing start seat.old.told pass.old
            (link_of (L.taken link.old) (L.left link.old) (L.written link.old) (L.faults link.old)) intake.old.inbox
            → HasStepped start seat.new.told result pass.new
            (link_of (L.taken link.new) (L.left link.new) (L.written link.new) (L.faults link.new)) intake.new.inbox }
        ensures made { made_with pass.new ≡ made_with pass.old }
        ensures seat { seat.new.made ≡ seat.old.made }
        ensures later { seat.old.told ≤ seat.new.told }
    {
        let end = match intake.next() {
            Frame::Whole { end } => end,
            Frame::TooLong { size } => return Some(SessionEnd::FrameTooLong { size }),
            Frame::NotYet => return intake.read(link),
        };
        match self.answer(pass, seat, intake.body(end)) {
            Answered::Reply(frame) => {
                intake.pass(end);
                match write_whole(link, frame.as_slice()) {
                    Ok(()) => None,
                    Err(_) => Some(SessionEnd::WriteFault),
                }
            }
            Answered::Quiet => {
                intake.pass(end);
                None
            }
            Answered::Ended(why) => Some(why),
        }
    }

    // Goes on until the session is to end.
    fn serve<L: Link>(
        &self,
        pass: &mut Pass,
        seat: &mut ClockPass<C>,
        link: &mut L,
        intake: &mut Intake,
    ) -> SessionEnd
        requires made { made_with pass.old ≡ self.now.broker.now }
        requires seat { IsPassOf self.now.clock.now seat.old }
        requires serving { (start : Began) × IsServing start seat.old.told pass.old
            (link_of (L.taken link.old) (L.left link.old) (L.written link.old) (L.faults link.old)) intake.old.inbox }
        ensures ending { (start : Began) → IsServing start seat.old.told pass.old
            (link_of (L.taken link.old) (L.left link.old) (L.written link.old) (L.faults link.old)) intake.old.inbox
            → IsEnding start seat.new.told result pass.new
            (link_of (L.taken link.new) (L.left link.new) (L.written link.new) (L.faults link.new)) }
        ensures made { made_with pass.new ≡ made_with pass.old }
        ensures seat { seat.new.made ≡ seat.old.made }
        ensures later { seat.old.told ≤ seat.new.told }
    {
        for _ in self.rt.forever() {
            if let Some(end) = self.step(pass, seat, link, intake) {
                return end;
            }
        }
        unreachable!()
    }

    // Begins the transcript of this number, and serves the frames that come.
    fn run<L: Link>(
        &self,
        pass: &mut Pass,
        number: u64,
        seat: &mut ClockPass<C>,
        link: &mut L,
    ) -> SessionEnd
        requires made { made_with pass.old ≡ self.now.broker.now }
        requires none { pass.old.going ≡ None }
        requires seat { IsPassOf self.now.clock.now seat.old }
        ensures ending { IsEnding (began number pass.old
            (link_of (L.taken link.old) (L.left link.old) (L.written link.old) (L.faults link.old))) seat.new.told result pass.new
            (link_of (L.taken link.new) (L.left link.new) (L.written link.new) (L.faults link.new)) }
        ensures made { made_with pass.new ≡ made_with pass.old }
        ensures seat { seat.new.made ≡ seat.old.made }
        ensures later { seat.old.told ≤ seat.new.told }
    {
        pass.keeps();
        self.broker.begin(pass, number);
        let Ok(mut intake) = Intake::new(self.alloc) else {
            return SessionEnd::NoMemory;
        };
        self.serve(pass, seat, link, &mut intake)
    }
}

/// Serves one session of this number over its link, and answers how it ended; where that is `NoMemory`, its transcript may be begun still. It
/// handles each frame as one call, at a moment of the clock that it then ticks, writes each reply whole, and where a request waits sleeps until
/// it is won or its deadline has come. A link is read only while no whole frame is there, and is shut in the end.
pub fn serve_session<L: Link, C: Clock>(
    rt: &impl Wait,
    alloc: Global,
    broker: &Broker,
    pass: &mut Pass,
    number: u64,
    link: &mut L,
    clock: &Shared<C>,
    seat: &mut ClockPass<C>,
) -> SessionEnd
    requires made { made_with pass.old ≡ broker.now }
    requires none { pass.old.going ≡ None }
    requires seat { IsPassOf clock.now seat.old }
    ensures served { HasServed number result pass.old pass.new
        (link_of (L.taken link.old) (L.left link.old) (L.written link.old) (L.faults link.old))
        (link_of (L.taken link.new) (L.left link.new) (L.written link.new) (L.faults link.new)) }
    ensures pass { HasGoneOn seat.new.told pass.old pass.new }
    ensures none { pass.new.waits ≡ None }
    ensures shut { L.is_shut link.new ≡ true }
    ensures seat { seat.new.made ≡ seat.old.made }
    ensures later { seat.old.told ≤ seat.new.told }
{
    let room = Room {
        rt,
        alloc,
        broker,
        clock,
    };
    let end = room.run(pass, number, seat, link);
    let finished = broker.finish(pass, end);
    link.shut();
    match finished {
        Ok(()) => end,
        Err(NoMemory) => SessionEnd::NoMemory,
    }
}
