//! The one-thread broker without an index: what a session does once it is its turn, and what a line brings. `Watched` decides whose turn
//! it is.

ghost use Rattle.std.specs.Prelude.{◌≡◌, ◌≢◌, ◌<◌, ◌≤◌, Some, None, length, IfNone, IfOk, IfSome, OnOk};
ghost use Rattle.audit.specs.declared.account.SessionEnd.TheVariants.{Refused};
ghost use Rattle.kwire.specs.declared.frame.WireFault.TheVariants.{NoMemory as OutOfMemory};
ghost use Rattle.kwire.specs.declared.frame.Frame.TheVariants.{Whole};
ghost use Rattle.kwire.specs.Frames.{next_frame_of};
ghost use Rattle.kwire.specs.Spelling.{spelling};
ghost use Rattle.kanswer.specs.Answer.{answer};
ghost use Rattle.audit.specs.broker.Acting.{Acts};
ghost use Rattle.audit.specs.broker.Board.{Board, Waiting, account_of, most_sessions, next_call, opening, seat_at, transcript_at};
ghost use Rattle.audit.specs.broker.Completing.{answered_in, shown_now};
ghost use Rattle.audit.specs.broker.Play.{brought};
ghost use Rattle.audit.specs.broker.Turns.{ended};
ghost use Rattle.partlog.specs.Moment.{moment_of};
ghost use Rattle.partlog.specs.declared.clock_event.TheConstants.{MOST_MOMENT};
ghost use Rattle.trace_file.specs.declared.line.Line.TheVariants.{Clock};
ghost use Rattle.lone_broker.specs.Kept.{IsPlayable, StandsFor, Stands, TurnsBy, parked_at, waiting_in};
ghost use Rattle.lone_broker.specs.Looks.{due_in, finished};
ghost use Rattle.lone_broker.specs.Steps.{IsActed, IsBrought, IsFreed, IsReseated, IsTicked, is_ready, last_points, operation_at};

use crate::accept::Asking;
use crate::closing::account;
use crate::completing::{is_reached, look_at_clock, look_at_parts};
use crate::desk::Desk;
use crate::handling::handle;
use crate::opening::open_lists;
use crate::parked::Parked;
use crate::reply::reply_frame;
use crate::shrinking::shrink_parts;
use audit::{Account, Call, CallHow, MOST_CALLS, Point, SessionEnd, end_of_input, put_end_line};
use kanswer::Visitor;
use kbytes::{Bytes, List, NoMemory};
use kwire::{Config, Frame, WireFault, view_request};
use opcond::{Op, is_overdue};
use partlog::{ClockLog, PartLog, Who};
use std::alloc::Global;
use std::marker::Model;
use trace_file::{Digits, Line};

/// What the one-thread broker keeps: a contract sees a board of the definition, and what is kept of the requests that wait. If
/// memory runs out, it may only be dropped.
#[derive(Drop)]
pub struct Engine {
    alloc: Global,
    digits: Digits,
    config: Config,
    parts: List<PartLog>,
    clock: ClockLog,
    desks: List<Desk>,
    parked: List<Option<Parked>>,
}

impl Model for Engine {
    ghost use Rattle.std.specs.Prelude.{[]};
    ghost use Rattle.lone_broker.specs.Kept.{Kept};

    ghost Value = { Kept };

    ghost view = { λ l. record {
      board = record { config = l.config; parts = l.parts; clock = l.clock; seats = l.desks; waiting = [] };
      parked = l.parked;
    } };
}

impl Engine {
    /// A broker with these topics, before the first line.
    pub fn make(alloc: Global, config: Config) -> Result<Engine, NoMemory>
        ensures { IfOk result (λ engine. StandsFor engine (opening config)) }
    {
        let digits = Digits::make(alloc)?;
        let (parts, desks, parked) = open_lists(alloc, &config)?;
        Ok(Engine {
            alloc,
            digits,
            config,
            parts,
            clock: ClockLog::new(alloc),
            desks,
            parked,
        })
    }

    /// How the request of a session is completed now, if one waits and is answerable.
    pub fn due(&self, session: u32) -> Option<CallHow>
        requires there { session < most_sessions }
        requires stands { Stands self.now }
        ensures { (board : Board) → StandsFor self.now board → result ≡ due_in board (waiting_in board.waiting session) }
    {
        let Some(parked) = &self.parked.as_slice()[session as usize] else {
            return None;
        };
        if is_reached(&parked.op, self.parts.as_slice()) {
            Some(CallHow::Satisfied { by: 0 })
        } else if is_overdue(&parked.op, self.clock.now()) {
            Some(CallHow::Expired { by: 0 })
        } else {
            None
        }
    }

    // The reply to the request of a session that waits, from the logs as they are.
    fn reply(&self, session: u32) -> Result<Bytes, NoMemory>
        requires there { session < most_sessions }
        requires stands { Stands self.now }
        ensures { IfOk result (λ frame. (board : Board) (w : Waiting) → StandsFor self.now board → waiting_in board.waiting session ≡ Some w
            → frame ≡ spelling (answer board.config w.request (shown_now board w.steps))) }
    {
        let Some(parked) = &self.parked.as_slice()[session as usize] else {
            return Ok(Bytes::new(self.alloc));
        };
        let frame = self.desks.as_slice()[session as usize].last_frame();
        // The frame was read when its request was accepted.
        let request = match view_request(self.alloc, frame) {
            Ok(request) => request,
            Err(why) => match why {
                WireFault::NoMemory => return Err(NoMemory),
                _ => unreachable!(),
            },
        };
        let accepted = parked.accepted.as_slice();
        reply_frame(
            self.alloc,
            &self.config,
            self.parts.as_slice(),
            &request,
            accepted,
        )
    }

    // Leaves the looks of a session's request, which waits and is completed now, and records how its call ended.
    fn finish(&mut self, session: u32, how: CallHow) -> Result<(), NoMemory>
        requires there { session < most_sessions }
        requires stands { Stands self.old }
        ensures finished { OnOk result ((board : Board) (w : Waiting) → StandsFor self.old board → waiting_in board.waiting session ≡ Some w
            → StandsFor self.new (finished board w how)) }
        ensures freed { OnOk result (IsFreed session self.old self.new) }
    {
        let Some(parked) = &self.parked.as_slice()[session as usize] else {
            return Ok(());
        };
        let desk = &self.desks.as_slice()[session as usize];
        let who = Who {
            by: session,
            seq: desk.next_call().saturating_sub(1) as u32,
        };
        let mut finish = List::new(self.alloc);
        look_at_clock(who, &how, &mut self.clock, &mut finish)?;
        let parts = self.parts.as_mut_slice();
        look_at_parts(who, parked.accepted.as_slice(), parts, &mut finish)?;
        self.desks.as_mut_slice()[session as usize].finish(session, finish, how)?;
        self.parked.as_mut_slice()[session as usize] = None;
        Ok(())
    }

    /// Answers the request of a session, which is completed now in this way.
    pub fn complete(&mut self, session: u32, how: CallHow, out: &mut Bytes) -> Result<(), NoMemory>
        requires there { session < most_sessions }
        requires stands { Stands self.old }
        requires due { (board : Board) → StandsFor self.old board → Some how ≡ due_in board (waiting_in board.waiting session) }
        ensures answers { OnOk result (TurnsBy (λ board turned. turned ≡ answered_in board session) self.old self.new out.old out.new) }
        ensures freed { OnOk result (IsFreed session self.old self.new) }
    {
        let reply = self.reply(session)?;
        self.digits.put_reply_line(out, session, reply.as_slice())?;
        self.finish(session, how)
    }

    /// Whether the session has something to do, and no request of it waits.
    pub fn is_ready(&self, session: u32) -> bool
        requires there { session < most_sessions }
        requires stands { Stands self.now }
        ensures { result ≡ is_ready self.now session }
    {
        let at = session as usize;
        self.parked.as_slice()[at].is_none() && self.desks.as_slice()[at].has_work()
    }

    /// The operation of a session's request, if one waits.
    pub fn waiting(&self, session: u32) -> Option<&Op>
        requires there { session < most_sessions }
        requires stands { Stands self.now }
        ensures some { IfSome result (λ op. operation_at self.now session ≡ Some op.now) }
        ensures none { IfNone result (operation_at self.now session ≡ None) }
    {
        match &self.parked.as_slice()[session as usize] {
            None => None,
            Some(parked) => Some(&parked.op),
        }
    }

    /// The logs of the partitions.
    pub fn parts(&self) -> &[PartLog]
        ensures { result.now ≡ self.now.board.parts }
    {
        self.parts.as_slice()
    }

    /// The clock's moment, in milliseconds.
    pub fn moment(&self) -> u64
        ensures moment { result ≡ moment_of self.now.board.clock }
        ensures limit { result ≤ MOST_MOMENT }
    {
        self.clock.now()
    }

    /// How many calls the session has made.
    pub fn calls(&self, session: u32) -> u32
        requires there { session < most_sessions }
        requires stands { Stands self.now }
        ensures { result ≡ next_call self.now.board session }
    {
        self.desks.as_slice()[session as usize].next_call() as u32
    }

    /// The points of the entries that the last call of a session left when it was accepted.
    pub fn last_points(&self, session: u32) -> &[Point]
        requires there { session < most_sessions }
        requires stands { Stands self.now }
        ensures { result.now ≡ last_points (transcript_at self.now.board session).calls }
    {
        self.desks.as_slice()[session as usize].last_points()
    }

    // Ends the session in this way, and prints how it ended.
    fn end_session(
        &mut self,
        session: u32,
        end: SessionEnd,
        out: &mut Bytes,
    ) -> Result<(), NoMemory>
        requires { session < length self.old.board.seats }
        ensures ended { OnOk result (TurnsBy (λ board turned. turned ≡ ended board session end) self.old self.new out.old out.new) }
        ensures alone { OnOk result (IsReseated session self.old self.new) }
    {
        self.desks.as_mut_slice()[session as usize].end(session, end);
        put_end_line(out, session, &end)
    }

    // Ends the session, whose frame at the front is refused. Out of memory is no refusal.
    fn refuse(&mut self, session: u32, why: WireFault, out: &mut Bytes) -> Result<(), NoMemory>
        requires { session < length self.old.board.seats }
        ensures why { OnOk result (why ≢ OutOfMemory) }
        ensures ended { OnOk result (TurnsBy (λ board turned. turned ≡ ended board session (Refused why)) self.old self.new out.old out.new) }
        ensures alone { OnOk result (IsReseated session self.old self.new) }
    {
        match why {
            WireFault::NoMemory => Err(NoMemory),
            _ => self.end_session(session, SessionEnd::Refused { why }, out),
        }
    }

    // Handles the frame at the front of a session's bytes, which ends before the place `end`.
    fn take_frame(&mut self, session: u32, end: usize, out: &mut Bytes) -> Result<(), NoMemory>
        requires there { session < most_sessions }
        requires idle { parked_at self.old session ≡ None }
        requires stands { Stands self.old }
        requires whole { next_frame_of (seat_at self.old.board session).inbox ≡ Whole end }
        ensures acts { OnOk result (TurnsBy (λ board. Acts board session) self.old self.new out.old out.new) }
        ensures alone { OnOk result (IsActed session self.old self.new) }
    {
        let desk = &self.desks.as_slice()[session as usize];
        let seq = desk.next_call();
        if seq == MOST_CALLS as usize {
            return self.end_session(session, SessionEnd::CallsFull, out);
        }
        let body = desk.body(self.alloc, end)?;
        let who = Who {
            by: session,
            seq: seq as u32,
        };
        let request = match view_request(self.alloc, body.as_slice()) {
            Ok(request) => request,
            Err(why) => return self.refuse(session, why, out),
        };
        let call = Asking {
            alloc: self.alloc,
            config: &self.config,
            digits: &self.digits,
            visitor: Visitor {
                who,
                moment: self.clock.now(),
            },
        };
        let parts = self.parts.as_mut_slice();
        let handled = handle(&call, parts, &mut self.clock, &request, out)?;
        drop(request);
        let call = Call {
            frame: body,
            accept: handled.accept,
            finish: List::new(self.alloc),
            how: handled.how,
        };
        self.desks.as_mut_slice()[session as usize].note(session, end, call)?;
        self.parked.as_mut_slice()[session as usize] = handled.parked;
        Ok(())
    }

    /// A session acts once: it handles the frame at the front, or ends.
    pub fn act(&mut self, session: u32, out: &mut Bytes) -> Result<(), NoMemory>
        requires there { session < most_sessions }
        requires idle { parked_at self.old session ≡ None }
        requires stands { Stands self.old }
        ensures acts { OnOk result (TurnsBy (λ board. Acts board session) self.old self.new out.old out.new) }
        ensures alone { OnOk result (IsActed session self.old self.new) }
    {
        let desk = &self.desks.as_slice()[session as usize];
        match desk.front() {
            Frame::Whole { end } => self.take_frame(session, end, out),
            Frame::NotYet => {
                let end = end_of_input(desk.left());
                self.end_session(session, end, out)
            }
            Frame::TooLong { size } => {
                self.end_session(session, SessionEnd::FrameTooLong { size }, out)
            }
        }
    }

    // Tells the clock a moment. Where it rises, the followers that lag at it leave, in one partition after the other.
    fn tick(&mut self, t: u64) -> Result<(), NoMemory>
        requires { t ≤ MOST_MOMENT }
        ensures brought { OnOk result ((board : Board) → StandsFor self.old board → StandsFor self.new (brought board (Clock t))) }
        ensures alone { OnOk result (IsTicked self.old self.new) }
    {
        let rose = self.clock.tick(t)?;
        if rose {
            shrink_parts(self.parts.as_mut_slice(), t)
        } else {
            Ok(())
        }
    }

    /// Takes in what a line brings.
    pub fn bring(&mut self, line: &Line) -> Result<(), NoMemory>
        requires playable { IsPlayable line.now }
        requires stands { Stands self.old }
        ensures brought { OnOk result ((board : Board) → StandsFor self.old board → StandsFor self.new (brought board line.now)) }
        ensures alone { OnOk result (IsBrought line.now self.old self.new) }
    {
        match line {
            Line::Feed { session, bytes } => {
                self.desks.as_mut_slice()[*session as usize].feed(*session, bytes.as_slice())?;
            }
            Line::Shut { session } => {
                self.desks.as_mut_slice()[*session as usize].shut(*session);
            }
            Line::Clock { t } => {
                self.tick(*t)?;
            }
            Line::Topic { .. } | Line::End => {}
        }
        Ok(())
    }

    /// The account of what was done so far.
    pub fn close(self) -> Result<Account, NoMemory>
        requires { Stands self }
        ensures { IfOk result (λ account. (board : Board) → StandsFor self board → account ≡ account_of board) }
    {
        account(self.alloc, self.config, self.parts, self.clock, self.desks)
    }
}
