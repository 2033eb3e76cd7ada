//! What a session does between lines: a worker calls `step` until it answers false. Each step asks the broker for one thing.
ghost use Rattle.std.specs.Prelude.{◌≡◌, ◌≢◌, ℕ, true, false, List as Items, ◌++◌, drop, None, IsSome, is_some, IfOk, OnOk};
ghost use Rattle.kwire.specs.declared.frame.Frame.TheVariants.{Whole};
ghost use Rattle.kwire.specs.Frames.{IsFrameBody, framed, next_frame_of};
ghost use Rattle.purgatory.specs.Polled.{HasPolled};
ghost use Rattle.room_table.specs.Seats.{CallerView};
ghost use Rattle.shared_broker.specs.Calling.{HasHandledAs};
ghost use Rattle.shared_broker.specs.Collecting.{HasCollectedAs};
ghost use Rattle.shared_broker.specs.Passes.{made_with};
ghost use Rattle.shared_broker.specs.Sessions.{is_cut_off};
ghost use Rattle.trace_workers.specs.Ending.{EndsSo};
ghost use Rattle.trace_workers.specs.Received.{HasReceived};
ghost use Rattle.trace_workers.specs.Resting.{Rests};
ghost use Rattle.trace_workers.specs.Sessions.{IsSameSession};

use crate::reply_lines::put_line;
use crate::session::TraceSession;
use audit::{SessionEnd, end_of_input};
use kbytes::NoMemory;
use kwire::{Frame, next_frame};
use shared_broker::{Broker, Collected, Handled, Pass};
use std::sync::Wait;

// The body of the first frame, which ends before the place `end`.
fn front_body(bytes: &[u8], end: usize) -> &[u8]
    requires { next_frame_of bytes.now ≡ Whole end }
    ensures small { IsFrameBody result.now }
    ensures parts { bytes.now ≡ framed result.now ++ drop end bytes.now }
{
    &bytes[4..end]
}

// Hands the broker a frame. If no line is kept of the reply, it has no bytes.
fn ask(rt: &impl Wait, broker: &Broker, pass: &mut Pass, body: &[u8], keeps_lines: bool) -> Handled
    requires made { made_with pass.old ≡ broker.now }
    requires begun { IsSome pass.old.going }
    requires none { pass.old.waits ≡ None }
    requires whole { is_cut_off pass.old.going ≡ false }
    ensures { HasHandledAs keeps_lines body.now result pass.old pass.new }
{
    if keeps_lines {
        broker.handle(rt, pass, body)
    } else {
        broker.handle_unsent(rt, pass, body)
    }
}

// Asks the broker for the reply that its session waits for. If no line is kept of it, it has no bytes.
#[inline(always)]
fn ask_again(rt: &impl Wait, broker: &Broker, pass: &mut Pass, keeps_lines: bool) -> Collected
    requires made { made_with pass.old ≡ broker.now }
    requires waits { IsSome pass.old.waits }
    ensures { HasCollectedAs keeps_lines result pass.old pass.new }
{
    if keeps_lines {
        broker.collect(rt, pass)
    } else {
        broker.collect_unsent(rt, pass)
    }
}

impl TraceSession {
    /// Does one thing more, if it can: takes the reply to a request that was won, handles the first whole frame, or ends. Answers whether it did. If not,
    /// the session rests, and if its request still waits, this call found that. If memory runs out, the session may only be dropped.
    #[inline(always)]
    pub fn step(&mut self, rt: &impl Wait, broker: &Broker) -> Result<bool, NoMemory>
        requires made { made_with self.old.pass ≡ broker.now }
        requires received { (input : Items ℕ) × HasReceived input self.old }
        ensures same { IsSameSession self.old self.new }
        ensures named { self.new.is_named ≡ self.old.is_named }
        ensures shut { self.new.is_shut ≡ self.old.is_shut }
        ensures received { OnOk result ((input : Items ℕ) → HasReceived input self.old → HasReceived input self.new) }
        ensures moved { IfOk result (λ did. did ≡ true → self.new.pass.going ≢ self.old.pass.going) }
        ensures rests { IfOk result (λ did. did ≡ false → Rests self.new) }
        ensures looked { IfOk result (λ did. did ≡ false → is_some self.new.pass.waits ≡ true → HasPolled None self.old.pass.logs.seat self.new.pass.logs.seat) }
    {
        if self.pass.waits() {
            return self.collect(rt, broker);
        }
        if !self.has_more() {
            return Ok(false);
        }
        self.take_next(rt, broker)
    }

    /// Goes on until it can do nothing more.
    pub fn go_on(&mut self, rt: &impl Wait, broker: &Broker) -> Result<(), NoMemory>
        requires made { made_with self.old.pass ≡ broker.now }
        requires received { (input : Items ℕ) × HasReceived input self.old }
        ensures same { IsSameSession self.old self.new }
        ensures named { self.new.is_named ≡ self.old.is_named }
        ensures shut { self.new.is_shut ≡ self.old.is_shut }
        ensures received { OnOk result ((input : Items ℕ) → HasReceived input self.old → HasReceived input self.new) }
        ensures rests { OnOk result (Rests self.new) }
        ensures looked { OnOk result (is_some self.new.pass.waits ≡ true → (before : CallerView) × HasPolled None before self.new.pass.logs.seat) }
    {
        for _ in rt.forever() {
            if !self.step(rt, broker)? {
                return Ok(());
            }
        }
        unreachable!()
    }

    // Whether its transcript goes on, and bytes are left or its input ended. Most sessions that are asked have nothing more, and so this comes first.
    fn has_more(&self) -> bool
        ensures begun { result ≡ true → IsSome self.now.pass.going }
        ensures rests { result ≡ false → Rests self.now }
    {
        self.pass.is_begun() && (self.is_shut || !self.inbox.bytes().is_empty())
    }

    // Handles the first whole frame, or ends, if it can. Apart from `step`, which most sessions leave at once.
    #[inline(never)]
    fn take_next(&mut self, rt: &impl Wait, broker: &Broker) -> Result<bool, NoMemory>
        requires made { made_with self.old.pass ≡ broker.now }
        requires received { (input : Items ℕ) × HasReceived input self.old }
        requires begun { IsSome self.old.pass.going }
        requires none { self.old.pass.waits ≡ None }
        ensures same { IsSameSession self.old self.new }
        ensures named { self.new.is_named ≡ self.old.is_named }
        ensures shut { self.new.is_shut ≡ self.old.is_shut }
        ensures received { OnOk result ((input : Items ℕ) → HasReceived input self.old → HasReceived input self.new) }
        ensures moved { IfOk result (λ did. did ≡ true → self.new.pass.going ≢ self.old.pass.going) }
        ensures rests { IfOk result (λ did. did ≡ false → Rests self.new) }
        ensures waits { IfOk result (λ did. did ≡ false → self.new.pass.waits ≡ None) }
    {
        match next_frame(self.inbox.bytes()) {
            Frame::Whole { end } => self.handle(rt, broker, end),
            Frame::TooLong { size } => self.end(broker, SessionEnd::FrameTooLong { size }),
            Frame::NotYet => {
                if !self.is_shut {
                    return Ok(false);
                }
                let end = end_of_input(self.inbox.bytes());
                self.end(broker, end)
            }
        }
    }

    // Keeps of the last reply, if it is long, only what doesn't stand in a log. Apart from `step`, which most sessions leave at once.
    #[inline(never)]
    fn shorten(&mut self, rt: &impl Wait, broker: &Broker) -> Result<(), NoMemory>
        requires made { made_with self.old.pass ≡ broker.now }
        requires received { (input : Items ℕ) × HasReceived input self.old }
        ensures same { IsSameSession self.old self.new }
        ensures named { self.new.is_named ≡ self.old.is_named }
        ensures shut { self.new.is_shut ≡ self.old.is_shut }
        ensures inbox { self.new.inbox ≡ self.old.inbox }
        ensures going { self.new.pass.going ≡ self.old.pass.going }
        ensures received { OnOk result ((input : Items ℕ) → HasReceived input self.old → HasReceived input self.new) }
    {
        match &mut self.kept {
            Some(lines) => lines.shorten(rt, broker, &mut self.pass),
            None => Ok(()),
        }
    }

    // Takes the reply to its request that waits, if that was won.
    #[inline(always)]
    fn collect(&mut self, rt: &impl Wait, broker: &Broker) -> Result<bool, NoMemory>
        requires made { made_with self.old.pass ≡ broker.now }
        requires received { (input : Items ℕ) × HasReceived input self.old }
        requires waits { IsSome self.old.pass.waits }
        ensures same { IsSameSession self.old self.new }
        ensures named { self.new.is_named ≡ self.old.is_named }
        ensures shut { self.new.is_shut ≡ self.old.is_shut }
        ensures received { OnOk result ((input : Items ℕ) → HasReceived input self.old → HasReceived input self.new) }
        ensures moved { IfOk result (λ did. did ≡ true → self.new.pass.going ≢ self.old.pass.going) }
        ensures rests { IfOk result (λ did. did ≡ false → Rests self.new) }
        ensures looked { IfOk result (λ did. did ≡ false → is_some self.new.pass.waits ≡ true → HasPolled None self.old.pass.logs.seat self.new.pass.logs.seat) }
    {
        match ask_again(rt, broker, &mut self.pass, self.kept.is_some()) {
            Collected::Reply(frame) => {
                put_line(&mut self.kept, self.number, frame)?;
                self.shorten(rt, broker)?;
                Ok(true)
            }
            Collected::NotYet => Ok(false),
            Collected::NoMemory => Err(NoMemory),
        }
    }

    // Handles the first frame, which ends before the place `end`.
    fn handle(&mut self, rt: &impl Wait, broker: &Broker, end: usize) -> Result<bool, NoMemory>
        requires made { made_with self.old.pass ≡ broker.now }
        requires received { (input : Items ℕ) × HasReceived input self.old }
        requires begun { IsSome self.old.pass.going }
        requires none { self.old.pass.waits ≡ None }
        requires whole { next_frame_of self.old.inbox ≡ Whole end }
        ensures same { IsSameSession self.old self.new }
        ensures named { self.new.is_named ≡ self.old.is_named }
        ensures shut { self.new.is_shut ≡ self.old.is_shut }
        ensures received { OnOk result ((input : Items ℕ) → HasReceived input self.old → HasReceived input self.new) }
        ensures did { IfOk result (λ did. did ≡ true) }
        ensures moved { OnOk result (self.new.pass.going ≢ self.old.pass.going) }
    {
        let body = front_body(self.inbox.bytes(), end);
        match ask(rt, broker, &mut self.pass, body, self.kept.is_some()) {
            Handled::Reply(frame) => {
                put_line(&mut self.kept, self.number, frame)?;
                self.inbox.drop_front(end);
                self.shorten(rt, broker)?;
                Ok(true)
            }
            Handled::Quiet | Handled::Parked { .. } => {
                self.inbox.drop_front(end);
                Ok(true)
            }
            Handled::Ended(why) => self.end(broker, why),
            Handled::NoMemory => Err(NoMemory),
        }
    }

    // Ends its transcript.
    fn end(&mut self, broker: &Broker, end: SessionEnd) -> Result<bool, NoMemory>
        requires made { made_with self.old.pass ≡ broker.now }
        requires received { (input : Items ℕ) × HasReceived input self.old }
        requires begun { IsSome self.old.pass.going }
        requires none { self.old.pass.waits ≡ None }
        requires shown { EndsSo end self.old }
        ensures same { IsSameSession self.old self.new }
        ensures named { self.new.is_named ≡ self.old.is_named }
        ensures shut { self.new.is_shut ≡ self.old.is_shut }
        ensures received { OnOk result ((input : Items ℕ) → HasReceived input self.old → HasReceived input self.new) }
        ensures did { IfOk result (λ did. did ≡ true) }
        ensures moved { OnOk result (self.new.pass.going ≢ self.old.pass.going) }
    {
        broker.finish(&mut self.pass, end)?;
        Ok(true)
    }
}
