//! The sessions and the clock of a run once `gather` has them from the workers: `run_lines` calls `close`, by which one thread lets them go on
//! and then closes the broker.
ghost use Rattle.std.specs.Prelude.{◌≡◌, ◌≢◌, ◌≤◌, ◌<◌, ◌+◌, ◌++◌, ◌∷◌, [], Bool, ℕ, true, false, All, List as Items, IfOk, OnOk, is_some, length, map, slice_index_or};
ghost use Rattle.std.specs.List.{list_any};
ghost use Rattle.trace_file.specs.declared.line.Line.{Line as TheLine};
ghost use Rattle.shared_broker.specs.Closing.{HasClosed as HasEnded};
ghost use Rattle.shared_broker.specs.Passes.{BrokerView};
ghost use Rattle.trace_workers.specs.Resting.{Rests};
ghost use Rattle.trace_workers.specs.Sessions.{HasLines, KeepsLines, SessionView, desk_of};
ghost use Rattle.trace_workers.specs.Closed.{CameTo, HasClosed, HasGoneOn, IsWhole, StillKeep};
ghost use Rattle.trace_workers.specs.Joined.{JoinedView, HasCome, HasJoined, HasRun, KeepAsBefore, passes_in};

use crate::played::Played;
use crate::{Desk, TraceSession};
use kbytes::{List, NoMemory};
use partlog::MOST_MOMENT;
use shared_broker::{Broker, BrokerEnd, Pass};
use std::alloc::Global;
use std::marker::Model;
use std::sync::Wait;

/// How far the clock is moved at a time while a run is drained, in milliseconds.
pub const DRAIN_STEP: u64 = 1_000;

/// The sessions, and the pass of the clock.
#[derive(Drop)]
pub struct JoinedSessions {
    pub sessions: List<TraceSession>,
    pub clock: Pass,
}

impl Model for JoinedSessions {
    ghost use Rattle.trace_workers.specs.Joined.{JoinedView};

    ghost Value = { JoinedView };

    ghost view = { λ h. record { sessions = h.sessions; clock = h.clock } };
}

/// What became of a broker that was to be closed.
#[derive(Drop)]
pub enum Closing {
    Closed(Played),
    /// A request that waited was won meanwhile: everything is handed back.
    Again {
        broker: Broker,
        joined: JoinedSessions,
    },
}

// The moment a second after this one. If that is past the greatest moment, this waits forever.
fn later(rt: &impl Wait, ticked: u64) -> u64
    ensures second { result ≡ ticked + DRAIN_STEP }
    ensures limit { result ≤ MOST_MOMENT }
{
    if ticked > MOST_MOMENT - DRAIN_STEP {
        for _ in rt.forever() {}
        unreachable!()
    }
    ticked + DRAIN_STEP
}

// Sessions that were taken apart for the close: their passes, and the rest of each.
#[derive(Drop)]
struct Parts {
    passes: List<Pass>,
    desks: List<Desk>,
}

// Takes one more session apart.
fn add_parts(parts: &mut Parts, session: TraceSession) -> Result<(), NoMemory>
    ensures passes { OnOk result (parts.new.passes ≡ parts.old.passes ++ session.pass ∷ []) }
    ensures desks { OnOk result (parts.new.desks ≡ parts.old.desks ++ desk_of session ∷ []) }
{
    let (pass, desk) = session.into_parts();
    parts.passes.push(pass)?;
    parts.desks.push(desk)
}

// Takes each session apart.
fn take_apart(alloc: Global, sessions: List<TraceSession>) -> Result<Parts, NoMemory>
    ensures passes { IfOk result (λ parts. parts.passes ≡ map (λ (s : SessionView). s.pass) sessions) }
    ensures desks { IfOk result (λ parts. parts.desks ≡ map desk_of sessions) }
{
    let mut parts = Parts {
        passes: List::new(alloc),
        desks: List::new(alloc),
    };
    for session in sessions.into_vec() {
        add_parts(&mut parts, session)?;
    }
    Ok(parts)
}

// The sessions of these desks, each with its pass again.
fn seat_all(
    alloc: Global,
    passes: List<Pass>,
    desks: List<Desk>,
) -> Result<List<TraceSession>, NoMemory>
    requires { (sessions : Items SessionView) × (passes ≡ map (λ (s : SessionView). s.pass) sessions) × (desks ≡ map desk_of sessions) }
    ensures { IfOk result (λ back. (sessions : Items SessionView) → passes ≡ map (λ (s : SessionView). s.pass) sessions → desks ≡ map desk_of sessions → back ≡ sessions) }
{
    let mut left = desks.into_vec().into_iter();
    let mut sessions = List::new(alloc);
    for pass in passes.into_vec() {
        let Some(desk) = left.next() else {
            unreachable!()
        };
        sessions.push(desk.with(pass))?;
    }
    Ok(sessions)
}

// What became of a broker that was to be closed, with the joined sessions put together again if it is handed back: these desks are the rest of them.
fn after_close(alloc: Global, end: BrokerEnd, desks: List<Desk>) -> Result<Closing, NoMemory>
    requires { (broker : BrokerView) × (joined : JoinedView) × HasEnded broker (passes_in joined) end × (desks ≡ map desk_of joined.sessions) }
    ensures { IfOk result (λ closing. (broker : BrokerView) (joined : JoinedView) → HasEnded broker (passes_in joined) end → desks ≡ map desk_of joined.sessions
        → HasClosed broker joined closing) }
{
    match end {
        BrokerEnd::Closed(account) => Ok(Closing::Closed(Played { account, desks })),
        BrokerEnd::Untaken { broker, passes } => put_together(alloc, broker, passes, desks),
        BrokerEnd::NoMemory => Err(NoMemory),
    }
}

// Hands everything back.
fn put_together(
    alloc: Global,
    broker: Broker,
    passes: List<Pass>,
    desks: List<Desk>,
) -> Result<Closing, NoMemory>
    requires { (joined : JoinedView) × (passes ≡ passes_in joined) × (desks ≡ map desk_of joined.sessions) }
    ensures { IfOk result (λ closing. (joined : JoinedView) → passes ≡ passes_in joined → desks ≡ map desk_of joined.sessions → closing ≡ Closing.Again broker joined) }
{
    let joined = JoinedSessions::of_parts(alloc, passes, desks)?;
    Ok(Closing::Again { broker, joined })
}

// A broker that is yet to be closed, and the sessions of its run.
#[derive(Drop)]
struct Unclosed {
    broker: Broker,
    joined: JoinedSessions,
}

impl Unclosed {
    // Lets the sessions and the clock go on until nobody can act, and then closes the broker, or hands everything back.
    fn finish(self, rt: &impl Wait, alloc: Global, drain: bool) -> Result<Closing, NoMemory>
        requires { (lines : Items TheLine) × (count : ℕ) × HasRun self.broker lines count drain self.joined × IsWhole self.broker count }
        ensures gone { IfOk result (λ closing. (lines : Items TheLine) (count : ℕ) → HasRun self.broker lines count drain self.joined → HasGoneOn self.broker lines count drain closing) }
        ensures kept { IfOk result (λ closing. (keeps : Bool) → All (KeepsLines keeps) self.joined.sessions → StillKeep keeps closing) }
    {
        let Unclosed { broker, mut joined } = self;
        joined.finish(rt, &broker, drain)?;
        joined.try_close(rt, alloc, broker)
    }
}

impl JoinedSessions {
    // Lets one session do one thing more, if it can, and answers whether it did.
    fn step(&mut self, rt: &impl Wait, broker: &Broker, at: usize) -> Result<bool, NoMemory>
        requires there { at < length self.old.sessions }
        requires whole { (lines : Items TheLine) × (count : ℕ) × HasJoined broker.now lines count self.old }
        ensures clock { self.new.clock ≡ self.old.clock }
        ensures size { length self.new.sessions ≡ length self.old.sessions }
        ensures whole { OnOk result ((lines : Items TheLine) (count : ℕ) → HasJoined broker.now lines count self.old → HasJoined broker.now lines count self.new) }
        ensures kept { KeepAsBefore self.old self.new }
        ensures alone { (k : ℕ) (s : SessionView) → k ≢ at → slice_index_or self.new.sessions k s ≡ slice_index_or self.old.sessions k s }
        ensures moved { IfOk result (λ did. did ≡ true → (s : SessionView) → slice_index_or self.new.sessions at s ≢ slice_index_or self.old.sessions at s) }
        ensures rests { IfOk result (λ did. did ≡ false → (s : SessionView) → Rests (slice_index_or self.new.sessions at s)) }
    {
        self.sessions.as_mut_slice()[at].step(rt, broker)
    }

    // Lets each session do one thing more, if it can, and answers whether any did. If so, the sessions have changed; if not, all rest.
    fn round(&mut self, rt: &impl Wait, broker: &Broker) -> Result<bool, NoMemory>
        requires whole { (lines : Items TheLine) × (count : ℕ) × HasJoined broker.now lines count self.old }
        ensures clock { self.new.clock ≡ self.old.clock }
        ensures whole { OnOk result ((lines : Items TheLine) (count : ℕ) → HasJoined broker.now lines count self.old → HasJoined broker.now lines count self.new) }
        ensures kept { KeepAsBefore self.old self.new }
        ensures moved { IfOk result (λ did. did ≡ true → self.new.sessions ≢ self.old.sessions) }
        ensures rests { IfOk result (λ did. did ≡ false → All Rests self.new.sessions) }
    {
        let mut did = false;
        for at in 0..self.sessions.len() {
            if self.step(rt, broker, at)? {
                did = true;
            }
        }
        Ok(did)
    }

    // Lets the sessions go on until none can.
    fn go_on(&mut self, rt: &impl Wait, broker: &Broker) -> Result<(), NoMemory>
        requires whole { (lines : Items TheLine) × (count : ℕ) × HasJoined broker.now lines count self.old }
        ensures clock { self.new.clock ≡ self.old.clock }
        ensures whole { OnOk result ((lines : Items TheLine) (count : ℕ) → HasJoined broker.now lines count self.old → HasJoined broker.now lines count self.new) }
        ensures kept { KeepAsBefore self.old self.new }
        ensures rests { OnOk result (All Rests self.new.sessions) }
    {
        for _ in rt.forever() {
            if !self.round(rt, broker)? {
                return Ok(());
            }
        }
        unreachable!()
    }

    // Whether a session's request waits.
    fn waits(&self) -> bool
        ensures { result ≡ list_any (λ (s : SessionView). is_some s.pass.waits) self.now.sessions }
    {
        self.sessions
            .as_slice()
            .iter()
            .any(|session| session.waits())
    }

    // Moves the clock on by a second. If there is no such moment, this waits forever.
    fn tick(&mut self, rt: &impl Wait, broker: &Broker) -> Result<(), NoMemory>
        requires { (lines : Items TheLine) × (count : ℕ) × HasRun broker.now lines count true self.old }
        ensures run { OnOk result ((lines : Items TheLine) (count : ℕ) → HasRun broker.now lines count true self.old → HasRun broker.now lines count true self.new) }
        ensures sessions { self.new.sessions ≡ self.old.sessions }
    {
        let t = later(rt, self.clock.ticked());
        broker.tick(rt, &mut self.clock, t)
    }

    // Lets the sessions go on until none can. If the run is drained, the clock goes on too, until no request waits.
    fn finish(&mut self, rt: &impl Wait, broker: &Broker, drain: bool) -> Result<(), NoMemory>
        requires { (lines : Items TheLine) × (count : ℕ) × HasRun broker.now lines count drain self.old }
        ensures run { OnOk result ((lines : Items TheLine) (count : ℕ) → HasRun broker.now lines count drain self.old → HasRun broker.now lines count drain self.new) }
        ensures come { OnOk result (HasCome drain self.new) }
        ensures kept { KeepAsBefore self.old self.new }
    {
        for _ in rt.forever() {
            self.go_on(rt, broker)?;
            if !drain || !self.waits() {
                return Ok(());
            }
            self.tick(rt, broker)?;
        }
        unreachable!()
    }

    // The passes, the clock's as the last, and the rest of each session.
    fn into_parts(self, alloc: Global) -> Result<Parts, NoMemory>
        ensures passes { IfOk result (λ parts. parts.passes ≡ passes_in self) }
        ensures desks { IfOk result (λ parts. parts.desks ≡ map desk_of self.sessions) }
    {
        let JoinedSessions { sessions, clock } = self;
        let mut parts = take_apart(alloc, sessions)?;
        parts.passes.push(clock)?;
        Ok(parts)
    }

    // The joined sessions, from what `into_parts` made of them.
    fn of_parts(
        alloc: Global,
        passes: List<Pass>,
        desks: List<Desk>,
    ) -> Result<JoinedSessions, NoMemory>
        requires { (joined : JoinedView) × (passes ≡ passes_in joined) × (desks ≡ map desk_of joined.sessions) }
        ensures { IfOk result (λ back. (joined : JoinedView) → passes ≡ passes_in joined → desks ≡ map desk_of joined.sessions → back ≡ joined) }
    {
        let mut passes = passes;
        let Some(clock) = passes.pop() else {
            unreachable!()
        };
        let sessions = seat_all(alloc, passes, desks)?;
        Ok(JoinedSessions { sessions, clock })
    }

    // Closes the broker, or hands everything back.
    fn try_close(self, rt: &impl Wait, alloc: Global, broker: Broker) -> Result<Closing, NoMemory>
        requires whole { (lines : Items TheLine) × (count : ℕ) × HasJoined broker lines count self × IsWhole broker count }
        ensures { IfOk result (HasClosed broker self) }
    {
        let Parts { passes, desks } = self.into_parts(alloc)?;
        after_close(alloc, broker.close(rt, passes), desks)
    }

    /// Lets the sessions and the clock go on until nobody can act, and closes the broker, which gives the account. If a request was won meanwhile, does that again.
    pub fn close(
        self,
        rt: &impl Wait,
        alloc: Global,
        broker: Broker,
        drain: bool,
    ) -> Result<Played, NoMemory>
        requires { (lines : Items TheLine) × (count : ℕ) × HasRun broker lines count drain self × IsWhole broker count }
        ensures come { IfOk result (λ played. (lines : Items TheLine) (count : ℕ) → HasRun broker lines count drain self → CameTo broker lines count drain played) }
        ensures kept { IfOk result (λ played. (keeps : Bool) → All (KeepsLines keeps) self.sessions → All (HasLines keeps) played.desks) }
    {
        let mut left = Unclosed {
            broker,
            joined: self,
        };
        for _ in rt.forever() {
            match left.finish(rt, alloc, drain)? {
                Closing::Closed(played) => return Ok(played),
                Closing::Again { broker, joined } => left = Unclosed { broker, joined },
            }
        }
        unreachable!()
    }
}
