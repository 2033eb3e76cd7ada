//! The one-thread broker with an index, so that it checks only the requests that can have become answerable.
//!
//! When a gauge of a partition rises, or the clock goes on, the sessions that wait for that become suspects. A scan checks only them, in
//! the order of the sessions: one that is answerable is answered, and any other still waits. The sessions that can act are kept as a set,
//! in which only those change that acted, were answered or were named by a line.

ghost use Rattle.std.specs.Prelude.{◌≡◌, ◌≢◌, ◌∷◌, ◌<◌, ◌≤◌, ◌↔◌, ℕ, [], true, None, length, map, IfOk, OnOk};
ghost use Rattle.kwire.specs.declared.config.TheConstants.{MOST_PARTITIONS};
ghost use Rattle.partlog.specs.Gauges.{numbers_of};
ghost use Rattle.partlog.specs.State.{state_of};
ghost use Rattle.lone_broker.specs.index.Index.{IsSuspect, WaitsFor, moment_of};
ghost use Rattle.lone_broker.specs.index.Sessions.{Has};
ghost use Rattle.lone_broker.specs.index.Waiting.{IsIdle, WaitsOn};
ghost use Rattle.audit.specs.broker.Acting.{Acts};
ghost use Rattle.audit.specs.broker.Board.{Board, account_of, most_sessions, next_call, opening};
ghost use Rattle.audit.specs.broker.Completing.{answered_in, scanned};
ghost use Rattle.audit.specs.broker.Play.{PlaysLine, Rests, brought};
ghost use Rattle.lone_broker.specs.Kept.{IsPlayable, StandsFor, Stands, TurnsBy, parked_at};
ghost use Rattle.lone_broker.specs.Steps.{is_ready, operation_at};
ghost use Rattle.lone_broker.specs.Telling.{AreToldOf, AreWarned, IsToldOf, IsWarned, StayWatched};
ghost use Rattle.lone_broker.specs.Watching.{AreTold, IsTaken, IsWatched, MayWait};

use crate::engine::Engine;
use crate::index::{GAUGES, SessionSet, Waiters};
use audit::{Account, Point};
use kanswer::{end_gauge, high_gauge, visible_gauge};
use kbytes::{Bytes, List, NoMemory};
use kwire::Config;
use partlog::{Numbers, PartLog};
use std::alloc::Global;
use trace_file::Line;

/// What the broker keeps, and the index in which it finds what a line can have changed. If memory runs out, it may only be dropped.
#[derive(Drop)]
pub struct Watched {
    engine: Engine,
    // the numbers of each partition's log as the index was last told of them
    told: List<Numbers>,
    waiters: Waiters,
    // the sessions that can act
    ready: SessionSet,
}

// The numbers of each log, in order.
fn numbers_of(alloc: Global, parts: &[PartLog]) -> Result<List<Numbers>, NoMemory>
    ensures { IfOk result (λ told. told ≡ map (λ h. numbers_of (state_of h)) parts.now) }
{
    let mut told = List::new(alloc);
    for part in parts {
        told.push(part.numbers())?;
    }
    Ok(told)
}

// Keeps the session in the set exactly if it can act.
fn note(engine: &Engine, ready: &mut SessionSet, session: u32)
    requires there { session < most_sessions }
    requires stands { Stands engine.now }
    ensures own { Has ready.new session ↔ (is_ready engine.now session ≡ true) }
    ensures others { (other : ℕ) → other ≢ session → Has ready.new other ↔ Has ready.old other }
{
    if engine.is_ready(session) {
        ready.insert(session);
    } else {
        ready.remove(session);
    }
}

// Tells the index that a gauge rose, if its value changed.
fn tell_gauge(waiters: &mut Waiters, gauge: u32, was: u64, now: u64)
    requires { gauge < GAUGES }
    ensures warned { IsWarned waiters.old waiters.new }
    ensures told { was ≢ now → (session : ℕ) → WaitsFor waiters.old session gauge → IsSuspect waiters.new session }
{
    if was != now {
        waiters.rise(gauge);
    }
}

// Tells the index which gauges of a partition rose.
fn tell_gauges(waiters: &mut Waiters, part: u32, was: &Numbers, now: &Numbers)
    requires { part < MOST_PARTITIONS }
    ensures warned { IsWarned waiters.old waiters.new }
    ensures told { AreWarned part was.now now.now waiters.old waiters.new }
{
    tell_gauge(waiters, high_gauge(part), was.high, now.high);
    tell_gauge(waiters, visible_gauge(part), was.visible, now.visible);
    tell_gauge(waiters, end_gauge(part), was.bytes, now.bytes);
}

// Tells the index of a partition.
fn tell_part(parts: &[PartLog], part: u32, told: &mut [Numbers], waiters: &mut Waiters)
    requires size { length told.old ≡ length parts.now }
    requires few { length told.old ≤ MOST_PARTITIONS }
    requires there { part < length told.old }
    ensures told { IsToldOf parts.now part told.old told.new }
    ensures warned { IsWarned waiters.old waiters.new }
    ensures watched { StayWatched waiters.old told.old waiters.new told.new }
{
    let at = part as usize;
    let now = parts[at].numbers();
    let was = told[at];
    tell_gauges(waiters, part, &was, &now);
    told[at] = now;
}

// Tells the index of all partitions.
fn tell_all(parts: &[PartLog], told: &mut [Numbers], waiters: &mut Waiters)
    requires size { length told.old ≡ length parts.now }
    requires few { length told.old ≤ MOST_PARTITIONS }
    ensures told { AreTold told.new parts.now }
    ensures warned { IsWarned waiters.old waiters.new }
    ensures watched { StayWatched waiters.old told.old waiters.new told.new }
{
    let count = told.len() as u32;
    for part in 0..count {
        tell_part(parts, part, told, waiters);
    }
}

// Tells the index of the partition at a point. The clock's history has no gauges.
fn tell_at(parts: &[PartLog], point: &Point, told: &mut [Numbers], waiters: &mut Waiters)
    requires size { length told.old ≡ length parts.now }
    requires few { length told.old ≤ MOST_PARTITIONS }
    ensures told { AreToldOf parts.now (point.now ∷ []) told.old told.new }
    ensures warned { IsWarned waiters.old waiters.new }
    ensures watched { StayWatched waiters.old told.old waiters.new told.new }
{
    if point.part as usize >= told.len() {
        return;
    }
    tell_part(parts, point.part, told, waiters);
}

// Tells the index of the partitions at these points.
fn tell(parts: &[PartLog], points: &[Point], told: &mut [Numbers], waiters: &mut Waiters)
    requires size { length told.old ≡ length parts.now }
    requires few { length told.old ≤ MOST_PARTITIONS }
    ensures told { AreToldOf parts.now points.now told.old told.new }
    ensures warned { IsWarned waiters.old waiters.new }
    ensures watched { StayWatched waiters.old told.old waiters.new told.new }
{
    for point in points {
        tell_at(parts, point, told, waiters);
    }
}

// Enters the session's request in the index, if one waits from now on.
fn park(engine: &Engine, waiters: &mut Waiters, session: u32)
    requires there { session < most_sessions }
    requires stands { Stands engine.now }
    requires free { MayWait session (next_call engine.now.board session) waiters.old (operation_at engine.now session) }
    ensures taken { IsTaken session (next_call engine.now.board session) waiters.old waiters.new (operation_at engine.now session) }
    ensures moment { moment_of waiters.new ≡ moment_of waiters.old }
    ensures others { (other : ℕ) → other ≢ session → WaitsOn waiters.old waiters.new other }
    ensures suspects { (other : ℕ) → other ≢ session → IsSuspect waiters.new other ↔ IsSuspect waiters.old other }
{
    let Some(op) = engine.waiting(session) else {
        return;
    };
    let generation = engine.calls(session);
    waiters.wait(session, generation, op);
}

// The index before the first line: the numbers of each partition's log, and that no session waits.
fn new_index(alloc: Global, parts: &[PartLog]) -> Result<(List<Numbers>, Waiters), NoMemory>
    ensures told { IfOk result (λ index. index.0 ≡ map (λ h. numbers_of (state_of h)) parts.now) }
    ensures idle { IfOk result (λ index. IsIdle index.1) }
    ensures suspects { IfOk result (λ index. (session : ℕ) → ¬ IsSuspect index.1 session) }
{
    let told = numbers_of(alloc, parts)?;
    let waiters = Waiters::new(alloc)?;
    Ok((told, waiters))
}

impl Watched {
    /// A broker with these topics, before the first line.
    pub fn make(alloc: Global, config: Config) -> Result<Watched, NoMemory>
        ensures watched { IfOk result (λ w. IsWatched w) }
        ensures stands { IfOk result (λ w. StandsFor w.engine (opening config)) }
    {
        let engine = Engine::make(alloc, config)?;
        let (told, waiters) = new_index(alloc, engine.parts())?;
        Ok(Watched {
            engine,
            told,
            waiters,
            ready: SessionSet::none(),
        })
    }

    // Checks a suspect: its request is answered if it is answerable, and otherwise still waits.
    fn look(&mut self, session: u32, out: &mut Bytes) -> Result<(), NoMemory>
        requires there { session < most_sessions }
        requires watched { IsWatched self.old }
        ensures answers { OnOk result (TurnsBy (λ board turned. turned ≡ answered_in board session) self.old.engine self.new.engine out.old out.new) }
        ensures watched { OnOk result (IsWatched self.new) }
    {
        let Some(how) = self.engine.due(session) else {
            self.waiters.clear(session);
            return Ok(());
        };
        self.engine.complete(session, how, out)?;
        self.waiters.done(session);
        note(&self.engine, &mut self.ready, session);
        Ok(())
    }

    // Answers every request that waits and is answerable, in the order of the sessions.
    fn scan(&mut self, out: &mut Bytes) -> Result<(), NoMemory>
        requires { IsWatched self.old }
        ensures scans { OnOk result (TurnsBy (λ board turned. turned ≡ scanned board) self.old.engine self.new.engine out.old out.new) }
        ensures watched { OnOk result (IsWatched self.new) }
    {
        let mut from = 0;
        while let Some(session) = self.waiters.least_suspect(from) {
            self.look(session, out)?;
            from = session + 1;
        }
        Ok(())
    }

    // Lets a session act once, and tells the index which gauges rose.
    fn act(&mut self, session: u32, out: &mut Bytes) -> Result<(), NoMemory>
        requires there { session < most_sessions }
        requires idle { parked_at self.old.engine session ≡ None }
        requires watched { IsWatched self.old }
        ensures acts { OnOk result (TurnsBy (λ board. Acts board session) self.old.engine self.new.engine out.old out.new) }
        ensures watched { OnOk result (IsWatched self.new) }
    {
        self.engine.act(session, out)?;
        let points = self.engine.last_points(session);
        let told = self.told.as_mut_slice();
        tell(self.engine.parts(), points, told, &mut self.waiters);
        park(&self.engine, &mut self.waiters, session);
        note(&self.engine, &mut self.ready, session);
        Ok(())
    }

    // Answers what is answerable and lets sessions act, until neither has anything left to do.
    fn settle(&mut self, out: &mut Bytes) -> Result<(), NoMemory>
        requires { IsWatched self.old }
        ensures rests { OnOk result (TurnsBy (λ board turned. (acts : ℕ) × Rests acts board turned) self.old.engine self.new.engine out.old out.new) }
        ensures watched { OnOk result (IsWatched self.new) }
    {
        loop {
            self.scan(out)?;
            let Some(session) = self.ready.least() else {
                return Ok(());
            };
            self.act(session, out)?;
        }
    }

    // Takes in what a line brings. After a clock line the index learns which gauges rose as followers left, and the moment.
    fn bring(&mut self, line: &Line) -> Result<(), NoMemory>
        requires playable { IsPlayable line.now }
        requires watched { IsWatched self.old }
        ensures brought { OnOk result ((board : Board) → StandsFor self.old.engine board → StandsFor self.new.engine (brought board line.now)) }
        ensures watched { OnOk result (IsWatched self.new) }
    {
        self.engine.bring(line)?;
        match line {
            Line::Feed { session, .. } => note(&self.engine, &mut self.ready, *session),
            Line::Shut { session } => note(&self.engine, &mut self.ready, *session),
            Line::Clock { .. } => {
                let told = self.told.as_mut_slice();
                tell_all(self.engine.parts(), told, &mut self.waiters);
                self.waiters.tick(self.engine.moment());
            }
            Line::Topic { .. } | Line::End => {}
        }
        Ok(())
    }

    /// Takes one line of a trace, and puts what it prints at the end of `out`.
    pub fn event(&mut self, line: &Line, out: &mut Bytes) -> Result<(), NoMemory>
        requires playable { IsPlayable line.now }
        requires watched { IsWatched self.old }
        ensures plays { OnOk result (TurnsBy (λ board. PlaysLine board line.now) self.old.engine self.new.engine out.old out.new) }
        ensures watched { OnOk result (IsWatched self.new) }
    {
        self.bring(line)?;
        self.settle(out)
    }

    /// The account of what was done so far.
    pub fn close(self) -> Result<Account, NoMemory>
        requires { IsWatched self }
        ensures { IfOk result (λ account. (board : Board) → StandsFor self.engine board → account ≡ account_of board) }
    {
        self.engine.close()
    }
}
