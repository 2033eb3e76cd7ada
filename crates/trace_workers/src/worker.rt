//! A worker, to which `run_lines` gives a thread: `work` plays the lines that are its own, and lets its sessions go on after each.
ghost use Rattle.std.specs.Prelude.{◌≡◌, ◌≢◌, ◌≤◌, ◌<◌, ◌/◌, ℕ, [], ◌∷◌, ◌++◌, true, false, List as Items, Some, IfOk, IfSome, OnOk, length, slice_index_or};
ghost use Rattle.partlog.specs.declared.clock_event.TheConstants.{MOST_MOMENT};
ghost use Rattle.trace_file.specs.Contents.{is_shut, sessions_of};
ghost use Rattle.trace_file.specs.declared.line.Line.{Line as TheLine};
ghost use Rattle.trace_file.specs.declared.line.Line.TheVariants.{Feed, Shut, Clock};
ghost use Rattle.trace_workers.specs.Resting.{Rests};
ghost use Rattle.trace_workers.specs.Sessions.{SessionView};
ghost use Rattle.trace_workers.specs.Workers.{AllRest, HasAll, HasDone, IsSameWorker};
ghost use Rattle.trace_workers.specs.Own.{MayTake, is_own, is_own_session, named_place};
ghost use Rattle.trace_workers.specs.Playable.{AreTraced};

use crate::TraceSession;
use crate::gate::Gate;
use kbytes::{List, NoMemory};
use shared_broker::{Broker, Pass};
use std::marker::Model;
use std::sync::Wait;
use trace_file::Line;

/// A worker: its number and how many there are, the sessions that are its own, by their numbers, the pass of the clock if it has that, and whether it
/// stopped because memory ran out.
#[derive(Drop)]
pub struct Worker {
    pub number: u32,
    pub worker_count: u32,
    pub sessions: List<TraceSession>,
    pub clock: Option<Pass>,
    pub is_stopped: bool,
}

impl Model for Worker {
    ghost use Rattle.std.specs.Prelude.{◌<◌};
    ghost use Rattle.trace_workers.specs.Workers.{WorkerView};

    ghost Value = { WorkerView };

    ghost view = { λ l. record { number = l.number; worker_count = l.worker_count; sessions = l.sessions; clock = l.clock; is_stopped = l.is_stopped } };

    ghost invariant = { λ l. l.number < l.worker_count };
}

impl Worker {
    /// Whether the session of this number is its own.
    pub(crate) fn has_session(&self, session: u32) -> bool
        ensures own { result ≡ is_own_session self.now session }
        ensures below { self.now.number < self.now.worker_count }
    {
        session % self.worker_count == self.number
    }

    // Whether the line is this worker's to do.
    fn has(&self, line: &Line) -> bool
        ensures own { result ≡ is_own self.now line.now }
        ensures below { self.now.number < self.now.worker_count }
    {
        match line {
            Line::Feed { session, .. } | Line::Shut { session } => self.has_session(*session),
            Line::Clock { .. } => self.clock.is_some(),
            Line::Topic { .. } | Line::End => false,
        }
    }

    /// A line brings one of its sessions these bytes.
    pub(crate) fn feed(
        &mut self,
        broker: &Broker,
        session: u32,
        bytes: &[u8],
    ) -> Result<(), NoMemory>
        requires own { is_own_session self.old session ≡ true }
        requires there { session / self.old.worker_count < length self.old.sessions }
        requires done { (before : Items TheLine) × HasDone broker.now before self.old × (is_shut session before ≡ false) }
        ensures same { IsSameWorker self.old self.new }
        ensures running { self.new.is_stopped ≡ self.old.is_stopped }
        ensures done { OnOk result ((before : Items TheLine) → HasDone broker.now before self.old → HasDone broker.now (before ++ Feed session bytes.now ∷ []) self.new) }
        ensures alone { (k : ℕ) (s : SessionView) → k ≢ session / self.old.worker_count → slice_index_or self.new.sessions k s ≡ slice_index_or self.old.sessions k s }
    {
        let at = (session / self.worker_count) as usize;
        self.sessions.as_mut_slice()[at].feed(broker, bytes)
    }

    // A line ends the input of one of its sessions.
    fn shut(&mut self, broker: &Broker, session: u32)
        requires own { is_own_session self.old session ≡ true }
        requires there { session / self.old.worker_count < length self.old.sessions }
        requires done { (before : Items TheLine) × HasDone broker.now before self.old }
        ensures same { IsSameWorker self.old self.new }
        ensures running { self.new.is_stopped ≡ self.old.is_stopped }
        ensures done { (before : Items TheLine) → HasDone broker.now before self.old → HasDone broker.now (before ++ Shut session ∷ []) self.new }
        ensures alone { (k : ℕ) (s : SessionView) → k ≢ session / self.old.worker_count → slice_index_or self.new.sessions k s ≡ slice_index_or self.old.sessions k s }
    {
        let at = (session / self.worker_count) as usize;
        self.sessions.as_mut_slice()[at].shut(broker);
    }

    // A line moves the clock to a moment.
    fn tick(&mut self, rt: &impl Wait, broker: &Broker, t: u64) -> Result<(), NoMemory>
        requires limit { t ≤ MOST_MOMENT }
        requires done { (before : Items TheLine) × HasDone broker.now before self.old }
        ensures same { IsSameWorker self.old self.new }
        ensures running { self.new.is_stopped ≡ self.old.is_stopped }
        ensures done { OnOk result ((before : Items TheLine) → HasDone broker.now before self.old → HasDone broker.now (before ++ Clock t ∷ []) self.new) }
    {
        match &mut self.clock {
            Some(clock) => broker.tick(rt, clock, t),
            None => Ok(()),
        }
    }

    // Plays a line that is its own.
    fn take(&mut self, rt: &impl Wait, broker: &Broker, line: &Line) -> Result<(), NoMemory>
        requires own { is_own self.old line.now ≡ true }
        requires may { (before : Items TheLine) × HasDone broker.now before self.old × MayTake before line.now self.old }
        ensures same { IsSameWorker self.old self.new }
        ensures running { self.new.is_stopped ≡ self.old.is_stopped }
        ensures done { OnOk result ((before : Items TheLine) → HasDone broker.now before self.old → HasDone broker.now (before ++ line.now ∷ []) self.new) }
        ensures alone { (place : ℕ) → named_place self.old line.now ≡ Some place
            → (k : ℕ) (s : SessionView) → k ≢ place → slice_index_or self.new.sessions k s ≡ slice_index_or self.old.sessions k s }
    {
        match line {
            Line::Feed { session, bytes } => self.feed(broker, *session, bytes.as_slice()),
            Line::Shut { session } => {
                self.shut(broker, *session);
                Ok(())
            }
            Line::Clock { t } => self.tick(rt, broker, *t),
            Line::Topic { .. } | Line::End => Ok(()),
        }
    }

    // Lets one of its sessions do one thing more, if it can, and answers whether it did.
    fn step(&mut self, rt: &impl Wait, broker: &Broker, at: usize) -> Result<bool, NoMemory>
        requires there { at < length self.old.sessions }
        requires done { (lines : Items TheLine) × HasDone broker.now lines self.old }
        ensures same { IsSameWorker self.old self.new }
        ensures running { self.new.is_stopped ≡ self.old.is_stopped }
        ensures done { OnOk result ((lines : Items TheLine) → HasDone broker.now lines self.old → HasDone broker.now lines self.new) }
        ensures alone { (k : ℕ) (s : SessionView) → k ≢ at → slice_index_or self.new.sessions k s ≡ slice_index_or self.old.sessions k s }
        ensures moved { IfOk result (λ did. did ≡ true → (s : SessionView) → slice_index_or self.new.sessions at s ≢ slice_index_or self.old.sessions at s) }
        ensures rests { IfOk result (λ did. did ≡ false → (s : SessionView) → Rests (slice_index_or self.new.sessions at s)) }
    {
        self.sessions.as_mut_slice()[at].step(rt, broker)
    }

    /// Lets each of its sessions do one thing more, if it can, and answers whether any did. If so, the sessions have changed; if not, all rest.
    pub fn round(&mut self, rt: &impl Wait, broker: &Broker) -> Result<bool, NoMemory>
        requires done { (lines : Items TheLine) × HasDone broker.now lines self.old }
        ensures same { IsSameWorker self.old self.new }
        ensures running { self.new.is_stopped ≡ self.old.is_stopped }
        ensures done { OnOk result ((lines : Items TheLine) → HasDone broker.now lines self.old → HasDone broker.now lines self.new) }
        ensures moved { IfOk result (λ did. did ≡ true → self.new.sessions ≢ self.old.sessions) }
        ensures rests { IfOk result (λ did. did ≡ false → AllRest self.new) }
    {
        let mut did = false;
        for at in 0..self.sessions.len() {
            if self.step(rt, broker, at)? {
                did = true;
            }
        }
        Ok(did)
    }

    // The place of the session that the line names.
    fn named_place(&self, line: &Line) -> Option<usize>
        ensures { result ≡ named_place self.now line.now }
    {
        match line {
            Line::Feed { session, .. } | Line::Shut { session } => {
                Some((*session / self.worker_count) as usize)
            }
            Line::Clock { .. } | Line::Topic { .. } | Line::End => None,
        }
    }

    // Lets one of its sessions go on until it can't, and answers whether it did anything.
    fn go_on_at(&mut self, rt: &impl Wait, broker: &Broker, at: usize) -> Result<bool, NoMemory>
        requires there { at < length self.old.sessions }
        requires done { (lines : Items TheLine) × HasDone broker.now lines self.old }
        ensures same { IsSameWorker self.old self.new }
        ensures running { self.new.is_stopped ≡ self.old.is_stopped }
        ensures done { OnOk result ((lines : Items TheLine) → HasDone broker.now lines self.old → HasDone broker.now lines self.new) }
        ensures alone { (k : ℕ) (s : SessionView) → k ≢ at → slice_index_or self.new.sessions k s ≡ slice_index_or self.old.sessions k s }
        ensures rests { OnOk result ((s : SessionView) → Rests (slice_index_or self.new.sessions at s)) }
    {
        let mut did = false;
        for _ in rt.forever() {
            if !self.step(rt, broker, at)? {
                return Ok(did);
            }
            did = true;
        }
        unreachable!()
    }

    // Lets its sessions go on until none can.
    fn go_on(&mut self, rt: &impl Wait, broker: &Broker) -> Result<(), NoMemory>
        requires done { (lines : Items TheLine) × HasDone broker.now lines self.old }
        ensures same { IsSameWorker self.old self.new }
        ensures running { self.new.is_stopped ≡ self.old.is_stopped }
        ensures done { OnOk result ((lines : Items TheLine) → HasDone broker.now lines self.old → HasDone broker.now lines self.new) }
        ensures rests { OnOk result (AllRest self.new) }
    {
        for _ in rt.forever() {
            if !self.round(rt, broker)? {
                return Ok(());
            }
        }
        unreachable!()
    }

    /// Lets its sessions go on after a line. If the one that the line names did nothing, no other could go on by that, and a worker that plays
    /// alone asks none. Beside other workers all are asked, since another thread may have answered what one of them waits for.
    pub(crate) fn go_on_after(
        &mut self,
        rt: &impl Wait,
        broker: &Broker,
        named: Option<usize>,
    ) -> Result<(), NoMemory>
        requires there { IfSome named (λ at. at < length self.old.sessions) }
        requires done { (lines : Items TheLine) × HasDone broker.now lines self.old }
        ensures same { IsSameWorker self.old self.new }
        ensures running { self.new.is_stopped ≡ self.old.is_stopped }
        ensures done { OnOk result ((lines : Items TheLine) → HasDone broker.now lines self.old → HasDone broker.now lines self.new) }
        ensures rests { OnOk result (((at k : ℕ) (s : SessionView) → named ≡ Some at → k ≢ at → k < length self.old.sessions → Rests (slice_index_or self.old.sessions k s)) → AllRest self.new) }
    {
        let Some(at) = named else {
            return self.go_on(rt, broker);
        };
        let did = self.go_on_at(rt, broker, at)?;
        if !did && self.worker_count == 1 {
            return Ok(());
        }
        self.go_on(rt, broker)
    }

    /// Plays one line, the one at this place among all, if it is its own.
    pub(crate) fn line<G: Gate>(
        &mut self,
        rt: &impl Wait,
        broker: &Broker,
        gate: &G,
        at: u32,
        line: &Line,
    ) -> Result<(), NoMemory>
        requires may { (before : Items TheLine) × HasDone broker.now before self.old × (is_own self.old line.now ≡ true → MayTake before line.now self.old) }
        ensures same { IsSameWorker self.old self.new }
        ensures running { self.new.is_stopped ≡ self.old.is_stopped }
        ensures done { OnOk result ((before : Items TheLine) → HasDone broker.now before self.old → HasDone broker.now (before ++ line.now ∷ []) self.new) }
        ensures rests { OnOk result (AllRest self.old → AllRest self.new) }
    {
        if !self.has(line) {
            return Ok(());
        }
        gate.pass(self.number, at);
        let named = self.named_place(line);
        self.take(rt, broker, line)?;
        self.go_on_after(rt, broker, named)
    }

    // Plays all lines that are its own.
    fn lines<G: Gate>(
        &mut self,
        rt: &impl Wait,
        broker: &Broker,
        gate: &G,
        lines: &[Line],
    ) -> Result<(), NoMemory>
        requires traced { AreTraced lines.now }
        requires begun { HasDone broker.now [] self.old }
        requires all { HasAll (sessions_of lines.now) self.old }
        ensures same { IsSameWorker self.old self.new }
        ensures running { self.new.is_stopped ≡ self.old.is_stopped }
        ensures done { OnOk result (HasDone broker.now lines.now self.new) }
        ensures rests { OnOk result (AllRest self.new) }
    {
        for at in 0..lines.len() {
            self.line(rt, broker, gate, at as u32, &lines[at])?;
        }
        Ok(())
    }

    // As `line`, and gives the line back.
    fn given_line<G: Gate>(
        &mut self,
        rt: &impl Wait,
        broker: &Broker,
        gate: &G,
        at: u32,
        line: Line,
    ) -> Result<(), NoMemory>
        requires may { (before : Items TheLine) × HasDone broker.now before self.old × (is_own self.old line ≡ true → MayTake before line self.old) }
        ensures same { IsSameWorker self.old self.new }
        ensures running { self.new.is_stopped ≡ self.old.is_stopped }
        ensures done { OnOk result ((before : Items TheLine) → HasDone broker.now before self.old → HasDone broker.now (before ++ line ∷ []) self.new) }
        ensures rests { OnOk result (AllRest self.old → AllRest self.new) }
    {
        self.line(rt, broker, gate, at, &line)
    }

    // Plays all lines that are its own, and gives each line back as soon as it has passed it.
    fn given_lines<G: Gate>(
        &mut self,
        rt: &impl Wait,
        broker: &Broker,
        gate: &G,
        lines: List<Line>,
    ) -> Result<(), NoMemory>
        requires traced { AreTraced lines }
        requires begun { HasDone broker.now [] self.old }
        requires all { HasAll (sessions_of lines) self.old }
        ensures same { IsSameWorker self.old self.new }
        ensures running { self.new.is_stopped ≡ self.old.is_stopped }
        ensures done { OnOk result (HasDone broker.now lines self.new) }
        ensures rests { OnOk result (AllRest self.new) }
    {
        let mut at = 0;
        for line in lines.into_vec() {
            self.given_line(rt, broker, gate, at, line)?;
            at += 1;
        }
        Ok(())
    }

    /// Plays all lines that are its own, in their order, and after each lets its sessions go on until none can. It stops if memory runs out.
    pub fn work<G: Gate>(&mut self, rt: &impl Wait, broker: &Broker, gate: &G, lines: &[Line])
        requires traced { AreTraced lines.now }
        requires begun { HasDone broker.now [] self.old }
        requires all { HasAll (sessions_of lines.now) self.old }
        requires running { self.old.is_stopped ≡ false }
        ensures same { IsSameWorker self.old self.new }
        ensures done { self.new.is_stopped ≡ false → HasDone broker.now lines.now self.new }
        ensures rests { self.new.is_stopped ≡ false → AllRest self.new }
    {
        if self.lines(rt, broker, gate, lines).is_err() {
            self.is_stopped = true;
        }
    }

    /// As `work`, of lines that are its to give back: each is, as soon as the worker has passed it, so that its memory serves what comes next.
    pub fn work_given<G: Gate>(
        &mut self,
        rt: &impl Wait,
        broker: &Broker,
        gate: &G,
        lines: List<Line>,
    )
        requires traced { AreTraced lines }
        requires begun { HasDone broker.now [] self.old }
        requires all { HasAll (sessions_of lines) self.old }
        requires running { self.old.is_stopped ≡ false }
        ensures same { IsSameWorker self.old self.new }
        ensures done { self.new.is_stopped ≡ false → HasDone broker.now lines self.new }
        ensures rests { self.new.is_stopped ≡ false → AllRest self.new }
    {
        if self.given_lines(rt, broker, gate, lines).is_err() {
            self.is_stopped = true;
        }
    }
}
