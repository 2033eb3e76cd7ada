//! A worker plays a generated load. It makes the frame of each request that its own session sends as it comes to it, over that of an earlier one: the
//! lines of the load are never in a list.
ghost use Rattle.std.specs.Prelude.{◌≡◌, ◌<◌, ◌≤◌, ◌*◌, ℕ, [], ◌∷◌, ◌++◌, true, false, List as Items, OnOk};
ghost use Rattle.storm.specs.Generator.{state_after};
ghost use Rattle.storm.specs.Lines.{clock_lines, feed_line, storm_lines};
ghost use Rattle.storm.specs.Places.{draws_of};
ghost use Rattle.storm.specs.declared.load.TheConstants.{MOST_REQUESTS};
ghost use Rattle.trace_file.specs.Contents.{sessions_of};
ghost use Rattle.trace_file.specs.declared.line.Line.{Line as TheLine};
ghost use Rattle.trace_workers.specs.Own.{MayTake, is_own};
ghost use Rattle.trace_workers.specs.Playable.{AreTraced};
ghost use Rattle.trace_workers.specs.Workers.{AllRest, HasAll, HasDone, IsSameWorker};

use crate::Worker;
use crate::gate::Gate;
use kbytes::NoMemory;
use shared_broker::Broker;
use std::alloc::Global;
use std::sync::Wait;
use storm::{BLOCK, Load, MOST_REQUESTS, RequestFrames, clock_after, session_of};

// Where the line of the request with this number stands among the lines of its load.
fn place_of(i: u32) -> u32
    requires { i < MOST_REQUESTS }
    ensures { result < 2 * MOST_REQUESTS }
{
    1 + i + i / BLOCK
}

impl Worker {
    // Plays the line of the request with this number, if its own session sends it.
    fn request<G: Gate>(
        &mut self,
        rt: &impl Wait,
        broker: &Broker,
        gate: &G,
        frames: &mut RequestFrames,
        i: u32,
    ) -> Result<(), NoMemory>
        requires most { i < MOST_REQUESTS }
        requires may { (before : Items TheLine) × HasDone broker.now before self.old
            × (is_own self.old (feed_line frames.old.state i) ≡ true → MayTake before (feed_line frames.old.state i) self.old) }
        ensures drawn { frames.new.state ≡ state_after frames.old.state (draws_of i) }
        ensures same { IsSameWorker self.old self.new }
        ensures running { self.new.is_stopped ≡ self.old.is_stopped }
        ensures done { OnOk result ((before : Items TheLine) → HasDone broker.now before self.old
            → HasDone broker.now (before ++ feed_line frames.old.state i ∷ []) self.new) }
        ensures rests { OnOk result (AllRest self.old → AllRest self.new) }
    {
        let session = session_of(i);
        if !self.has_session(session) {
            frames.pass(i);
            return Ok(());
        }
        let at = (session / self.worker_count) as usize;
        gate.pass(self.number, place_of(i));
        frames.make(i);
        self.feed(broker, session, frames.frame())?;
        self.go_on_after(rt, broker, Some(at))
    }

    // Plays the line of the clock after that request, if there is one and the clock is its own.
    fn tick_after<G: Gate>(
        &mut self,
        rt: &impl Wait,
        broker: &Broker,
        gate: &G,
        i: u32,
        n: u32,
    ) -> Result<(), NoMemory>
        requires there { i < n }
        requires most { n ≤ MOST_REQUESTS }
        requires done { (before : Items TheLine) × HasDone broker.now before self.old }
        ensures same { IsSameWorker self.old self.new }
        ensures running { self.new.is_stopped ≡ self.old.is_stopped }
        ensures done { OnOk result ((before : Items TheLine) → HasDone broker.now before self.old
            → HasDone broker.now (before ++ clock_lines n i) self.new) }
        ensures rests { OnOk result (AllRest self.old → AllRest self.new) }
    {
        match clock_after(i, n) {
            Some(clock) => self.line(rt, broker, gate, place_of(i) + 1, &clock),
            None => Ok(()),
        }
    }

    // Plays all lines that are its own.
    fn load_lines<G: Gate>(
        &mut self,
        rt: &impl Wait,
        alloc: Global,
        broker: &Broker,
        gate: &G,
        load: Load,
    ) -> Result<(), NoMemory>
        requires most { load.requests ≤ MOST_REQUESTS }
        requires traced { AreTraced (storm_lines load.seed load.requests) }
        requires begun { HasDone broker.now [] self.old }
        requires all { HasAll (sessions_of (storm_lines load.seed load.requests)) self.old }
        ensures same { IsSameWorker self.old self.new }
        ensures running { self.new.is_stopped ≡ self.old.is_stopped }
        ensures done { OnOk result (HasDone broker.now (storm_lines load.seed load.requests) self.new) }
        ensures rests { OnOk result (AllRest self.new) }
    {
        let _ = &self.number;
        let mut frames = RequestFrames::new(alloc, load.seed)?;
        for i in 0..load.requests {
            self.request(rt, broker, gate, &mut frames, i)?;
            self.tick_after(rt, broker, gate, i, load.requests)?;
        }
        Ok(())
    }

    /// As `work`, of the lines of a load, which are never in a list.
    pub fn work_load<G: Gate>(
        &mut self,
        rt: &impl Wait,
        alloc: Global,
        broker: &Broker,
        gate: &G,
        load: Load,
    )
        requires most { load.requests ≤ MOST_REQUESTS }
        requires traced { AreTraced (storm_lines load.seed load.requests) }
        requires begun { HasDone broker.now [] self.old }
        requires all { HasAll (sessions_of (storm_lines load.seed load.requests)) self.old }
        requires running { self.old.is_stopped ≡ false }
        ensures same { IsSameWorker self.old self.new }
        ensures done { self.new.is_stopped ≡ false → HasDone broker.now (storm_lines load.seed load.requests) self.new }
        ensures rests { self.new.is_stopped ≡ false → AllRest self.new }
    {
        if self.load_lines(rt, alloc, broker, gate, load).is_err() {
            self.is_stopped = true;
        }
    }
}
