//! What is behind the clock's lock: `clock_turns` ticks it and looks at it, in a turn.
ghost use Rattle.std.specs.Prelude.{◌≡◌, ◌<◌, ◌≤◌, [], ◌∷◌, ◌++◌, IfOk, OnOk, OnErr, length};
ghost use Rattle.partlog.specs.declared.clock_event.ClockEvent.TheVariants.{Look};
ghost use Rattle.partlog.specs.declared.clock_event.TheConstants.{MOST_MOMENT};
ghost use Rattle.partlog.specs.Moment.{moment_of};
ghost use Rattle.turn_lock.specs.AddedBy.{AddedBy};
ghost use Rattle.room_table.specs.Seats.{caller_now, source_now};
ghost use Rattle.purgatory.specs.Going.{GoesOn, KeepsOperation};
ghost use Rattle.purgatory.specs.Rooms.{IsOfRoom, IsSourceOf};
ghost use Rattle.shared_logs.specs.Desks.{moment_name};
ghost use Rattle.shared_logs.specs.Entries.{clock_by, clock_entries};
ghost use Rattle.shared_logs.specs.Keeps.{MomentKeeps};
ghost use Rattle.shared_logs.specs.Ticked.{HasTicked};

use kbytes::{List, NoMemory};
use partlog::{ClockEvent, ClockLog, Who};
use purgatory::{Room, RoomPass, Source};
use std::alloc::Global;
use std::marker::Model;
use std::sync::Wait;

/// The clock's history, the passes that ticked, and the source of the clock's gauge. Between any two calls the gauge is at the clock's
/// moment, and each call leaves the desk's name as it was.
#[derive(Drop)]
pub struct MomentDesk {
    log: ClockLog,
    // One for each tick, in order.
    tickers: List<u32>,
    source: Source,
}

impl Model for MomentDesk {
    ghost use Rattle.shared_logs.specs.Desks.{MomentView};

    ghost Value = { MomentView };

    ghost use Rattle.shared_logs.specs.Keeps.{MomentKeeps};

    ghost view = { λ d. record { events = d.log; tickers = d.tickers; source = d.source } };

    ghost invariant = { λ d. MomentKeeps (record { events = d.log; tickers = d.tickers; source = d.source }) };
}

/// A moment in milliseconds, and the number of the pass that gives it to the clock.
#[derive(Clone, Copy)]
pub struct Tick {
    pub by: u32,
    pub moment: u64,
}

impl MomentDesk {
    /// A clock at moment 0 without entries, from the source of its gauge as the room hands it out. It takes no memory.
    pub fn make(alloc: Global, source: Source) -> MomentDesk
        requires { (source_now source).stored ≡ 0 }
        ensures { result ≡ record { events = []; tickers = []; source = source } }
    {
        source.stays_quiet();
        MomentDesk {
            log: ClockLog::new(alloc),
            tickers: List::new(alloc),
            source,
        }
    }

    /// Gives the clock a moment, and answers whether it is above the clock's. Then the pass of this number adds a tick,
    /// and the gauge is raised to the moment: the pass of the room owes its scan, which `settle` pays once the turn is over. Else nothing
    /// changes. If memory runs out, all is as it was.
    pub fn tick(
        &mut self,
        rt: &impl Wait,
        room: &Room,
        pass: &mut RoomPass,
        tick: Tick,
    ) -> Result<bool, NoMemory>
        requires limit { tick.moment ≤ MOST_MOMENT }
        requires pass { IsOfRoom room.now pass.old }
        requires desk { IsSourceOf room.now self.old.source }
        ensures ticked { IfOk result (λ rose. HasTicked tick.by tick.moment rose self.old self.new) }
        ensures refused { OnErr result ((self.new ≡ self.old) × (pass.new ≡ pass.old) × (moment_of self.old.events < tick.moment)) }
        ensures name { moment_name self.new ≡ moment_name self.old }
        ensures added { AddedBy clock_by tick.by (clock_entries self.old.events self.old.tickers) (clock_entries self.new.events self.new.tickers) }
        ensures made { IsOfRoom room.now pass.new }
        ensures went { GoesOn pass.old.seat pass.new.seat }
        ensures kept { KeepsOperation (caller_now pass.old.seat) (caller_now pass.new.seat) }
    {
        if tick.moment <= self.log.now() {
            return Ok(false);
        }
        self.tickers.push(tick.by)?;
        if self.log.tick(tick.moment).is_err() {
            self.tickers.pop();
            return Err(NoMemory);
        }
        room.raise(rt, &mut self.source, pass, tick.moment);
        Ok(true)
    }

    /// Enters a look at the moment for a call of a pass, and answers the place of the entry. If memory runs out, all is as it was.
    pub fn look(&mut self, who: Who) -> Result<u64, NoMemory>
        ensures looked { OnOk result (self.new ≡ record { events = self.old.events ++ Look who.by who.seq ∷ []; tickers = self.old.tickers; source = self.old.source }) }
        ensures place { IfOk result (λ place. place ≡ length self.old.events) }
        ensures moment { moment_of self.new.events ≡ moment_of self.old.events }
        ensures refused { OnErr result (self.new ≡ self.old) }
        ensures name { moment_name self.new ≡ moment_name self.old }
        ensures added { AddedBy clock_by who.by (clock_entries self.old.events self.old.tickers) (clock_entries self.new.events self.new.tickers) }
    {
        self.log.look(who)
    }

    /// The moment: the greatest that the clock was given, or 0.
    pub fn now(&self) -> u64
        ensures moment { result ≡ moment_of self.now.events }
        ensures limit { result ≤ MOST_MOMENT }
        ensures keeps { MomentKeeps self.now }
    {
        self.log.now()
    }

    /// The clock's history.
    pub fn events(&self) -> &[ClockEvent]
        ensures { result.now ≡ self.now.events }
    {
        self.log.events()
    }

    /// Law: what the desk keeps between any two calls.
    pub fn keeps(&self)
        ensures { MomentKeeps self.now }
    {
        let _ = &self.log;
    }

    /// The clock's history, the passes that added its ticks, and the source, for the close.
    pub fn into_parts(self) -> (ClockLog, List<u32>, Source)
        ensures log { result.0 ≡ self.events }
        ensures tickers { result.1 ≡ self.tickers }
        ensures source { result.2 ≡ self.source }
        ensures keeps { MomentKeeps self }
    {
        (self.log, self.tickers, self.source)
    }
}
