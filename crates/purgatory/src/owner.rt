//! A pass as the owner of its operation: its seat, and what it keeps beside it. Every step of a pass on the table is made
//! here, for the calls of the room.
ghost use Rattle.std.specs.Prelude.{◌≡◌, ◌≢◌, ◌≤◌, ◌<◌, ◌-◌, ◌^◌, ◌↔◌, ℕ, [], IfOk, IsTrue, length};
ghost use Rattle.room_core.specs.declared.event.How.{How as Way};
ghost use Rattle.room_core.specs.declared.parts.Session.{Session as SessionWord};
ghost use Rattle.room_core.specs.declared.parts.Stage.TheVariants.{Checking, Idle, Listing};
ghost use Rattle.room_core.specs.Checks.{AreRead, IsRead, IsWon};
ghost use Rattle.room_core.specs.Description.{IsMark, IsOperation};
ghost use Rattle.room_core.specs.Gauges.{IsGauge, IsPass, IsShape, clock_of};
ghost use Rattle.room_core.specs.Numbers.{clock_mark, description_words};
ghost use Rattle.room_table.specs.declared.part.CallerStep.TheVariants.{Asked, Left, Opened, Read, SawMark, Won};
ghost use Rattle.room_table.specs.Seats.{caller_did, caller_now};
ghost use Rattle.purgatory.specs.Listed.{HasWritten};
ghost use Rattle.purgatory.specs.Polled.{HasPolled};
ghost use Rattle.purgatory.specs.Going.{OwesNothing};
ghost use Rattle.purgatory.specs.Owing.{IsOutside};
ghost use Rattle.purgatory.specs.Paying.{Pays};

use crate::debts::Debts;
use crate::locks::Mark;
use crate::outcome::Done;
use kbytes::NoMemory;
use room_core::{How, Phase, Session, Shape};
use room_table::{CallerSeat, RoomTable};
use std::alloc::Global;
use std::marker::Model;
use std::sync::Wait;
use std::time::Duration;

/// A pass's seat, its number, the generation of its operation, how many operations it has won, of how many it has taken the end, and
/// what it owes.
#[derive(Drop)]
pub(crate) struct Owner {
    seat: CallerSeat,
    number: u32,
    generation: u32,
    wins: u32,
    taken: u32,
    owed: Debts,
}

impl Model for Owner {
    ghost use Rattle.room_table.specs.Seats.{CallerView};
    ghost use Rattle.purgatory.specs.Owned.{IsOwner};

    ghost Value = { CallerView };

    ghost view = { λ o. o.seat };

    ghost invariant = { λ o. IsOwner o.number o.generation o.wins o.taken o.owed o.seat };
}

impl Owner {
    pub(crate) fn make(
        alloc: Global,
        seat: CallerSeat,
        shape: Shape,
        number: u32,
    ) -> Result<Owner, NoMemory>
        requires shape { (shape ≡ seat.table.shape) × IsShape shape }
        requires number { (number ≡ seat.pass) × IsPass shape number }
        requires fresh { seat.steps ≡ [] }
        ensures { IfOk result (λ owner. owner ≡ seat) }
    {
        let owed = Debts::none(alloc, shape.gauges)?;
        Ok(Owner {
            seat,
            number,
            generation: 0,
            wins: 0,
            taken: 0,
            owed,
        })
    }

    pub(crate) fn number(&self) -> u32
        ensures is { result ≡ self.now.pass }
        ensures there { IsPass self.now.table.shape result }
    {
        self.number
    }

    /// The generation of its operation, or of the last one.
    pub(crate) fn generation(&self) -> u32
        ensures { result ≡ (caller_now self.now).generation }
    {
        self.generation
    }

    /// How many operations it has won.
    pub(crate) fn wins(&self) -> u32
        ensures { result ≡ length (caller_now self.now).wins }
    {
        self.wins
    }

    /// Of how many operations it has taken the end.
    pub(crate) fn taken(&self) -> u32
        ensures { result ≡ length (caller_now self.now).taken }
    {
        self.taken
    }

    /// Whether it has no operation. It has taken the end of each that it has opened.
    pub(crate) fn is_idle(&self) -> bool
        ensures { IsTrue result ↔ ((caller_now self.now).stage ≡ Idle) }
    {
        self.taken == self.generation
    }

    /// The pass's seat, for the close of the table.
    pub(crate) fn into_seat(self) -> CallerSeat
        ensures { result ≡ self }
    {
        let Owner {
            seat,
            number: _,
            generation: _,
            wins: _,
            taken: _,
            owed: _,
        } = self;
        seat
    }

    /// A mark of its operation.
    pub(crate) fn mark(&self, at: u32) -> Mark
        ensures mark { result ≡ record { pass = self.now.pass; generation = (caller_now self.now).generation; at = at } }
        ensures there { IsPass self.now.table.shape self.now.pass }
    {
        Mark {
            pass: self.number,
            generation: self.generation,
            at,
        }
    }

    /// The gauges of which it may owe something: from the first number up to, and without, the second. The room has all of them.
    pub(crate) fn debts(&self) -> (u32, u32)
        ensures there { result.1 ≤ self.now.table.shape.gauges }
        ensures others { (gauge : ℕ) → IsOutside result.0 result.1 gauge → (caller_now self.now).owed gauge ≡ 0 }
    {
        self.owed.span()
    }

    /// It owes nothing, so the next look at its debts is short.
    pub(crate) fn close_debts(&mut self)
        requires { OwesNothing (caller_now self.old) }
        ensures { self.new ≡ self.old }
    {
        self.owed.close();
    }

    /// Reads a gauge: no less than it has read of it, or owes.
    pub(crate) fn read(&mut self, table: &RoomTable, gauge: u32) -> u64
        requires table { self.old.table ≡ table.now }
        requires gauge { IsGauge self.old.table.shape gauge }
        ensures step { self.new ≡ caller_did self.old (Read gauge result) }
        ensures least { (caller_now self.old).greatest gauge ≤ result }
        ensures owed { (caller_now self.old).owed gauge ≤ result }
    {
        table.read(&mut self.seat, gauge)
    }

    /// Reads a gauge, and asks that it be scanned up to that value.
    pub(crate) fn ask(&mut self, table: &RoomTable, gauge: u32) -> u64
        requires table { self.old.table ≡ table.now }
        requires gauge { IsGauge self.old.table.shape gauge }
        ensures { self.new ≡ caller_did (caller_did self.old (Read gauge result)) (Asked gauge result) }
    {
        let value = table.read(&mut self.seat, gauge);
        table.ask(&mut self.seat, gauge, value);
        self.owed.add(gauge, value);
        value
    }

    /// Looks whether what it owes of a gauge was paid. True if it now owes nothing of it.
    pub(crate) fn relieve(&mut self, table: &RoomTable, gauge: u32) -> bool
        requires table { self.old.table ≡ table.now }
        requires gauge { IsGauge self.old.table.shape gauge }
        ensures pays { Pays gauge self.old self.new }
        ensures paid { IsTrue result → (caller_now self.new).owed gauge ≡ 0 }
    {
        let owed = self.owed.of(gauge);
        if owed == 0 {
            return true;
        }
        if owed > table.relieve(&mut self.seat, gauge) {
            return false;
        }
        self.owed.clear(gauge);
        true
    }

    /// Sees to it that a word of the description stands there: a word that is there already isn't written again.
    pub(crate) fn describe(&mut self, table: &RoomTable, at: u32, word: u64)
        requires table { self.old.table ≡ table.now }
        requires idle { (caller_now self.old).stage ≡ Idle }
        requires at { at < description_words }
        ensures { HasWritten at word self.old self.new }
    {
        if table.recall(&mut self.seat, at) == word {
            return;
        }
        table.describe(&mut self.seat, at, word);
    }

    /// Opens the operation that it has described.
    pub(crate) fn open(&mut self, table: &RoomTable)
        requires table { self.old.table ≡ table.now }
        requires idle { (caller_now self.old).stage ≡ Idle }
        requires operation { IsOperation table.now.shape (caller_now self.old).description }
        requires next { (caller_now self.old).generation < 2 ^ 32 - 1 }
        ensures { self.new ≡ caller_did self.old Opened }
    {
        table.open(&mut self.seat);
        self.generation += 1;
    }

    /// Looks at a mark of the operation: whether it was listed under this need's gauge, or under the clock.
    pub(crate) fn sees_mark(&mut self, table: &RoomTable, at: u32) -> bool
        requires table { self.old.table ≡ table.now }
        requires listing { (caller_now self.old).stage ≡ Listing }
        requires mark { (at ≤ clock_mark) × IsMark (caller_now self.old).description at }
        ensures { (mark : ℕ) × (self.new ≡ caller_did self.old (SawMark at mark)) × (IsTrue result ↔ (mark ≡ (caller_now self.old).generation)) }
    {
        table.marked(&mut self.seat, at) == u64::from(self.generation)
    }

    /// Reads the last gauge of its check.
    pub(crate) fn leave(&mut self, table: &RoomTable, gauge: u32) -> u64
        requires table { self.old.table ≡ table.now }
        requires gauge { IsGauge self.old.table.shape gauge }
        requires checking { (caller_now self.old).stage ≡ Checking }
        requires read { AreRead (caller_now self.old).readings gauge (caller_now self.old).description }
        requires clock { IsRead (caller_now self.old).readings gauge (clock_of self.old.table.shape) }
        ensures { self.new ≡ caller_did self.old (Left gauge result) }
    {
        table.leave(&mut self.seat, self.number, gauge)
    }

    /// Tries to win its own operation.
    pub(crate) fn win(&mut self, table: &RoomTable, how: How)
        requires table { self.old.table ≡ table.now }
        requires checking { (caller_now self.old).stage ≡ Checking }
        requires may { IsWon self.old.table.shape how (caller_now self.old).description (caller_now self.old).readings }
        ensures { (found : SessionWord) × (self.new ≡ caller_did self.old (Won how found)) }
    {
        if table.win(&mut self.seat, self.number, how) {
            self.wins += 1;
        }
    }

    /// Sleeps while its session word is open, for no longer than this.
    pub(crate) fn sleep(&self, rt: &impl Wait, table: &RoomTable, most: Duration)
        requires { self.now.table ≡ table.now }
    {
        table.sleep(rt, &self.seat, most);
    }

    /// Looks at its own session word. If that is won, it takes the end of its operation, and is idle.
    pub(crate) fn poll(&mut self, table: &RoomTable) -> Option<Done>
        requires table { self.old.table ≡ table.now }
        requires busy { (caller_now self.old).stage ≢ Idle }
        ensures { HasPolled result self.old self.new }
    {
        let word = table.peek_own(&mut self.seat);
        let Phase::Won { how, by } = Session::unpacked(word).phase else {
            return None;
        };
        table.idle(&mut self.seat);
        self.taken += 1;
        Some(Done { how, by })
    }
}
