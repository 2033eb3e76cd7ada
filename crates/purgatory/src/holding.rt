//! The turns of all locks, held together for `Room::still`. Each is held in the frame of a call that takes the next one; the clock's is
//! the last. At that point all are held, and what was won is compared with what was taken. On the way back either all turns end, or
//! each desk is taken out of its lock for good.
ghost use Rattle.std.specs.Prelude.{◌≡◌, ◌+◌, ◌-◌, ◌<◌, ◌≤◌, ◌^◌, length, min};
ghost use Rattle.room_core.specs.Numbers.{clock_scanner, scanner_numbers};
ghost use Rattle.purgatory.specs.scans.Desks.{desk_name};
ghost use Rattle.turn_lock.specs.Locks.{IsPassOf, IsReady, lock_name};
ghost use Rattle.purgatory.specs.Holding.{AreBack, AreKept, AreKeysFrom, AreNotedFrom, IfUntaken, IsClockKey, WereHeld};
ghost use Rattle.purgatory.specs.Rooms.{IsRoom};
ghost use Rattle.purgatory.specs.Turning.{IsKey, clock_name};

use crate::locks::{Keys, Locks};
use crate::scans::{ClockDesk, ShardDesk};
use kbytes::List;
use room_core::{CLOCK_SCANNER, SHARDS};
use room_table::{Closing, RoomTable};
use std::sync::Wait;
use turn_lock::{TurnLock, TurnPass};

/// What was won, as far as turns are held, and what was taken.
#[derive(Clone, Copy)]
pub(crate) struct Count {
    pub(crate) won: u64,
    pub(crate) taken: u64,
}

/// What was found while the turns were held.
#[derive(Drop)]
pub(crate) enum Held {
    /// More was won than taken. The turns are ended.
    Untaken(RoomTable),
    /// Everything that was won was taken. The desks are out of their locks, and the scanners' seats are back in the table.
    Still(Closing),
}

impl Count {
    // The count with this many more wins. A sum past 64 bits is more than was taken.
    fn with(self, wins: u64) -> Count
        ensures won { result.won ≡ min (self.won + wins) (2 ^ 64 - 1) }
        ensures taken { result.taken ≡ self.taken }
    {
        Count {
            won: self.won.saturating_add(wins),
            taken: self.taken,
        }
    }
}

// Takes the clock's turn, while all others are held, and decides.
fn hold_clock(
    rt: &impl Wait,
    lock: &TurnLock<ClockDesk>,
    key: &mut TurnPass<ClockDesk>,
    table: RoomTable,
    wins: &mut [u64],
    count: Count,
) -> Held
    requires key { IsPassOf clock_name lock.now key.old × IsReady key.old }
    requires name { lock_name clock_name lock.now ≡ desk_name table clock_scanner }
    requires wins { scanner_numbers ≤ length wins.old }
    requires taken { count.taken < 2 ^ 64 - 1 }
    ensures wins { AreNotedFrom clock_scanner wins.old wins.new }
    ensures held { WereHeld table clock_scanner count.won count.taken wins.new result }
    ensures key { IsKey key.new }
    ensures back { IfUntaken result (IsPassOf clock_name lock.now key.new × IsReady key.new) }
{
    let turn = lock.turn(rt, key);
    let desk = turn.value();
    let won = desk.wins();
    wins[CLOCK_SCANNER as usize] = won;
    let count = count.with(won);
    if count.won > count.taken {
        lock.end(key, turn);
        return Held::Untaken(table);
    }
    Held::Still(table.closing(turn.take().into_seat()))
}

// Takes the turns of the shards from this one on, and the clock's.
fn hold_from(
    rt: &impl Wait,
    locks: &Locks,
    shards: &mut Vec<TurnPass<ShardDesk>>,
    clock: &mut TurnPass<ClockDesk>,
    table: RoomTable,
    wins: &mut [u64],
    count: Count,
    at: usize,
) -> Held
    requires room { IsRoom table locks.now }
    requires shards { AreKeysFrom at locks.now shards.old.items }
    requires clock { IsClockKey locks.now clock.old }
    requires wins { scanner_numbers ≤ length wins.old }
    requires taken { count.taken < 2 ^ 64 - 1 }
    requires at { at ≤ clock_scanner }
    ensures wins { AreNotedFrom at wins.old wins.new }
    ensures held { WereHeld table at count.won count.taken wins.new result }
    ensures shards { AreKept at shards.old.items shards.new.items }
    ensures clock { IsKey clock.new }
    ensures back { IfUntaken result (AreBack shards.old.items shards.new.items clock.old clock.new) }
{
    if at == SHARDS as usize {
        return hold_clock(rt, &locks.clock, clock, table, wins, count);
    }
    let lock = &locks.shards[at];
    let turn = lock.turn(rt, &mut shards[at]);
    let desk = turn.value();
    let won = desk.wins();
    wins[at] = won;
    match hold_from(
        rt,
        locks,
        shards,
        clock,
        table,
        wins,
        count.with(won),
        at + 1,
    ) {
        Held::Untaken(table) => {
            lock.end(&mut shards[at], turn);
            Held::Untaken(table)
        }
        Held::Still(mut closing) => {
            closing.take_scanner(turn.take().into_seat());
            Held::Still(closing)
        }
    }
}

impl Locks {
    /// Takes the turns of all locks, holds them together, and notes meanwhile how many operations each scanner has won. If these and
    /// what was won before are more than was taken, it ends the turns; else it takes the desks out, and the scanners' seats come back.
    pub(crate) fn hold(
        &self,
        rt: &impl Wait,
        keys: &mut Keys,
        table: RoomTable,
        wins: &mut List<u64>,
        count: Count,
    ) -> Held
        requires room { IsRoom table self.now }
        requires keys { keys.old ≡ self.now }
        requires wins { scanner_numbers ≤ length wins.old }
        requires taken { count.taken < 2 ^ 64 - 1 }
        ensures wins { length wins.new ≡ length wins.old }
        ensures held { WereHeld table 0 count.won count.taken wins.new result }
        ensures keys { IfUntaken result (keys.new ≡ keys.old) }
    {
        hold_from(
            rt,
            self,
            &mut keys.shards,
            &mut keys.clock,
            table,
            wins.as_mut_slice(),
            count,
            0,
        )
    }
}
