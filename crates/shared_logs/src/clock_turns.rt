//! One turn of the clock's lock, for `ticking`: by the lock and a pass's key of it, it says what the pass knew before and knows after.
ghost use Rattle.std.specs.Prelude.{◌≡◌, ◌≤◌, IfOk, OnErr, OnOk};
ghost use Rattle.partlog.specs.declared.clock_event.TheConstants.{MOST_MOMENT};
ghost use Rattle.partlog.specs.Moment.{moment_of};
ghost use Rattle.room_table.specs.Seats.{caller_now};
ghost use Rattle.turn_lock.specs.Locks.{IsPassOf, IsReady, known, lock_name};
ghost use Rattle.turn_lock.specs.Passes.{begun};
ghost use Rattle.turn_lock.specs.Turns.{HasTurn};
ghost use Rattle.purgatory.specs.Going.{GoesOn, KeepsOperation};
ghost use Rattle.purgatory.specs.Rooms.{IsOfRoom};
ghost use Rattle.shared_logs.specs.Desks.{moment_name};
ghost use Rattle.shared_logs.specs.Entries.{clock_by};
ghost use Rattle.shared_logs.specs.Histories.{events_of};
ghost use Rattle.shared_logs.specs.Keeps.{MomentKeeps};
ghost use Rattle.shared_logs.specs.Turned.{HasFound, LookedAtClock, OpensClock, SawClock, ToldClock, moment_entries};

use crate::{MomentDesk, Tick};
use kbytes::NoMemory;
use partlog::Who;
use purgatory::{Room, RoomPass};
use std::sync::Wait;
use turn_lock::{Turn, TurnLock, TurnPass};

// The turn of the clock's lock.
fn clock_turn(
    rt: &impl Wait,
    lock: &TurnLock<MomentDesk>,
    key: &mut TurnPass<MomentDesk>,
) -> Turn<MomentDesk>
    requires key { IsPassOf moment_name lock.now key.old × IsReady key.old }
    ensures name { moment_name result.value ≡ lock_name moment_name lock.now }
    ensures found { HasFound moment_entries clock_by (known key.old) result.value }
    ensures keeps { MomentKeeps result.value }
    ensures turn { IsPassOf moment_name lock.now key.new × HasTurn key.new result }
    ensures begun { known key.new ≡ begun moment_entries result.ticket result.value (known key.old) }
{
    let turn = lock.turn(rt, key);
    turn.value().keeps();
    turn
}

// One in which the moment is no less than `least`. While it is less, the turn is taken again and leaves nothing.
fn late_turn(
    rt: &impl Wait,
    lock: &TurnLock<MomentDesk>,
    key: &mut TurnPass<MomentDesk>,
    least: u64,
) -> Turn<MomentDesk>
    requires key { IsPassOf moment_name lock.now key.old × IsReady key.old }
    ensures name { moment_name result.value ≡ lock_name moment_name lock.now }
    ensures found { HasFound moment_entries clock_by (known key.old) result.value }
    ensures keeps { MomentKeeps result.value }
    ensures turn { IsPassOf moment_name lock.now key.new × HasTurn key.new result }
    ensures begun { known key.new ≡ begun moment_entries result.ticket result.value (known key.old) }
    ensures late { least ≤ moment_of result.value.events }
{
    for _ in rt.forever() {
        let turn = clock_turn(rt, lock, key);
        if turn.value().now() >= least {
            return turn;
        }
        lock.end(key, turn);
    }
    unreachable!()
}

/// Gives the clock a moment, and answers whether the pass of this number added a tick, and the clock's moment as the turn ended.
pub(crate) fn tick_to(
    rt: &impl Wait,
    room: &Room,
    lock: &TurnLock<MomentDesk>,
    key: &mut TurnPass<MomentDesk>,
    pass: &mut RoomPass,
    tick: Tick,
) -> (Result<bool, NoMemory>, u64)
    requires limit { tick.moment ≤ MOST_MOMENT }
    requires room { IsOfRoom room.now pass.old }
    requires key { OpensClock room.now.table tick.by lock.now key.old }
    ensures room { IsOfRoom room.now pass.new }
    ensures went { GoesOn pass.old.seat pass.new.seat }
    ensures kept { KeepsOperation (caller_now pass.old.seat) (caller_now pass.new.seat) }
    ensures key { OpensClock room.now.table tick.by lock.now key.new }
    ensures told { IfOk result.0 (λ rose. ToldClock tick.moment (known key.old) (known key.new) rose) }
    ensures refused { OnErr result.0 (SawClock (known key.old) (known key.new)) }
    ensures moment { result.1 ≡ moment_of (events_of (known key.new).seen) }
{
    let mut turn = clock_turn(rt, lock, key);
    let rose = turn.value_mut().tick(rt, room, pass, tick);
    let moment = turn.value().now();
    lock.end(key, turn);
    (rose, moment)
}

/// Looks at the clock, once its moment is no less than `least`, and answers the place of the look and the moment.
pub(crate) fn look_up(
    rt: &impl Wait,
    lock: &TurnLock<MomentDesk>,
    key: &mut TurnPass<MomentDesk>,
    least: u64,
    who: Who,
) -> (Result<u64, NoMemory>, u64)
    requires key { IsPassOf moment_name lock.now key.old × IsReady key.old × ((known key.old).number ≡ who.by) }
    ensures key { IsPassOf moment_name lock.now key.new × IsReady key.new }
    ensures looked { IfOk result.0 (λ place. LookedAtClock who.seq least (known key.old) (known key.new) place result.1) }
    ensures refused { OnErr result.0 (SawClock (known key.old) (known key.new)) }
    ensures moment { result.1 ≡ moment_of (events_of (known key.new).seen) }
{
    let mut turn = late_turn(rt, lock, key, least);
    let place = turn.value_mut().look(who);
    let moment = turn.value().now();
    lock.end(key, turn);
    (place, moment)
}
