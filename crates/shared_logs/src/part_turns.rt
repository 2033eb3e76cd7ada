//! One turn of a partition's lock, for `turns`: by the lock and a pass's key of it, it says what the pass knew before and knows after.
ghost use Rattle.std.specs.Prelude.{◌≡◌, ◌/◌, ◌≤◌, ℕ, IfOk, OnErr, OnOk, slice_index};
ghost use Rattle.kanswer.specs.declared.accepted.Accepted.TheVariants.{Seen};
ghost use Rattle.kanswer.specs.Decisions.{fetch_outcome};
ghost use Rattle.kanswer.specs.Sent.{sent_outcome};
ghost use Rattle.kanswer.specs.Waiting.{gauge_value};
ghost use Rattle.partlog.specs.declared.part_log.TheConstants.{MOST_LOG_BYTES};
ghost use Rattle.partlog.specs.Lagging.{NoneLags};
ghost use Rattle.partlog.specs.State.{state_of};
ghost use Rattle.room_table.specs.Seats.{caller_now};
ghost use Rattle.turn_lock.specs.Locks.{IsPassOf, IsReady, known, lock_name};
ghost use Rattle.turn_lock.specs.Passes.{begun};
ghost use Rattle.turn_lock.specs.Turns.{HasTurn};
ghost use Rattle.purgatory.specs.Going.{GoesOn, KeepsOperation};
ghost use Rattle.purgatory.specs.Rooms.{IsOfRoom};
ghost use Rattle.shared_logs.specs.Desks.{part_name};
ghost use Rattle.shared_logs.specs.Entries.{entry_by};
ghost use Rattle.shared_logs.specs.Keeps.{PartKeeps};
ghost use Rattle.shared_logs.specs.Asked.{HasRead};
ghost use Rattle.shared_logs.specs.Sought.{HasSought};
ghost use Rattle.shared_logs.specs.Locked.{seen_part};
ghost use Rattle.shared_logs.specs.Turned.{AskedPart, HasFound, LookedAtPart, OpensPart, SawPart, ShrunkPart, part_entries};

use crate::PartDesk;
use crate::desk_calls::{fetch_at, look_at, place_in, put_at, read_at};
use crate::turns::{Fetched, Looked, Put, Read};
use crate::visit::Visit;
use crate::wanted::{AtLeast, Rest, Wanted};
use kanswer::{Budget, SentBatch, value_of_gauge};
use kbytes::NoMemory;
use partlog::Who;
use purgatory::RoomPass;
use std::sync::Wait;
use turn_lock::{Turn, TurnLock, TurnPass};

// The turn of the partition's lock.
fn part_turn(
    rt: &impl Wait,
    lock: &TurnLock<PartDesk>,
    key: &mut TurnPass<PartDesk>,
) -> Turn<PartDesk>
    requires key { IsPassOf part_name lock.now key.old × IsReady key.old }
    ensures name { part_name result.value ≡ lock_name part_name lock.now }
    ensures found { HasFound part_entries entry_by (known key.old) result.value }
    ensures keeps { PartKeeps result.value }
    ensures turn { IsPassOf part_name lock.now key.new × HasTurn key.new result }
    ensures begun { known key.new ≡ begun part_entries result.ticket result.value (known key.old) }
{
    let turn = lock.turn(rt, key);
    turn.value().keeps();
    turn
}

// One in which the gauge is at least at the value. While it is less, the turn is taken again and leaves nothing.
fn late_turn(
    rt: &impl Wait,
    lock: &TurnLock<PartDesk>,
    key: &mut TurnPass<PartDesk>,
    late: AtLeast,
) -> Turn<PartDesk>
    requires key { IsPassOf part_name lock.now key.old × IsReady key.old }
    ensures name { part_name result.value ≡ lock_name part_name lock.now }
    ensures found { HasFound part_entries entry_by (known key.old) result.value }
    ensures keeps { PartKeeps result.value }
    ensures turn { IsPassOf part_name lock.now key.new × HasTurn key.new result }
    ensures begun { known key.new ≡ begun part_entries result.ticket result.value (known key.old) }
    ensures late { late.value ≤ gauge_value late.gauge (state_of result.value.history) }
{
    for _ in rt.forever() {
        let turn = part_turn(rt, lock, key);
        let value = value_of_gauge(late.gauge, &turn.value().log().numbers());
        if value >= late.value {
            return turn;
        }
        lock.end(key, turn);
    }
    unreachable!()
}

/// Puts a batch into the partition.
pub(crate) fn put_into(
    visit: &Visit<'_, '_, impl Wait>,
    lock: &TurnLock<PartDesk>,
    key: &mut TurnPass<PartDesk>,
    pass: &mut RoomPass,
    part: u32,
    sent: &SentBatch<'_>,
) -> Result<Put, NoMemory>
    requires room { IsOfRoom visit.now.room.now pass.old }
    requires key { OpensPart visit.now.room.now.table part visit.now.visitor.who.by lock.now key.old }
    ensures room { IsOfRoom visit.now.room.now pass.new }
    ensures went { GoesOn pass.old.seat pass.new.seat }
    ensures kept { KeepsOperation (caller_now pass.old.seat) (caller_now pass.new.seat) }
    ensures key { OpensPart visit.now.room.now.table part visit.now.visitor.who.by lock.now key.new }
    ensures asked { IfOk result (λ put. AskedPart visit.now.visitor.who.seq visit.now.visitor.moment (sent_outcome part sent.now) (known key.old) (known key.new) put.entered put.numbers) }
    ensures refused { OnErr result (SawPart (known key.old) (known key.new)) }
{
    let mut turn = part_turn(visit.rt, lock, key);
    let put = put_at(visit, turn.value_mut(), pass, sent);
    lock.end(key, turn);
    put
}

/// Enters what a fetch asks of the partition, and reads what the reply takes of it.
pub(crate) fn fetch_from(
    visit: &Visit<'_, '_, impl Wait>,
    lock: &TurnLock<PartDesk>,
    key: &mut TurnPass<PartDesk>,
    pass: &mut RoomPass,
    wanted: &Wanted<'_>,
    budget: &mut Budget,
) -> Result<Fetched, NoMemory>
    requires room { IsOfRoom visit.now.room.now pass.old }
    requires key { OpensPart visit.now.room.now.table wanted.now.part visit.now.visitor.who.by lock.now key.old }
    ensures room { IsOfRoom visit.now.room.now pass.new }
    ensures went { GoesOn pass.old.seat pass.new.seat }
    ensures kept { KeepsOperation (caller_now pass.old.seat) (caller_now pass.new.seat) }
    ensures key { OpensPart visit.now.room.now.table wanted.now.part visit.now.visitor.who.by lock.now key.new }
    ensures asked { IfOk result (λ fetched. AskedPart visit.now.visitor.who.seq visit.now.visitor.moment
        (fetch_outcome (slice_index (lock_name part_name lock.now) 0) wanted.now.replica wanted.now.asked.now wanted.now.part)
        (known key.old) (known key.new) fetched.entered fetched.numbers) }
    ensures read { IfOk result (λ fetched. IfOk fetched.records (λ records.
        HasRead wanted.now.replica wanted.now.asked.now fetched.entered.became (state_of (seen_part key.new)) fetched.numbers records budget.old budget.new)) }
    ensures bounded { IfOk result (λ fetched. fetched.numbers.high ≤ MOST_LOG_BYTES) }
    ensures refused { OnErr result (SawPart (known key.old) (known key.new)) }
{
    let mut turn = part_turn(visit.rt, lock, key);
    let fetched = fetch_at(visit, turn.value_mut(), pass, wanted, budget);
    lock.end(key, turn);
    fetched
}

/// Takes out of the partition's in-sync set every follower that lags at this moment. If memory runs out, some of them may have left.
pub(crate) fn shrink_in(
    visit: &Visit<'_, '_, impl Wait>,
    lock: &TurnLock<PartDesk>,
    key: &mut TurnPass<PartDesk>,
    pass: &mut RoomPass,
    t: u64,
) -> Result<(), NoMemory>
    requires room { IsOfRoom visit.now.room.now pass.old }
    requires key { (part : ℕ) × OpensPart visit.now.room.now.table part visit.now.visitor.who.by lock.now key.old }
    ensures room { IsOfRoom visit.now.room.now pass.new }
    ensures went { GoesOn pass.old.seat pass.new.seat }
    ensures kept { KeepsOperation (caller_now pass.old.seat) (caller_now pass.new.seat) }
    ensures key { IsPassOf part_name lock.now key.new × IsReady key.new }
    ensures shrunk { ShrunkPart t (known key.old) (known key.new) }
    ensures none_lags { OnOk result (NoneLags (seen_part key.new).followers (seen_part key.new).events t) }
{
    let mut turn = part_turn(visit.rt, lock, key);
    let shrunk = turn.value_mut().shrink(visit, pass, t);
    lock.end(key, turn);
    shrunk
}

/// Looks at the partition, once its gauge is at least at the value.
pub(crate) fn look_into(
    rt: &impl Wait,
    lock: &TurnLock<PartDesk>,
    key: &mut TurnPass<PartDesk>,
    late: AtLeast,
    who: Who,
) -> Result<Looked, NoMemory>
    requires key { IsPassOf part_name lock.now key.old × IsReady key.old × ((known key.old).number ≡ who.by) }
    ensures key { IsPassOf part_name lock.now key.new × IsReady key.new }
    ensures looked { IfOk result (λ looked. LookedAtPart who.seq late.gauge late.value (known key.old) (known key.new) looked.place looked.numbers) }
    ensures bounded { IfOk result (λ looked. looked.numbers.high ≤ MOST_LOG_BYTES) }
    ensures refused { OnErr result (SawPart (known key.old) (known key.new)) }
{
    let mut turn = late_turn(rt, lock, key, late);
    let looked = look_at(turn.value_mut(), who);
    lock.end(key, turn);
    looked
}

/// The same, and reads what the reply to a fetch takes.
pub(crate) fn read_from(
    visit: &Visit<'_, '_, impl Wait>,
    lock: &TurnLock<PartDesk>,
    key: &mut TurnPass<PartDesk>,
    rest: &Rest<'_>,
    budget: &mut Budget,
) -> Result<Read, NoMemory>
    requires key { IsPassOf part_name lock.now key.old × IsReady key.old × ((known key.old).number ≡ visit.now.visitor.who.by) }
    ensures key { IsPassOf part_name lock.now key.new × IsReady key.new }
    ensures looked { IfOk result (λ read. LookedAtPart visit.now.visitor.who.seq rest.now.late.gauge rest.now.late.value (known key.old) (known key.new)
        read.looked.place read.looked.numbers) }
    ensures read { IfOk result (λ read. IfOk read.records (λ records.
        HasRead rest.now.replica rest.now.asked.now (Seen (rest.now.late.gauge / 3) rest.now.start) (state_of (seen_part key.new)) read.looked.numbers
        records budget.old budget.new)) }
    ensures bounded { IfOk result (λ read. read.looked.numbers.high ≤ MOST_LOG_BYTES) }
    ensures refused { OnErr result (SawPart (known key.old) (known key.new)) }
{
    let mut turn = late_turn(visit.rt, lock, key, rest.late);
    let read = read_at(
        visit.alloc,
        turn.value_mut(),
        visit.visitor.who,
        rest,
        budget,
    );
    lock.end(key, turn);
    read
}

/// Where these bytes stand in the partition's log, if they do from the batch on that has this offset. The turn leaves nothing.
pub(crate) fn find_in(
    rt: &impl Wait,
    lock: &TurnLock<PartDesk>,
    key: &mut TurnPass<PartDesk>,
    offset: u64,
    bytes: &[u8],
) -> Option<u64>
    requires key { IsPassOf part_name lock.now key.old × IsReady key.old }
    ensures key { IsPassOf part_name lock.now key.new × IsReady key.new }
    ensures saw { SawPart (known key.old) (known key.new) }
    ensures sought { HasSought offset bytes.now (seen_part key.new) result }
{
    let turn = part_turn(rt, lock, key);
    let found = place_in(turn.value().log(), offset, bytes);
    lock.end(key, turn);
    found
}
