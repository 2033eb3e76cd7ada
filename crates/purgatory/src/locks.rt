//! The room's locks, one for each scanner, and what a pass has of them. Settling and registering come here for each scan and each
//! listing: a turn is taken, the desk behind the lock does its work, and the turn ends.
ghost use Rattle.std.specs.Prelude.{◌≡◌, ◌≤◌, ◌<◌, ◌%◌, ℕ, length};
ghost use Rattle.room_core.specs.Gauges.{IsGauge, IsGaugeOf, IsPass, clock_of};
ghost use Rattle.room_core.specs.Numbers.{clock_scanner, most_needs, shards};
ghost use Rattle.purgatory.specs.scans.Desks.{desk_name};
ghost use Rattle.purgatory.specs.scans.Going.{GoesOn};
ghost use Rattle.purgatory.specs.scans.Listing.{HasListedDeadline, HasListedNeed};
ghost use Rattle.purgatory.specs.scans.Scanned.{HasScanned};
ghost use Rattle.turn_lock.specs.Locks.{IsPassOf, IsReady, lock_name};
ghost use Rattle.purgatory.specs.Rooms.{IsRoom};
ghost use Rattle.purgatory.specs.Turning.{clock_name, shard_name};

use crate::scans::{ClockDesk, ShardDesk};
use opcond::Need;
use room_core::{SHARDS, Shape};
use room_table::RoomTable;
use std::marker::Model;
use std::sync::Wait;
use turn_lock::{Turn, TurnLock, TurnPass};

/// A mark of an operation: the pass, the operation's generation, and the number of the need, or `CLOCK_MARK`.
#[derive(Clone, Copy)]
pub(crate) struct Mark {
    pub(crate) pass: u32,
    pub(crate) generation: u32,
    pub(crate) at: u32,
}

/// The locks of the shards, by their scanners' numbers, and the lock of the clock.
#[derive(Drop)]
pub(crate) struct Locks {
    pub(crate) shards: Vec<TurnLock<ShardDesk>>,
    pub(crate) clock: TurnLock<ClockDesk>,
}

impl Model for Locks {
    ghost use Rattle.std.specs.Prelude.{◌≡◌, List, length};
    ghost use Rattle.room_core.specs.Numbers.{shards as shard_count};
    ghost use Rattle.purgatory.specs.Rooms.{LockView};
    ghost use Rattle.purgatory.specs.Turning.{lock_views};

    ghost Value = { List LockView };

    ghost view = { λ l. lock_views l.shards.items l.clock };

    ghost invariant = { λ l. length l.shards.items ≡ shard_count };
}

/// What a pass of the room has of the locks: a pass of each. Between any two calls none of them has a turn, or the view wouldn't show
/// the lock's name.
#[derive(Drop)]
pub(crate) struct Keys {
    pub(crate) shards: Vec<TurnPass<ShardDesk>>,
    pub(crate) clock: TurnPass<ClockDesk>,
}

impl Model for Keys {
    ghost use Rattle.std.specs.Prelude.{List};
    ghost use Rattle.purgatory.specs.Rooms.{LockView};
    ghost use Rattle.purgatory.specs.Turning.{AreKeys, key_views};

    ghost Value = { List LockView };

    ghost view = { λ k. key_views k.shards.items k.clock };

    ghost invariant = { λ k. AreKeys k.shards.items k.clock };
}

// The desk has scanned the gauge, in this turn.
fn scanned(
    rt: &impl Wait,
    mut turn: Turn<ShardDesk>,
    table: &RoomTable,
    gauge: u32,
) -> Turn<ShardDesk>
    requires table { turn.value.seat.table ≡ table.now }
    requires gauge { IsGaugeOf table.now.shape turn.value.seat.scanner gauge }
    ensures turn { (result.from ≡ turn.from) × (result.ticket ≡ turn.ticket) }
    ensures scanned { HasScanned gauge turn.value.seat result.value.seat }
{
    turn.value_mut().scan(rt, table, gauge);
    turn
}

// The clock's desk has scanned the clock, in this turn.
fn clock_scanned(rt: &impl Wait, mut turn: Turn<ClockDesk>, table: &RoomTable) -> Turn<ClockDesk>
    requires { turn.value.seat.table ≡ table.now }
    ensures turn { (result.from ≡ turn.from) × (result.ticket ≡ turn.ticket) }
    ensures scanned { HasScanned (clock_of table.now.shape) turn.value.seat result.value.seat }
{
    turn.value_mut().scan(rt, table);
    turn
}

// The desk has listed the open operation of the pass under a need's gauge, in this turn, or has seen that it can't.
fn listed(
    mut turn: Turn<ShardDesk>,
    table: &RoomTable,
    pass: u32,
    generation: u32,
    at: u32,
) -> Turn<ShardDesk>
    requires table { turn.value.seat.table ≡ table.now }
    requires pass { IsPass table.now.shape pass }
    requires generation { 1 ≤ generation }
    requires need { at < most_needs }
    ensures turn { (result.from ≡ turn.from) × (result.ticket ≡ turn.ticket) }
    ensures listed { HasListedNeed pass generation at turn.value.seat result.value.seat }
{
    turn.value_mut().list(table, pass, generation, at);
    turn
}

// The same, if the need's gauge is of this shard.
fn listed_here(
    is_here: bool,
    turn: Turn<ShardDesk>,
    table: &RoomTable,
    pass: u32,
    generation: u32,
    at: u32,
) -> Turn<ShardDesk>
    requires table { turn.value.seat.table ≡ table.now }
    requires pass { IsPass table.now.shape pass }
    requires generation { 1 ≤ generation }
    requires need { at < most_needs }
    ensures turn { (result.from ≡ turn.from) × (result.ticket ≡ turn.ticket) }
    ensures went { GoesOn turn.value.seat result.value.seat }
{
    if !is_here {
        return turn;
    }
    listed(turn, table, pass, generation, at)
}

// The desk has listed the operation under the gauge of the mark's need, and of each later need whose gauge is of the same shard, in
// this turn.
fn all_listed(
    mut turn: Turn<ShardDesk>,
    table: &RoomTable,
    mark: Mark,
    needs: &[Need],
) -> Turn<ShardDesk>
    requires table { turn.value.seat.table ≡ table.now }
    requires pass { IsPass table.now.shape mark.pass }
    requires generation { 1 ≤ mark.generation }
    requires need { mark.at < length needs.now }
    requires few { length needs.now ≤ most_needs }
    ensures turn { (result.from ≡ turn.from) × (result.ticket ≡ turn.ticket) }
    ensures went { GoesOn turn.value.seat result.value.seat }
{
    let shard = needs[mark.at as usize].gauge % SHARDS;
    for at in mark.at as usize..needs.len() {
        let is_here = needs[at].gauge % SHARDS == shard;
        turn = listed_here(is_here, turn, table, mark.pass, mark.generation, at as u32);
    }
    turn
}

// The clock's desk has listed the open operation of the pass under its deadline, in this turn, or has seen that it can't.
fn clock_listed(
    mut turn: Turn<ClockDesk>,
    table: &RoomTable,
    pass: u32,
    generation: u32,
) -> Turn<ClockDesk>
    requires table { turn.value.seat.table ≡ table.now }
    requires pass { IsPass table.now.shape pass }
    requires generation { 1 ≤ generation }
    ensures turn { (result.from ≡ turn.from) × (result.ticket ≡ turn.ticket) }
    ensures listed { HasListedDeadline pass generation turn.value.seat result.value.seat }
{
    turn.value_mut().list(table, pass, generation);
    turn
}

// A turn of a shard's lock, in which a gauge is scanned.
fn scan_shard(
    rt: &impl Wait,
    lock: &TurnLock<ShardDesk>,
    key: &mut TurnPass<ShardDesk>,
    table: &RoomTable,
    gauge: u32,
)
    requires key { IsPassOf shard_name lock.now key.old × IsReady key.old }
    requires name { lock_name shard_name lock.now ≡ desk_name table.now (gauge % shards) }
    requires gauge { IsGaugeOf table.now.shape (gauge % shards) gauge }
    ensures { IsPassOf shard_name lock.now key.new × IsReady key.new }
{
    let turn = lock.turn(rt, key);
    let turn = scanned(rt, turn, table, gauge);
    lock.end(key, turn);
}

// A turn of the clock's lock, in which the clock is scanned.
#[inline(never)]
fn scan_clock(
    rt: &impl Wait,
    lock: &TurnLock<ClockDesk>,
    key: &mut TurnPass<ClockDesk>,
    table: &RoomTable,
)
    requires key { IsPassOf clock_name lock.now key.old × IsReady key.old }
    requires name { lock_name clock_name lock.now ≡ desk_name table.now clock_scanner }
    ensures { IsPassOf clock_name lock.now key.new × IsReady key.new }
{
    let turn = lock.turn(rt, key);
    let turn = clock_scanned(rt, turn, table);
    lock.end(key, turn);
}

// A turn of a shard's lock, in which an operation is listed.
fn list_shard(
    rt: &impl Wait,
    lock: &TurnLock<ShardDesk>,
    key: &mut TurnPass<ShardDesk>,
    table: &RoomTable,
    mark: Mark,
    needs: &[Need],
)
    requires key { IsPassOf shard_name lock.now key.old × IsReady key.old }
    requires name { (k : ℕ) × (lock_name shard_name lock.now ≡ desk_name table.now k) }
    requires pass { IsPass table.now.shape mark.pass }
    requires generation { 1 ≤ mark.generation }
    requires need { mark.at < length needs.now }
    requires few { length needs.now ≤ most_needs }
    ensures { IsPassOf shard_name lock.now key.new × IsReady key.new }
{
    let turn = lock.turn(rt, key);
    let turn = all_listed(turn, table, mark, needs);
    lock.end(key, turn);
}

// A turn of the clock's lock, in which an operation is listed.
fn list_clock(
    rt: &impl Wait,
    lock: &TurnLock<ClockDesk>,
    key: &mut TurnPass<ClockDesk>,
    table: &RoomTable,
    mark: Mark,
)
    requires key { IsPassOf clock_name lock.now key.old × IsReady key.old }
    requires name { lock_name clock_name lock.now ≡ desk_name table.now clock_scanner }
    requires pass { IsPass table.now.shape mark.pass }
    requires generation { 1 ≤ mark.generation }
    ensures { IsPassOf clock_name lock.now key.new × IsReady key.new }
{
    let turn = lock.turn(rt, key);
    let turn = clock_listed(turn, table, mark.pass, mark.generation);
    lock.end(key, turn);
}

impl Locks {
    /// Scans a gauge, in a turn of its scanner's lock.
    pub(crate) fn scan(
        &self,
        rt: &impl Wait,
        keys: &mut Keys,
        table: &RoomTable,
        shape: Shape,
        gauge: u32,
    )
        requires keys { keys.old ≡ self.now }
        requires room { IsRoom table.now self.now }
        requires shape { shape ≡ table.now.shape }
        requires gauge { IsGauge table.now.shape gauge }
        ensures { keys.new ≡ keys.old }
    {
        if gauge == shape.gauges - 1 {
            scan_clock(rt, &self.clock, &mut keys.clock, table);
            return;
        }
        let k = (gauge % SHARDS) as usize;
        scan_shard(rt, &self.shards[k], &mut keys.shards[k], table, gauge);
    }

    // Lists an operation in a turn of this shard's lock. Each registration does this, so it is put into what calls it.
    #[inline(always)]
    fn list_behind(
        &self,
        rt: &impl Wait,
        keys: &mut Keys,
        table: &RoomTable,
        mark: Mark,
        needs: &[Need],
        k: usize,
    )
        requires keys { keys.old ≡ self.now }
        requires room { IsRoom table.now self.now }
        requires pass { IsPass table.now.shape mark.pass }
        requires generation { 1 ≤ mark.generation }
        requires need { mark.at < length needs.now }
        requires few { length needs.now ≤ most_needs }
        requires there { k < shards }
        ensures { keys.new ≡ keys.old }
    {
        list_shard(rt, &self.shards[k], &mut keys.shards[k], table, mark, needs);
    }

    /// Lists an operation under a need's gauge, in a turn of that gauge's lock, and in the same turn under those of its later needs that
    /// are behind this lock too.
    #[inline(always)]
    pub(crate) fn list_needs(
        &self,
        rt: &impl Wait,
        keys: &mut Keys,
        table: &RoomTable,
        mark: Mark,
        needs: &[Need],
    )
        requires keys { keys.old ≡ self.now }
        requires room { IsRoom table.now self.now }
        requires pass { IsPass table.now.shape mark.pass }
        requires generation { 1 ≤ mark.generation }
        requires need { mark.at < length needs.now }
        requires few { length needs.now ≤ most_needs }
        ensures { keys.new ≡ keys.old }
    {
        let k = (needs[mark.at as usize].gauge % SHARDS) as usize;
        self.list_behind(rt, keys, table, mark, needs, k);
    }

    /// Lists an operation under the clock, in a turn of the clock's lock.
    pub(crate) fn list_deadline(
        &self,
        rt: &impl Wait,
        keys: &mut Keys,
        table: &RoomTable,
        mark: Mark,
    )
        requires keys { keys.old ≡ self.now }
        requires room { IsRoom table.now self.now }
        requires pass { IsPass table.now.shape mark.pass }
        requires generation { 1 ≤ mark.generation }
        ensures { keys.new ≡ keys.old }
    {
        list_clock(rt, &self.clock, &mut keys.clock, table, mark);
    }
}
