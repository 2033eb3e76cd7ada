//! How a room is made: `Room::make` has the scanners put behind locks here, and the seats wrapped as sources and passes, each pass
//! with a pass of every lock.
ghost use Rattle.std.specs.Prelude.{◌≡◌, ◌-◌, ◌<◌, ℕ, List as Items, [], ◌∷◌, ◌++◌, All, IfOk, length, map};
ghost use Rattle.room_core.specs.declared.shape.Shape.{Shape as Size};
ghost use Rattle.room_core.specs.Gauges.{IsShape};
ghost use Rattle.room_core.specs.Numbers.{scanner_numbers, shards};
ghost use Rattle.room_table.specs.Handed.{fresh_scanners};
ghost use Rattle.room_table.specs.Seats.{TableView};
ghost use Rattle.purgatory.specs.Making.{AreFrom, IsFreshCaller, IsFreshScanner, IsFreshSource, names_of};
ghost use Rattle.purgatory.specs.Rooms.{AreNamed, LockView, with_locks};
ghost use Rattle.purgatory.specs.Turning.{IsKeyOf, IsKeyring, lock_view, shard_name};

use crate::locks::{Keys, Locks};
use crate::owner::Owner;
use crate::pass::RoomPass;
use crate::scans::{ClockDesk, ShardDesk};
use crate::source::Source;
use kbytes::{List, NoMemory};
use room_core::Shape;
use room_table::{CallerSeat, ScanSeat, SourceSeat};
use std::alloc::Global;
use turn_lock::{TurnLock, TurnPass};

/// The sources, none of which is loud.
pub(crate) fn quiet_sources(
    alloc: Global,
    seats: List<SourceSeat>,
) -> Result<List<Source>, NoMemory>
    requires { AreFrom IsFreshSource 0 seats }
    ensures { IfOk result (λ sources. sources ≡ seats) }
{
    let mut sources = List::new(alloc);
    for seat in seats.into_vec() {
        let gauge = sources.len() as u32;
        sources.push(Source {
            seat,
            gauge,
            value: 0,
        })?;
    }
    Ok(sources)
}

/// The passes of the room, each with a pass of each lock.
pub(crate) fn room_passes(
    alloc: Global,
    callers: List<CallerSeat>,
    mut keys: List<Keys>,
    shape: Shape,
) -> Result<List<RoomPass>, NoMemory>
    requires callers { AreFrom (IsFreshCaller shape) 0 callers }
    requires keys { length keys ≡ length callers }
    ensures { IfOk result (λ passes. (locks : Items LockView) → All (λ ring. ring ≡ locks) keys → passes ≡ map (with_locks locks) callers) }
{
    let mut passes = List::new(alloc);
    for seat in callers.into_vec() {
        let number = passes.len() as u32;
        let owner = Owner::make(alloc, seat, shape, number)?;
        let Some(keys) = keys.pop() else {
            unreachable!()
        };
        passes.push(RoomPass { owner, keys })?;
    }
    Ok(passes)
}

/// The locks of the scanners, and for each pass of the room a pass of each lock.
pub(crate) fn behind_locks(
    alloc: Global,
    mut scanners: List<ScanSeat>,
    shape: Shape,
) -> Result<(Locks, List<Keys>), NoMemory>
    requires shape { IsShape shape × (shape.scanners ≡ scanner_numbers) }
    requires scanners { (length scanners ≡ scanner_numbers) × AreFrom (IsFreshScanner shape) 0 scanners }
    ensures names { IfOk result (λ made. map (λ lock. lock.name) made.0 ≡ names_of scanners) }
    ensures keys { IfOk result (λ made. (length made.1 ≡ shape.passes) × All (λ ring. ring ≡ made.0) made.1) }
{
    let Some(last) = scanners.pop() else {
        unreachable!()
    };
    let (shards, rows) = shard_locks(alloc, scanners, shape)?;
    let desk = ClockDesk::make(alloc, last, shape)?;
    let (clock, passes) = TurnLock::make(alloc, desk, shape.passes)?;
    let keys = key_rings(alloc, rows, passes)?;
    Ok((Locks { shards, clock }, keys))
}

/// A list with a 0 for each winner.
pub(crate) fn no_wins(alloc: Global, winners: u32) -> Result<List<u64>, NoMemory>
    ensures { IfOk result (λ wins. length wins ≡ winners) }
{
    let mut wins = List::new(alloc);
    for _ in 0..winners {
        wins.push(0)?;
    }
    Ok(wins)
}

// An empty row for each pass of the room.
fn empty_rows(alloc: Global, passes: u32) -> Result<List<List<TurnPass<ShardDesk>>>, NoMemory>
    ensures { IfOk result (λ rows. (length rows ≡ passes) × All (IsKeyring []) rows) }
{
    let mut rows = List::new(alloc);
    for _ in 0..passes {
        rows.push(List::new(alloc))?;
    }
    Ok(rows)
}

// The shards' locks, and for each pass of the room a row with a pass of each.
fn shard_locks(
    alloc: Global,
    scanners: List<ScanSeat>,
    shape: Shape,
) -> Result<(Vec<TurnLock<ShardDesk>>, List<List<TurnPass<ShardDesk>>>), NoMemory>
    requires shape { IsShape shape × (shape.scanners ≡ scanner_numbers) }
    requires scanners { (length scanners ≡ shards) × AreFrom (IsFreshScanner shape) 0 scanners }
    ensures names { IfOk result (λ made. map (λ lock. (lock_view shard_name lock).name) made.0.items ≡ names_of scanners) }
    ensures rows { IfOk result (λ made. (length made.1 ≡ shape.passes) × All (IsKeyring (map (lock_view shard_name) made.0.items)) made.1) }
{
    let mut rows = empty_rows(alloc, shape.passes)?;
    let mut locks = Vec::new(alloc);
    for seat in scanners.into_vec() {
        let number = locks.len() as u32;
        let desk = ShardDesk::make(alloc, seat, shape, number)?;
        let (lock, passes) = TurnLock::make(alloc, desk, shape.passes)?;
        rows = longer_rows(alloc, rows, passes)?;
        locks.push(lock)?;
    }
    Ok((locks, rows))
}

// Puts a pass of one more lock at the end of each row.
fn longer_rows(
    alloc: Global,
    mut rows: List<List<TurnPass<ShardDesk>>>,
    mut passes: List<TurnPass<ShardDesk>>,
) -> Result<List<List<TurnPass<ShardDesk>>>, NoMemory>
    requires { length rows ≡ length passes }
    ensures len { IfOk result (λ longer. length longer ≡ length rows) }
    ensures rows { IfOk result (λ longer. (locks : Items LockView) (lock : LockView) → All (IsKeyring locks) rows → All (IsKeyOf lock) passes
        → All (IsKeyring (locks ++ lock ∷ [])) longer) }
{
    let mut longer = List::new(alloc);
    while let Some(mut row) = rows.pop() {
        let Some(pass) = passes.pop() else {
            unreachable!()
        };
        row.push(pass)?;
        longer.push(row)?;
    }
    Ok(longer)
}

// The rows, each completed by a pass of the clock's lock.
fn key_rings(
    alloc: Global,
    mut rows: List<List<TurnPass<ShardDesk>>>,
    mut passes: List<TurnPass<ClockDesk>>,
) -> Result<List<Keys>, NoMemory>
    requires len { length rows ≡ length passes }
    requires rows { (locks : Items LockView) × (length locks ≡ shards) × All (IsKeyring locks) rows }
    requires passes { (lock : LockView) × All (IsKeyOf lock) passes }
    ensures len { IfOk result (λ keys. length keys ≡ length rows) }
    ensures rings { IfOk result (λ keys. (locks : Items LockView) (lock : LockView) → All (IsKeyring locks) rows → All (IsKeyOf lock) passes
        → All (λ ring. ring ≡ locks ++ lock ∷ []) keys) }
{
    let mut keys = List::new(alloc);
    while let Some(row) = rows.pop() {
        let Some(clock) = passes.pop() else {
            unreachable!()
        };
        let shards = row.into_vec();
        keys.push(Keys { shards, clock })?;
    }
    Ok(keys)
}
