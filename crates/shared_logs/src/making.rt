//! The parts of new logs, for `SharedLogs::make`: each partition's log is put behind a lock, and the passes of all locks are dealt out.
ghost use Rattle.std.specs.Prelude.{◌≡◌, ◌*◌, ◌≤◌, List as Items, [], ◌∷◌, ◌++◌, IfOk, length, map};
ghost use Rattle.purgatory.specs.Making.{AreFrom};
ghost use Rattle.purgatory.specs.Rooms.{LockView};
ghost use Rattle.purgatory.specs.scans.Desks.{desk_name};
ghost use Rattle.room_table.specs.Seats.{TableView, source_now};
ghost use Rattle.turn_lock.specs.Locks.{AreFresh, lock_id, lock_name, lock_passes};
ghost use Rattle.shared_logs.specs.Dealt.{AreDealt, AreFirst, IsFreshOf, IsFreshRow, IsPartLock};
ghost use Rattle.shared_logs.specs.Desks.{moment_name};
ghost use Rattle.shared_logs.specs.Locked.{part_lock};
ghost use Rattle.shared_logs.specs.Making.{fresh_log_passes};
ghost use Rattle.shared_logs.specs.Shared.{SharedView};

use crate::pass::LogPass;
use crate::{MomentDesk, PartDesk, PartSources};
use kbytes::{List, NoMemory};
use purgatory::{RoomPass, Source};
use std::alloc::Global;
use turn_lock::{TurnLock, TurnPass};

/// The locks of the partitions by their numbers, and the clock's. For each pass of the logs there is a row of the partitions' passes and one
/// of the clock's.
pub(crate) struct NewLocks {
    pub(crate) parts: Vec<TurnLock<PartDesk>>,
    pub(crate) rows: List<Vec<TurnPass<PartDesk>>>,
    pub(crate) clock: TurnLock<MomentDesk>,
    pub(crate) clocks: List<TurnPass<MomentDesk>>,
}

/// The locks of new logs, from the sources of the partitions' gauges and that of the clock's.
pub(crate) fn new_locks(
    alloc: Global,
    followers: &[u32],
    sources: List<Source>,
    last: Source,
    passes: u32,
) -> Result<NewLocks, NoMemory>
    requires parts { length followers.now ≤ 64 }
    requires some { 1 ≤ passes }
    requires sources { (table : TableView) × AreFirst table (3 * length followers.now) sources }
    requires stored { (source_now last).stored ≡ 0 }
    ensures count { IfOk result (λ made. length made.parts.items ≡ length followers.now) }
    ensures locks { IfOk result (λ made. (table : TableView) → AreFirst table (3 * length followers.now) sources → AreFrom (IsPartLock table followers.now passes) 0 made.parts.items) }
    ensures rows { IfOk result (λ made. (length made.rows ≡ passes) × AreFrom (IsFreshRow (map part_lock made.parts.items)) 0 made.rows) }
    ensures clock { IfOk result (λ made. (lock_name moment_name made.clock ≡ desk_name last.table last.gauge) × (lock_passes made.clock ≡ passes)) }
    ensures clocks { IfOk result (λ made. (length made.clocks ≡ passes) × AreFresh (lock_id made.clock) (desk_name last.table last.gauge) made.clocks) }
{
    let (parts, rows) = part_locks(alloc, followers, sources, passes)?;
    let desk = MomentDesk::make(alloc, last);
    let (clock, clocks) = TurnLock::make(alloc, desk, passes)?;
    Ok(NewLocks {
        parts,
        rows,
        clock,
        clocks,
    })
}

// The locks of the partitions by their numbers, and for each pass of the logs a row of their passes.
fn part_locks(
    alloc: Global,
    followers: &[u32],
    sources: List<Source>,
    passes: u32,
) -> Result<(Vec<TurnLock<PartDesk>>, List<Vec<TurnPass<PartDesk>>>), NoMemory>
    requires parts { length followers.now ≤ 64 }
    requires some { 1 ≤ passes }
    requires sources { (table : TableView) × AreFirst table (3 * length followers.now) sources }
    ensures count { IfOk result (λ made. length made.0.items ≡ length followers.now) }
    ensures locks { IfOk result (λ made. (table : TableView) → AreFirst table (3 * length followers.now) sources → AreFrom (IsPartLock table followers.now passes) 0 made.0.items) }
    ensures rows { IfOk result (λ made. (length made.1 ≡ passes) × AreFrom (IsFreshRow (map part_lock made.0.items)) 0 made.1) }
{
    let mut locks = Vec::new(alloc);
    let mut rows = empty_rows(alloc, passes)?;
    let mut left = sources.into_vec().into_iter();
    for part in 0..followers.len() {
        let Some(high) = left.next() else {
            unreachable!()
        };
        let Some(visible) = left.next() else {
            unreachable!()
        };
        let Some(end) = left.next() else {
            unreachable!()
        };
        let sources = PartSources { high, visible, end };
        let desk = PartDesk::make(alloc, part as u32, followers[part], sources)?;
        let (lock, keys) = TurnLock::make(alloc, desk, passes)?;
        rows = longer_rows(alloc, rows, keys)?;
        locks.push(lock)?;
    }
    Ok((locks, rows))
}

/// The passes, each with its seat in the room, its row of the partitions' locks and its pass of the clock's.
pub(crate) fn log_passes(
    alloc: Global,
    seats: List<RoomPass>,
    rows: List<Vec<TurnPass<PartDesk>>>,
    clocks: List<TurnPass<MomentDesk>>,
) -> Result<List<LogPass>, NoMemory>
    requires { (shared : SharedView) × AreDealt shared 0 seats rows clocks }
    ensures { IfOk result (λ passes. (shared : SharedView) → AreDealt shared 0 seats rows clocks → passes ≡ fresh_log_passes shared (length seats)) }
{
    let mut passes = List::new(alloc);
    let mut rows_left = rows.into_vec().into_iter();
    let mut clocks_left = clocks.into_vec().into_iter();
    for room in seats.into_vec() {
        let Some(parts) = rows_left.next() else {
            unreachable!()
        };
        let Some(clock) = clocks_left.next() else {
            unreachable!()
        };
        let number = passes.len() as u32;
        passes.push(LogPass {
            number,
            room,
            parts,
            clock,
            moment: 0,
            ticked: 0,
        })?;
    }
    Ok(passes)
}

// A row of no passes, for each pass of the logs.
fn empty_rows(alloc: Global, passes: u32) -> Result<List<Vec<TurnPass<PartDesk>>>, NoMemory>
    ensures { IfOk result (λ rows. (length rows ≡ passes) × AreFrom (IsFreshRow []) 0 rows) }
{
    let mut rows = List::new(alloc);
    for _ in 0..passes {
        rows.push(Vec::new(alloc))?;
    }
    Ok(rows)
}

// Puts a pass of one more lock at the end of each row.
fn longer_rows(
    alloc: Global,
    rows: List<Vec<TurnPass<PartDesk>>>,
    keys: List<TurnPass<PartDesk>>,
) -> Result<List<Vec<TurnPass<PartDesk>>>, NoMemory>
    requires { length keys ≡ length rows }
    ensures len { IfOk result (λ longer. length longer ≡ length rows) }
    ensures rows { IfOk result (λ longer. (locks : Items LockView) (lock : LockView) → AreFrom (IsFreshRow locks) 0 rows → AreFrom (IsFreshOf lock) 0 keys
        → AreFrom (IsFreshRow (locks ++ lock ∷ [])) 0 longer) }
{
    let mut longer = List::new(alloc);
    let mut left = keys.into_vec().into_iter();
    for mut row in rows.into_vec() {
        let Some(key) = left.next() else {
            unreachable!()
        };
        row.push(key)?;
        longer.push(row)?;
    }
    Ok(longer)
}
