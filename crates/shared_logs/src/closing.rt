//! The end of the logs, once the threads are joined: the room becomes still, and every lock is closed with all of its passes.
ghost use Rattle.std.specs.Prelude.{◌≡◌, [], ◌∷◌, ◌++◌, All, IfOk, OnOk, length, map};
ghost use Rattle.turn_lock.specs.Locks.{lock_passes};
ghost use Rattle.room_table.specs.Seats.{TableView, caller_now};
ghost use Rattle.purgatory.specs.Making.{AreFrom};
ghost use Rattle.purgatory.specs.Going.{OwesNothing};
ghost use Rattle.shared_logs.specs.Apart.{IsOfClock, IsOfLocks};
ghost use Rattle.shared_logs.specs.Ended.{HasEnded};
ghost use Rattle.shared_logs.specs.Gone.{AreAllOut, AreOfRoom, AreOut, AreSourcesOf, HaveGone, IsClockOut, IsNamed, followers_named};

use crate::hands::{Hand, first_of_each, put_together, take_apart};
use crate::logs::SharedLogs;
use crate::pass::LogPass;
use crate::{MomentDesk, PartDesk, PartSources};
use kbytes::{List, NoMemory};
use partlog::{ClockLog, PartLog};
use purgatory::{RoomEnd, Source, StillRoom};
use std::alloc::Global;
use std::sync::Wait;
use turn_lock::TurnLock;

/// The logs of the partitions, by their numbers; the clock's; and how many operations each winner won, by its number: the shards' scanners
/// from 0 on, the clock's, which is 16, and the passes from 17 on.
#[derive(Drop)]
pub struct ClosedLogs {
    pub parts: List<PartLog>,
    pub clock: ClockLog,
    pub wins: List<u64>,
}

/// How shared logs ended.
#[derive(Drop)]
pub enum LogsEnd {
    Closed(ClosedLogs),
    /// More was won than the passes have taken, and an operation of one of them waits. Logs and passes are handed back as they were.
    Untaken {
        logs: SharedLogs,
        passes: List<LogPass>,
    },
    /// Out of memory. Nothing is handed back.
    NoMemory,
}

// The logs of the partitions by their numbers, the sources of their gauges, and the hands without the passes of these locks.
struct ClosedParts {
    logs: List<PartLog>,
    sources: List<Source>,
    hands: List<Hand>,
}

// Puts the sources of a partition's gauges at the end.
fn put_sources(sources: &mut List<Source>, three: PartSources) -> Result<(), NoMemory>
    ensures { OnOk result (sources.new ≡ ((sources.old ++ three.high ∷ []) ++ three.visible ∷ []) ++ three.end ∷ []) }
{
    let PartSources { high, visible, end } = three;
    sources.push(high)?;
    sources.push(visible)?;
    sources.push(end)
}

// The partitions' locks are closed, each with the passes that all hands have of it.
#[tactic(auto, using(crate::proofs::Gone::gone_none, crate::proofs::Gone::tell_none))]
fn close_parts(
    alloc: Global,
    locks: Vec<TurnLock<PartDesk>>,
    mut hands: List<Hand>,
) -> Result<ClosedParts, NoMemory>
    requires hands { All (IsOfLocks locks.items) hands }
    requires passes { All (λ lock. lock_passes lock ≡ length hands) locks.items }
    ensures gone { IfOk result (λ closed. HaveGone closed.logs hands closed.hands) }
    ensures count { IfOk result (λ closed. length closed.hands ≡ length hands) }
    ensures out { IfOk result (λ closed. AreOut (length hands) closed.logs) }
    ensures followers { IfOk result (λ closed. map (λ h. h.followers) closed.logs ≡ followers_named locks.items) }
    ensures sources { IfOk result (λ closed. (table : TableView) → AreFrom (IsNamed table) 0 locks.items → AreSourcesOf table closed.logs closed.sources) }
{
    let mut logs = List::new(alloc);
    let mut sources = List::new(alloc);
    for lock in locks {
        let (rest, passes) = first_of_each(alloc, hands)?;
        hands = rest;
        let (log, three) = lock.close(passes).into_parts();
        put_sources(&mut sources, three)?;
        logs.push(log)?;
    }
    Ok(ClosedParts {
        logs,
        sources,
        hands,
    })
}

// The clock's lock is closed.
fn close_clock(
    alloc: Global,
    lock: TurnLock<MomentDesk>,
    hands: List<Hand>,
) -> Result<(ClockLog, Source), NoMemory>
    requires hands { All (IsOfClock lock) hands }
    requires passes { lock_passes lock ≡ length hands }
    ensures { IfOk result (λ closed. IsClockOut lock hands closed.0 closed.1) }
{
    let mut passes = List::new(alloc);
    for hand in hands.into_vec() {
        passes.push(hand.clock)?;
    }
    let (log, _tickers, source) = lock.close(passes).into_parts();
    Ok((log, source))
}

// All locks are closed, and then the room.
fn close_all(
    alloc: Global,
    still: StillRoom,
    parts: Vec<TurnLock<PartDesk>>,
    clock: TurnLock<MomentDesk>,
    hands: List<Hand>,
) -> Result<ClosedLogs, NoMemory>
    requires room { AreOfRoom still.table parts.items clock }
    requires hands { All (IsOfLocks parts.items) hands × All (IsOfClock clock) hands }
    requires passes { All (λ lock. lock_passes lock ≡ length hands) parts.items × (lock_passes clock ≡ length hands) }
    ensures { IfOk result (λ closed. AreAllOut still parts.items clock hands closed.parts closed.clock closed.wins) }
{
    let ClosedParts {
        logs,
        mut sources,
        hands,
    } = close_parts(alloc, parts, hands)?;
    let (clock, source) = close_clock(alloc, clock, hands)?;
    sources.push(source)?;
    let wins = still.close(sources);
    Ok(ClosedLogs {
        parts: logs,
        clock,
        wins,
    })
}

impl SharedLogs {
    /// Closes the logs, where everything that was won was taken. All passes come back, in any order.
    pub fn close(self, rt: &impl Wait, mut passes: List<LogPass>) -> LogsEnd
        requires all { length passes ≡ self.room.table.shape.passes }
        requires made { All (λ pass. pass.made ≡ self) passes }
        requires paid { All (λ pass. OwesNothing (caller_now pass.seat)) passes }
        ensures { HasEnded self passes result }
    {
        let SharedLogs {
            alloc,
            room,
            parts,
            clock,
        } = self;
        let Ok((seats, hands)) = take_apart(alloc, &mut passes) else {
            return LogsEnd::NoMemory;
        };
        match room.still(rt, seats) {
            RoomEnd::Untaken {
                room,
                passes: seats,
            } => match put_together(passes, seats, hands) {
                Ok(passes) => LogsEnd::Untaken {
                    logs: SharedLogs {
                        alloc,
                        room,
                        parts,
                        clock,
                    },
                    passes,
                },
                Err(NoMemory) => LogsEnd::NoMemory,
            },
            RoomEnd::Still(still) => match close_all(alloc, still, parts, clock, hands) {
                Ok(closed) => LogsEnd::Closed(closed),
                Err(NoMemory) => LogsEnd::NoMemory,
            },
        }
    }
}
