//! The room that threads share: its table, its locks and its shape. A program makes it once and gets all sources and passes with
//! it; the calls are in `raising`, `settling`, `registering`, `polling` and `still`.
ghost use Rattle.std.specs.Prelude.{◌≡◌, ◌≤◌, IfOk};
ghost use Rattle.room_core.specs.Gauges.{IsGauge, clock_of};
ghost use Rattle.room_core.specs.Numbers.{most_gauges, most_passes};
ghost use Rattle.room_table.specs.Handed.{fresh_sources};
ghost use Rattle.purgatory.specs.Rooms.{fresh_passes, room_shape};

use crate::locks::Locks;
use crate::making::{behind_locks, no_wins, quiet_sources, room_passes};
use crate::pass::RoomPass;
use crate::source::Source;
use kbytes::{List, NoMemory};
use room_core::{SCANNER_NUMBERS, Shape};
use room_table::{RoomTable, TableParts};
use std::alloc::Global;
use std::marker::Model;

/// The room. Threads share it; each acts with a pass of its own.
#[derive(Drop)]
pub struct Room {
    pub(crate) table: RoomTable,
    pub(crate) locks: Locks,
    pub(crate) shape: Shape,
    // by winner: how many exchanges each has won. `still` fills it in
    pub(crate) wins: List<u64>,
}

impl Model for Room {
    ghost use Rattle.std.specs.Prelude.{◌≡◌, length};
    ghost use Rattle.purgatory.specs.Rooms.{IsRoom, RoomView, winners};

    ghost Value = { RoomView };

    ghost view = { λ r. record { table = r.table; locks = r.locks } };

    ghost invariant = { λ r. (r.shape ≡ r.table.shape) × IsRoom r.table r.locks × (length r.wins ≡ winners r.table) };
}

/// A new room, with its sources and passes.
#[derive(Drop)]
pub struct RoomParts {
    pub room: Room,
    /// By gauge. The last one is the clock's.
    pub sources: List<Source>,
    /// By number.
    pub passes: List<RoomPass>,
}

impl Room {
    /// A room with this many gauges, the last of which is the clock, and this many passes: at most `MOST_GAUGES` and `MOST_PASSES`. Its
    /// gauges are at 0, and no pass has an operation. Fails only when out of memory; no other call takes memory.
    pub fn make(alloc: Global, gauges: u32, passes: u32) -> Result<RoomParts, NoMemory>
        requires gauges { (1 ≤ gauges) × (gauges ≤ most_gauges) }
        requires passes { (1 ≤ passes) × (passes ≤ most_passes) }
        ensures shape { IfOk result (λ p. p.room.table.shape ≡ room_shape gauges passes) }
        ensures sources { IfOk result (λ p. p.sources ≡ fresh_sources p.room.table) }
        ensures passes { IfOk result (λ p. p.passes ≡ fresh_passes p.room) }
    {
        let shape = Shape {
            gauges,
            passes,
            scanners: SCANNER_NUMBERS,
        };
        let TableParts {
            table,
            sources,
            callers,
            scanners,
        } = RoomTable::make(alloc, shape)?;
        let (locks, keys) = behind_locks(alloc, scanners, shape)?;
        let wins = no_wins(alloc, SCANNER_NUMBERS + passes)?;
        let sources = quiet_sources(alloc, sources)?;
        let passes = room_passes(alloc, callers, keys, shape)?;
        Ok(RoomParts {
            room: Room {
                table,
                locks,
                shape,
                wins,
            },
            sources,
            passes,
        })
    }

    /// How many gauges it has, the clock among them.
    pub fn gauges(&self) -> u32
        ensures { result ≡ self.now.table.shape.gauges }
    {
        self.shape.gauges
    }

    /// The clock's number, which is the last gauge's. A need's gauge is below it.
    pub fn clock(&self) -> u32
        ensures is { result ≡ clock_of self.now.table.shape }
        ensures there { IsGauge self.now.table.shape result }
    {
        self.shape.gauges - 1
    }

    /// How many passes it has.
    pub fn passes(&self) -> u32
        ensures { result ≡ self.now.table.shape.passes }
    {
        self.shape.passes
    }
}
