//! What one thread has of the room.
ghost use Rattle.std.specs.Prelude.{◌≡◌};
ghost use Rattle.bench_parts.specs.Seats.{IsFreshPass, IsFreshSource};
ghost use Rattle.purgatory.specs.Rooms.{fresh_passes, room_shape};
ghost use Rattle.room_table.specs.Handed.{fresh_sources};

use crate::operation::waits_past;
use crate::waiter::Waiter;
use kbytes::{List, NoMemory};
use purgatory::{Registered, Room, RoomPass, Source};
use std::alloc::Global;
use std::marker::Model;
use std::sync::Wait;
use std::time::Duration;

/// 64 partitions with three gauges each, and the clock.
pub const GAUGES: u32 = 193;

pub const PASSES: u32 = 80;

/// How many seconds a thread sleeps before it looks again.
const AT_MOST: u64 = 1;

#[derive(Drop)]
pub struct RoomSeat<'a> {
    alloc: Global,
    room: &'a Room,
    source: Source,
    pass: RoomPass,
    /// The pass has an operation, which waits.
    waits: bool,
}

impl<'a> Model for RoomSeat<'a> {
    ghost use Rattle.std.specs.Prelude.{Bool};
    ghost use Rattle.bench_parts.specs.Seats.{IsSeat};

    ghost Value = { Bool };

    ghost view = { λ s. s.waits };

    ghost invariant = { λ s. IsSeat s.room.now s.source s.pass s.waits };
}

impl<'a> RoomSeat<'a> {
    fn new(alloc: Global, room: &'a Room, source: Source, pass: RoomPass) -> RoomSeat<'a>
        requires gauges { room.now.table.shape.gauges ≡ GAUGES }
        requires source { IsFreshSource room.now source }
        requires pass { IsFreshPass room.now pass }
    {
        RoomSeat {
            alloc,
            room,
            source,
            pass,
            waits: false,
        }
    }
}

/// A seat for each pass of a new room, with a source of its own. The first ones have the last gauges, but for the clock.
pub fn room_seats<'a>(
    alloc: Global,
    room: &'a Room,
    mut sources: List<Source>,
    mut passes: List<RoomPass>,
) -> Result<Vec<RoomSeat<'a>>, NoMemory>
    requires shape { room.now.table.shape ≡ room_shape GAUGES PASSES }
    requires sources { sources ≡ fresh_sources room.now.table }
    requires passes { passes ≡ fresh_passes room.now }
{
    let mut seats = Vec::new(alloc);
    let _clock = sources.pop();
    for _ in 0..PASSES {
        let source = sources.pop().ok_or(NoMemory)?;
        let pass = passes.pop().ok_or(NoMemory)?;
        seats.push(RoomSeat::new(alloc, room, source, pass))?;
    }
    Ok(seats)
}

impl<'a> Waiter for RoomSeat<'a> {
    fn gauge(&self) -> u32 {
        self.source.gauge()
    }

    fn register<R: Wait>(&mut self, rt: &R, gauge: u32, past: u64) -> bool {
        if self.waits || self.pass.generation() == u32::MAX || gauge >= GAUGES - 1 {
            return false;
        }
        let Ok(op) = waits_past(self.alloc, gauge, past) else {
            return false;
        };
        let Registered::Won(_) = self.room.register(rt, &mut self.pass, &op) else {
            self.waits = true;
            return true;
        };
        false
    }

    fn raise<R: Wait>(&mut self, rt: &R) {
        let value = self.source.value().saturating_add(1);
        self.room.raise(rt, &mut self.source, &mut self.pass, value);
        self.room.settle(rt, &mut self.pass);
    }

    fn is_answered<R: Wait>(&mut self, _rt: &R) -> bool {
        if !self.waits {
            return true;
        }
        if self.room.poll(&mut self.pass).is_none() {
            return false;
        }
        self.waits = false;
        true
    }

    fn sleep<R: Wait>(&mut self, rt: &R) {
        for _ in rt.forever() {
            if self.is_answered(rt) {
                return;
            }
            self.room.wait(rt, &self.pass, Duration::from_secs(AT_MOST));
        }
        unreachable!()
    }
}
