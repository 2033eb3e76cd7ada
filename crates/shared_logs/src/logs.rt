//! The logs of the partitions and of the clock, with the room: how they are made. What a pass does with them is in `turns`, `ticking` and
//! `waiting`, and the end in `closing`.
ghost use Rattle.std.specs.Prelude.{◌≡◌, ◌≤◌, IfOk, length};
ghost use Rattle.shared_logs.specs.Making.{fresh_log_passes};
ghost use Rattle.shared_logs.specs.Shared.{followers_in};

use crate::making::{NewLocks, log_passes, new_locks};
use crate::pass::LogPass;
use crate::{MomentDesk, PartDesk};
use kbytes::{List, NoMemory};
use purgatory::{Room, RoomParts};
use std::alloc::Global;
use std::marker::Model;
use turn_lock::TurnLock;

/// The logs, and the room. Threads share them, each with a pass of its own.
#[derive(Drop)]
pub struct SharedLogs {
    pub(crate) alloc: Global,
    pub(crate) room: Room,
    pub(crate) parts: Vec<TurnLock<PartDesk>>,
    pub(crate) clock: TurnLock<MomentDesk>,
}

impl Model for SharedLogs {
    ghost use Rattle.shared_logs.specs.Shared.{AreShared, SharedView};
    ghost use Rattle.shared_logs.specs.Locked.{HaveAllPasses, shared_view};

    ghost Value = { SharedView };

    ghost view = { λ l. shared_view l.room l.parts.items l.clock };

    ghost invariant = { λ l. AreShared (shared_view l.room l.parts.items l.clock) × HaveAllPasses l.room l.parts.items l.clock };
}

impl SharedLogs {
    /// Empty logs of partitions with these numbers of followers, a clock at moment 0, and that many passes, in the order of their
    /// numbers. It is refused where no memory is left.
    pub fn make(
        alloc: Global,
        followers: &[u32],
        passes: u32,
    ) -> Result<(SharedLogs, List<LogPass>), NoMemory>
        requires parts { length followers.now ≤ 64 }
        requires passes { (1 ≤ passes) × (passes ≤ 80) }
        ensures followers { IfOk result (λ made. followers_in made.0 ≡ followers.now) }
        ensures size { IfOk result (λ made. made.0.room.table.shape.passes ≡ passes) }
        ensures passes { IfOk result (λ made. made.1 ≡ fresh_log_passes made.0 passes) }
    {
        let count = followers.len() as u32;
        let RoomParts {
            room,
            mut sources,
            passes: seats,
        } = Room::make(alloc, 3 * count + 1, passes)?;
        let Some(last) = sources.pop() else {
            unreachable!()
        };
        let NewLocks {
            parts,
            rows,
            clock,
            clocks,
        } = new_locks(alloc, followers, sources, last, passes)?;
        let passes = log_passes(alloc, seats, rows, clocks)?;
        let logs = SharedLogs {
            alloc,
            room,
            parts,
            clock,
        };
        Ok((logs, passes))
    }

    /// The allocator of the logs.
    pub fn alloc(&self) -> Global {
        self.alloc
    }
}
