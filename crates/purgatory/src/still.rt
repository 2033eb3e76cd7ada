//! The end of a room: `Room::still` counts what was won and taken while no thread can act. It hands on a `StillRoom`, which `closing`
//! closes, or gives everything back, since a pass has yet to look at its operation.
ghost use Rattle.std.specs.Prelude.{◌≡◌, ◌-◌, ◌<◌, ◌≤◌, ◌^◌, ◌↔◌, All, Any, IsTrue, length};
ghost use Rattle.room_core.specs.Numbers.{most_passes, scanner_numbers};
ghost use Rattle.purgatory.specs.Ended.{HasEnded};
ghost use Rattle.purgatory.specs.Ends.{IsSettled, IsWaiting, seats_of, taken_of, won_by_passes};
ghost use Rattle.purgatory.specs.Holding.{IfUntaken, WereHeld};
ghost use Rattle.purgatory.specs.Rooms.{IsRoom};

use crate::closing::StillRoom;
use crate::holding::{Count, Held};
use crate::locks::Locks;
use crate::pass::RoomPass;
use crate::room::Room;
use kbytes::List;
use room_table::RoomTable;
use std::sync::Wait;
use std::sync::atomic::AtomicU64;
use std::time::Duration;

// How long a thread that sleeps forever sleeps at a time, in milliseconds.
const NAP: u64 = 1_000;

/// How a room ended.
#[derive(Drop)]
pub enum RoomEnd {
    /// Everything that was won was taken. From now on nobody can act on the room.
    Still(StillRoom),
    /// More was won than the passes have taken, and one of them waits: it has yet to look at its operation, by `Room::poll`. The room and
    /// the passes are handed back as they were.
    Untaken { room: Room, passes: List<RoomPass> },
}

// What the passes have won and taken.
fn counted(passes: &[RoomPass]) -> Count
    requires { length passes.now ≤ most_passes }
    ensures won { result.won ≡ won_by_passes (seats_of passes.now) }
    ensures taken { result.taken ≡ taken_of (seats_of passes.now) }
    ensures few { result.taken < 2 ^ 64 - 1 }
{
    let mut won = 0;
    let mut taken = 0;
    for i in 0..passes.len() {
        let pass = &passes[i];
        won += u64::from(pass.owner.wins());
        taken += u64::from(pass.owner.taken());
    }
    Count { won, taken }
}

// Whether the operation of one of the passes waits.
fn one_waits(passes: &[RoomPass]) -> bool
    ensures { IsTrue result ↔ Any IsWaiting passes.now }
{
    passes.iter().any(|pass| pass.waits())
}

// Returns if one of the passes waits, and else sleeps forever. If more was won than they have taken, one always waits by the room's
// rule, but no clause of the table shows that.
fn wait_till_one_waits(rt: &impl Wait, passes: &[RoomPass])
    ensures { Any IsWaiting passes.now }
{
    let never = AtomicU64::new(0);
    for _ in rt.forever() {
        if one_waits(passes) {
            return;
        }
        never.park_timeout(rt, 0, Duration::from_millis(NAP));
    }
    unreachable!()
}

// Holds all turns, with the keys of the first pass.
fn hold_all(
    rt: &impl Wait,
    locks: &Locks,
    passes: &mut List<RoomPass>,
    table: RoomTable,
    wins: &mut List<u64>,
    count: Count,
) -> Held
    requires room { IsRoom table locks.now }
    requires some { 0 < length passes.old }
    requires made { All (λ pass. pass.locks ≡ locks.now) passes.old }
    requires wins { scanner_numbers ≤ length wins.old }
    requires taken { count.taken < 2 ^ 64 - 1 }
    ensures wins { length wins.new ≡ length wins.old }
    ensures held { WereHeld table 0 count.won count.taken wins.new result }
    ensures seats { seats_of passes.new ≡ seats_of passes.old }
    ensures back { IfUntaken result (passes.new ≡ passes.old) }
{
    let first = &mut passes.as_mut_slice()[0];
    locks.hold(rt, &mut first.keys, table, wins, count)
}

impl Room {
    /// Whether everything that was won was taken, by `poll` and `register`. This is counted with all passes, and while the turns of all
    /// locks are held. If it was, the answer is `Still`: nobody can act on the room any more, and no operation that waits is won. Else it
    /// is `Untaken`, with the room and the passes as they were: poll with each pass that waits, and ask again. It takes no memory.
    pub fn still(self, rt: &impl Wait, mut passes: List<RoomPass>) -> RoomEnd
        requires all { length passes ≡ self.table.shape.passes }
        requires settled { All (IsSettled self) passes }
        ensures { HasEnded self passes result }
    {
        let Room {
            table,
            locks,
            shape,
            mut wins,
        } = self;
        let count = counted(passes.as_slice());
        match hold_all(rt, &locks, &mut passes, table, &mut wins, count) {
            Held::Untaken(table) => {
                wait_till_one_waits(rt, passes.as_slice());
                RoomEnd::Untaken {
                    room: Room {
                        table,
                        locks,
                        shape,
                        wins,
                    },
                    passes,
                }
            }
            Held::Still(closing) => RoomEnd::Still(StillRoom::of(closing, passes, wins)),
        }
    }
}
