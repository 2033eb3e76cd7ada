ghost use Rattle.std.specs.Prelude.{◌≡◌, ◌+◌, ◌/◌, ◌<◌, ◌≤◌, ◌↔◌, IsTrue};
ghost use Rattle.timing_wheel.specs.Place.{place_of};
ghost use Rattle.timing_wheel.specs.Turn.{bucket_start};
ghost use Rattle.timing_wheel.specs.Wait.{IsNear};

use crate::numbers::{BUCKETS, LEVELS};
use crate::place::Place;

/// One entry of the wheels: its deadline, and the moment at which it was last put into a bucket,
/// both in milliseconds.
#[derive(Clone, Copy, PartialEq, Eq)]
pub struct Timer {
    pub deadline: u64,
    pub put: u64,
}

/// Where an entry is, and the first moment of its bucket.
#[derive(Clone, Copy)]
pub(crate) struct Spot {
    pub(crate) place: Place,
    pub(crate) start: u64,
}

/// Whether a wheel with buckets of `tick` milliseconds ends past the deadline. It divides only where
/// the answer hangs on how much of the present bucket is over.
fn reaches(put: u64, deadline: u64, tick: u64) -> bool
    requires past { put < deadline }
    requires tick { 0 < tick }
    requires fits { tick ≤ 1280000000 }
    ensures { IsTrue result ↔ (deadline / tick < put / tick + BUCKETS) }
{
    let ahead = deadline - put;
    ahead <= (BUCKETS - 1) * tick
        || (ahead < BUCKETS * tick && deadline / tick - put / tick < BUCKETS)
}

impl Timer {
    /// The least level whose wheel, at the moment of putting, ends past the deadline, and in it the
    /// bucket of the deadline.
    pub(crate) fn spot(self) -> Spot
        requires { IsNear self }
        ensures place { result.place ≡ place_of self }
        ensures start { result.start ≡ bucket_start self }
        ensures level { result.place.level < LEVELS }
        ensures bucket { result.place.bucket < BUCKETS }
    {
        let mut tick: u64 = 1;
        let mut level: u32 = 0;
        while !reaches(self.put, self.deadline, tick) {
            tick *= BUCKETS;
            level += 1;
        }
        let ticks = self.deadline / tick;
        Spot {
            place: Place {
                level,
                bucket: (ticks % BUCKETS) as u32,
            },
            start: ticks * tick,
        }
    }

    pub(crate) fn place(self) -> Place
        requires { IsNear self }
        ensures { result ≡ place_of self }
    {
        self.spot().place
    }
}
