ghost use Rattle.std.specs.Prelude.{◌≡◌, ◌+◌, ◌*◌, ◌<◌};
ghost use Rattle.timing_wheel.specs.Wait.{number_of};

use crate::numbers::{ALL_BUCKETS, BUCKETS, LEVELS};

/// Where an entry is: a level from 0 to 7, and in it a bucket from 0 to 19.
#[derive(Clone, Copy, PartialEq, Eq)]
pub struct Place {
    pub level: u32,
    pub bucket: u32,
}

impl Place {
    pub(crate) fn number(self) -> u8
        requires level { self.level < LEVELS }
        requires bucket { self.bucket < BUCKETS }
        ensures same { result ≡ number_of self }
        ensures within { result < ALL_BUCKETS }
    {
        (BUCKETS as u32 * self.level + self.bucket) as u8
    }
}
