ghost use Rattle.std.specs.Prelude.{◌≡◌, ◌≢◌, ◌+◌, ◌<◌, ◌≤◌, ℕ, List, Option, length, replicate, IfOk, IfSome, IfNone, slice_index_or, slice_set};
ghost use Rattle.std.specs.Bool.{OnFalse};
ghost use Rattle.timing_wheel.specs.Timers.{listed};
ghost use Rattle.timing_wheel.specs.Filed.{StartFrom};
ghost use Rattle.timing_wheel.specs.Wait.{IsNear, bucket_of};

use crate::buckets::Buckets;
use crate::numbers::{ALL_BUCKETS, LEVELS};
use crate::timer::Timer;
use kbytes::NoMemory;
use std::alloc::Global;
use std::marker::Model;

/// The entries by id, each in the bucket of its place. A contract sees the entries.
#[derive(Drop)]
pub(crate) struct Entries {
    timers: Vec<Option<Timer>>,
    buckets: Buckets,
    count: u32,
    /// For each level a moment before which no bucket that holds an entry starts: it rises to the
    /// first such bucket when the level turns, and falls when an earlier one is filled.
    starts: [u64; LEVELS as usize],
}

impl Model for Entries {
    ghost use Rattle.std.specs.Prelude.{List, Option};
    ghost use Rattle.timing_wheel.specs.declared.timer.Timer.{Timer};
    ghost use Rattle.timing_wheel.specs.Filed.{IsFiled};

    ghost Value = { List (Option Timer) };

    ghost view = { λ e. e.timers.items };

    ghost invariant = { λ e. IsFiled e.timers.items e.buckets e.count e.starts };
}

impl Entries {
    pub(crate) fn new(alloc: Global, ids: u32) -> Result<Entries, NoMemory>
        ensures { IfOk result (λ e. e ≡ replicate ids None) }
    {
        let timers = vec![in alloc; None; ids as usize]?;
        let buckets = Buckets::new(alloc, ids)?;
        Ok(Entries {
            timers,
            buckets,
            count: 0,
            starts: [u64::MAX; LEVELS as usize],
        })
    }

    pub(crate) fn count(&self) -> u32
        ensures count { result ≡ listed self.now }
        ensures within { result ≤ length self.now }
    {
        self.count
    }

    pub(crate) fn get(&self, id: u32) -> Option<Timer>
        requires { id < length self.now }
        ensures { result ≡ slice_index_or self.now id None }
    {
        self.timers[id as usize]
    }

    /// An id whose entry is in a bucket.
    pub(crate) fn first(&self, bucket: u8) -> Option<u32>
        requires { bucket < ALL_BUCKETS }
        ensures within { IfSome result (λ id. id < length self.now) }
        ensures some { IfSome result
            (λ id. bucket_of (slice_index_or self.now id None) ≡ Some bucket) }
        ensures none { IfNone result
            ((id : ℕ) → bucket_of (slice_index_or self.now id None) ≢ Some bucket) }
    {
        self.buckets.first(bucket)
    }

    /// Puts the entry of an id that has none into its bucket.
    pub(crate) fn put(&mut self, id: u32, timer: Timer)
        requires within { id < length self.old }
        requires free { slice_index_or self.old id None ≡ None }
        requires near { IsNear timer }
        ensures { self.new ≡ slice_set self.old id (Some timer) }
    {
        let spot = timer.spot();
        let level = spot.place.level as usize;
        self.starts[level] = self.starts[level].min(spot.start);
        self.buckets.put(id, spot.place.number());
        self.timers[id as usize] = Some(timer);
        self.count += 1;
    }

    /// False only where no bucket of this level that holds an entry starts by t.
    pub(crate) fn may_start(&self, level: u32, t: u64) -> bool
        requires { level < LEVELS }
        ensures { OnFalse result (StartFrom level (t + 1) self.now) }
    {
        self.starts[level as usize] <= t
    }

    /// Keeps a moment before which no bucket of this level that holds an entry starts.
    pub(crate) fn start_from(&mut self, level: u32, start: u64)
        requires level { level < LEVELS }
        requires start { StartFrom level start self.old }
        ensures { self.new ≡ self.old }
    {
        self.starts[level as usize] = start;
    }

    /// Takes the entry of an id out of its bucket, where it has one.
    pub(crate) fn take(&mut self, id: u32) -> Option<Timer>
        requires { id < length self.old }
        ensures entry { result ≡ slice_index_or self.old id None }
        ensures rest { self.new ≡ slice_set self.old id None }
    {
        let timer = self.timers[id as usize];
        if timer.is_some() {
            self.buckets.take(id);
            self.timers[id as usize] = None;
            self.count -= 1;
        }
        timer
    }
}
