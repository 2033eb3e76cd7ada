//! A clock that stands for a while, so that a request waits.

use outside::{Clock, MemClock};
use std::sync::atomic::{AtomicBool, Ordering};

/// A clock that stays at its moment for 100 rests, and notes that it was let rest: then a request waits.
#[derive(Drop)]
pub(crate) struct StandingClock<'a> {
    inner: MemClock,
    rests: u64,
    has_rested: &'a AtomicBool,
}

impl<'a> StandingClock<'a> {
    pub(crate) fn new(has_rested: &'a AtomicBool) -> StandingClock<'a> {
        StandingClock {
            inner: MemClock::new(0, 1000),
            rests: 0,
            has_rested,
        }
    }
}

impl Clock for StandingClock<'_> {
    ghost moment = { λ c. c.inner.given };

    fn now(&mut self) -> u64 {
        self.inner.now()
    }

    fn next(&mut self) -> u64 {
        self.has_rested.store(true, Ordering::SeqCst);
        if self.rests >= 100 {
            return self.inner.next();
        }
        self.rests += 1;
        self.inner.now()
    }
}
