ghost use Rattle.std.specs.Prelude.{◌≡◌, ◌≤◌, IfSome};
ghost use Rattle.outside.specs.declared.clock.TheConstants.{MOST_MOMENT};

use crate::clock::{Clock, MOST_MOMENT};
use std::marker::Model;
use std::thread;
use std::time::{self, Duration, Instant};

/// The system's clock: the milliseconds since it was made. Where the system doesn't answer it stays at its moment.
#[derive(Drop)]
pub struct SystemClock<R> {
    rt: R,
    start: Option<Instant>,
    last: u64,
}

impl<R> Model for SystemClock<R> {
    ghost use Rattle.std.specs.Prelude.{ℕ, ◌≤◌};

    ghost Value = { ℕ };

    ghost use Rattle.outside.specs.declared.clock.TheConstants.{MOST_MOMENT};

    ghost view = { λ c. c.last };

    ghost invariant = { λ c. c.last ≤ MOST_MOMENT };
}

impl<R: time::Clock> SystemClock<R> {
    /// A clock at moment 0, over the clocks of the runtime.
    pub fn new(rt: R) -> SystemClock<R>
        ensures { result ≡ 0 }
    {
        let start = Instant::now(&rt).ok();
        SystemClock { rt, start, last: 0 }
    }

    // The milliseconds since it was made, where the system says it.
    fn passed(&self) -> Option<u64> {
        let passed = self.start?.elapsed(&self.rt).ok()?;
        u64::try_from(passed.as_millis()).ok()
    }
}

impl<R: time::Clock> Clock for SystemClock<R> {
    ghost moment = { λ c. c };

    fn now(&mut self) -> u64 {
        let passed = self.passed().unwrap_or(self.last);
        self.last = passed.min(MOST_MOMENT).max(self.last);
        self.last
    }

    /// Sleeps for a millisecond first.
    fn next(&mut self) -> u64 {
        thread::sleep(&self.rt, Duration::from_millis(1));
        self.now()
    }
}
