ghost use Rattle.std.specs.Prelude.{◌≡◌, ◌+◌, ◌≤◌, min};
ghost use Rattle.outside.specs.declared.clock.TheConstants.{MOST_MOMENT};

use crate::clock::{Clock, MOST_MOMENT};
use std::marker::Model;

/// A clock in memory, for tests: it stays at its moment but where it rests.
#[derive(Drop)]
pub struct MemClock {
    at: u64,
    step: u64,
    given: u64,
}

impl Model for MemClock {
    ghost use Rattle.std.specs.Prelude.{◌≤◌};
    ghost use Rattle.outside.specs.Hand.{Hand};
    ghost use Rattle.outside.specs.declared.clock.TheConstants.{MOST_MOMENT};

    ghost Value = { Hand };

    ghost view = { λ c. record { at = c.at; step = c.step; given = c.given } };

    ghost invariant = { λ c. (c.given ≤ c.at) × (c.at ≤ MOST_MOMENT) };
}

impl MemClock {
    /// A clock at the moment `first`, in milliseconds, which moves on by `step` where it rests. It has given no moment.
    pub fn new(first: u64, step: u64) -> MemClock
        requires limit { first ≤ MOST_MOMENT }
        ensures { result ≡ record { at = first; step = step; given = 0 } }
    {
        MemClock {
            at: first,
            step,
            given: 0,
        }
    }
}

impl Clock for MemClock {
    ghost moment = { λ c. c.given };

    /// The moment at which it is.
    fn now(&mut self) -> u64
        ensures given { result ≡ self.new.given }
        ensures later { self.old.given ≤ result }
        ensures limit { result ≤ MOST_MOMENT }
        ensures is { result ≡ self.old.at }
        ensures kept { self.new ≡ record self.old { given = result } }
    {
        self.given = self.at;
        self.at
    }

    /// Moves on by the step, up to the limit of moments.
    fn next(&mut self) -> u64
        ensures given { result ≡ self.new.given }
        ensures later { self.old.given ≤ result }
        ensures limit { result ≤ MOST_MOMENT }
        ensures is { result ≡ min (self.old.at + self.old.step) MOST_MOMENT }
        ensures moved { self.new ≡ record self.old { at = result; given = result } }
    {
        self.at = self.at.saturating_add(self.step).min(MOST_MOMENT);
        self.given = self.at;
        self.at
    }
}
