ghost use Rattle.std.specs.Prelude.{◌≡◌, ℕ, ◌≤◌};
ghost use Rattle.outside.specs.declared.clock.TheConstants.{MOST_MOMENT};

/// The greatest moment that a clock gives, in milliseconds.
pub const MOST_MOMENT: u64 = kbytes::MOST_MOMENT;

/// Moments in milliseconds that never go back, at most `MOST_MOMENT`. A clock has no fault.
pub trait Clock {
    /// The moment that it gave last, 0 before the first.
    ghost moment: { Self → ℕ };

    /// The moment now.
    fn now(&mut self) -> u64
        ensures given { result ≡ moment self.new }
        ensures later { moment self.old ≤ result }
        ensures limit { result ≤ MOST_MOMENT };

    /// Rests first, and gives the moment then.
    fn next(&mut self) -> u64
        ensures given { result ≡ moment self.new }
        ensures later { moment self.old ≤ result }
        ensures limit { result ≤ MOST_MOMENT };
}
