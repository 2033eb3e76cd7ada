//! What is kept of one follower.
ghost use Rattle.std.specs.Prelude.{◌≡◌, true, nat_le, if◌then◌else◌};

use crate::in_sync::limits::MOST_LAG;

/// A follower's numbers. Before its first fetch each is 0, and it is in sync.
#[derive(Clone, Copy)]
pub(crate) struct Standing {
    /// The greatest offset that it fetched from.
    pub(crate) position: u64,
    /// The moment at which it had caught up.
    pub(crate) caught_up: u64,
    /// The moment of its last fetch.
    pub(crate) fetched_at: u64,
    /// The log end as its last fetch came.
    pub(crate) fetched_end: u64,
    /// Whether it is in the in-sync set.
    pub(crate) in_sync: bool,
}

impl Standing {
    ghost use Rattle.partlog.specs.in_sync.Steps.{after_fetch, is_late};

    /// The standing of a follower that never fetched.
    pub(crate) fn new() -> Standing
        ensures { result ≡ record { position = 0; caught_up = 0; fetched_at = 0; fetched_end = 0; in_sync = true } }
    {
        Standing {
            position: 0,
            caught_up: 0,
            fetched_at: 0,
            fetched_end: 0,
            in_sync: true,
        }
    }

    /// The moment that a fetch from this offset reaches, or 0 where it reaches none.
    fn reached(&self, log_end: u64, offset: u64, t: u64) -> u64
        ensures { result ≡ (if nat_le log_end offset then t
            else (if nat_le self.now.fetched_end offset then self.now.fetched_at else 0)) }
    {
        if log_end <= offset {
            t
        } else if self.fetched_end <= offset {
            self.fetched_at
        } else {
            0
        }
    }

    /// The standing after a fetch from this offset, where the log end and the high watermark before it are these.
    pub(crate) fn fetched(&self, log_end: u64, high: u64, offset: u64, t: u64) -> Standing
        ensures { result ≡ after_fetch self.now log_end high offset t }
    {
        let in_sync = if high <= offset { true } else { self.in_sync };
        Standing {
            position: self.position.max(offset),
            caught_up: self.caught_up.max(self.reached(log_end, offset, t)),
            fetched_at: t,
            fetched_end: log_end,
            in_sync,
        }
    }

    /// Whether the follower lags at this moment.
    pub(crate) fn is_late(&self, log_end: u64, t: u64) -> bool
        ensures { result ≡ is_late log_end t self.now }
    {
        self.in_sync && self.position < log_end && t >= MOST_LAG && t - MOST_LAG >= self.caught_up
    }
}
