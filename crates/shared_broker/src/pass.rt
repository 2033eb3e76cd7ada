//! A pass, of which each session or thread has one: every call on a broker takes it.
ghost use Rattle.std.specs.Prelude.{◌≡◌, fold, is_some, max};
ghost use Rattle.shared_broker.specs.Standing.{Stands};

use crate::parked::Parked;
use audit::Transcript;
use kbytes::List;
use kwire::Config;
use shared_logs::LogPass;
use std::marker::Model;
use std::snapshot::Snapshot;

/// The right to act on the broker, for one session after the other. It keeps what they did.
#[derive(Drop)]
pub struct Pass {
    pub(crate) config: Snapshot<Config>,
    pub(crate) logs: LogPass,
    pub(crate) ended: List<Transcript>,
    pub(crate) going: Option<Transcript>,
    pub(crate) waits: Option<Parked>,
    // how many calls the ended transcripts have
    pub(crate) first: u32,
}

impl Model for Pass {
    ghost use Rattle.std.specs.Prelude.{◌≡◌, length};
    ghost use Rattle.audit.specs.Histories.{calls_in};
    ghost use Rattle.shared_broker.specs.Passes.{PassView};
    ghost use Rattle.shared_broker.specs.Standing.{Stands};

    ghost Value = { PassView };

    ghost view = { λ p. record { config = p.config.value; logs = p.logs; ended = p.ended; going = p.going; waits = p.waits } };

    ghost invariant = { λ p. Stands (record { config = p.config.value; logs = p.logs; ended = p.ended; going = p.going; waits = p.waits })
        × (p.first ≡ length (calls_in p.ended)) };
}

impl Pass {
    /// The greatest moment, in milliseconds, whose tick this pass added; 0 before the first.
    pub fn ticked(&self) -> u64
        ensures { result ≡ fold max 0 self.now.logs.ticked }
    {
        self.logs.ticked()
    }

    /// Whether a transcript is begun and not finished.
    pub fn is_begun(&self) -> bool
        ensures { result ≡ is_some self.now.going }
    {
        self.going.is_some()
    }

    /// Whether its request waits.
    pub fn waits(&self) -> bool
        ensures { result ≡ is_some self.now.waits }
    {
        self.waits.is_some()
    }

    /// Law: what is true of a pass between any two calls.
    pub fn keeps(&self)
        ensures { Stands self.now }
    {
        let _ = &self.logs;
    }
}
