ghost use Rattle.std.specs.Prelude.{◌≡◌, fold, max};
ghost use Rattle.partlog.specs.Moment.{moment_of};
ghost use Rattle.shared_logs.specs.Seen.{HasSeen};

use crate::{MomentDesk, PartDesk};
use purgatory::RoomPass;
use std::marker::Model;
use turn_lock::TurnPass;

/// The right to take turns with the logs, and to wait in the room, one thread at a time. Between any two calls it has no turn out, and
/// its operation, if it has one, waits.
#[derive(Drop)]
pub struct LogPass {
    pub(crate) number: u32,
    pub(crate) room: RoomPass,
    pub(crate) parts: Vec<TurnPass<PartDesk>>,
    pub(crate) clock: TurnPass<MomentDesk>,
    // the moment of the clock's history as it was seen last
    pub(crate) moment: u64,
    // the greatest moment whose tick this pass added, or 0
    pub(crate) ticked: u64,
}

impl Model for LogPass {
    ghost use Rattle.shared_logs.specs.Shared.{LogPassView};
    ghost use Rattle.shared_logs.specs.Locked.{IsLogPass, pass_view};

    ghost Value = { LogPassView };

    ghost view = { λ p. pass_view p.number p.room p.parts.items p.clock };

    ghost invariant = { λ p. IsLogPass p.number p.room p.parts.items p.clock p.moment p.ticked };
}

impl LogPass {
    /// The pass's number, counted from 0.
    pub fn number(&self) -> u32
        ensures number { result ≡ self.now.number }
        ensures seen { HasSeen self.now }
    {
        self.number
    }

    /// The greatest moment, in milliseconds, whose tick this pass added; 0 before the first.
    pub fn ticked(&self) -> u64
        ensures { result ≡ fold max 0 self.now.ticked }
    {
        self.ticked
    }

    /// Law: what holds of a pass between any two calls.
    pub fn keeps(&self)
        ensures { HasSeen self.now }
    {
        let _ = &self.room;
    }
}
