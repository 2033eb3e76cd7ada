ghost use Rattle.std.specs.Prelude.{◌≡◌};

use crate::Clock;
use crate::shared::clock::clock_desk::ClockDesk;
use std::marker::Model;
use turn_lock::TurnPass;

/// The right to ask a shared clock, one thread at a time.
#[derive(Drop)]
pub struct ClockPass<C: Clock> {
    pub(crate) number: u32,
    pub(crate) key: TurnPass<ClockDesk<C>>,
    pub(crate) told: u64,
}

impl<C: Clock> Model for ClockPass<C> {
    ghost use Rattle.outside.specs.shared.clock.ClockViews.{PassView};
    ghost use Rattle.outside.specs.shared.clock.Keys.{IsClockPass, pass_view};

    ghost Value = { PassView };

    ghost view = { λ p. pass_view p.number p.key p.told };

    ghost invariant = { λ p. IsClockPass p.number p.key p.told };
}

impl<C: Clock> ClockPass<C> {
    /// The greatest moment, in milliseconds, that `Shared::now` told this pass; 0 before the first.
    pub fn told(&self) -> u64
        ensures { result ≡ self.now.told }
    {
        self.told
    }
}
