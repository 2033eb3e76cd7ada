//! What the turn lock knows of the desk: the moments that were told are its entries.
use crate::Clock;
use crate::shared::clock::clock_desk::ClockDesk;
use crate::shared::clock::told_moment::ToldMoment;
use turn_lock::Kept;

impl<C: Clock> Kept for ClockDesk<C> {
    ghost use Rattle.outside.specs.shared.clock.Desk.{nameless, told_of};
    ghost use Rattle.outside.specs.shared.clock.Moments.{told_to};

    type Entry = ToldMoment;

    ghost entries = { told_of };

    ghost by = { told_to };

    ghost name = { nameless };

    fn count(&self) -> u64 {
        self.len()
    }
}
