ghost use Rattle.std.specs.Prelude.{◌≡◌};
ghost use Rattle.outside.specs.shared.queue.Hands.{IsReadyPass, pass_view};

use crate::shared::queue::hand::Hand;
use crate::shared::queue::numbered::Numbered;
use crossbeam_queue::Pass;
use std::marker::Model;

/// How many parts the first pass of a queue has, which is how many passes there may be at once.
pub const PARTS: u64 = 1024;

/// What one thread put into a queue and took out of it. It has no bytes, and may go to another thread.
pub struct QueuePass<L> {
    pub(crate) seat: Pass<Numbered<L>, Hand<L>>,
}

impl<L> Drop for QueuePass<L> {
    fn drop(self) {
        let Self { seat: _ } = self;
    }
}

impl<L> Model for QueuePass<L> {
    ghost use Rattle.outside.specs.shared.queue.QueueViews.{PassView};
    ghost use Rattle.outside.specs.shared.queue.Hands.{pass_view, IsReadyPass};

    ghost Value = { PassView L };

    ghost view = { λ p. pass_view p.seat };

    ghost invariant = { λ p. IsReadyPass p.seat };
}

impl<L> QueuePass<L> {
    pub(crate) fn into_seat(self) -> Pass<Numbered<L>, Hand<L>>
        ensures view { pass_view result ≡ self }
        ensures ready { IsReadyPass result }
    {
        let Self { seat } = self;
        seat
    }
}
