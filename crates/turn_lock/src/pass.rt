ghost use Rattle.std.specs.Prelude.{◌≡◌};

use crate::kept::Kept;
use crate::known::Known;
use atomic_table::Seat;
use std::collections::LinkedList;

/// The right to take turns with the value of one lock, one at a time. It has no bytes, and may go to another thread.
pub struct TurnPass<T: Kept> {
    pub(crate) seat: Seat<Option<T>, LinkedList<Known<T::Entry>>>,
}

impl<T: Kept> Drop for TurnPass<T> {
    fn drop(self) {
        let Self { seat: _ } = self;
    }
}

impl<T: Kept> TurnPass<T> {
    pub(crate) fn into_seat(self) -> Seat<Option<T>, LinkedList<Known<T::Entry>>>
        ensures { result ≡ self.seat }
    {
        let Self { seat } = self;
        seat
    }
}
