ghost use Rattle.std.specs.Prelude.{◌≡◌};

use crate::kept::Kept;
use crate::line::Place;
use std::snapshot::Snapshot;

/// One pass's turn with the value. It must be ended or taken: it can't be dropped.
pub struct Turn<T: Kept> {
    pub(crate) value: T,
    pub(crate) ticket: u64,
    /// The seat of the pass that has the turn.
    pub(crate) from: Snapshot<Place<T>>,
}

impl<T: Kept> Turn<T> {
    ghost use Rattle.std.specs.Borrow.{sem};
    ghost use Rattle.turn_lock.specs.Lending.{lends_value};

    /// The value, for reading.
    pub fn value(&self) -> &T
        ensures { result.now ≡ self.now.value }
    {
        &self.value
    }

    /// The value, for reading and writing.
    pub fn value_mut(&mut self) -> &mut T
        ensures* writes_back { sem 𝓛 (lends_value T.row T.Entry.row self.entry result) }
        ensures value { result.now ≡ self.old.value }
    {
        &mut self.value
    }

    /// The value out of the lock, for good. From now on the lock and its passes can only be dropped.
    pub fn take(self) -> T
        ensures { result ≡ self.value }
    {
        let Turn {
            value,
            ticket: _,
            from: _,
        } = self;
        value
    }
}
