//! What came of accepting a request so far: `producing` and `fetching` note it, and the crate above makes the reply of it.
ghost use Rattle.std.specs.Prelude.{◌≡◌, [], ◌∷◌, ◌++◌, ◌<◌, ◌^◌, All, IfOk, OnOk};
ghost use Rattle.kanswer.specs.LogReadings.{HasCarriable, IsCarriable};

use crate::few::Few;
use kanswer::{Accepted, Reading};
use kbytes::{List, NoMemory};
use partlog::Numbers;
use std::alloc::Global;
use std::marker::Model;

/// For each partition that was named so far what became of it, the numbers of its log just after, and what the reply takes of it then. If
/// memory runs out, it may only be dropped.
#[derive(Drop)]
pub struct Came {
    accepted: Few<Accepted>,
    numbers: Few<Numbers>,
    readings: Few<Reading>,
}

impl Model for Came {
    ghost use Rattle.std.specs.Prelude.{All};
    ghost use Rattle.kanswer.specs.LogReadings.{HasCarriable, IsCarriable};
    ghost use Rattle.shared_calls.specs.Came.{CameView};

    ghost Value = { CameView };

    ghost view = { λ c. record { accepted = c.accepted; numbers = c.numbers; readings = c.readings } };

    ghost invariant = { λ c. All IsCarriable c.accepted × All HasCarriable c.readings };
}

impl Came {
    /// Nothing. It takes no memory.
    pub(crate) fn new(alloc: Global) -> Came
        ensures { result ≡ record { accepted = []; numbers = []; readings = [] } }
    {
        Came {
            accepted: Few::new(alloc),
            numbers: Few::new(alloc),
            readings: Few::new(alloc),
        }
    }

    /// The next partition became this, and its log has these numbers; this was read of it.
    pub(crate) fn note(&mut self, became: Accepted, reading: Reading) -> Result<(), NoMemory>
        requires became { IsCarriable became }
        requires reading { HasCarriable reading }
        ensures { OnOk result (self.new ≡ record {
          accepted = self.old.accepted ++ became ∷ [];
          numbers = self.old.numbers ++ reading.numbers ∷ [];
          readings = self.old.readings ++ reading ∷ [];
        }) }
    {
        self.accepted.push(became)?;
        self.numbers.push(reading.numbers)?;
        self.readings.push(reading)
    }

    /// The results, one for each named partition.
    pub fn accepted(&self) -> &[Accepted]
        ensures results { result.now ≡ self.now.accepted }
        ensures offsets { All IsCarriable result.now }
    {
        self.accepted.as_slice()
    }

    /// The numbers of each named partition's log, just after.
    pub fn numbers(&self) -> &[Numbers]
        ensures { result.now ≡ self.now.numbers }
    {
        self.numbers.as_slice()
    }

    /// What was read of each.
    pub fn readings(&self) -> &[Reading]
        ensures readings { result.now ≡ self.now.readings }
        ensures offsets { All HasCarriable result.now }
    {
        self.readings.as_slice()
    }

    /// The results, in memory of their own.
    pub fn into_accepted(self, alloc: Global) -> Result<List<Accepted>, NoMemory>
        ensures { IfOk result (λ accepted. accepted ≡ self.accepted) }
    {
        self.accepted.into_list(alloc)
    }
}
