//! What `retell` has computed so far of a call: what became of its partitions, and where their entries are.

ghost use Rattle.std.specs.Prelude.{◌≡◌, ◌+◌, ◌<◌, ◌^◌, ◌++◌, ◌∷◌, [], All, OnOk};
ghost use Rattle.kanswer.specs.declared.accepted.Accepted.TheVariants.{Refused};
ghost use Rattle.kanswer.specs.LogReadings.{IsCarriable};

use kanswer::Accepted;
use kbytes::{List, NoMemory};
use std::alloc::Global;
use std::marker::Model;

/// A result for each partition so far, with offsets that the wire can carry; the place of its entry in its history, or 0 if it left
/// none; and how many points were taken. If memory runs out, it may only be dropped.
#[derive(Drop)]
pub struct Retold {
    accepted: List<Accepted>,
    places: List<u64>,
    taken: usize,
}

impl Model for Retold {
    ghost use Rattle.std.specs.Prelude.{All};
    ghost use Rattle.audit.specs.retelling.Retells.{SoFar};
    ghost use Rattle.kanswer.specs.LogReadings.{IsCarriable};

    ghost Value = { SoFar };

    ghost view = { λ r. record { accepted = r.accepted; places = r.places; taken = r.taken } };

    ghost invariant = { λ r. All IsCarriable r.accepted };
}

impl Retold {
    /// No results yet. It takes no memory.
    pub fn new(alloc: Global) -> Retold
        ensures { result ≡ record { accepted = []; places = []; taken = 0 } }
    {
        Retold {
            accepted: List::new(alloc),
            places: List::new(alloc),
            taken: 0,
        }
    }

    /// How many points were taken.
    pub fn taken(&self) -> usize
        ensures { result ≡ self.now.taken }
    {
        self.taken
    }

    /// The next partition was refused before its log was asked.
    pub fn refuse(&mut self, code: i16) -> Result<(), NoMemory>
        ensures { OnOk result (self.new ≡ record {
          accepted = self.old.accepted ++ Refused code ∷ [];
          places = self.old.places ++ 0 ∷ [];
          taken = self.old.taken;
        }) }
    {
        self.accepted.push(Accepted::Refused { code })?;
        self.places.push(0)
    }

    /// The log of the next partition was asked, and its entry is at this place.
    pub fn ask(&mut self, became: Accepted, place: u64) -> Result<(), NoMemory>
        requires few { self.old.taken < 2 ^ 63 }
        requires carried { IsCarriable became }
        ensures { OnOk result (self.new ≡ record {
          accepted = self.old.accepted ++ became ∷ [];
          places = self.old.places ++ place ∷ [];
          taken = self.old.taken + 1;
        }) }
    {
        self.accepted.push(became)?;
        self.places.push(place)?;
        self.taken += 1;
        Ok(())
    }

    /// The results and the places.
    pub fn into_parts(self) -> (List<Accepted>, List<u64>)
        ensures accepted { result.0 ≡ self.accepted }
        ensures places { result.1 ≡ self.places }
        ensures carried { All IsCarriable result.0 }
    {
        (self.accepted, self.places)
    }
}
