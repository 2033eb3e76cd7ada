//! What `accept` has done of a request so far. `handle` makes the reply or the operation from it.

ghost use Rattle.std.specs.Prelude.{◌≡◌, ◌∷◌, [], ◌++◌, All, OnOk};
ghost use Rattle.kanswer.specs.LogReadings.{IsCarriable};

use audit::Point;
use kanswer::Accepted;
use kbytes::{List, NoMemory};
use std::alloc::Global;
use std::marker::Model;

/// A result for each partition that was named so far, with offsets that the wire can carry, and the points of the entries that were
/// left. If memory runs out, it may only be dropped: a result may lack its point.
#[derive(Drop)]
pub struct Came {
    accepted: List<Accepted>,
    points: List<Point>,
}

impl Model for Came {
    ghost use Rattle.std.specs.Prelude.{All};
    ghost use Rattle.lone_broker.specs.Carried.{Came as SoFar};
    ghost use Rattle.kanswer.specs.LogReadings.{IsCarriable};

    ghost Value = { SoFar };

    ghost view = { λ c. record { accepted = c.accepted; points = c.points } };

    ghost invariant = { λ c. All IsCarriable c.accepted };
}

impl Came {
    /// No results yet. It takes no memory.
    pub fn new(alloc: Global) -> Came
        ensures { result ≡ record { accepted = []; points = [] } }
    {
        Came {
            accepted: List::new(alloc),
            points: List::new(alloc),
        }
    }

    /// The next partition left no entry.
    pub fn note(&mut self, became: Accepted) -> Result<(), NoMemory>
        requires { IsCarriable became }
        ensures { OnOk result (self.new ≡ record { accepted = self.old.accepted ++ became ∷ []; points = self.old.points }) }
    {
        self.accepted.push(became)?;
        Ok(())
    }

    /// The next partition left an entry at this point.
    pub fn note_at(&mut self, became: Accepted, part: u32, place: u64) -> Result<(), NoMemory>
        requires { IsCarriable became }
        ensures { OnOk result (self.new ≡ record {
          accepted = self.old.accepted ++ became ∷ [];
          points = self.old.points ++ record { part = part; place = place } ∷ [];
        }) }
    {
        self.accepted.push(became)?;
        self.points.push(Point { part, place })?;
        Ok(())
    }

    /// The results.
    pub fn accepted(&self) -> &[Accepted]
        ensures results { result.now ≡ self.now.accepted }
        ensures offsets { All IsCarriable result.now }
    {
        self.accepted.as_slice()
    }

    /// The points.
    pub fn into_points(self) -> List<Point>
        ensures { result ≡ self.points }
    {
        self.points
    }

    /// The results, and the points.
    pub fn into_parts(self) -> (List<Accepted>, List<Point>)
        ensures results { result.0 ≡ self.accepted }
        ensures points { result.1 ≡ self.points }
    {
        (self.accepted, self.points)
    }
}
