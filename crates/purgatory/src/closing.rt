//! The close of a room that `Room::still` has found still: its sources' seats come back too, and the words and the winners' counts
//! are handed out.
ghost use Rattle.std.specs.Prelude.{◌≡◌, All, length};
ghost use Rattle.purgatory.specs.Closed.{IsClosed};
ghost use Rattle.purgatory.specs.Ends.{seats_of};
ghost use Rattle.purgatory.specs.Still.{IsReadyToKeep};

use crate::pass::RoomPass;
use crate::source::Source;
use kbytes::List;
use room_core::SCANNER_NUMBERS;
use room_table::{Closing, TableWords};
use std::marker::Model;

/// What a closed room leaves.
#[derive(Drop)]
pub struct ClosedRoom {
    /// How many exchanges each winner has won, by the winners' numbers: first the shards' scanners, then the clock's, whose number is
    /// `CLOCK_SCANNER`, and then the passes, whose numbers are `SCANNER_NUMBERS` plus their own.
    pub numbers: List<u64>,
    /// The words that the threads shared, as they are at the end.
    pub words: TableWords,
}

/// A room on which nobody can act any more: everything that was won was taken. It keeps how many operations each winner has won.
#[derive(Drop)]
pub struct StillRoom {
    closing: Closing,
    wins: List<u64>,
}

impl Model for StillRoom {
    ghost use Rattle.purgatory.specs.Ends.{StillView};
    ghost use Rattle.purgatory.specs.Still.{IsKept, still_view};

    ghost Value = { StillView };

    ghost view = { λ r. still_view r.closing };

    ghost invariant = { λ r. IsKept r.closing r.wins };
}

impl StillRoom {
    /// The still room, from its scanners' seats, which are back already, and its passes.
    pub(crate) fn of(
        mut closing: Closing,
        mut passes: List<RoomPass>,
        mut wins: List<u64>,
    ) -> StillRoom
        requires back { IsReadyToKeep closing passes wins }
        ensures { result ≡ record { table = closing.table; callers = seats_of passes; scanners = closing.scanners } }
    {
        while let Some(pass) = passes.pop() {
            let RoomPass { owner, keys: _ } = pass;
            let at = (SCANNER_NUMBERS + owner.number()) as usize;
            wins.as_mut_slice()[at] = u64::from(owner.wins());
            closing.take_caller(owner.into_seat());
        }
        StillRoom { closing, wins }
    }

    /// Closes the room, and returns how many exchanges each winner has won, by the winners' numbers, as `ClosedRoom` has them.
    pub fn close(self, sources: List<Source>) -> List<u64>
        requires all { length sources ≡ self.table.shape.gauges }
        requires made { All (λ source. source.table ≡ self.table) sources }
        ensures { IsClosed self sources result }
    {
        let ClosedRoom { numbers, words: _ } = self.close_with_words(sources);
        numbers
    }

    /// The same, and returns the room's words too. The clause is about these very words: in them the session word of each pass that
    /// waits is open.
    pub fn close_with_words(self, mut sources: List<Source>) -> ClosedRoom
        requires all { length sources ≡ self.table.shape.gauges }
        requires made { All (λ source. source.table ≡ self.table) sources }
        ensures { (closed : IsClosed self sources result.numbers) × (closed.words ≡ result.words) }
    {
        let StillRoom { mut closing, wins } = self;
        while let Some(source) = sources.pop() {
            let Source {
                seat,
                gauge: _,
                value: _,
            } = source;
            closing.take_source(seat);
        }
        let words = closing.close();
        ClosedRoom {
            numbers: wins,
            words,
        }
    }
}
