//! A table is closed seat by seat, in any order: a caller that keeps the seats inside other values needs no memory to collect
//! them in lists. `purgatory` closes its room so; `RoomTable::close` does it with lists.
ghost use Rattle.std.specs.Prelude.{◌≡◌};
ghost use Rattle.room_table.specs.Closing.{AreAllBack, none_back, with_caller, with_scanner, with_source};
ghost use Rattle.room_table.specs.Handed.{AreShown};

use crate::rule::Place;
use crate::seats::{CallerSeat, ScanSeat, SourceSeat};
use crate::table::{RoomTable, TableWords};
use std::marker::Model;

/// A table whose seats come back one by one. A contract sees the table and the seats that came back, the newest first. None of
/// these calls takes memory.
#[derive(Drop)]
pub struct Closing {
    table: RoomTable,
    seat: Place,
}

impl Model for Closing {
    ghost use Rattle.std.specs.Prelude.{◌≡◌, []};
    ghost use Rattle.room_table.specs.Closing.{ClosingView, closing_view};

    ghost Value = { ClosingView };

    ghost view = { λ c. closing_view c.table c.seat.me.0 };

    ghost invariant = { λ c. (c.seat.table_id ≡ c.table.id) × (c.seat.me.1 ≡ []) };
}

impl RoomTable {
    /// Begins to close the table, with the seat of one of its scanners. From then on nobody can step on the table.
    pub fn closing(self, first: ScanSeat) -> Closing
        requires { first.table ≡ self }
        ensures { result ≡ with_scanner (none_back self) first }
    {
        let ScanSeat {
            seat,
            scanner: _,
            heard: _,
            met: _,
            first: _,
        } = first;
        Closing { table: self, seat }
    }
}

impl Closing {
    /// Takes the seat of a gauge's source back.
    pub fn take_source(&mut self, source: SourceSeat)
        requires { source.table ≡ self.old.table }
        ensures { self.new ≡ with_source self.old source }
    {
        let SourceSeat { seat, gauge: _ } = source;
        self.table.take_back(&mut self.seat, seat);
    }

    /// Takes the seat of a pass back.
    pub fn take_caller(&mut self, caller: CallerSeat)
        requires { caller.table ≡ self.old.table }
        ensures { self.new ≡ with_caller self.old caller }
    {
        let CallerSeat {
            seat,
            pass: _,
            generation: _,
            first: _,
        } = caller;
        self.table.take_back(&mut self.seat, seat);
    }

    /// Takes the seat of a scanner back.
    pub fn take_scanner(&mut self, scan: ScanSeat)
        requires { scan.table ≡ self.old.table }
        ensures { self.new ≡ with_scanner self.old scan }
    {
        let ScanSeat {
            seat,
            scanner: _,
            heard: _,
            met: _,
            first: _,
        } = scan;
        self.table.take_back(&mut self.seat, seat);
    }

    /// Returns the words, once all seats are back. The words and what the seats know show a state that the room's machine carries,
    /// and each part of it is one seat's.
    pub fn close(self) -> TableWords
        requires { AreAllBack self }
        ensures { AreShown self.table self.sources self.callers self.scanners result }
    {
        let Closing { table, seat } = self;
        table.words_by(seat)
    }
}
