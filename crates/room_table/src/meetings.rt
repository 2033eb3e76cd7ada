//! The steps of a scanner that meets a pass: it sees whether the pass's operation is open, learns it, and lists it. A desk of
//! `purgatory` makes them, both to list an operation and before it checks one.
ghost use Rattle.std.specs.Prelude.{◌≡◌, ◌≤◌};
ghost use Rattle.room_core.specs.Gauges.{IsPass, IsScanner};
ghost use Rattle.room_core.specs.Meetings.{MayLearn, MayMark, generation_met};
ghost use Rattle.room_core.specs.Packing.{unpacked};
ghost use Rattle.room_table.specs.declared.part.ScannerStep.TheVariants.{Learned, Listed, Met};
ghost use Rattle.room_table.specs.Seats.{scanner_did, scanner_now};
ghost use Rattle.room_table.specs.Tells.{IsNewest, IsSessionWord};

use crate::layout::pass_place;
use crate::plays::{Learns, Lists, Meets};
use crate::seats::ScanSeat;
use crate::table::RoomTable;
use room_core::Session;

impl RoomTable {
    /// The scanner looks at the session word of a pass. If that is open, the scanner has a meeting with the pass, and else none.
    /// It loses its entries and duties of the pass at generations that aren't open.
    pub fn meet(&self, scan: &mut ScanSeat, pass: u32) -> u64
        requires table { scan.old.table ≡ self.now }
        requires may { IsScanner self.now.shape scan.old.scanner × IsPass self.now.shape pass }
        ensures step { scan.new ≡ scanner_did scan.old (Met pass (unpacked result)) }
        ensures word { IsSessionWord result }
        ensures newest { IsNewest (scanner_now scan.old) pass result }
    {
        let first = pass_place(self.shape, pass);
        let found = self.board.shared.load::<Meets>(&mut scan.seat, first);
        scan.met = Session::unpacked(found).generation;
        scan.first = first;
        found
    }

    /// The scanner reads a word of the description of `_pass`, which it has met: it keeps where the words of that pass begin.
    pub fn learn(&self, scan: &mut ScanSeat, _pass: u32, at: u32) -> u64
        requires table { scan.old.table ≡ self.now }
        requires may { MayLearn self.now.shape scan.old.scanner (scanner_now scan.old) _pass at }
        ensures { scan.new ≡ scanner_did scan.old (Learned at result) }
    {
        let at = scan.description_place(at);
        self.board.shared.load::<Learns>(&mut scan.seat, at)
    }

    /// The scanner lists the operation of `_pass`, which it has met, under a need's gauge, or, at 64, under the clock, and marks
    /// that for the generation met.
    pub fn mark(&self, scan: &mut ScanSeat, _pass: u32, at: u32, generation: u32)
        requires table { scan.old.table ≡ self.now }
        requires may { MayMark self.now.shape scan.old.scanner (scanner_now scan.old) _pass at }
        requires generation { generation ≡ generation_met (scanner_now scan.old).meeting }
        ensures { scan.new ≡ scanner_did scan.old (Listed _pass at) }
    {
        let at = scan.mark_place(at);
        self.board
            .shared
            .store::<Lists>(&mut scan.seat, at, u64::from(generation));
    }
}
