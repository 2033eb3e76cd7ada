//! The steps by which a gauge's new value reaches its scanner: the source stores it, a pass asks for a scan, the scanner hears
//! that and begins, and source and pass see that it was done.
ghost use Rattle.std.specs.Prelude.{◌≡◌, ◌≤◌};
ghost use Rattle.room_core.specs.Gauges.{IsGauge, IsPass};
ghost use Rattle.room_core.specs.Scans.{MayAsk, MayBegin, MayHear, MayStore};
ghost use Rattle.room_table.specs.declared.part.SourceStep.TheVariants.{Hushed, Stored};
ghost use Rattle.room_table.specs.declared.part.CallerStep.TheVariants.{Asked, Relieved};
ghost use Rattle.room_table.specs.declared.part.ScannerStep.TheVariants.{Began, Heard};
ghost use Rattle.room_table.specs.Seats.{caller_did, caller_now, scanner_did, scanner_now, source_did, source_now};

use crate::layout::place;
use crate::plays::{Asks, Begins, Hears, Hushes, Relieves, Stores};
use crate::seats::{CallerSeat, ScanSeat, SourceSeat};
use crate::table::RoomTable;
use room_core::Word;

impl RoomTable {
    /// The source stores its value, and is loud.
    pub fn store(&self, source: &mut SourceSeat, value: u64)
        requires table { source.old.table ≡ self.now }
        requires may { MayStore self.now.shape source.old.gauge (source_now source.old) value }
        ensures { source.new ≡ source_did source.old (Stored value) }
    {
        let gauge = source.gauge;
        let at = place(self.shape, Word::Value { gauge });
        self.board
            .shared
            .store::<Stores>(&mut source.seat, at, value);
    }

    /// The source looks up to which value a scan is asked for, which is no more than it stored. If it is all that it stored, the
    /// source is quiet from then on.
    pub fn hush(&self, source: &mut SourceSeat) -> u64
        requires table { source.old.table ≡ self.now }
        requires there { IsGauge self.now.shape source.old.gauge }
        ensures step { source.new ≡ source_did source.old (Hushed result) }
        ensures asked { result ≤ (source_now source.old).stored }
    {
        let gauge = source.gauge;
        let at = place(self.shape, Word::Asked { gauge });
        self.board.shared.load::<Hushes>(&mut source.seat, at)
    }

    /// The pass asks that the gauge be scanned up to a value that it has read, and owes the scan.
    pub fn ask(&self, caller: &mut CallerSeat, gauge: u32, value: u64)
        requires table { caller.old.table ≡ self.now }
        requires may { MayAsk self.now.shape caller.old.pass (caller_now caller.old) gauge value }
        ensures { caller.new ≡ caller_did caller.old (Asked gauge value) }
    {
        let at = place(self.shape, Word::Asked { gauge });
        self.board
            .shared
            .fetch_max::<Asks>(&mut caller.seat, at, value);
    }

    /// The pass looks up to which value a scan was begun. If that is as much as it owed, it owes nothing of the gauge any more.
    pub fn relieve(&self, caller: &mut CallerSeat, gauge: u32) -> u64
        requires table { caller.old.table ≡ self.now }
        requires may { IsPass self.now.shape caller.old.pass × IsGauge self.now.shape gauge }
        ensures { caller.new ≡ caller_did caller.old (Relieved gauge result) }
    {
        let at = place(self.shape, Word::Begun { gauge });
        self.board.shared.load::<Relieves>(&mut caller.seat, at)
    }

    /// The scanner looks up to which value it is asked to scan a gauge of its own. That is no less than what it has begun.
    pub fn hear(&self, scan: &mut ScanSeat, gauge: u32) -> u64
        requires table { scan.old.table ≡ self.now }
        requires may { MayHear self.now.shape scan.old.scanner (scanner_now scan.old) gauge }
        ensures step { scan.new ≡ scanner_did scan.old (Heard gauge result) }
        ensures begun { (scanner_now scan.old).began gauge ≤ result }
    {
        let at = place(self.shape, Word::Asked { gauge });
        let asked = self.board.shared.load::<Hears>(&mut scan.seat, at);
        scan.heard = asked;
        asked
    }

    /// The scanner begins a scan of the gauge up to what it has heard. Its duties are then the watchers of the gauge; in the
    /// clock's listing, those whose deadline has come since it began last.
    pub fn begin(&self, scan: &mut ScanSeat, gauge: u32)
        requires table { scan.old.table ≡ self.now }
        requires may { MayBegin self.now.shape scan.old.scanner (scanner_now scan.old) gauge }
        ensures { scan.new ≡ scanner_did scan.old (Began gauge ((scanner_now scan.old).began gauge)) }
    {
        let at = place(self.shape, Word::Begun { gauge });
        let heard = scan.heard;
        self.board
            .shared
            .fetch_max::<Begins>(&mut scan.seat, at, heard);
    }
}
