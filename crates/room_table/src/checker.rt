//! The two kinds of seat that make checks: a pass checks its own operation, a scanner one that it has met. `RoomTable::read`,
//! `leave` and `win` take either of them, by the trait `Checker`; the steps themselves are here.
ghost use Rattle.std.specs.Prelude.{◌≡◌, ◌≤◌, ◌↔◌, ℕ, true, IsTrue};
ghost use Rattle.room_core.specs.declared.event.How.{How as Way};
ghost use Rattle.room_core.specs.declared.parts.Session.{Session as Word};
ghost use Rattle.room_core.specs.Meetings.{is_live};
ghost use Rattle.room_core.specs.Packing.{unpacked};
ghost use Rattle.room_table.specs.Seats.{TableView};

use crate::layout::place;
use crate::plays::{
    CallerLeaves, CallerReads, CallerWins, ScannerLeaves, ScannerReads, ScannerWins,
};
use crate::seats::{CallerSeat, ScanSeat};
use crate::table::RoomTable;
use room_core::{How, Phase, SCANNER_NUMBERS, Session, Word};

/// A seat that makes checks.
pub trait Checker {
    // the table that it was made with
    ghost of_table: { Self → TableView };

    // what it may read, with which gauge it may leave a check of a pass, and how it may win that pass's operation
    ghost may_read: { Self → ℕ → Type 0 };

    ghost may_leave: { Self → ℕ → ℕ → Type 0 };

    ghost may_win: { Self → ℕ → Way → Type 0 };

    // the seat after it has read a value, has read the last value of a check, or has tried to win and found the session word
    ghost has_read: { Self → ℕ → ℕ → Self };

    ghost has_left: { Self → ℕ → ℕ → ℕ → Self };

    ghost has_won: { Self → ℕ → Way → Word → Self };

    // what it knows of a value that it finds, and of a session word that it finds, as a number
    ghost finds: { Self → ℕ → ℕ → Type 0 };

    ghost finds_word: { Self → ℕ → Type 0 };

    // the generation that it checks
    ghost generation: { Self → ℕ };

    /// The step of `RoomTable::read`.
    fn read_value(&mut self, table: &RoomTable, gauge: u32) -> u64
        requires table { of_table self.old ≡ table.now }
        requires may { may_read self.old gauge }
        ensures step { self.new ≡ has_read self.old gauge result }
        ensures value { finds self.old gauge result };

    /// The step of `RoomTable::leave`.
    fn leave_check(&mut self, table: &RoomTable, pass: u32, gauge: u32) -> u64
        requires table { of_table self.old ≡ table.now }
        requires may { may_leave self.old pass gauge }
        ensures step { self.new ≡ has_left self.old pass gauge result }
        ensures value { finds self.old gauge result };

    /// The step of `RoomTable::win`.
    fn win_operation(&mut self, table: &RoomTable, pass: u32, how: How) -> bool
        requires table { of_table self.old ≡ table.now }
        requires may { may_win self.old pass how }
        ensures { (found : ℕ) × (self.new ≡ has_won self.old pass how (unpacked found)) × finds_word self.old found × (IsTrue result ↔ (is_live (unpacked found) (generation self.old) ≡ true)) };
}

impl Checker for CallerSeat {
    ghost use Rattle.std.specs.Prelude.{◌≡◌, ◌≤◌};
    ghost use Rattle.room_core.specs.Checks.{OwnerMayLeave, OwnerMayWin};
    ghost use Rattle.room_core.specs.Gauges.{IsGauge, IsPass};
    ghost use Rattle.room_table.specs.declared.part.CallerStep.TheVariants.{Read, Left, Won};
    ghost use Rattle.room_table.specs.Seats.{caller_did, caller_now};
    ghost use Rattle.room_table.specs.Tells.{IsOwnWord};

    ghost of_table = { λ seat. seat.table };

    ghost may_read = { λ seat gauge. IsPass seat.table.shape seat.pass × IsGauge seat.table.shape gauge };

    ghost may_leave = { λ seat pass gauge. (pass ≡ seat.pass) × OwnerMayLeave seat.table.shape seat.pass (caller_now seat) gauge };

    ghost may_win = { λ seat pass how. (pass ≡ seat.pass) × OwnerMayWin seat.table.shape seat.pass (caller_now seat) how };

    ghost has_read = { λ seat gauge value. caller_did seat (Read gauge value) };

    ghost has_left = { λ seat pass gauge value. caller_did seat (Left gauge value) };

    ghost has_won = { λ seat pass how found. caller_did seat (Won how found) };

    ghost finds = { λ seat gauge value. ((caller_now seat).greatest gauge ≤ value) × ((caller_now seat).owed gauge ≤ value) };

    ghost finds_word = { λ seat word. IsOwnWord (caller_now seat) word };

    ghost generation = { λ seat. (caller_now seat).generation };

    fn read_value(&mut self, table: &RoomTable, gauge: u32) -> u64 {
        let at = place(table.shape, Word::Value { gauge });
        table.board.shared.load::<CallerReads>(&mut self.seat, at)
    }

    fn leave_check(&mut self, table: &RoomTable, _pass: u32, gauge: u32) -> u64 {
        let at = place(table.shape, Word::Value { gauge });
        table.board.shared.load::<CallerLeaves>(&mut self.seat, at)
    }

    fn win_operation(&mut self, table: &RoomTable, pass: u32, how: How) -> bool {
        let at = self.session_place();
        let generation = self.generation;
        let open = Session {
            generation,
            phase: Phase::Open,
        }
        .packed();
        let by = SCANNER_NUMBERS + pass;
        let won = Session {
            generation,
            phase: Phase::Won { how, by },
        }
        .packed();
        let found = table
            .board
            .shared
            .compare_exchange::<CallerWins>(&mut self.seat, at, open, won);
        found == open
    }
}

impl Checker for ScanSeat {
    ghost use Rattle.std.specs.Prelude.{◌≤◌};
    ghost use Rattle.room_core.specs.Checks.{ScannerMayLeave, ScannerMayWin};
    ghost use Rattle.room_core.specs.Gauges.{IsGauge, IsGaugeOf, IsScanner};
    ghost use Rattle.room_core.specs.Meetings.{generation_met};
    ghost use Rattle.room_core.specs.Packing.{unpacked};
    ghost use Rattle.room_table.specs.declared.part.ScannerStep.TheVariants.{Read, Left, Won};
    ghost use Rattle.room_table.specs.Seats.{scanner_did, scanner_now};
    ghost use Rattle.room_table.specs.Tells.{IsSessionWord};

    ghost of_table = { λ seat. seat.table };

    ghost may_read = { λ seat gauge. IsScanner seat.table.shape seat.scanner × IsGauge seat.table.shape gauge };

    ghost may_leave = { λ seat pass gauge. ScannerMayLeave seat.table.shape seat.scanner (scanner_now seat) pass gauge };

    ghost may_win = { λ seat pass how. ScannerMayWin seat.table.shape seat.scanner (scanner_now seat) pass how };

    ghost has_read = { λ seat gauge value. scanner_did seat (Read gauge value) };

    ghost has_left = { λ seat pass gauge value. scanner_did seat (Left pass gauge value) };

    ghost has_won = { λ seat pass how found. scanner_did seat (Won pass how found) };

    ghost finds = { λ seat gauge value. IsGaugeOf seat.table.shape seat.scanner gauge → (scanner_now seat).began gauge ≤ value };

    ghost finds_word = { λ seat word. IsSessionWord word × (generation_met (scanner_now seat).meeting ≤ (unpacked word).generation) };

    ghost generation = { λ seat. generation_met (scanner_now seat).meeting };

    fn read_value(&mut self, table: &RoomTable, gauge: u32) -> u64 {
        let at = place(table.shape, Word::Value { gauge });
        table.board.shared.load::<ScannerReads>(&mut self.seat, at)
    }

    fn leave_check(&mut self, table: &RoomTable, _pass: u32, gauge: u32) -> u64 {
        let at = place(table.shape, Word::Value { gauge });
        table.board.shared.load::<ScannerLeaves>(&mut self.seat, at)
    }

    fn win_operation(&mut self, table: &RoomTable, pass: u32, how: How) -> bool {
        let at = self.session_place();
        let generation = self.met;
        let open = Session {
            generation,
            phase: Phase::Open,
        }
        .packed();
        let by = self.scanner;
        let won = Session {
            generation,
            phase: Phase::Won { how, by },
        }
        .packed();
        let found = table
            .board
            .shared
            .compare_exchange::<ScannerWins>(&mut self.seat, at, open, won);
        if found == open && table.sleepers.may_sleep(pass) {
            table.board.shared.wake_all(at);
        }
        found == open
    }
}
