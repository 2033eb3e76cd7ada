//! The seats, by which threads step on the table: one for each gauge's source, each pass and each scanner. `RoomTable::make`
//! returns them all. A seat may go to another thread. A contract sees the table that it was made with, its number, and the steps
//! that it made, the newest first.
ghost use Rattle.std.specs.Prelude.{◌≡◌, ℕ};
ghost use Rattle.room_core.specs.Meetings.{IsMet};
ghost use Rattle.room_table.specs.Layout.{place_of};
ghost use Rattle.room_table.specs.Seats.{scanner_now};

use crate::layout::{FIRST_DESCRIPTION, FIRST_MARK};
use crate::rule::Place;
use room_core::Word;
use std::marker::Model;

/// The right to store a gauge's value.
#[derive(Drop)]
pub struct SourceSeat {
    pub(crate) seat: Place,
    pub(crate) gauge: u32,
}

impl Model for SourceSeat {
    ghost use Rattle.room_table.specs.Seats.{HasSource, SourceView, source_view};

    ghost Value = { SourceView };

    ghost view = { λ s. source_view s.seat.table_id s.gauge s.seat.me.0 };

    ghost invariant = { λ s. HasSource s.gauge s.seat.me };
}

/// The right to act as a pass, the owner of its operation.
#[derive(Drop)]
pub struct CallerSeat {
    pub(crate) seat: Place,
    pub(crate) pass: u32,
    // of its operation, or of the last one
    pub(crate) generation: u32,
    // where the words of the pass begin: it steps on many of them in each operation
    pub(crate) first: usize,
}

impl Model for CallerSeat {
    ghost use Rattle.room_table.specs.Seats.{CallerIs, CallerView, caller_view};

    ghost Value = { CallerView };

    ghost view = { λ s. caller_view s.seat.table_id s.pass s.seat.me.0 };

    ghost invariant = { λ s. CallerIs s.pass s.generation s.first s.seat.me };
}

// The places of the words of the pass.
impl CallerSeat {
    pub(crate) fn session_place(&self) -> usize
        ensures { result ≡ place_of self.now.table.shape (Word.Session self.now.pass) }
    {
        self.first
    }

    pub(crate) fn description_place(&self, at: u32) -> usize
        ensures { result ≡ place_of self.now.table.shape (Word.Description self.now.pass at) }
    {
        self.first + FIRST_DESCRIPTION + at as usize
    }

    pub(crate) fn mark_place(&self, at: u32) -> usize
        ensures { result ≡ place_of self.now.table.shape (Word.Mark self.now.pass at) }
    {
        self.first + FIRST_MARK + at as usize
    }
}

/// The right to act as a scanner.
#[derive(Drop)]
pub struct ScanSeat {
    pub(crate) seat: Place,
    pub(crate) scanner: u32,
    // the number that it heard last
    pub(crate) heard: u64,
    // the generation that it met, while it has a meeting
    pub(crate) met: u32,
    // where the words of the pass that it met begin, while it has a meeting
    pub(crate) first: usize,
}

impl Model for ScanSeat {
    ghost use Rattle.room_table.specs.Seats.{ScanView, ScannerIs, scan_view};

    ghost Value = { ScanView };

    ghost view = { λ s. scan_view s.seat.table_id s.scanner s.seat.me.0 };

    ghost invariant = { λ s. ScannerIs s.scanner s.heard s.met s.first s.seat.me };
}

// The places of the words of the pass that it has met.
impl ScanSeat {
    pub(crate) fn session_place(&self) -> usize
        ensures { (pass : ℕ) → IsMet (scanner_now self.now).meeting pass → result ≡ place_of self.now.table.shape (Word.Session pass) }
    {
        self.first
    }

    pub(crate) fn description_place(&self, at: u32) -> usize
        ensures { (pass : ℕ) → IsMet (scanner_now self.now).meeting pass → result ≡ place_of self.now.table.shape (Word.Description pass at) }
    {
        self.first + FIRST_DESCRIPTION + at as usize
    }

    pub(crate) fn mark_place(&self, at: u32) -> usize
        ensures { (pass : ℕ) → IsMet (scanner_now self.now).meeting pass → result ≡ place_of self.now.table.shape (Word.Mark pass at) }
    {
        self.first + FIRST_MARK + at as usize
    }
}
