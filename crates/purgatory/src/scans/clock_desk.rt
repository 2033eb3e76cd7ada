//! What is behind the clock's lock. With a turn of it, `purgatory` lists operations here under their deadlines, and scans the clock.
ghost use Rattle.std.specs.Prelude.{◌≡◌, ◌≤◌, [], IfOk, length};
ghost use Rattle.room_core.specs.Gauges.{IsPass, IsShape, clock_of};
ghost use Rattle.room_core.specs.Numbers.{clock_scanner, scanner_numbers};
ghost use Rattle.room_core.specs.Scans.{HasNoDuty};
ghost use Rattle.room_table.specs.Seats.{scanner_now};
ghost use Rattle.purgatory.specs.scans.ClockKeeps.{ClockKeeps};
ghost use Rattle.purgatory.specs.scans.Listing.{HasListedDeadline};
ghost use Rattle.purgatory.specs.scans.Scanned.{HasScanned};

use crate::scans::clock_listing::ClockListing;
use kbytes::NoMemory;
use room_core::Shape;
use room_table::{RoomTable, ScanSeat};
use std::alloc::Global;
use std::marker::Model;
use std::sync::Wait;
use timing_wheel::Due;

/// The clock's scanner and the timers of its entries. Between any two calls there is a timer for exactly the entries whose deadline is
/// past the moment up to which the scanner has begun to scan the clock, which comes no later than the deadline, and the scanner has no
/// duty.
#[derive(Drop)]
pub struct ClockDesk {
    // in boxes, since a turn moves the desk out of its lock and back
    listing: Box<ClockListing>,
    // the passes whose timers come out in a scan
    due: Box<Due>,
}

impl Model for ClockDesk {
    ghost use Rattle.purgatory.specs.scans.Coming.{HasRoom};
    ghost use Rattle.purgatory.specs.scans.Desks.{ClockView};

    ghost Value = { ClockView };

    ghost view = { λ d. d.listing.value };

    ghost invariant = { λ d. HasRoom d.listing.value d.due.value.room };
}

impl ClockDesk {
    /// The desk of the clock's scanner, from its seat as the table hands it out. Fails only when out of memory; no later call takes
    /// memory.
    pub fn make(alloc: Global, seat: ScanSeat, shape: Shape) -> Result<ClockDesk, NoMemory>
        requires shape { (shape ≡ seat.table.shape) × IsShape shape × (shape.scanners ≡ scanner_numbers) }
        requires number { seat.scanner ≡ clock_scanner }
        requires fresh { seat.steps ≡ [] }
        ensures { IfOk result (λ desk. desk.seat ≡ seat) }
    {
        let listing = ClockListing::make(alloc, seat, shape)?;
        let due = Due::new(alloc, shape.passes)?;
        Ok(ClockDesk {
            listing: Box::new(alloc, listing)?,
            due: Box::new(alloc, due)?,
        })
    }

    /// Scans the clock: hears up to which moment, in milliseconds, begins, and checks each operation whose deadline has come since
    /// the last scan. It tries to win those that are overdue.
    pub fn scan(&mut self, rt: &impl Wait, table: &RoomTable)
        requires table { self.old.seat.table ≡ table.now }
        ensures { HasScanned (clock_of table.now.shape) self.old.seat self.new.seat }
    {
        self.listing.scan(rt, table, &mut self.due);
        self.listing.is_listed();
    }

    /// Lists the operation that the pass has open at this generation under its deadline, and marks it as listed. If the pass isn't open
    /// at this generation, nothing is listed; the pass sees that when it looks at the mark.
    pub fn list(&mut self, table: &RoomTable, pass: u32, generation: u32)
        requires table { self.old.seat.table ≡ table.now }
        requires pass { IsPass table.now.shape pass }
        requires generation { 1 ≤ generation }
        ensures { HasListedDeadline pass generation self.old.seat self.new.seat }
    {
        self.listing.list(table, pass, generation);
        self.listing.is_listed();
    }

    /// How many operations the scanner has won. Clause `keeps` is what the desk keeps between any two calls.
    pub fn wins(&self) -> u64
        ensures count { result ≡ length (scanner_now self.now.seat).wins }
        ensures keeps { ClockKeeps self.now }
    {
        self.listing.wins()
    }

    /// The scanner's seat, for the close of the table.
    pub fn into_seat(self) -> ScanSeat
        ensures seat { result ≡ self.seat }
        ensures no_duty { HasNoDuty (scanner_now result) }
    {
        let ClockDesk { listing, due: _ } = self;
        Box::into_inner(listing).into_seat()
    }
}
