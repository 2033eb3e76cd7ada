//! What is behind a shard's lock. With a turn of it, `purgatory` lists operations here under the gauges of the shard, and scans one
//! that was raised.
ghost use Rattle.std.specs.Prelude.{◌≡◌, ◌<◌, ◌≤◌, [], IfOk, length};
ghost use Rattle.room_core.specs.Gauges.{IsGaugeOf, IsPass, IsShape};
ghost use Rattle.room_core.specs.Numbers.{clock_scanner, most_needs, scanner_numbers};
ghost use Rattle.room_core.specs.Scans.{HasNoDuty};
ghost use Rattle.room_table.specs.Seats.{scanner_now};
ghost use Rattle.watch_lists.specs.Watches.{size_of};
ghost use Rattle.purgatory.specs.scans.Going.{GoesOn, HasMetAll};
ghost use Rattle.purgatory.specs.scans.Listing.{HasListedNeed};
ghost use Rattle.purgatory.specs.scans.Scanned.{HasScanned};
ghost use Rattle.purgatory.specs.scans.ShardKeeps.{ShardKeeps, purge_size};

use crate::scans::shard_listing::ShardListing;
use kbytes::NoMemory;
use room_core::Shape;
use room_table::{RoomTable, ScanSeat};
use std::alloc::Global;
use std::marker::Model;
use std::sync::Wait;

/// A shard's scanner and the watchers of its gauges. Between any two calls the watchers are exactly the scanner's listing, and the
/// scanner has no duty.
#[derive(Drop)]
pub struct ShardDesk {
    // in a box, since a turn moves the desk out of its lock and back
    listing: Box<ShardListing>,
}

impl Model for ShardDesk {
    ghost use Rattle.purgatory.specs.scans.Desks.{ShardView};
    ghost use Rattle.purgatory.specs.scans.ShardKeeps.{ShardKeeps};

    ghost Value = { ShardView };

    ghost view = { λ d. d.listing.value };

    ghost invariant = { λ d. ShardKeeps d.listing.value };
}

impl ShardDesk {
    /// The desk of the scanner with this number, from its seat as the table hands it out. Fails only when out of memory; no later
    /// call takes memory.
    pub fn make(
        alloc: Global,
        seat: ScanSeat,
        shape: Shape,
        number: u32,
    ) -> Result<ShardDesk, NoMemory>
        requires shape { (shape ≡ seat.table.shape) × IsShape shape × (shape.scanners ≡ scanner_numbers) }
        requires number { (number ≡ seat.scanner) × (number < clock_scanner) }
        requires fresh { seat.steps ≡ [] }
        ensures { IfOk result (λ desk. desk.seat ≡ seat) }
    {
        let listing = ShardListing::make(alloc, seat, shape, number)?;
        Ok(ShardDesk {
            listing: Box::new(alloc, listing)?,
        })
    }

    /// Scans a gauge of the scanner's own: hears up to which value, begins, and checks each watcher against all gauges of its
    /// operation. It tries to win those that are satisfied.
    pub fn scan(&mut self, rt: &impl Wait, table: &RoomTable, gauge: u32)
        requires table { self.old.seat.table ≡ table.now }
        requires gauge { IsGaugeOf table.now.shape self.old.seat.scanner gauge }
        ensures { HasScanned gauge self.old.seat self.new.seat }
    {
        self.listing.scan(rt, table, gauge);
        self.listing.is_listed();
    }

    /// Lists the operation that the pass has open at this generation under the gauge of its need with this number, and marks it as
    /// listed. If the pass isn't open at this generation, has no such need, or the gauge isn't the scanner's, nothing is listed; the
    /// pass sees that when it looks at the mark. A shard with 500 watchers or more is purged first.
    pub fn list(&mut self, table: &RoomTable, pass: u32, generation: u32, at: u32)
        requires table { self.old.seat.table ≡ table.now }
        requires pass { IsPass table.now.shape pass }
        requires generation { 1 ≤ generation }
        requires need { at < most_needs }
        ensures listed { HasListedNeed pass generation at self.old.seat self.new.seat }
        ensures purged { purge_size ≤ size_of self.old.watches → HasMetAll self.old.seat self.new.seat }
    {
        self.listing.list(table, pass, generation, at);
        self.listing.is_listed();
    }

    /// How many operations the scanner has won. Clause `keeps` is what the desk keeps between any two calls.
    pub fn wins(&self) -> u64
        ensures count { result ≡ length (scanner_now self.now.seat).wins }
        ensures keeps { ShardKeeps self.now }
    {
        self.listing.wins()
    }

    /// The scanner's seat, for the close of the table.
    pub fn into_seat(self) -> ScanSeat
        ensures seat { result ≡ self.seat }
        ensures no_duty { HasNoDuty (scanner_now result) }
    {
        let ShardDesk { listing } = self;
        Box::into_inner(listing).into_seat()
    }
}
