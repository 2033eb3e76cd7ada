//! A shard's scanner beside the watchers of its gauges: `ShardDesk` calls it, and each call keeps the two alike.
ghost use Rattle.std.specs.Prelude.{◌≡◌, ◌≢◌, ◌≤◌, ◌<◌, ◌/◌, ◌↔◌, ℕ, List as Items, [], IfOk, Some, length, slice_get};
ghost use Rattle.room_core.specs.Gauges.{IsGaugeOf, IsPass, IsShape};
ghost use Rattle.room_core.specs.Numbers.{clock_scanner, most_needs, scanner_numbers, shard_gauges, shards};
ghost use Rattle.room_core.specs.Scans.{HasNoDuty};
ghost use Rattle.room_table.specs.declared.part.ScannerStep.TheVariants.{Met};
ghost use Rattle.room_table.specs.Seats.{scanner_did, scanner_now};
ghost use Rattle.watch_lists.specs.Row.{IsRow};
ghost use Rattle.watch_lists.specs.Watches.{IsListed, keys_of, row_of, size_of};
ghost use Rattle.purgatory.specs.scans.Going.{GoesOn, HasMetAll};
ghost use Rattle.purgatory.specs.scans.Listing.{HasListedNeed};
ghost use Rattle.purgatory.specs.scans.Scanned.{HasScanned, scan_begun};
ghost use Rattle.purgatory.specs.scans.ShardKeeps.{purge_size};
ghost use Rattle.purgatory.specs.scans.Shelf.{AreAllBelow, AreDutiesBelow, IsShelf, KeepsLower, WasChecked, open_generation};

use crate::scans::inspector::Inspector;
use crate::scans::numbers::PURGE_SIZE;
use crate::scans::open_generation::open_generation;
use crate::scans::verdict::Verdict;
use kbytes::NoMemory;
use room_core::{GAUGE_WORD, NEED_WORDS, NEEDS_WORD, SHARD_GAUGES, SHARDS, Session, Shape};
use room_table::{RoomTable, ScanSeat};
use std::alloc::Global;
use std::marker::Model;
use std::sync::Wait;
use watch_lists::{Shard, Watch};

/// A shard's scanner, and the watchers of its gauges.
#[derive(Drop)]
pub(crate) struct ShardListing {
    scanner: Inspector,
    shard: Shard,
    // by pass: the generation of its watchers, if it has any; all its watchers have the same
    generations: Vec<u32>,
}

impl Model for ShardListing {
    ghost use Rattle.purgatory.specs.scans.Desks.{ShardView};
    ghost use Rattle.purgatory.specs.scans.ShardKeeps.{purge_size};
    ghost use Rattle.purgatory.specs.scans.Shelf.{IsShelf};

    ghost Value = { ShardView };

    ghost view = { λ l. record { seat = l.scanner; watches = l.shard } };

    ghost invariant = { λ l. IsShelf l.generations.items (record { seat = l.scanner; watches = l.shard }) };
}

// Takes out the watcher of a pass at this generation under a key, if there is one. Most keys have no watcher at all.
fn drop_from(shard: &mut Shard, key: u32, pass: u32, generation: u32)
    requires key { key < keys_of shard.old }
    requires pass { pass < shard.old.ids }
    ensures same { (shard.new.ids ≡ shard.old.ids) × (keys_of shard.new ≡ keys_of shard.old) }
    ensures others { (k i g : ℕ) → IsListed shard.new k i g ↔ (IsListed shard.old k i g × (k ≡ key → i ≡ pass → g ≢ generation)) }
    ensures lower { KeepsLower pass shard.old shard.new }
{
    let Some(_first) = shard.each(key, 0) else {
        return;
    };
    shard.watchers_rise();
    shard.drop_stale(key, pass, generation);
}

// Takes out the watchers of a pass at this generation, under every key. Apart from `drop_pass`, which mostly has nothing to do.
#[inline(never)]
fn drop_watchers(shard: &mut Shard, pass: u32, generation: u32)
    requires keys { keys_of shard.old ≡ shard_gauges }
    requires pass { pass < shard.old.ids }
    ensures same { (shard.new.ids ≡ shard.old.ids) × (keys_of shard.new ≡ shard_gauges) }
    ensures listed { (k i g : ℕ) → IsListed shard.new k i g ↔ (IsListed shard.old k i g × (i ≡ pass → g ≢ generation)) }
    ensures lower { KeepsLower pass shard.old shard.new }
{
    for key in 0..SHARD_GAUGES {
        drop_from(shard, key, pass, generation);
    }
}

// The same, where there may be no watchers at all.
#[inline(always)]
fn drop_pass(shard: &mut Shard, pass: u32, generation: u32)
    requires keys { keys_of shard.old ≡ shard_gauges }
    requires pass { pass < shard.old.ids }
    ensures same { (shard.new.ids ≡ shard.old.ids) × (keys_of shard.new ≡ shard_gauges) }
    ensures listed { (k i g : ℕ) → IsListed shard.new k i g ↔ (IsListed shard.old k i g × (i ≡ pass → g ≢ generation)) }
    ensures lower { KeepsLower pass shard.old shard.new }
{
    if shard.len() == 0 {
        return;
    }
    drop_watchers(shard, pass, generation);
}

impl ShardListing {
    pub(crate) fn make(
        alloc: Global,
        seat: ScanSeat,
        shape: Shape,
        number: u32,
    ) -> Result<ShardListing, NoMemory>
        requires shape { (shape ≡ seat.table.shape) × IsShape shape × (shape.scanners ≡ scanner_numbers) }
        requires number { (number ≡ seat.scanner) × (number < clock_scanner) }
        requires fresh { seat.steps ≡ [] }
        ensures { IfOk result (λ l. l.seat ≡ seat) }
    {
        let scanner = Inspector::make(alloc, seat, shape, number)?;
        let shard = Shard::new(alloc, SHARD_GAUGES, shape.passes)?;
        let generations = vec![in alloc; 0; shape.passes as usize]?;
        Ok(ShardListing {
            scanner,
            shard,
            generations,
        })
    }

    pub(crate) fn wins(&self) -> u64
        ensures { result ≡ length (scanner_now self.now.seat).wins }
    {
        self.scanner.wins()
    }

    pub(crate) fn into_seat(self) -> ScanSeat
        ensures { result ≡ self.seat }
    {
        let ShardListing {
            scanner,
            shard: _,
            generations: _,
        } = self;
        scanner.into_seat()
    }

    /// Law: the watchers are exactly the scanner's listing.
    pub(crate) fn is_listed(&self)
        ensures { (generations : Items ℕ) × IsShelf generations self.now }
    {
        let _ = &self.shard;
    }

    /// Begins a scan of a gauge of its own. All watchers of the gauge are then its duties.
    pub(crate) fn begin(&mut self, table: &RoomTable, gauge: u32) -> u64
        requires table { self.old.seat.table ≡ table.now }
        requires gauge { IsGaugeOf table.now.shape self.old.seat.scanner gauge }
        requires no_duty { HasNoDuty (scanner_now self.old.seat) }
        ensures step { self.new.seat ≡ scan_begun self.old.seat gauge result }
        ensures least { (scanner_now self.old.seat).began gauge ≤ result }
        ensures shard { self.new.watches ≡ self.old.watches }
        ensures duties { (count : ℕ) → AreAllBelow (gauge / shards) count self.new.watches → AreDutiesBelow gauge (gauge / shards) count self.new.watches (scanner_now self.new.seat) }
    {
        self.shard.watchers_rise();
        self.scanner.begin(table, gauge)
    }

    /// How many watchers a key has.
    pub(crate) fn watchers(&self, key: u32) -> u32
        requires { key < shard_gauges }
        ensures { AreAllBelow key result self.now.watches }
    {
        self.shard.watchers(key)
    }

    /// The watcher at this place in the row of a key.
    pub(crate) fn watcher(&self, key: u32, place: u32) -> Option<Watch>
        requires { key < shard_gauges }
        ensures place { result ≡ slice_get (row_of self.now.watches key) place }
        ensures row { IsRow key self.now.seat.table.shape.passes (row_of self.now.watches key) }
    {
        self.shard.watchers_rise();
        self.shard.each(key, place)
    }

    // Meets a pass. If that isn't open at the generation of its watchers, they go.
    #[inline(always)]
    fn meet(&mut self, table: &RoomTable, pass: u32) -> Session
        requires table { self.old.seat.table ≡ table.now }
        requires pass { IsPass table.now.shape pass }
        ensures step { self.new.seat ≡ scanner_did self.old.seat (Met pass result) }
        ensures lower { KeepsLower pass self.old.watches self.new.watches }
        ensures live { (key g : ℕ) → IsListed self.new.watches key pass g → g ≡ open_generation result }
    {
        let found = self.scanner.meet(table, pass);
        let open = open_generation(found);
        let kept = self.generations[pass as usize];
        if kept == open {
            return found;
        }
        drop_pass(&mut self.shard, pass, kept);
        self.generations[pass as usize] = open;
        found
    }

    /// Checks a watcher of the gauge that is a duty, until it is none any more.
    pub(crate) fn check(&mut self, rt: &impl Wait, table: &RoomTable, gauge: u32, watch: Watch)
        requires table { self.old.seat.table ≡ table.now }
        requires gauge { IsGaugeOf table.now.shape self.old.seat.scanner gauge }
        requires pass { IsPass table.now.shape watch.id }
        requires duty { (scanner_now self.old.seat).duties watch.id ≡ Some (record { gauge = gauge; generation = watch.generation }) }
        requires key { watch.key ≡ gauge / shards }
        requires generation { 1 ≤ watch.generation }
        ensures { WasChecked watch.id self.old self.new }
    {
        for _ in rt.forever() {
            let found = self.meet(table, watch.id);
            if open_generation(found) != watch.generation {
                return;
            }
            match self.scanner.check_needs(rt, table, watch.id, gauge) {
                Verdict::Unclear => {}
                Verdict::Waits => return,
                Verdict::Over => {
                    self.shard.watchers_rise();
                    self.shard.drop_stale(watch.key, watch.id, watch.generation);
                    return;
                }
            }
        }
        unreachable!()
    }

    /// Scans a gauge of its own: begins, and checks each watcher, the last one first.
    pub(crate) fn scan(&mut self, rt: &impl Wait, table: &RoomTable, gauge: u32)
        requires table { self.old.seat.table ≡ table.now }
        requires gauge { IsGaugeOf table.now.shape self.old.seat.scanner gauge }
        requires no_duty { HasNoDuty (scanner_now self.old.seat) }
        ensures scanned { HasScanned gauge self.old.seat self.new.seat }
        ensures no_duty { HasNoDuty (scanner_now self.new.seat) }
    {
        self.is_listed();
        self.begin(table, gauge);
        let key = gauge / SHARDS;
        let mut left = self.watchers(key);
        while left > 0 {
            left -= 1;
            if let Some(watch) = self.watcher(key, left) {
                self.check(rt, table, gauge, watch);
            }
        }
    }

    // Meets every pass, and takes out all watchers whose operation isn't open any more.
    #[inline(never)]
    fn purge(&mut self, table: &RoomTable)
        requires table { self.old.seat.table ≡ table.now }
        ensures went { GoesOn self.old.seat self.new.seat }
        ensures met { HasMetAll self.old.seat self.new.seat }
        ensures no_duty { HasNoDuty (scanner_now self.old.seat) → HasNoDuty (scanner_now self.new.seat) }
    {
        self.shard.watchers_rise();
        for pass in 0..self.generations.len() {
            let found = self.scanner.meet(table, pass as u32);
            self.generations[pass] = open_generation(found);
        }
        self.shard.purge(self.generations.as_slice());
    }

    // Purges the shard if it holds too many watchers.
    fn make_room(&mut self, table: &RoomTable)
        requires table { self.old.seat.table ≡ table.now }
        ensures went { GoesOn self.old.seat self.new.seat }
        ensures purged { purge_size ≤ size_of self.old.watches → HasMetAll self.old.seat self.new.seat }
        ensures no_duty { HasNoDuty (scanner_now self.old.seat) → HasNoDuty (scanner_now self.new.seat) }
    {
        if self.shard.len() < PURGE_SIZE {
            return;
        }
        self.purge(table);
    }

    /// Lists the operation that the pass has open at this generation under its need with this number.
    pub(crate) fn list(&mut self, table: &RoomTable, pass: u32, generation: u32, at: u32)
        requires table { self.old.seat.table ≡ table.now }
        requires pass { IsPass table.now.shape pass }
        requires generation { 1 ≤ generation }
        requires need { at < most_needs }
        ensures no_duty { HasNoDuty (scanner_now self.old.seat) → HasNoDuty (scanner_now self.new.seat) }
        ensures listed { HasListedNeed pass generation at self.old.seat self.new.seat }
        ensures purged { purge_size ≤ size_of self.old.watches → HasMetAll self.old.seat self.new.seat }
    {
        self.make_room(table);
        let found = self.meet(table, pass);
        if open_generation(found) != generation {
            return;
        }
        let needs = self.scanner.learn(table, pass, NEEDS_WORD);
        let gauge = self
            .scanner
            .learn(table, pass, GAUGE_WORD + NEED_WORDS * at);
        if u64::from(at) >= needs {
            return;
        }
        let Some(key) = self.scanner.key_of(gauge) else {
            return;
        };
        self.scanner.mark(table, pass, at, generation);
        self.generations[pass as usize] = generation;
        self.shard.list(key, pass, generation);
    }
}
