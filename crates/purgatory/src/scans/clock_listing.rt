//! The clock's scanner beside the timers of its entries: `ClockDesk` calls it, and each call keeps the two alike.
ghost use Rattle.std.specs.Prelude.{◌≡◌, ◌≢◌, ◌≤◌, ◌<◌, ℕ, List as Items, Option as Maybe, [], IfOk, None, Some, length, slice_index};
ghost use Rattle.std.specs.List.Sorted.{IsStrictlyIncreasing};
ghost use Rattle.room_core.specs.declared.parts.Entry.{Entry as Listed};
ghost use Rattle.room_core.specs.Gauges.{IsPass, IsShape, clock_of};
ghost use Rattle.room_core.specs.Numbers.{clock_scanner, scanner_numbers};
ghost use Rattle.room_core.specs.Scans.{HasNoDuty};
ghost use Rattle.room_table.specs.Seats.{scanner_now};
ghost use Rattle.timing_wheel.specs.Timers.{deadline_of, ids_of};
ghost use Rattle.purgatory.specs.scans.Listing.{HasListedDeadline};
ghost use Rattle.purgatory.specs.scans.Scanned.{HasScanned, scan_begun};
ghost use Rattle.purgatory.specs.scans.Timing.{HasTimer, StaysOrIsPut};
ghost use Rattle.purgatory.specs.scans.Coming.{AreComingFrom, ChangesOnly, HasComeOut, IsClockListing, IsOnDuty, IsSettled, WasMet, duty_at, entry_at, is_stale, timer_at};

use crate::scans::inspector::Inspector;
use crate::scans::numbers::FARTHEST;
use crate::scans::open_generation::open_generation;
use crate::scans::verdict::Verdict;
use kbytes::NoMemory;
use room_core::{CLOCK_MARK, CLOCK_SCANNER, DEADLINE_WORD, Entry, Session, Shape};
use room_table::{RoomTable, ScanSeat};
use std::alloc::Global;
use std::marker::Model;
use std::sync::Wait;
use timing_wheel::{Due, Wheels};

/// The clock's scanner, the operations that it has listed, and their timers.
#[derive(Drop)]
pub(crate) struct ClockListing {
    scanner: Inspector,
    wheels: Wheels,
    // by pass: the entry of its operation, if that is listed
    entries: Vec<Option<Entry>>,
}

impl Model for ClockListing {
    ghost use Rattle.purgatory.specs.scans.Desks.{ClockView};
    ghost use Rattle.purgatory.specs.scans.Coming.{IsClockListing};

    ghost Value = { ClockView };

    ghost view = { λ l. record { seat = l.scanner; timers = l.wheels } };

    ghost invariant = { λ l. IsClockListing l.entries.items (record { seat = l.scanner; timers = l.wheels }) };
}

// Whether there is an entry of another generation.
fn is_stale(entry: Option<Entry>, generation: u32) -> bool
    ensures { result ≡ is_stale entry generation }
{
    match entry {
        Some(entry) => entry.generation != generation,
        None => false,
    }
}

// Gives a pass a timer for its deadline, if that is past the present moment. A timer that the pass has from its last operation stays if
// it comes no later: when it comes out, the pass gets another. So the wheels needn't be touched for each operation of a pass whose
// deadlines rise. A deadline farther ahead than the wheels reach gets a timer as far ahead as they do.
#[inline(always)]
fn put_timer(wheels: &mut Wheels, pass: u32, deadline: u64)
    requires { pass < ids_of wheels.old }
    ensures moment { wheels.new.moment ≡ wheels.old.moment }
    ensures ids { ids_of wheels.new ≡ ids_of wheels.old }
    ensures timer { HasTimer wheels.old.moment deadline (deadline_of wheels.new pass) }
    ensures put { StaysOrIsPut wheels.old.moment deadline (deadline_of wheels.old pass) (deadline_of wheels.new pass) }
    ensures others { (other : ℕ) → other ≢ pass → deadline_of wheels.new other ≡ deadline_of wheels.old other }
{
    wheels.entries_wait();
    if let Some(timer) = wheels.deadline(pass) {
        if timer <= deadline {
            return;
        }
    }
    let reach = wheels.now().saturating_add(FARTHEST);
    wheels.insert(pass, deadline.min(reach));
}

impl ClockListing {
    pub(crate) fn make(
        alloc: Global,
        seat: ScanSeat,
        shape: Shape,
    ) -> Result<ClockListing, NoMemory>
        requires shape { (shape ≡ seat.table.shape) × IsShape shape × (shape.scanners ≡ scanner_numbers) }
        requires number { seat.scanner ≡ clock_scanner }
        requires fresh { seat.steps ≡ [] }
        ensures seat { IfOk result (λ l. l.seat ≡ seat) }
        ensures settled { IfOk result (λ l. (pass : ℕ) → IsSettled pass l) }
        ensures listed { IfOk result (λ l. (kept : Items (Maybe Listed)) × IsClockListing kept l) }
    {
        let scanner = Inspector::make(alloc, seat, shape, CLOCK_SCANNER)?;
        let wheels = Wheels::new(alloc, shape.passes)?;
        let entries = vec![in alloc; None; shape.passes as usize]?;
        Ok(ClockListing {
            scanner,
            wheels,
            entries,
        })
    }

    pub(crate) fn wins(&self) -> u64
        ensures { result ≡ length (scanner_now self.now.seat).wins }
    {
        self.scanner.wins()
    }

    pub(crate) fn into_seat(self) -> ScanSeat
        ensures { result ≡ self.seat }
    {
        let ClockListing {
            scanner,
            wheels: _,
            entries: _,
        } = self;
        scanner.into_seat()
    }

    /// Law: the entries that are kept by pass are exactly the scanner's listing.
    pub(crate) fn is_listed(&self)
        ensures { (kept : Items (Maybe Listed)) × IsClockListing kept self.now }
    {
        let _ = &self.entries;
    }

    /// Begins a scan of the clock, and takes out the timers that are due at the moment heard.
    pub(crate) fn begin(&mut self, table: &RoomTable, due: &mut Due) -> u64
        requires table { self.old.seat.table ≡ table.now }
        requires settled { (pass : ℕ) → IsSettled pass self.old }
        requires empty { due.old.ids ≡ [] }
        requires room { due.old.room ≡ ids_of self.old.timers }
        ensures step { self.new.seat ≡ scan_begun self.old.seat (clock_of table.now.shape) result }
        ensures least { (scanner_now self.old.seat).began (clock_of table.now.shape) ≤ result }
        ensures ids { ids_of self.new.timers ≡ ids_of self.old.timers }
        ensures room { due.new.room ≡ due.old.room }
        ensures rising { IsStrictlyIncreasing due.new.ids }
        ensures within { (i : ℕ) → i < length due.new.ids → IsPass table.now.shape (slice_index due.new.ids i) }
        ensures coming { AreComingFrom 0 due.new.ids self.new }
    {
        let clock = self.scanner.shape().gauges - 1;
        let heard = self.scanner.begin(table, clock);
        self.wheels.pop_due(heard, due);
        heard
    }

    // Meets a pass. If that isn't open at its entry's generation, the entry goes. Its timer stays, for the pass's next operation.
    fn meet(&mut self, table: &RoomTable, pass: u32) -> Session
        requires table { self.old.seat.table ≡ table.now }
        requires pass { IsPass table.now.shape pass }
        ensures met { WasMet pass result self.old self.new }
        ensures ids { ids_of self.new.timers ≡ ids_of self.old.timers }
    {
        let found = self.scanner.meet(table, pass);
        if !is_stale(self.entries[pass as usize], open_generation(found)) {
            return found;
        }
        self.entries[pass as usize] = None;
        found
    }

    // Checks an operation whose deadline has come, until it is no duty any more.
    #[inline(never)]
    fn check_duty(&mut self, rt: &impl Wait, table: &RoomTable, pass: u32, entry: Entry)
        requires table { self.old.seat.table ≡ table.now }
        requires pass { IsPass table.now.shape pass }
        requires duty { IsOnDuty pass entry self.old }
        requires generation { 1 ≤ entry.generation }
        ensures only { ChangesOnly pass self.old self.new }
        ensures settled { IsSettled pass self.new }
        ensures ids { ids_of self.new.timers ≡ ids_of self.old.timers }
    {
        for _ in rt.forever() {
            let found = self.meet(table, pass);
            if open_generation(found) != entry.generation {
                return;
            }
            match self.scanner.check_deadline(rt, table, pass) {
                Verdict::Unclear => {}
                Verdict::Waits => return,
                Verdict::Over => {
                    self.entries[pass as usize] = None;
                    return;
                }
            }
        }
        unreachable!()
    }

    /// Looks at a pass whose timer has come out. If it has an operation that is listed, that is checked if its deadline has come, and else
    /// gets another timer.
    pub(crate) fn check(&mut self, rt: &impl Wait, table: &RoomTable, pass: u32)
        requires table { self.old.seat.table ≡ table.now }
        requires pass { IsPass table.now.shape pass }
        requires come { HasComeOut pass self.old }
        ensures only { ChangesOnly pass self.old self.new }
        ensures settled { IsSettled pass self.new }
        ensures ids { ids_of self.new.timers ≡ ids_of self.old.timers }
    {
        let Some(entry) = self.entries[pass as usize] else {
            return;
        };
        if entry.deadline > self.wheels.now() {
            put_timer(&mut self.wheels, pass, entry.deadline);
            return;
        }
        self.check_duty(rt, table, pass, entry);
    }

    /// Scans the clock: begins, and checks each operation whose timer comes out, of which `due` is the list.
    pub(crate) fn scan(&mut self, rt: &impl Wait, table: &RoomTable, due: &mut Due)
        requires table { self.old.seat.table ≡ table.now }
        requires settled { (pass : ℕ) → IsSettled pass self.old }
        requires room { due.old.room ≡ ids_of self.old.timers }
        ensures scanned { HasScanned (clock_of table.now.shape) self.old.seat self.new.seat }
        ensures settled { (pass : ℕ) → IsSettled pass self.new }
        ensures ids { ids_of self.new.timers ≡ ids_of self.old.timers }
        ensures room { due.new.room ≡ due.old.room }
    {
        due.clear();
        self.begin(table, due);
        for place in 0..due.ids().len() {
            let pass = due.ids()[place];
            self.check(rt, table, pass);
        }
    }

    // Takes the timer of a pass out, if the pass has no entry any more.
    fn drop_timer(&mut self, pass: u32)
        requires pass { IsPass self.old.seat.table.shape pass }
        requires others { (other : ℕ) → other ≢ pass → IsSettled other self.old }
        requires free { duty_at self.old pass ≡ None }
        requires timed { (entry : Listed) → entry_at self.old pass ≡ Some entry → HasTimer self.old.timers.moment entry.deadline (timer_at self.old pass) }
        ensures seat { self.new.seat ≡ self.old.seat }
        ensures settled { (other : ℕ) → IsSettled other self.new }
        ensures ids { ids_of self.new.timers ≡ ids_of self.old.timers }
    {
        let Some(_entry) = self.entries[pass as usize] else {
            self.wheels.remove(pass);
            return;
        };
    }

    /// Lists the operation that the pass has open at this generation under its deadline.
    pub(crate) fn list(&mut self, table: &RoomTable, pass: u32, generation: u32)
        requires table { self.old.seat.table ≡ table.now }
        requires pass { IsPass table.now.shape pass }
        requires generation { 1 ≤ generation }
        requires settled { (other : ℕ) → IsSettled other self.old }
        ensures listed { HasListedDeadline pass generation self.old.seat self.new.seat }
        ensures settled { (other : ℕ) → IsSettled other self.new }
        ensures ids { ids_of self.new.timers ≡ ids_of self.old.timers }
    {
        let found = self.meet(table, pass);
        if open_generation(found) != generation {
            self.drop_timer(pass);
            return;
        }
        let deadline = self.scanner.learn(table, pass, DEADLINE_WORD);
        self.scanner.mark(table, pass, CLOCK_MARK, generation);
        self.entries[pass as usize] = Some(Entry {
            generation,
            deadline,
        });
        put_timer(&mut self.wheels, pass, deadline);
    }
}
