//! A scanner that looks into operations: it meets a pass, learns its description, reads gauges, and leaves or wins. Both listings
//! do all their steps on the table through it.
ghost use Rattle.std.specs.Prelude.{◌≡◌, ◌≢◌, ◌≤◌, ◌<◌, ◌+◌, ◌*◌, ◌↔◌, ℕ, [], IfNone, IfOk, IfSome, IsTrue, false, if◌then◌else◌, length};
ghost use Rattle.room_core.specs.Checks.{AreRead, IsAllLearned, IsDuty, IsOnCheck, IsRead, ScannerMayWin};
ghost use Rattle.room_core.specs.Gauges.{IsGauge, IsGaugeOf, IsPass, IsScanner, IsShape, clock_of};
ghost use Rattle.room_core.specs.Meetings.{IsMet, MayMark, generation_met, words_of};
ghost use Rattle.room_core.specs.Description.{gauge_of, needs_of};
ghost use Rattle.room_core.specs.declared.event.How.TheVariants.{Expired, Satisfied};
ghost use Rattle.room_core.specs.Numbers.{clock_scanner, description_words, scanner_numbers, shard_gauges};
ghost use Rattle.room_core.specs.Scans.{MayHear};
ghost use Rattle.room_table.specs.declared.part.ScannerStep.TheVariants.{Learned, Listed, Met, Read};
ghost use Rattle.room_table.specs.Seats.{scanner_did, scanner_now};
ghost use Rattle.purgatory.specs.scans.Checked.{HasLetGo, HasLooked, HasReadMore, HasTried, IsVerdict};
ghost use Rattle.purgatory.specs.scans.Going.{GoesOn};
ghost use Rattle.purgatory.specs.scans.Inspected.{AreLearnedBelow};
ghost use Rattle.purgatory.specs.scans.Scanned.{scan_begun};
ghost use Rattle.purgatory.specs.scans.ShardKeeps.{gauge_of_key};

use crate::scans::tally::tally;
use crate::scans::verdict::Verdict;
use kbytes::NoMemory;
use room_core::{
    DEADLINE_WORD, DESCRIPTION_WORDS, GAUGE_WORD, How, LEAST_WORD, MOST_NEEDS, NEED_WORDS,
    NEEDS_WORD, SHARDS, Session, Shape,
};
use room_table::{RoomTable, ScanSeat};
use std::alloc::Global;
use std::marker::Model;
use std::sync::Wait;
use std::sync::atomic::AtomicU64;
use std::time::Duration;

// How long a thread that sleeps forever sleeps at a time, in milliseconds.
const NAP: u64 = 1_000;

/// A scanner's seat, and what it keeps of its present meeting.
#[derive(Drop)]
pub(crate) struct Inspector {
    seat: ScanSeat,
    shape: Shape,
    number: u32,
    // the words of the description, as it learned them
    words: Vec<u64>,
    // by gauge: the value that it read
    values: Vec<u64>,
    // how many it has won
    wins: u64,
}

impl Model for Inspector {
    ghost use Rattle.room_table.specs.Seats.{ScanView};
    ghost use Rattle.purgatory.specs.scans.Inspected.{IsInspector};

    ghost Value = { ScanView };

    ghost view = { λ i. i.seat };

    ghost invariant = { λ i. IsInspector i.shape i.number i.words.items i.values.items i.wins i.seat };
}

// The wins, with one more if the scanner has won. A scanner that wins again after 2^64 - 1 wins sleeps forever.
fn counted(rt: &impl Wait, wins: u64, has_won: bool) -> u64
    ensures { result ≡ wins + (if has_won then 1 else 0) }
{
    let more = u64::from(has_won);
    let never = AtomicU64::new(0);
    for _ in rt.forever() {
        if let Some(sum) = wins.checked_add(more) {
            return sum;
        }
        never.park_timeout(rt, 0, Duration::from_millis(NAP));
    }
    unreachable!()
}

impl Inspector {
    pub(crate) fn make(
        alloc: Global,
        seat: ScanSeat,
        shape: Shape,
        number: u32,
    ) -> Result<Inspector, NoMemory>
        requires shape { (shape ≡ seat.table.shape) × IsShape shape }
        requires number { (number ≡ seat.scanner) × IsScanner shape number }
        requires fresh { seat.steps ≡ [] }
        ensures { IfOk result (λ i. i ≡ seat) }
    {
        let words = vec![in alloc; 0; DESCRIPTION_WORDS as usize]?;
        let values = vec![in alloc; 0; shape.gauges as usize]?;
        Ok(Inspector {
            seat,
            shape,
            number,
            words,
            values,
            wins: 0,
        })
    }

    pub(crate) fn shape(&self) -> Shape
        ensures is { result ≡ self.now.table.shape }
        ensures shape { IsShape result }
    {
        self.shape
    }

    pub(crate) fn number(&self) -> u32
        ensures is { result ≡ self.now.scanner }
        ensures scanner { IsScanner self.now.table.shape result }
    {
        self.number
    }

    pub(crate) fn wins(&self) -> u64
        ensures { result ≡ length (scanner_now self.now).wins }
    {
        self.wins
    }

    pub(crate) fn into_seat(self) -> ScanSeat
        ensures { result ≡ self }
    {
        let Inspector {
            seat,
            shape: _,
            number: _,
            words: _,
            values: _,
            wins: _,
        } = self;
        seat
    }

    // Whether a word that was learned is a gauge of the scanner's own, and not the clock.
    fn owns(&self, gauge: u64) -> bool
        requires { (self.now.table.shape.scanners ≡ scanner_numbers) × (self.now.scanner < clock_scanner) }
        ensures own { IsTrue result ↔ (IsGaugeOf self.now.table.shape self.now.scanner gauge × (gauge ≢ clock_of self.now.table.shape)) }
        ensures shape { IsShape self.now.table.shape }
    {
        gauge < u64::from(self.shape.gauges - 1)
            && gauge % u64::from(SHARDS) == u64::from(self.number)
    }

    /// The key of a gauge of the scanner's own, or None if the word that was learned is no such gauge.
    pub(crate) fn key_of(&self, gauge: u64) -> Option<u32>
        requires { (self.now.table.shape.scanners ≡ scanner_numbers) × (self.now.scanner < clock_scanner) }
        ensures key { IfSome result (λ key. (gauge ≡ gauge_of_key self.now.scanner key) × (key < shard_gauges)) }
        ensures own { IfSome result (λ key. IsGaugeOf self.now.table.shape self.now.scanner gauge × (gauge ≢ clock_of self.now.table.shape)) }
        ensures none { IfNone result (¬ (IsGaugeOf self.now.table.shape self.now.scanner gauge × (gauge ≢ clock_of self.now.table.shape))) }
    {
        if !self.owns(gauge) {
            return None;
        }
        Some((gauge / u64::from(SHARDS)) as u32)
    }

    /// Hears up to which value a gauge of its own is to be scanned, and begins that scan.
    pub(crate) fn begin(&mut self, table: &RoomTable, gauge: u32) -> u64
        requires table { self.old.table ≡ table.now }
        requires may { MayHear self.old.table.shape self.old.scanner (scanner_now self.old) gauge }
        ensures step { self.new ≡ scan_begun self.old gauge result }
        ensures least { (scanner_now self.old).began gauge ≤ result }
    {
        let heard = table.hear(&mut self.seat, gauge);
        table.begin(&mut self.seat, gauge);
        heard
    }

    pub(crate) fn meet(&mut self, table: &RoomTable, pass: u32) -> Session
        requires table { self.old.table ≡ table.now }
        requires pass { IsPass self.old.table.shape pass }
        ensures { self.new ≡ scanner_did self.old (Met pass result) }
    {
        Session::unpacked(table.meet(&mut self.seat, pass))
    }

    /// Learns a word of the description of the pass that it has met.
    pub(crate) fn learn(&mut self, table: &RoomTable, pass: u32, at: u32) -> u64
        requires table { self.old.table ≡ table.now }
        requires pass { IsPass self.old.table.shape pass }
        requires met { IsMet (scanner_now self.old).meeting pass }
        requires at { at < description_words }
        ensures { self.new ≡ scanner_did self.old (Learned at result) }
    {
        let word = table.learn(&mut self.seat, pass, at);
        self.words[at as usize] = word;
        word
    }

    /// Lists the operation that it has met, and marks it as listed.
    pub(crate) fn mark(&mut self, table: &RoomTable, pass: u32, at: u32, generation: u32)
        requires table { self.old.table ≡ table.now }
        requires may { MayMark self.old.table.shape self.old.scanner (scanner_now self.old) pass at }
        requires generation { generation ≡ generation_met (scanner_now self.old).meeting }
        ensures { self.new ≡ scanner_did self.old (Listed pass at) }
    {
        table.mark(&mut self.seat, pass, at, generation);
    }

    // Learns the words from one place up to, and without, another.
    fn learn_more(&mut self, table: &RoomTable, pass: u32, from: u32, to: u32)
        requires table { self.old.table ≡ table.now }
        requires pass { IsPass self.old.table.shape pass }
        requires met { IsMet (scanner_now self.old).meeting pass }
        requires to { to ≤ description_words }
        requires before { AreLearnedBelow (scanner_now self.old) from }
        ensures went { GoesOn self.old self.new }
        ensures looked { HasLooked (scanner_now self.old) (scanner_now self.new) }
        ensures learned { AreLearnedBelow (scanner_now self.new) to }
        ensures kept { (at : ℕ) → at < from → words_of (scanner_now self.new) at ≡ words_of (scanner_now self.old) at }
    {
        for at in from..to {
            self.learn(table, pass, at);
        }
    }

    // Learns the whole description of the pass that it has met. The number of its needs, or None if that is too large.
    fn learn_all(&mut self, table: &RoomTable, pass: u32) -> Option<u32>
        requires table { self.old.table ≡ table.now }
        requires pass { IsPass self.old.table.shape pass }
        requires met { IsMet (scanner_now self.old).meeting pass }
        ensures went { GoesOn self.old self.new }
        ensures looked { HasLooked (scanner_now self.old) (scanner_now self.new) }
        ensures learned { IfSome result (λ needs. IsAllLearned (scanner_now self.new)) }
        ensures needs { IfSome result (λ needs. needs ≡ needs_of (words_of (scanner_now self.new))) }
    {
        self.learn_more(table, pass, LEAST_WORD, GAUGE_WORD);
        let needs = self.words[NEEDS_WORD as usize];
        if needs > MOST_NEEDS {
            return None;
        }
        let needs = needs as u32;
        self.learn_more(table, pass, GAUGE_WORD, GAUGE_WORD + NEED_WORDS * needs);
        Some(needs)
    }

    // Reads a gauge in its meeting.
    fn read(&mut self, table: &RoomTable, gauge: u32)
        requires table { self.old.table ≡ table.now }
        requires gauge { IsGauge self.old.table.shape gauge }
        requires met { (pass : ℕ) × IsMet (scanner_now self.old).meeting pass }
        ensures { (value : ℕ) × (self.new ≡ scanner_did self.old (Read gauge value)) }
    {
        let value = table.read(&mut self.seat, gauge);
        self.values[gauge as usize] = value;
    }

    // Reads a need's gauge, unless it is the one that is read last. False if there is no such gauge.
    fn read_need(&mut self, table: &RoomTable, last: u32, need: u32) -> bool
        requires table { self.old.table ≡ table.now }
        requires met { (pass : ℕ) × IsMet (scanner_now self.old).meeting pass }
        requires learned { IsAllLearned (scanner_now self.old) }
        requires need { need < needs_of (words_of (scanner_now self.old)) }
        ensures went { GoesOn self.old self.new }
        ensures more { HasReadMore (scanner_now self.old) (scanner_now self.new) }
        ensures read { IsTrue result → IsRead (scanner_now self.new).readings last (gauge_of (words_of (scanner_now self.old)) need) }
        ensures there { IsTrue result → IsGauge self.old.table.shape (gauge_of (words_of (scanner_now self.old)) need) }
    {
        let gauge = self.words[(GAUGE_WORD + NEED_WORDS * need) as usize];
        if gauge >= u64::from(self.shape.gauges) {
            return false;
        }
        if gauge == u64::from(last) {
            return true;
        }
        self.read(table, gauge as u32);
        true
    }

    // Reads the gauges of all needs but the one that is read last. False if a need's gauge doesn't exist.
    fn read_needs(&mut self, table: &RoomTable, last: u32, needs: u32) -> bool
        requires table { self.old.table ≡ table.now }
        requires met { (pass : ℕ) × IsMet (scanner_now self.old).meeting pass }
        requires learned { IsAllLearned (scanner_now self.old) }
        requires needs { needs ≡ needs_of (words_of (scanner_now self.old)) }
        ensures went { GoesOn self.old self.new }
        ensures more { HasReadMore (scanner_now self.old) (scanner_now self.new) }
        ensures read { IsTrue result → AreRead (scanner_now self.new).readings last (words_of (scanner_now self.old)) }
        ensures there { IsTrue result → (i : ℕ) → i < needs → IsGauge self.old.table.shape (gauge_of (words_of (scanner_now self.old)) i) }
    {
        for need in 0..needs {
            if !self.read_need(table, last, need) {
                return false;
            }
        }
        true
    }

    // Reads the last value that a check of the needs wants. True if they are satisfied; if not, the check is left.
    fn leave_needs(&mut self, table: &RoomTable, pass: u32, last: u32, needs: u32) -> bool
        requires table { self.old.table ≡ table.now }
        requires pass { IsPass self.old.table.shape pass }
        requires last { IsGauge self.old.table.shape last }
        requires on { IsOnCheck (scanner_now self.old) pass }
        requires read { AreRead (scanner_now self.old).readings last (words_of (scanner_now self.old)) }
        requires shard { self.old.scanner ≢ clock_scanner }
        requires needs { needs ≡ needs_of (words_of (scanner_now self.old)) }
        requires there { (i : ℕ) → i < needs → IsGauge self.old.table.shape (gauge_of (words_of (scanner_now self.old)) i) }
        ensures went { GoesOn self.old self.new }
        ensures looked { IsTrue result → HasLooked (scanner_now self.old) (scanner_now self.new) }
        ensures may { IsTrue result → ScannerMayWin self.old.table.shape self.old.scanner (scanner_now self.new) pass Satisfied }
        ensures left { result ≡ false → HasLetGo pass (scanner_now self.old) (scanner_now self.new) }
    {
        let value = table.leave(&mut self.seat, pass, last);
        self.values[last as usize] = value;
        let total = tally(self.words.as_slice(), self.values.as_slice(), needs);
        u128::from(self.words[LEAST_WORD as usize]) <= total
    }

    // Reads the clock. True if the operation is overdue; if not, the check is left.
    fn leave_clock(&mut self, table: &RoomTable, pass: u32) -> bool
        requires table { self.old.table ≡ table.now }
        requires pass { IsPass self.old.table.shape pass }
        requires clock { self.old.scanner ≡ clock_scanner }
        requires on { IsOnCheck (scanner_now self.old) pass }
        ensures went { GoesOn self.old self.new }
        ensures looked { IsTrue result → HasLooked (scanner_now self.old) (scanner_now self.new) }
        ensures may { IsTrue result → ScannerMayWin self.old.table.shape self.old.scanner (scanner_now self.new) pass Expired }
        ensures left { result ≡ false → HasLetGo pass (scanner_now self.old) (scanner_now self.new) }
    {
        let clock = self.shape.gauges - 1;
        let moment = table.leave(&mut self.seat, pass, clock);
        self.values[clock as usize] = moment;
        self.words[DEADLINE_WORD as usize] <= moment
    }

    // Tries to win the operation that it has checked.
    fn win(&mut self, rt: &impl Wait, table: &RoomTable, pass: u32, how: How)
        requires table { self.old.table ≡ table.now }
        requires may { ScannerMayWin self.old.table.shape self.old.scanner (scanner_now self.old) pass how }
        ensures went { GoesOn self.old self.new }
        ensures tried { HasTried pass (scanner_now self.old) (scanner_now self.new) }
    {
        let has_won = table.win(&mut self.seat, pass, how);
        self.wins = counted(rt, self.wins, has_won);
    }

    /// Checks the needs of the operation that it has met, and on which it has a duty. The gauge that is scanned is read last.
    pub(crate) fn check_needs(
        &mut self,
        rt: &impl Wait,
        table: &RoomTable,
        pass: u32,
        gauge: u32,
    ) -> Verdict
        requires table { self.old.table ≡ table.now }
        requires pass { IsPass self.old.table.shape pass }
        requires gauge { IsGauge self.old.table.shape gauge }
        requires shard { self.old.scanner ≢ clock_scanner }
        requires met { IsMet (scanner_now self.old).meeting pass }
        requires duty { IsDuty ((scanner_now self.old).duties pass) (generation_met (scanner_now self.old).meeting) }
        ensures went { GoesOn self.old self.new }
        ensures verdict { IsVerdict result pass (scanner_now self.old) (scanner_now self.new) }
    {
        let Some(needs) = self.learn_all(table, pass) else {
            return Verdict::Unclear;
        };
        if !self.read_needs(table, gauge, needs) {
            return Verdict::Unclear;
        }
        if !self.leave_needs(table, pass, gauge, needs) {
            return Verdict::Waits;
        }
        self.win(rt, table, pass, How::Satisfied);
        Verdict::Over
    }

    /// Checks the deadline of the operation that it has met, and on which it has a duty.
    pub(crate) fn check_deadline(&mut self, rt: &impl Wait, table: &RoomTable, pass: u32) -> Verdict
        requires table { self.old.table ≡ table.now }
        requires pass { IsPass self.old.table.shape pass }
        requires clock { self.old.scanner ≡ clock_scanner }
        requires met { IsMet (scanner_now self.old).meeting pass }
        requires duty { IsDuty ((scanner_now self.old).duties pass) (generation_met (scanner_now self.old).meeting) }
        ensures went { GoesOn self.old self.new }
        ensures verdict { IsVerdict result pass (scanner_now self.old) (scanner_now self.new) }
    {
        let Some(_needs) = self.learn_all(table, pass) else {
            return Verdict::Unclear;
        };
        if !self.leave_clock(table, pass) {
            return Verdict::Waits;
        }
        self.win(rt, table, pass, How::Expired);
        Verdict::Over
    }
}
