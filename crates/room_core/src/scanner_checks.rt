//! How a scanner checks the operation that it has met: whether the readings answer it, whether the check may end here, and what
//! is left of it then. `scan_steps` calls this for the last reading of a check, `scanner_wins` before an exchange.
ghost use Rattle.std.specs.Prelude.{◌≡◌, ◌≢◌, ◌≤◌, ◌<◌, ◌↔◌, IsTrue, IsSome};
ghost use Rattle.opcond.specs.Tally.{counted};
ghost use Rattle.room_core.specs.Checks.{AreRead, IsAllLearned, IsDuty, IsOnCheck, IsRead, is_overdue, is_satisfied, scanner_answers, scanner_leaves, scanner_lets_go, scanner_takes};
ghost use Rattle.room_core.specs.Description.{gauge_of, need_of, needs_of, tally};
ghost use Rattle.room_core.specs.Gauges.{IsShape, clock_of};
ghost use Rattle.room_core.specs.Meetings.{generation_met, words_of};
ghost use Rattle.room_core.specs.Readings.{read_only};

use crate::answering::{has_read, read_of};
use crate::description::{
    CAP_WORD, DEADLINE_WORD, GAUGE_WORD, LEAST_WORD, NEED_WORDS, NEEDS_WORD, START_WORD,
};
use crate::empty::forget;
use crate::gauges::clock;
use crate::listing::is_met;
use crate::numbers::{CLOCK_SCANNER, MOST_NEEDS};
use crate::scanner_part::ScannerPart;

impl ScannerPart {
    ghost use Rattle.room_core.specs.ScannerTables.{scanner_of};

    /// What was read of a gauge, or 0 where nothing was.
    fn reading(&self, gauge: u64) -> u64
        ensures { result ≡ read_only (scanner_of self.now).readings gauge }
    {
        read_of(&self.readings, gauge)
    }

    pub(crate) fn has_read(&self, gauge: u64) -> bool
        ensures { IsTrue result ↔ IsSome ((scanner_of self.now).readings gauge) }
    {
        has_read(&self.readings, gauge)
    }

    /// How much of a need's gauge counts.
    fn counts(&self, need: u32) -> u64
        requires { need < MOST_NEEDS }
        ensures { result ≡ counted (need_of (words_of (scanner_of self.now)) need) (read_only (scanner_of self.now).readings (gauge_of (words_of (scanner_of self.now)) need)) }
    {
        let gauge = self.word(GAUGE_WORD + NEED_WORDS * need);
        let start = self.word(START_WORD + NEED_WORDS * need);
        let cap = self.word(CAP_WORD + NEED_WORDS * need);
        let value = self.reading(gauge);
        cap.min(value.saturating_sub(start))
    }

    fn tally(&self) -> u128
        requires { needs_of (words_of (scanner_of self.now)) ≤ MOST_NEEDS }
        ensures { result ≡ tally (words_of (scanner_of self.now)) (read_only (scanner_of self.now).readings) }
    {
        let needs = self.word(NEEDS_WORD) as u32;
        let mut sum: u128 = 0;
        for need in 0..needs {
            sum += u128::from(self.counts(need));
        }
        sum
    }

    pub(crate) fn is_satisfied(&self) -> bool
        requires { needs_of (words_of (scanner_of self.now)) ≤ MOST_NEEDS }
        ensures { result ≡ is_satisfied (words_of (scanner_of self.now)) (scanner_of self.now).readings }
    {
        u128::from(self.word(LEAST_WORD)) <= self.tally()
    }

    pub(crate) fn is_overdue(&self) -> bool
        requires { IsShape self.now.shape }
        ensures { result ≡ is_overdue self.now.shape (words_of (scanner_of self.now)) (scanner_of self.now).readings }
    {
        self.word(DEADLINE_WORD) <= self.reading(u64::from(clock(self.shape)))
    }

    /// Whether each need's gauge was read, or is the one that is read last.
    pub(crate) fn are_read(&self, last: u32) -> bool
        requires { needs_of (words_of (scanner_of self.now)) ≤ MOST_NEEDS }
        ensures { IsTrue result ↔ AreRead (scanner_of self.now).readings last (words_of (scanner_of self.now)) }
    {
        let needs = self.word(NEEDS_WORD) as u32;
        for need in 0..needs {
            let gauge = self.word(GAUGE_WORD + NEED_WORDS * need);
            if !self.has_read(gauge) && gauge != u64::from(last) {
                return false;
            }
        }
        true
    }

    fn is_all_learned(&self) -> bool
        ensures { IsTrue result ↔ IsAllLearned (scanner_of self.now) }
    {
        let needs = self.word(NEEDS_WORD);
        if needs > MOST_NEEDS {
            return false;
        }
        for at in 0..GAUGE_WORD + NEED_WORDS * needs as u32 {
            if !self.has_learned(at) {
                return false;
            }
        }
        true
    }

    fn has_duty(&self, pass: u32) -> bool
        requires { pass < self.now.shape.passes }
        ensures { IsTrue result ↔ IsDuty ((scanner_of self.now).duties pass) (generation_met (scanner_of self.now).meeting) }
    {
        let generation = self.generation();
        match self.duties[pass as usize] {
            Some(duty) => duty.generation == generation,
            None => false,
        }
    }

    /// Whether the scanner may check the operation of this pass.
    pub(crate) fn is_on_check(&self, pass: u32) -> bool
        requires { pass < self.now.shape.passes }
        ensures { IsTrue result ↔ IsOnCheck (scanner_of self.now) pass }
    {
        is_met(self.meeting, pass) && self.has_duty(pass) && self.is_all_learned()
    }

    /// Whether a check may end with a reading of this gauge.
    pub(crate) fn may_leave(&self, scanner: u32, pass: u32, gauge: u32) -> bool
        requires pass_in { pass < self.now.shape.passes }
        requires shape { IsShape self.now.shape }
        ensures { IsTrue result ↔ (IsOnCheck (scanner_of self.now) pass × (scanner ≢ CLOCK_SCANNER → AreRead (scanner_of self.now).readings gauge (words_of (scanner_of self.now))) × (scanner ≡ CLOCK_SCANNER → IsRead (scanner_of self.now).readings gauge (clock_of self.now.shape))) }
    {
        if !self.is_on_check(pass) {
            return false;
        }
        if scanner != CLOCK_SCANNER {
            return self.are_read(gauge);
        }
        let clock = clock(self.shape);
        self.has_read(u64::from(clock)) || gauge == clock
    }

    /// Whether the readings make the operation answerable for the scanner with this number: the clock's looks at the deadline alone,
    /// the others at the needs alone.
    fn answers(&self, scanner: u32) -> bool
        requires few { needs_of (words_of (scanner_of self.now)) ≤ MOST_NEEDS }
        requires shape { IsShape self.now.shape }
        ensures { result ≡ scanner_answers self.now.shape scanner (words_of (scanner_of self.now)) (scanner_of self.now).readings }
    {
        if scanner == CLOCK_SCANNER {
            self.is_overdue()
        } else {
            self.is_satisfied()
        }
    }

    fn takes(&mut self, gauge: u32, value: u64)
        requires { gauge < self.old.shape.gauges }
        ensures part { scanner_of self.new ≡ scanner_takes (scanner_of self.old) gauge value }
        ensures shape { self.new.shape ≡ self.old.shape }
    {
        self.readings[gauge as usize] = Some(value);
    }

    pub(crate) fn lets_go(&mut self, pass: u32)
        requires { pass < self.old.shape.passes }
        ensures part { scanner_of self.new ≡ scanner_lets_go (scanner_of self.old) pass }
        ensures shape { self.new.shape ≡ self.old.shape }
    {
        self.duties[pass as usize] = None;
        self.meeting = None;
        forget(&mut self.learned);
        forget(&mut self.readings);
    }

    pub(crate) fn leaves(&mut self, scanner: u32, pass: u32, gauge: u32, value: u64)
        requires pass_in { pass < self.old.shape.passes }
        requires gauge_in { gauge < self.old.shape.gauges }
        requires few { needs_of (words_of (scanner_of self.old)) ≤ MOST_NEEDS }
        requires shape { IsShape self.old.shape }
        ensures part { scanner_of self.new ≡ scanner_leaves self.old.shape scanner (scanner_of self.old) pass gauge value }
        ensures shape { self.new.shape ≡ self.old.shape }
    {
        self.takes(gauge, value);
        if !self.answers(scanner) {
            self.lets_go(pass);
        }
    }
}
