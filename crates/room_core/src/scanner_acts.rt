//! How a scanner's part comes to know and list an operation: it reads, meets, learns and marks. `scan_steps` calls this;
//! `scanner_checks` and `scanner_wins` build on it.
ghost use Rattle.std.specs.Prelude.{◌≡◌, ◌≤◌, ◌↔◌, ◌<◌, ◌⊎◌, IsTrue, Some};
ghost use Rattle.room_core.specs.Checks.{scanner_reads};
ghost use Rattle.room_core.specs.Description.{marked_gauge};
ghost use Rattle.room_core.specs.Gauges.{IsShape};
ghost use Rattle.room_core.specs.Meetings.{IsLearned, MayMarkClock, MayMarkNeed, entry_for, generation_met, scanner_learns, scanner_marks, scanner_meets, words_of};
ghost use Rattle.room_core.specs.Put.{put};
ghost use Rattle.room_core.specs.State.{Scanner};

use crate::description::{DEADLINE_WORD, DESCRIPTION_WORDS, GAUGE_WORD, NEED_WORDS, NEEDS_WORD};
use crate::empty::forget;
use crate::gauges::{clock, is_gauge_of};
use crate::listing::{drop_dead, meeting_with, still_due};
use crate::numbers::{CLOCK_MARK, CLOCK_SCANNER};
use crate::parts::{Entry, Session};
use crate::scanner_part::ScannerPart;

impl ScannerPart {
    ghost use Rattle.room_core.specs.ScannerTables.{scanner_of};

    pub(crate) fn reads(&mut self, gauge: u32, value: u64)
        requires { gauge < self.old.shape.gauges }
        ensures part { scanner_of self.new ≡ scanner_reads (scanner_of self.old) gauge value }
        ensures shape { self.new.shape ≡ self.old.shape }
    {
        if self.meeting.is_some() {
            self.readings[gauge as usize] = Some(value);
        }
    }

    pub(crate) fn learns(&mut self, at: u32, word: u64)
        requires { at < DESCRIPTION_WORDS }
        ensures part { scanner_of self.new ≡ scanner_learns (scanner_of self.old) at word }
        ensures shape { self.new.shape ≡ self.old.shape }
    {
        self.learned[at as usize] = Some(word);
    }

    pub(crate) fn meets(&mut self, pass: u32, session: Session)
        requires { pass < self.old.shape.passes }
        ensures part { scanner_of self.new ≡ scanner_meets (scanner_of self.old) pass session }
        ensures shape { self.new.shape ≡ self.old.shape }
    {
        self.meeting = meeting_with(session, pass);
        forget(&mut self.learned);
        forget(&mut self.readings);
        drop_dead(&mut self.listing, self.shape, pass, session);
        let duty = still_due(session, self.duties[pass as usize]);
        self.duties[pass as usize] = duty;
    }

    /// The generation met, or 0 without a meeting.
    pub(crate) fn generation(&self) -> u32
        ensures { result ≡ generation_met (scanner_of self.now).meeting }
    {
        match self.meeting {
            Some(meeting) => meeting.generation,
            None => 0,
        }
    }

    pub(crate) fn has_learned(&self, at: u32) -> bool
        requires { at < DESCRIPTION_WORDS }
        ensures { IsTrue result ↔ IsLearned (scanner_of self.now) at }
    {
        self.learned[at as usize].is_some()
    }

    /// A word of the description, or 0 where it wasn't learned.
    pub(crate) fn word(&self, at: u32) -> u64
        requires { at < DESCRIPTION_WORDS }
        ensures { result ≡ words_of (scanner_of self.now) at }
    {
        self.learned[at as usize].unwrap_or(0)
    }

    fn may_mark_need(&self, scanner: u32, at: u32) -> bool
        requires { IsShape self.now.shape }
        ensures { IsTrue result ↔ MayMarkNeed self.now.shape scanner (scanner_of self.now) at }
    {
        if at >= CLOCK_MARK {
            return false;
        }
        let gauge = self.word(GAUGE_WORD + NEED_WORDS * at);
        self.has_learned(NEEDS_WORD)
            && u64::from(at) < self.word(NEEDS_WORD)
            && self.has_learned(GAUGE_WORD + NEED_WORDS * at)
            && is_gauge_of(self.shape, scanner, gauge)
            && gauge != u64::from(clock(self.shape))
    }

    /// Whether the scanner with this number may list the operation that it has met, for this mark.
    pub(crate) fn may_mark(&self, scanner: u32, at: u32) -> bool
        requires { IsShape self.now.shape }
        ensures { IsTrue result ↔ (MayMarkNeed self.now.shape scanner (scanner_of self.now) at ⊎ MayMarkClock scanner (scanner_of self.now) at) }
    {
        if at == CLOCK_MARK {
            scanner == CLOCK_SCANNER && self.has_learned(DEADLINE_WORD)
        } else {
            self.may_mark_need(scanner, at)
        }
    }

    /// The gauge under which the operation that was met is listed for this mark.
    #[tactic(auto, unfolding(crate::specs::Description::marked_gauge))]
    fn gauge_marked(&self, at: u32) -> u64
        requires at_in { at ≤ CLOCK_MARK }
        requires shape { IsShape self.now.shape }
        ensures { result ≡ marked_gauge self.now.shape (words_of (scanner_of self.now)) at }
    {
        if at == CLOCK_MARK {
            u64::from(clock(self.shape))
        } else {
            self.word(GAUGE_WORD + NEED_WORDS * at)
        }
    }

    /// The entry that is listed for this mark.
    fn entry(&self, at: u32) -> Entry
        ensures { result ≡ entry_for (scanner_of self.now) at }
    {
        Entry {
            generation: self.generation(),
            deadline: if at == CLOCK_MARK {
                self.word(DEADLINE_WORD)
            } else {
                0
            },
        }
    }

    pub(crate) fn lists(&mut self, gauge: u64, pass: u32, entry: Option<Entry>)
        requires gauge_in { gauge < self.old.shape.gauges }
        requires pass_in { pass < self.old.shape.passes }
        ensures part { scanner_of self.new ≡ record (scanner_of self.old) { listing = put (scanner_of self.old).listing gauge (put ((scanner_of self.old).listing gauge) pass entry) } }
        ensures shape { self.new.shape ≡ self.old.shape }
    {
        let row = &mut self.listing[gauge as usize];
        row[pass as usize] = entry;
    }

    pub(crate) fn marks(&mut self, pass: u32, at: u32)
        requires pass_in { pass < self.old.shape.passes }
        requires at_in { at ≤ CLOCK_MARK }
        requires shape { IsShape self.old.shape }
        requires gauge_in { marked_gauge self.old.shape (words_of (scanner_of self.old)) at < self.old.shape.gauges }
        ensures part { scanner_of self.new ≡ scanner_marks self.old.shape (scanner_of self.old) pass at }
        ensures shape { self.new.shape ≡ self.old.shape }
    {
        let gauge = self.gauge_marked(at);
        let entry = self.entry(at);
        self.lists(gauge, pass, Some(entry));
    }
}
