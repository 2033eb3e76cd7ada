//! A scanner's steps other than hearing and beginning, as `CoreState::step` calls them: each looks up the word, asks
//! `ScannerPart` whether the step is allowed, and makes it.
ghost use Rattle.std.specs.Prelude.{◌≡◌, ◌↔◌, IfOk, IsTrue, OnErr};
ghost use Rattle.std.specs.Bool.{OnFalse, OnTrue};
ghost use Rattle.room_core.specs.Checks.{CanLeaveScanner, CanReadScanner, CanWinScanner, scanner_leaving, scanner_reading, scanner_winning};
ghost use Rattle.room_core.specs.Meetings.{CanLearn, CanMark, CanMeet, learning, marking, scanner_meeting};

use crate::core_state::CoreState;
use crate::description::DESCRIPTION_WORDS;
use crate::event::How;
use crate::gauges::is_scanner;
use crate::listing::is_met;
use crate::session_word::exchanged;
use kbytes::NoMemory;

impl CoreState {
    ghost use Rattle.room_core.specs.Tables.{state_of};

    pub(crate) fn read_by_scanner(&mut self, scanner: u32, gauge: u32) -> bool
        ensures allowed { IsTrue result ↔ CanReadScanner (state_of self.old) scanner gauge }
        ensures yes { OnTrue result (state_of self.new ≡ scanner_reading (state_of self.old) scanner gauge) }
        ensures no { OnFalse result (self.new ≡ self.old) }
    {
        if !is_scanner(self.shape, scanner) || gauge >= self.shape.gauges {
            return false;
        }
        let value = self.value[gauge as usize];
        let part = &mut self.scanner[scanner as usize];
        part.reads(gauge, value);
        true
    }

    pub(crate) fn learn(&mut self, scanner: u32, pass: u32, at: u32) -> bool
        ensures allowed { IsTrue result ↔ CanLearn (state_of self.old) scanner pass at }
        ensures yes { OnTrue result (state_of self.new ≡ learning (state_of self.old) scanner pass at) }
        ensures no { OnFalse result (self.new ≡ self.old) }
    {
        if !is_scanner(self.shape, scanner)
            || pass >= self.shape.passes
            || at >= DESCRIPTION_WORDS
        {
            return false;
        }
        if !is_met(self.scanner[scanner as usize].meeting, pass) {
            return false;
        }
        let word = self.description[pass as usize][at as usize];
        let part = &mut self.scanner[scanner as usize];
        part.learns(at, word);
        true
    }

    pub(crate) fn meet(&mut self, scanner: u32, pass: u32) -> bool
        ensures allowed { IsTrue result ↔ CanMeet (state_of self.old) scanner pass }
        ensures yes { OnTrue result (state_of self.new ≡ scanner_meeting (state_of self.old) scanner pass) }
        ensures no { OnFalse result (self.new ≡ self.old) }
    {
        if !is_scanner(self.shape, scanner) || pass >= self.shape.passes {
            return false;
        }
        let session = self.session[pass as usize];
        let part = &mut self.scanner[scanner as usize];
        part.meets(pass, session);
        true
    }

    pub(crate) fn mark(&mut self, scanner: u32, pass: u32, at: u32) -> bool
        ensures allowed { IsTrue result ↔ CanMark (state_of self.old) scanner pass at }
        ensures yes { OnTrue result (state_of self.new ≡ marking (state_of self.old) scanner pass at) }
        ensures no { OnFalse result (self.new ≡ self.old) }
    {
        if !is_scanner(self.shape, scanner) || pass >= self.shape.passes {
            return false;
        }
        let part = &self.scanner[scanner as usize];
        if !is_met(part.meeting, pass) || !part.may_mark(scanner, at) {
            return false;
        }
        let generation = part.generation();
        let marks = &mut self.marks[pass as usize];
        marks[at as usize] = generation;
        let part = &mut self.scanner[scanner as usize];
        part.marks(pass, at);
        true
    }

    pub(crate) fn leave_by_scanner(&mut self, scanner: u32, pass: u32, gauge: u32) -> bool
        ensures allowed { IsTrue result ↔ CanLeaveScanner (state_of self.old) scanner pass gauge }
        ensures yes { OnTrue result (state_of self.new ≡ scanner_leaving (state_of self.old) scanner pass gauge) }
        ensures no { OnFalse result (self.new ≡ self.old) }
    {
        if !is_scanner(self.shape, scanner)
            || pass >= self.shape.passes
            || gauge >= self.shape.gauges
        {
            return false;
        }
        let part = &self.scanner[scanner as usize];
        if !part.may_leave(scanner, pass, gauge) {
            return false;
        }
        let value = self.value[gauge as usize];
        let part = &mut self.scanner[scanner as usize];
        part.leaves(scanner, pass, gauge, value);
        true
    }

    pub(crate) fn win_by_scanner(
        &mut self,
        scanner: u32,
        pass: u32,
        how: How,
    ) -> Result<bool, NoMemory>
        ensures allowed { IfOk result (λ yes. IsTrue yes ↔ CanWinScanner (state_of self.old) scanner pass how) }
        ensures yes { IfOk result (λ yes. OnTrue yes (state_of self.new ≡ scanner_winning (state_of self.old) scanner pass how)) }
        ensures no { IfOk result (λ yes. OnFalse yes (self.new ≡ self.old)) }
        ensures full { OnErr result (state_of self.new ≡ state_of self.old) }
    {
        if !is_scanner(self.shape, scanner) || pass >= self.shape.passes {
            return Ok(false);
        }
        let part = &self.scanner[scanner as usize];
        if !part.may_win(scanner, pass, how) {
            return Ok(false);
        }
        let generation = part.generation();
        let session = self.session[pass as usize];
        let word = exchanged(session, generation, how, scanner);
        let part = &mut self.scanner[scanner as usize];
        part.wins_by(pass, how, session)?;
        self.session[pass as usize] = word;
        Ok(true)
    }
}
