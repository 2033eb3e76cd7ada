//! The steps of a pass as the owner of its operation, as `CoreState::step` calls them: each looks up the pass's part and the
//! word, asks whether the step is allowed, and makes it.
ghost use Rattle.std.specs.Prelude.{◌≡◌, ◌↔◌, IfOk, IsTrue, OnErr};
ghost use Rattle.std.specs.Bool.{OnFalse, OnTrue};
ghost use Rattle.room_core.specs.Checks.{CanLeavePass, CanReadPass, CanWinPass, pass_leaving, pass_reading, pass_winning};
ghost use Rattle.room_core.specs.Passes.{CanDescribe, CanIdle, CanOpen, CanPeek, CanSeeMark, describing, idling, opening, peeking, seeing_mark};

use crate::core_state::CoreState;
use crate::description::DESCRIPTION_WORDS;
use crate::event::How;
use crate::numbers::{CLOCK_MARK, SCANNER_NUMBERS};
use crate::parts::{Phase, Session, Stage};
use crate::session_word::exchanged;
use kbytes::NoMemory;

impl CoreState {
    ghost use Rattle.room_core.specs.Tables.{state_of};

    pub(crate) fn peek(&mut self, pass: u32) -> bool
        ensures allowed { IsTrue result ↔ CanPeek (state_of self.old) pass }
        ensures yes { OnTrue result (state_of self.new ≡ peeking (state_of self.old) pass) }
        ensures no { OnFalse result (self.new ≡ self.old) }
    {
        if pass >= self.shape.passes {
            return false;
        }
        if self.caller[pass as usize].stage == Stage::Idle {
            return false;
        }
        let phase = self.session[pass as usize].phase;
        let caller = &mut self.caller[pass as usize];
        caller.peeks(phase);
        true
    }

    pub(crate) fn see_mark(&mut self, pass: u32, at: u32) -> bool
        ensures allowed { IsTrue result ↔ CanSeeMark (state_of self.old) pass at }
        ensures yes { OnTrue result (state_of self.new ≡ seeing_mark (state_of self.old) pass at) }
        ensures no { OnFalse result (self.new ≡ self.old) }
    {
        if pass >= self.shape.passes || at > CLOCK_MARK {
            return false;
        }
        if !self.caller[pass as usize].awaits_mark(at) {
            return false;
        }
        let mark = self.marks[pass as usize][at as usize];
        let caller = &mut self.caller[pass as usize];
        caller.sees_mark(at, mark);
        true
    }

    pub(crate) fn idle(&mut self, pass: u32) -> Result<bool, NoMemory>
        ensures allowed { IfOk result (λ yes. IsTrue yes ↔ CanIdle (state_of self.old) pass) }
        ensures yes { IfOk result (λ yes. OnTrue yes (state_of self.new ≡ idling (state_of self.old) pass)) }
        ensures no { IfOk result (λ yes. OnFalse yes (self.new ≡ self.old)) }
        ensures full { OnErr result (state_of self.new ≡ state_of self.old) }
    {
        if pass >= self.shape.passes {
            return Ok(false);
        }
        let Stage::Over { how, by } = self.caller[pass as usize].stage else {
            return Ok(false);
        };
        let generation = self.caller[pass as usize].generation;
        let caller = &mut self.caller[pass as usize];
        caller.idles(how, by)?;
        self.session[pass as usize] = Session {
            generation,
            phase: Phase::Idle,
        };
        Ok(true)
    }

    pub(crate) fn describe(&mut self, pass: u32, at: u32, word: u64) -> bool
        ensures allowed { IsTrue result ↔ CanDescribe (state_of self.old) pass at }
        ensures yes { OnTrue result (state_of self.new ≡ describing (state_of self.old) pass at word) }
        ensures no { OnFalse result (self.new ≡ self.old) }
    {
        if pass >= self.shape.passes || at >= DESCRIPTION_WORDS {
            return false;
        }
        if self.caller[pass as usize].stage != Stage::Idle {
            return false;
        }
        let words = &mut self.description[pass as usize];
        words[at as usize] = word;
        let caller = &mut self.caller[pass as usize];
        caller.describes(at, word);
        true
    }

    pub(crate) fn read_by_pass(&mut self, pass: u32, gauge: u32) -> bool
        ensures allowed { IsTrue result ↔ CanReadPass (state_of self.old) pass gauge }
        ensures yes { OnTrue result (state_of self.new ≡ pass_reading (state_of self.old) pass gauge) }
        ensures no { OnFalse result (self.new ≡ self.old) }
    {
        if pass >= self.shape.passes || gauge >= self.shape.gauges {
            return false;
        }
        let value = self.value[gauge as usize];
        let caller = &mut self.caller[pass as usize];
        caller.reads(gauge, value);
        true
    }

    pub(crate) fn win_by_pass(&mut self, pass: u32, how: How) -> Result<bool, NoMemory>
        ensures allowed { IfOk result (λ yes. IsTrue yes ↔ CanWinPass (state_of self.old) pass how) }
        ensures yes { IfOk result (λ yes. OnTrue yes (state_of self.new ≡ pass_winning (state_of self.old) pass how)) }
        ensures no { IfOk result (λ yes. OnFalse yes (self.new ≡ self.old)) }
        ensures full { OnErr result (state_of self.new ≡ state_of self.old) }
    {
        if pass >= self.shape.passes {
            return Ok(false);
        }
        if !self.caller[pass as usize].has_found(self.shape, how) {
            return Ok(false);
        }
        let generation = self.caller[pass as usize].generation;
        let session = self.session[pass as usize];
        let caller = &mut self.caller[pass as usize];
        caller.wins_by(pass, how, session)?;
        self.session[pass as usize] = exchanged(session, generation, how, SCANNER_NUMBERS + pass);
        Ok(true)
    }

    pub(crate) fn leave_by_pass(&mut self, pass: u32, gauge: u32) -> bool
        ensures allowed { IsTrue result ↔ CanLeavePass (state_of self.old) pass gauge }
        ensures yes { OnTrue result (state_of self.new ≡ pass_leaving (state_of self.old) pass gauge) }
        ensures no { OnFalse result (self.new ≡ self.old) }
    {
        if pass >= self.shape.passes || gauge >= self.shape.gauges {
            return false;
        }
        let shape = self.shape;
        if !self.caller[pass as usize].ends_with(shape, gauge) {
            return false;
        }
        let value = self.value[gauge as usize];
        let caller = &mut self.caller[pass as usize];
        caller.leaves(shape, gauge, value);
        true
    }

    pub(crate) fn open(&mut self, pass: u32) -> bool
        ensures allowed { IsTrue result ↔ CanOpen (state_of self.old) pass }
        ensures yes { OnTrue result (state_of self.new ≡ opening (state_of self.old) pass) }
        ensures no { OnFalse result (self.new ≡ self.old) }
    {
        if pass >= self.shape.passes {
            return false;
        }
        if !self.caller[pass as usize].may_open(self.shape) {
            return false;
        }
        let generation = self.caller[pass as usize].generation;
        let caller = &mut self.caller[pass as usize];
        caller.opens();
        self.session[pass as usize] = Session {
            generation: generation + 1,
            phase: Phase::Open,
        };
        true
    }
}
