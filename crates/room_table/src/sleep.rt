//! How a pass sleeps. This is no step, and no clause speaks of it: whether a sleeper wakes, and when, can't be proved, so nothing
//! may depend on it. A pass that has nothing to do can sleep on its own session word while that is open, instead of polling it.
//! Each sleep is bounded, so a lost wake-up costs no more than that time.
ghost use Rattle.std.specs.Prelude.{◌≡◌};
ghost use Rattle.room_core.specs.Gauges.{IsPass};

use crate::layout::place;
use crate::seats::CallerSeat;
use crate::table::RoomTable;
use room_core::{OPEN_PHASE, PHASES, Word};
use std::sync::Wait;
use std::time::Duration;

// The kernel compares the low 32 bits of a word. The phase is in these.
const LOW: u64 = 0xffff_ffff;

impl RoomTable {
    /// Sleeps while the pass's session word is open, for no longer than `most`. A scanner that wins it wakes the sleeper. It may
    /// also return for no reason, and returns at once where the word isn't open.
    pub fn sleep(&self, rt: &impl Wait, caller: &CallerSeat, most: Duration)
        requires table { caller.now.table ≡ self.now }
        requires there { IsPass self.now.shape caller.now.pass }
    {
        let pass = caller.pass;
        let at = place(self.shape, Word::Session { pass });
        let top = &self.board.shared;
        self.sleepers.come(pass);
        let word = top.peek(at);
        if word % PHASES == OPEN_PHASE {
            top.park_timeout(rt, at, (word & LOW) as u32, most);
        }
        self.sleepers.leave(pass);
    }
}
