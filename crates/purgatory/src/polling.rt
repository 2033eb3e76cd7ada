//! The calls that take no lock: a pass looks whether its operation has ended, reads a gauge, or sleeps until there may be something
//! to see.
ghost use Rattle.std.specs.Prelude.{◌≡◌, ◌≤◌, IfNone, IfSome};
ghost use Rattle.room_core.specs.declared.parts.Stage.TheVariants.{Waiting};
ghost use Rattle.room_core.specs.Gauges.{IsGauge};
ghost use Rattle.room_table.specs.declared.part.CallerStep.TheVariants.{Read};
ghost use Rattle.room_table.specs.Seats.{caller_did, caller_now};
ghost use Rattle.purgatory.specs.Going.{OwesNothing};
ghost use Rattle.purgatory.specs.Polled.{HasPolled, HasTaken};
ghost use Rattle.purgatory.specs.Rooms.{IsOfRoom, with_locks};

use crate::outcome::Done;
use crate::pass::RoomPass;
use crate::room::Room;
use std::sync::Wait;
use std::time::Duration;

impl Room {
    /// How the pass's operation ended, if it did: None exactly if the pass's session word is open. After Some the pass is idle.
    pub fn poll(&self, pass: &mut RoomPass) -> Option<Done>
        requires pass { IsOfRoom self.now pass.old }
        requires waits { (caller_now pass.old.seat).stage ≡ Waiting }
        ensures made { IsOfRoom self.now pass.new }
        ensures step { HasPolled result pass.old.seat pass.new.seat }
        ensures none { IfNone result ((caller_now pass.new.seat).stage ≡ Waiting) }
        ensures some { IfSome result (λ done. HasTaken (caller_now pass.old.seat).generation done (caller_now pass.old.seat) (caller_now pass.new.seat)) }
    {
        pass.owner.poll(&self.table)
    }

    /// The value of a gauge, which is no less than any that the pass has read of it or owes.
    pub fn gauge(&self, pass: &mut RoomPass, gauge: u32) -> u64
        requires pass { IsOfRoom self.now pass.old }
        requires gauge { IsGauge self.now.table.shape gauge }
        ensures step { pass.new ≡ with_locks pass.old.locks (caller_did pass.old.seat (Read gauge result)) }
        ensures least { (caller_now pass.old.seat).greatest gauge ≤ result }
        ensures owed { (caller_now pass.old.seat).owed gauge ≤ result }
    {
        pass.owner.read(&self.table, gauge)
    }

    /// Sleeps while the pass's session word is open, for no longer than `most`. The winner of the operation wakes the sleeper. It may
    /// also return for no reason, and returns at once if the word isn't open; `poll` says which. A pass that owes a scan has to settle
    /// first: operations that its scan would win would wait as long as it sleeps.
    pub fn wait(&self, rt: &impl Wait, pass: &RoomPass, most: Duration)
        requires pass { IsOfRoom self.now pass.now }
        requires paid { OwesNothing (caller_now pass.now.seat) }
    {
        pass.owner.sleep(rt, &self.table, most);
    }
}
