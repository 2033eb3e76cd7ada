//! `SharedLogs`' calls on the room, for a pass: it sees nothing of the histories by these, and leaves no entry.
ghost use Rattle.std.specs.Prelude.{◌≡◌, ◌≤◌, ◌<◌, ◌-◌, ◌^◌, ◌*◌, All, IfNone, IfSome, length};
ghost use Rattle.room_core.specs.declared.parts.Stage.TheVariants.{Idle, Waiting};
ghost use Rattle.room_table.specs.declared.part.CallerStep.TheVariants.{Read};
ghost use Rattle.room_table.specs.Seats.{caller_did, caller_now};
ghost use Rattle.purgatory.specs.Going.{KeepsOperation, OwesNothing};
ghost use Rattle.purgatory.specs.Polled.{HasPolled, HasTaken};
ghost use Rattle.purgatory.specs.Registered.{HasRegistered};
ghost use Rattle.shared_logs.specs.Coming.{HasStepped};
ghost use Rattle.shared_logs.specs.Seen.{HasSeen};

use crate::logs::SharedLogs;
use crate::pass::LogPass;
use opcond::Op;
use purgatory::{Done, Registered};
use std::sync::Wait;
use std::time::Duration;

impl SharedLogs {
    /// Pays the scans that the pass owes.
    pub fn settle(&self, rt: &impl Wait, pass: &mut LogPass)
        requires { pass.old.made ≡ self.now }
        ensures stepped { HasStepped pass.old pass.new }
        ensures kept { KeepsOperation (caller_now pass.old.seat) (caller_now pass.new.seat) }
        ensures paid { OwesNothing (caller_now pass.new.seat) }
        ensures seen { HasSeen pass.old × HasSeen pass.new }
    {
        self.room.settle(rt, &mut pass.room);
    }

    /// Registers an operation in the room: it waits, or was won in this call.
    pub fn register(&self, rt: &impl Wait, pass: &mut LogPass, op: &Op) -> Registered
        requires made { pass.old.made ≡ self.now }
        requires idle { (caller_now pass.old.seat).stage ≡ Idle }
        requires paid { OwesNothing (caller_now pass.old.seat) }
        requires next { (caller_now pass.old.seat).generation < 2 ^ 32 - 1 }
        requires gauges { All (λ need. need.gauge < 3 * length self.now.parts) op.now.needs }
        ensures stepped { HasStepped pass.old pass.new }
        ensures paid { OwesNothing (caller_now pass.new.seat) }
        ensures registered { HasRegistered op.now result pass.old.seat pass.new.seat }
        ensures seen { HasSeen pass.old × HasSeen pass.new }
    {
        self.room.register(rt, &mut pass.room, op)
    }

    /// How the pass's operation ended, if it did: None exactly where the pass's session word is open.
    pub fn poll(&self, pass: &mut LogPass) -> Option<Done>
        requires made { pass.old.made ≡ self.now }
        requires waits { (caller_now pass.old.seat).stage ≡ Waiting }
        ensures stepped { HasStepped pass.old pass.new }
        ensures step { HasPolled result pass.old.seat pass.new.seat }
        ensures none { IfNone result ((caller_now pass.new.seat).stage ≡ Waiting) }
        ensures some { IfSome result (λ done. HasTaken (caller_now pass.old.seat).generation done (caller_now pass.old.seat) (caller_now pass.new.seat)) }
        ensures seen { HasSeen pass.old × HasSeen pass.new }
    {
        self.room.poll(&mut pass.room)
    }

    /// The value of a gauge.
    pub fn gauge(&self, pass: &mut LogPass, gauge: u32) -> u64
        requires made { pass.old.made ≡ self.now }
        requires gauge { gauge ≤ 3 * length self.now.parts }
        ensures stepped { HasStepped pass.old pass.new }
        ensures step { pass.new.seat ≡ caller_did pass.old.seat (Read gauge result) }
    {
        self.room.gauge(&mut pass.room, gauge)
    }

    /// Sleeps while the pass's operation waits, for no longer than `most`. It may also return for no reason: `poll` says whether the
    /// operation ended. A pass that owes a scan settles first.
    pub fn wait(&self, rt: &impl Wait, pass: &LogPass, most: Duration)
        requires made { pass.now.made ≡ self.now }
        requires paid { OwesNothing (caller_now pass.now.seat) }
    {
        self.room.wait(rt, &pass.room, most);
    }
}
