//! What a pass owes is paid: each gauge of which it owes a scan is scanned, in a turn of the lock of its scanner. No other call scans.
ghost use Rattle.std.specs.Prelude.{◌≡◌};
ghost use Rattle.room_core.specs.Gauges.{IsGauge};
ghost use Rattle.room_table.specs.Seats.{caller_now};
ghost use Rattle.purgatory.specs.Going.{GoesOn, KeepsOperation, OwesNothing};
ghost use Rattle.purgatory.specs.Paying.{Pays};
ghost use Rattle.purgatory.specs.Rooms.{IsOfRoom};

use crate::locks::Keys;
use crate::owner::Owner;
use crate::pass::RoomPass;
use crate::room::Room;
use std::sync::Wait;

impl Room {
    // Scans a gauge until the pass owes nothing of it. If another scan has paid the debt, no turn is taken.
    fn settle_gauge(&self, rt: &impl Wait, owner: &mut Owner, keys: &mut Keys, gauge: u32)
        requires table { owner.old.table ≡ self.now.table }
        requires keys { keys.old ≡ self.now.locks }
        requires gauge { IsGauge self.now.table.shape gauge }
        ensures pays { Pays gauge owner.old owner.new }
        ensures paid { (caller_now owner.new).owed gauge ≡ 0 }
        ensures keys { keys.new ≡ keys.old }
    {
        for _ in rt.forever() {
            if owner.relieve(&self.table, gauge) {
                return;
            }
            self.locks.scan(rt, keys, &self.table, self.shape, gauge);
        }
        unreachable!()
    }

    // The same for each gauge.
    fn settle_all(&self, rt: &impl Wait, owner: &mut Owner, keys: &mut Keys)
        requires table { owner.old.table ≡ self.now.table }
        requires keys { keys.old ≡ self.now.locks }
        ensures went { GoesOn owner.old owner.new }
        ensures kept { KeepsOperation (caller_now owner.old) (caller_now owner.new) }
        ensures paid { OwesNothing (caller_now owner.new) }
        ensures keys { keys.new ≡ keys.old }
    {
        let (from, upto) = owner.debts();
        for gauge in from..upto {
            self.settle_gauge(rt, owner, keys, gauge);
        }
        owner.close_debts();
    }

    /// Pays what the pass owes: scans each gauge of which it owes a scan, under the lock of the gauge's scanner, unless another scan has
    /// done it. A scan of a gauge checks every operation that is listed under it against all gauges of that operation, and tries to win
    /// those that are satisfied; one of the clock tries to win those whose deadline has come. A pass whose operation waits may settle too.
    pub fn settle(&self, rt: &impl Wait, pass: &mut RoomPass)
        requires { IsOfRoom self.now pass.old }
        ensures made { IsOfRoom self.now pass.new }
        ensures went { GoesOn pass.old.seat pass.new.seat }
        ensures kept { KeepsOperation (caller_now pass.old.seat) (caller_now pass.new.seat) }
        ensures paid { OwesNothing (caller_now pass.new.seat) }
    {
        self.settle_all(rt, &mut pass.owner, &mut pass.keys);
    }
}
