//! An operation is registered: described, opened, listed under each of its gauges and under the clock, and then checked once by its
//! own pass. It is handed on as parked, or with its end.
ghost use Rattle.std.specs.Prelude.{◌≡◌, ◌-◌, ◌*◌, ◌+◌, ◌^◌, ◌<◌, ◌≤◌, ◌≢◌, false, All, AllPairs, IfNone, IfSome, length, take};
ghost use Rattle.opcond.specs.Operation.{IsValid};
ghost use Rattle.opcond.specs.Tally.{IsSatisfied};
ghost use Rattle.room_core.specs.declared.parts.Stage.TheVariants.{Checking, Idle, Listing};
ghost use Rattle.room_core.specs.Description.{IsOperation, gauge_word, needs_of};
ghost use Rattle.room_core.specs.Gauges.{IsGauge, clock_of};
ghost use Rattle.room_core.specs.Numbers.{clock_mark, most_needs};
ghost use Rattle.room_table.specs.Seats.{caller_now};
ghost use Rattle.purgatory.specs.Going.{GoesOn, OwesNothing};
ghost use Rattle.purgatory.specs.Listed.{BeginsCheck, Describes, Ends, GoesListing, HasChecked, HasReadAll, HasReadings, HasSeen, HasSeenBelow, HasWrittenNeed, IsDescribed, IsEarned};
ghost use Rattle.purgatory.specs.Registered.{HasRegistered};
ghost use Rattle.purgatory.specs.Rooms.{IsOfRoom};

use crate::locks::Keys;
use crate::outcome::{Done, Registered};
use crate::owner::Owner;
use crate::pass::RoomPass;
use crate::room::Room;
use opcond::{Need, Op, is_overdue, is_satisfied};
use room_core::{
    CLOCK_MARK, DEADLINE_WORD, GAUGE_WORD, How, LEAST_WORD, MOST_NEEDS, NEED_WORDS, NEEDS_WORD,
};
use std::sync::Wait;

// How an operation can be answered at these values and this moment, if it can.
fn answerable(op: &Op, values: &[u64], moment: u64) -> Option<How>
    requires { length values.now ≡ length op.now.needs }
    ensures none { IfNone result ((¬ IsSatisfied op.now values.now) × (moment < op.now.deadline)) }
    ensures some { IfSome result (λ how. IsEarned how op.now values.now moment) }
{
    if is_satisfied(op, values) {
        return Some(How::Satisfied);
    }
    if is_overdue(op, moment) {
        return Some(How::Expired);
    }
    None
}

impl Room {
    // Writes a need into the description.
    fn describe_need(&self, owner: &mut Owner, i: u32, need: Need)
        requires table { owner.old.table ≡ self.now.table }
        requires idle { (caller_now owner.old).stage ≡ Idle }
        requires few { i < most_needs }
        ensures { HasWrittenNeed (gauge_word i) need owner.old owner.new }
    {
        let at = GAUGE_WORD + NEED_WORDS * i;
        owner.describe(&self.table, at, u64::from(need.gauge));
        owner.describe(&self.table, at + 1, need.start);
        owner.describe(&self.table, at + 2, need.cap);
    }

    // Writes an operation into the description.
    fn describe(&self, owner: &mut Owner, op: &Op)
        requires table { owner.old.table ≡ self.now.table }
        requires idle { (caller_now owner.old).stage ≡ Idle }
        ensures describes { Describes owner.old owner.new }
        ensures words { IsDescribed op.now (caller_now owner.new).description }
        ensures valid { IsValid op.now }
    {
        let needs = op.needs();
        owner.describe(&self.table, LEAST_WORD, op.min());
        owner.describe(&self.table, DEADLINE_WORD, op.deadline());
        owner.describe(&self.table, NEEDS_WORD, needs.len() as u64);
        for i in 0..needs.len() {
            self.describe_need(owner, i as u32, needs[i]);
        }
    }

    // Sees the operation listed under a need's gauge, or over. It is listed there first, unless that was done with an earlier need.
    fn list_need(
        &self,
        rt: &impl Wait,
        owner: &mut Owner,
        keys: &mut Keys,
        needs: &[Need],
        at: u32,
    ) -> Option<Done>
        requires table { owner.old.table ≡ self.now.table }
        requires keys { keys.old ≡ self.now.locks }
        requires generation { 1 ≤ (caller_now owner.old).generation }
        requires listing { ((caller_now owner.old).stage ≡ Listing) × ((caller_now owner.old).seen clock_mark ≡ false) }
        requires needs { (length needs.now ≡ needs_of (caller_now owner.old).description) × (length needs.now ≤ most_needs) }
        requires need { at < length needs.now }
        ensures keys { keys.new ≡ keys.old }
        ensures none { IfNone result (HasSeen at owner.old owner.new) }
        ensures some { IfSome result (λ done. Ends done owner.old owner.new) }
    {
        let mark = owner.mark(at);
        for _ in rt.forever() {
            if owner.sees_mark(&self.table, at) {
                return None;
            }
            if let Some(done) = owner.poll(&self.table) {
                return Some(done);
            }
            self.locks.list_needs(rt, keys, &self.table, mark, needs);
        }
        unreachable!()
    }

    // The same under the clock.
    fn list_deadline(&self, rt: &impl Wait, owner: &mut Owner, keys: &mut Keys) -> Option<Done>
        requires table { owner.old.table ≡ self.now.table }
        requires keys { keys.old ≡ self.now.locks }
        requires generation { 1 ≤ (caller_now owner.old).generation }
        requires listing { ((caller_now owner.old).stage ≡ Listing) × ((caller_now owner.old).seen clock_mark ≡ false) }
        requires needs { needs_of (caller_now owner.old).description ≤ most_needs }
        requires seen { HasSeenBelow (needs_of (caller_now owner.old).description) (caller_now owner.old) }
        ensures keys { keys.new ≡ keys.old }
        ensures none { IfNone result (BeginsCheck owner.old owner.new) }
        ensures some { IfSome result (λ done. Ends done owner.old owner.new) }
    {
        let mark = owner.mark(CLOCK_MARK);
        for _ in rt.forever() {
            self.locks.list_deadline(rt, keys, &self.table, mark);
            if owner.sees_mark(&self.table, CLOCK_MARK) {
                return None;
            }
            if let Some(done) = owner.poll(&self.table) {
                return Some(done);
            }
        }
        unreachable!()
    }

    // Lists the operation under its first need's gauge, and those that are behind the same lock.
    fn list_first(&self, rt: &impl Wait, owner: &Owner, keys: &mut Keys, needs: &[Need])
        requires table { owner.now.table ≡ self.now.table }
        requires keys { keys.old ≡ self.now.locks }
        requires generation { 1 ≤ (caller_now owner.now).generation }
        requires few { length needs.now ≤ most_needs }
        ensures { keys.new ≡ keys.old }
    {
        if needs.is_empty() {
            return;
        }
        let mark = owner.mark(0);
        self.locks.list_needs(rt, keys, &self.table, mark, needs);
    }

    // Lists the operation under the gauges of all its needs. Some, if it is over before that.
    fn list_needs(
        &self,
        rt: &impl Wait,
        owner: &mut Owner,
        keys: &mut Keys,
        needs: &[Need],
    ) -> Option<Done>
        requires table { owner.old.table ≡ self.now.table }
        requires keys { keys.old ≡ self.now.locks }
        requires generation { 1 ≤ (caller_now owner.old).generation }
        requires listing { ((caller_now owner.old).stage ≡ Listing) × ((caller_now owner.old).seen clock_mark ≡ false) }
        requires needs { (length needs.now ≡ needs_of (caller_now owner.old).description) × (length needs.now ≤ most_needs) }
        ensures keys { keys.new ≡ keys.old }
        ensures none { IfNone result (GoesListing owner.old owner.new × HasSeenBelow (length needs.now) (caller_now owner.new)) }
        ensures some { IfSome result (λ done. Ends done owner.old owner.new) }
    {
        self.list_first(rt, owner, keys, needs);
        for at in 0..needs.len() {
            if let Some(done) = self.list_need(rt, owner, keys, needs, at as u32) {
                return Some(done);
            }
        }
        None
    }

    // Reads the gauge of every need.
    fn read_needs(&self, owner: &mut Owner, needs: &[Need], values: &mut [u64])
        requires table { owner.old.table ≡ self.now.table }
        requires checking { (caller_now owner.old).stage ≡ Checking }
        requires room { length needs.now ≤ length values.old }
        requires gauges { All (λ need. need.gauge < clock_of self.now.table.shape) needs.now }
        requires distinct { AllPairs (λ a b. a.gauge ≢ b.gauge) needs.now }
        ensures { HasReadAll needs.now (take (length needs.now) values.new) owner.old owner.new }
    {
        for i in 0..needs.len() {
            values[i] = owner.read(&self.table, needs[i].gauge);
        }
    }

    // Takes the end of the operation, which was won.
    #[inline(never)]
    fn take_end(&self, rt: &impl Wait, owner: &mut Owner) -> Done
        requires table { owner.old.table ≡ self.now.table }
        requires busy { (caller_now owner.old).stage ≢ Idle }
        ensures { Ends result owner.old owner.new }
    {
        for _ in rt.forever() {
            if let Some(done) = owner.poll(&self.table) {
                return done;
            }
        }
        unreachable!()
    }

    // Reads every gauge, and the clock last. Returns the clock's value.
    fn read_all(&self, owner: &mut Owner, op: &Op, values: &mut [u64]) -> u64
        requires table { owner.old.table ≡ self.now.table }
        requires checking { (caller_now owner.old).stage ≡ Checking }
        requires words { IsDescribed op.now (caller_now owner.old).description }
        requires gauges { All (λ need. need.gauge < clock_of self.now.table.shape) op.now.needs }
        requires room { length op.now.needs ≤ length values.old }
        ensures { HasReadings op.now (take (length op.now.needs) values.new) result owner.old owner.new }
    {
        self.read_needs(owner, op.needs(), values);
        owner.leave(&self.table, self.shape.gauges - 1)
    }

    // Reads every gauge and the clock. If the operation isn't answerable, leaves it waiting; else tries to win it, and takes its end.
    fn check(&self, rt: &impl Wait, owner: &mut Owner, op: &Op) -> Registered
        requires table { owner.old.table ≡ self.now.table }
        requires checking { (caller_now owner.old).stage ≡ Checking }
        requires words { IsDescribed op.now (caller_now owner.old).description }
        requires gauges { All (λ need. need.gauge < clock_of self.now.table.shape) op.now.needs }
        ensures { HasChecked op.now result owner.old owner.new }
    {
        let count = op.needs().len();
        let mut values = [0; MOST_NEEDS as usize];
        let moment = self.read_all(owner, op, &mut values);
        let Some(how) = answerable(op, &values[..count], moment) else {
            return Registered::Parked;
        };
        owner.win(&self.table, how);
        Registered::Won(self.take_end(rt, owner))
    }

    // Describes the operation, opens it, lists it, and checks it.
    fn run(&self, rt: &impl Wait, owner: &mut Owner, keys: &mut Keys, op: &Op) -> Registered
        requires table { owner.old.table ≡ self.now.table }
        requires keys { keys.old ≡ self.now.locks }
        requires idle { (caller_now owner.old).stage ≡ Idle }
        requires next { (caller_now owner.old).generation < 2 ^ 32 - 1 }
        requires gauges { All (λ need. need.gauge < clock_of self.now.table.shape) op.now.needs }
        ensures keys { keys.new ≡ keys.old }
        ensures went { GoesOn owner.old owner.new }
        ensures owed { (caller_now owner.new).owed ≡ (caller_now owner.old).owed }
        ensures registered { HasRegistered op.now result owner.old owner.new }
    {
        self.describe(owner, op);
        owner.open(&self.table);
        if let Some(done) = self.list_needs(rt, owner, keys, op.needs()) {
            return Registered::Won(done);
        }
        if let Some(done) = self.list_deadline(rt, owner, keys) {
            return Registered::Won(done);
        }
        self.check(rt, owner, op)
    }

    /// Registers an operation: opens it, lists it under each of its gauges and under the clock, and then reads all of these. `Parked`:
    /// these last readings don't satisfy it, and the clock's is below its deadline, so it waits until a scan wins it. `Won`: it was won
    /// during this call, by the pass or by a scanner.
    pub fn register(&self, rt: &impl Wait, pass: &mut RoomPass, op: &Op) -> Registered
        requires pass { IsOfRoom self.now pass.old }
        requires idle { (caller_now pass.old.seat).stage ≡ Idle }
        requires paid { OwesNothing (caller_now pass.old.seat) }
        requires next { (caller_now pass.old.seat).generation < 2 ^ 32 - 1 }
        requires gauges { All (λ need. need.gauge < clock_of self.now.table.shape) op.now.needs }
        ensures made { IsOfRoom self.now pass.new }
        ensures went { GoesOn pass.old.seat pass.new.seat }
        ensures paid { OwesNothing (caller_now pass.new.seat) }
        ensures registered { HasRegistered op.now result pass.old.seat pass.new.seat }
    {
        self.run(rt, &mut pass.owner, &mut pass.keys, op)
    }
}
