//! A gauge is raised: the source stores the new value, and the pass asks for a scan and owes it from then on. `settling` pays.
ghost use Rattle.std.specs.Prelude.{◌≡◌, ◌≤◌, false};
ghost use Rattle.room_core.specs.Gauges.{IsGauge};
ghost use Rattle.room_table.specs.Seats.{caller_now, source_now};
ghost use Rattle.purgatory.specs.Going.{GoesOn, KeepsOperation, OwesElse};
ghost use Rattle.purgatory.specs.Rooms.{IsOfRoom, IsSourceOf};
ghost use Rattle.purgatory.specs.Raised.{HasRaised, IsQuietAt};

use crate::owner::Owner;
use crate::pass::RoomPass;
use crate::room::Room;
use crate::source::Source;
use room_table::{RoomTable, SourceSeat};
use std::sync::Wait;

// Asks for a scan up to what the source stored, until the source sees that it was asked for.
fn ask_for_it(
    rt: &impl Wait,
    table: &RoomTable,
    source: &mut SourceSeat,
    owner: &mut Owner,
    value: u64,
    gauge: u32,
)
    requires source { (source.old.table ≡ table.now) × (source.old.gauge ≡ gauge) }
    requires owner { owner.old.table ≡ table.now }
    requires gauge { IsGauge table.now.shape gauge }
    requires stored { (source_now source.old).stored ≡ value }
    ensures source { IsQuietAt value source.old source.new }
    ensures owner { HasRaised gauge value owner.old owner.new }
{
    for _ in rt.forever() {
        let read = owner.ask(table, gauge);
        let asked = table.hush(source);
        if read >= value && asked >= value {
            return;
        }
    }
    unreachable!()
}

impl Room {
    /// Raises the source's gauge to this value, which is no less than its present one (`Source::value`). The pass then owes a scan of the
    /// gauge, unless the value is 0; `settle` pays that.
    pub fn raise(&self, rt: &impl Wait, source: &mut Source, pass: &mut RoomPass, value: u64)
        requires pass { IsOfRoom self.now pass.old }
        requires source { IsSourceOf self.now source.old }
        requires rises { (source_now source.old).stored ≤ value }
        ensures source { IsQuietAt value source.old source.new }
        ensures made { IsOfRoom self.now pass.new }
        ensures went { GoesOn pass.old.seat pass.new.seat }
        ensures kept { KeepsOperation (caller_now pass.old.seat) (caller_now pass.new.seat) }
        ensures owed { value ≤ (caller_now pass.new.seat).owed source.old.gauge }
        ensures others { OwesElse source.old.gauge (caller_now pass.old.seat) (caller_now pass.new.seat) }
    {
        self.table.store(&mut source.seat, value);
        ask_for_it(
            rt,
            &self.table,
            &mut source.seat,
            &mut pass.owner,
            value,
            source.gauge,
        );
        source.value = value;
    }
}
