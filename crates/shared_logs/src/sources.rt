//! The gauges of a partition: `part_desk` has them raised to the log's numbers, after each entry.
ghost use Rattle.std.specs.Prelude.{◌≡◌, ◌≤◌};
ghost use Rattle.partlog.specs.Fallen.{NoneFell};
ghost use Rattle.room_table.specs.Seats.{caller_now, source_now};
ghost use Rattle.purgatory.specs.Going.{GoesOn, KeepsOperation};
ghost use Rattle.purgatory.specs.Raised.{IsQuietAt};
ghost use Rattle.purgatory.specs.Rooms.{IsOfRoom, IsSourceOf};
ghost use Rattle.shared_logs.specs.Keeps.{AreAt, AreQuiet, AreStill};

use crate::visit::Visit;
use partlog::Numbers;
use purgatory::{RoomPass, Source};
use std::sync::Wait;

/// The sources of a partition's gauges. The partition p has the gauges 3p, 3p + 1 and 3p + 2.
#[derive(Drop)]
pub struct PartSources {
    /// Of the high watermark.
    pub high: Source,
    /// Of the visible bytes.
    pub visible: Source,
    /// Of the end bytes.
    pub end: Source,
}

// The source's gauge is raised from one value to another, where these differ.
fn raise_from(
    visit: &Visit<'_, '_, impl Wait>,
    pass: &mut RoomPass,
    source: &mut Source,
    before: u64,
    after: u64,
)
    requires pass { IsOfRoom visit.now.room.now pass.old }
    requires source { IsSourceOf visit.now.room.now source.old }
    requires stored { (source_now source.old).stored ≡ before }
    requires rises { before ≤ after }
    ensures source { IsQuietAt after source.old source.new }
    ensures still { before ≡ after → (source.new ≡ source.old) × (pass.new ≡ pass.old) }
    ensures made { IsOfRoom visit.now.room.now pass.new }
    ensures went { GoesOn pass.old.seat pass.new.seat }
    ensures kept { KeepsOperation (caller_now pass.old.seat) (caller_now pass.new.seat) }
{
    if after > before {
        visit.room.raise(visit.rt, source, pass, after);
    } else {
        source.stays_quiet();
    }
}

impl PartSources {
    /// Raises each gauge whose number rose.
    pub(crate) fn tell(
        &mut self,
        visit: &Visit<'_, '_, impl Wait>,
        pass: &mut RoomPass,
        before: &Numbers,
        after: &Numbers,
    )
        requires pass { IsOfRoom visit.now.room.now pass.old }
        requires made { IsSourceOf visit.now.room.now self.old.high × IsSourceOf visit.now.room.now self.old.visible × IsSourceOf visit.now.room.now self.old.end }
        requires stood { AreAt before.now self.old }
        requires rises { NoneFell before.now after.now }
        ensures told { AreAt after.now self.new }
        ensures quiet { AreQuiet self.new }
        ensures still { AreStill before.now after.now self.old self.new }
        ensures untouched { before.now ≡ after.now → pass.new ≡ pass.old }
        ensures high { IsQuietAt after.now.high self.old.high self.new.high }
        ensures visible { IsQuietAt after.now.visible self.old.visible self.new.visible }
        ensures end { IsQuietAt after.now.bytes self.old.end self.new.end }
        ensures made { IsOfRoom visit.now.room.now pass.new }
        ensures went { GoesOn pass.old.seat pass.new.seat }
        ensures kept { KeepsOperation (caller_now pass.old.seat) (caller_now pass.new.seat) }
    {
        raise_from(visit, pass, &mut self.high, before.high, after.high);
        raise_from(
            visit,
            pass,
            &mut self.visible,
            before.visible,
            after.visible,
        );
        raise_from(visit, pass, &mut self.end, before.bytes, after.bytes);
    }
}
