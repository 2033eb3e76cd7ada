//! The steps of a check, by any seat that makes checks: it reads values, leaves with the last one, or wins.
ghost use Rattle.std.specs.Prelude.{◌≡◌, ◌↔◌, ℕ, true, IsTrue};
ghost use Rattle.room_core.specs.Meetings.{is_live};
ghost use Rattle.room_core.specs.Packing.{unpacked};

use crate::checker::Checker;
use crate::table::RoomTable;
use room_core::How;

impl RoomTable {
    /// Reads a gauge's value. In a check this is the reading of the gauge.
    pub fn read<S: Checker>(&self, who: &mut S, gauge: u32) -> u64
        requires table { S.of_table who.old ≡ self.now }
        requires may { S.may_read who.old gauge }
        ensures step { who.new ≡ S.has_read who.old gauge result }
        ensures value { S.finds who.old gauge result }
    {
        who.read_value(self, gauge)
    }

    /// Reads the last value that a check wants. The check ends here if its readings don't make the operation answerable.
    pub fn leave<S: Checker>(&self, who: &mut S, pass: u32, gauge: u32) -> u64
        requires table { S.of_table who.old ≡ self.now }
        requires may { S.may_leave who.old pass gauge }
        ensures step { who.new ≡ S.has_left who.old pass gauge result }
        ensures value { S.finds who.old gauge result }
    {
        who.leave_check(self, pass, gauge)
    }

    /// Tries to win the operation that a check found answerable. True: it was won, because the session word was still open at the
    /// generation that was checked.
    pub fn win<S: Checker>(&self, who: &mut S, pass: u32, how: How) -> bool
        requires table { S.of_table who.old ≡ self.now }
        requires may { S.may_win who.old pass how }
        ensures { (found : ℕ) × (who.new ≡ S.has_won who.old pass how (unpacked found)) × S.finds_word who.old found
            × (IsTrue result ↔ (is_live (unpacked found) (S.generation who.old) ≡ true)) }
    {
        who.win_operation(self, pass, how)
    }
}
