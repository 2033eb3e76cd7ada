//! The steps of a pass on its own operation, from the first word of the description to the end that it takes. In `purgatory`
//! `Owner` makes them.
ghost use Rattle.std.specs.Prelude.{◌≡◌, ◌<◌, ◌≤◌};
ghost use Rattle.room_core.specs.Gauges.{IsPass};
ghost use Rattle.room_core.specs.Numbers.{description_words};
ghost use Rattle.room_core.specs.Packing.{unpacked};
ghost use Rattle.room_core.specs.Passes.{MayDescribe, MayIdle, MayOpen, MayPeek, MaySeeMark};
ghost use Rattle.room_table.specs.declared.part.CallerStep.TheVariants.{Described, Idled, Opened, Peeked, SawMark};
ghost use Rattle.room_table.specs.Seats.{caller_did, caller_now};
ghost use Rattle.room_table.specs.Tells.{IsOwnWord};

use crate::plays::{Describes, Idles, Opens, Peeks, Recalls, SeesMark};
use crate::seats::CallerSeat;
use crate::table::RoomTable;
use room_core::{Phase, Session};

impl RoomTable {
    /// The pass writes a word of its operation's description: 0 the least tally, 1 the deadline, 2 the number of needs, and from
    /// 3 on the gauge, start and cap of each need.
    pub fn describe(&self, caller: &mut CallerSeat, at: u32, word: u64)
        requires table { caller.old.table ≡ self.now }
        requires may { MayDescribe self.now.shape caller.old.pass (caller_now caller.old) at }
        ensures { caller.new ≡ caller_did caller.old (Described at word) }
    {
        let at = caller.description_place(at);
        self.board
            .shared
            .store::<Describes>(&mut caller.seat, at, word);
    }

    /// The pass reads a word of the description back. Nobody else writes there, so it is as the pass wrote it last, and nothing changes.
    pub fn recall(&self, caller: &mut CallerSeat, at: u32) -> u64
        requires table { caller.old.table ≡ self.now }
        requires may { IsPass self.now.shape caller.old.pass × (at < description_words) }
        ensures still { caller.new ≡ caller.old }
        ensures word { result ≡ (caller_now caller.old).description at }
    {
        let at = caller.description_place(at);
        self.board.shared.load::<Recalls>(&mut caller.seat, at)
    }

    /// The pass opens the operation that it has described, at the next generation.
    pub fn open(&self, caller: &mut CallerSeat)
        requires table { caller.old.table ≡ self.now }
        requires may { MayOpen self.now.shape caller.old.pass (caller_now caller.old) }
        ensures { caller.new ≡ caller_did caller.old Opened }
    {
        let at = caller.session_place();
        let generation = caller.generation + 1;
        let word = Session {
            generation,
            phase: Phase::Open,
        }
        .packed();
        self.board.shared.store::<Opens>(&mut caller.seat, at, word);
        caller.generation = generation;
    }

    /// The pass looks at a mark of its operation: the generation that was listed last for it, which is no later than the pass's
    /// own.
    pub fn marked(&self, caller: &mut CallerSeat, at: u32) -> u64
        requires table { caller.old.table ≡ self.now }
        requires may { MaySeeMark self.now.shape caller.old.pass (caller_now caller.old) at }
        ensures step { caller.new ≡ caller_did caller.old (SawMark at result) }
        ensures generation { result ≤ (caller_now caller.old).generation }
    {
        let at = caller.mark_place(at);
        self.board.shared.load::<SeesMark>(&mut caller.seat, at)
    }

    /// The pass looks at its own session word, which has its generation and is open or won.
    pub fn peek_own(&self, caller: &mut CallerSeat) -> u64
        requires table { caller.old.table ≡ self.now }
        requires may { MayPeek self.now.shape caller.old.pass (caller_now caller.old) }
        ensures step { caller.new ≡ caller_did caller.old (Peeked (unpacked result)) }
        ensures word { IsOwnWord (caller_now caller.old) result }
    {
        let at = caller.session_place();
        self.board.shared.load::<Peeks>(&mut caller.seat, at)
    }

    /// The pass takes how its operation was won and by which winner, and is idle at its generation.
    pub fn idle(&self, caller: &mut CallerSeat)
        requires table { caller.old.table ≡ self.now }
        requires may { MayIdle self.now.shape caller.old.pass (caller_now caller.old) }
        ensures { caller.new ≡ caller_did caller.old Idled }
    {
        let at = caller.session_place();
        let word = Session {
            generation: caller.generation,
            phase: Phase::Idle,
        }
        .packed();
        self.board.shared.store::<Idles>(&mut caller.seat, at, word);
    }
}
