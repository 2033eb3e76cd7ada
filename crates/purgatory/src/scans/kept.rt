//! What a turn lock knows of the desks: their names, by which a pass of a lock knows what is behind it. They have no entries.
use crate::scans::clock_desk::ClockDesk;
use crate::scans::shard_desk::ShardDesk;
use turn_lock::Kept;

impl Kept for ShardDesk {
    ghost use Rattle.std.specs.Prelude.{[]};
    ghost use Rattle.purgatory.specs.scans.Desks.{desk_name};

    type Entry = ();

    ghost entries = { λ d. [] };

    ghost by = { λ e. 0 };

    ghost name = { λ d. desk_name d.seat.table d.seat.scanner };

    fn count(&self) -> u64 {
        0
    }
}

impl Kept for ClockDesk {
    ghost use Rattle.std.specs.Prelude.{[]};
    ghost use Rattle.purgatory.specs.scans.Desks.{desk_name};

    type Entry = ();

    ghost entries = { λ d. [] };

    ghost by = { λ e. 0 };

    ghost name = { λ d. desk_name d.seat.table d.seat.scanner };

    fn count(&self) -> u64 {
        0
    }
}
