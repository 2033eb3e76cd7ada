//! The rule that every step keeps, and the names that this crate gives `atomic_table`'s types under that rule.
use crate::part::Parts;
use atomic_table::{Join, Play, Seat, Shared, Split, Table, TableRule};
use room_core::Shape;
use std::alloc::Global;

/// The rule: the words and what the seats know show a state that the room's machine carries.
pub(crate) struct Machine;

impl TableRule<u64, Parts, Shape> for Machine {
    ghost use Rattle.room_table.specs.Shown.{IsShown};
    ghost use Rattle.room_table.specs.Fresh.{all_parts};

    ghost holds = { IsShown };

    ghost first = { all_parts };
}

/// The table. It has no slot.
pub(crate) type Board = Table<u64, Parts, Shape, Machine, Global>;

/// The table without its memory.
pub(crate) type Top = Shared<u64, Parts, Shape, Machine>;

/// What each seat of this crate has inside.
pub(crate) type Place = Seat<u64, Parts>;
