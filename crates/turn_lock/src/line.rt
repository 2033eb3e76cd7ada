//! The table of the lock: word 0 is the next ticket, word 1 the ticket that is served, and slot 0 holds the value.
use crate::kept::Kept;
use crate::known::Known;
use atomic_table::{Seat, Shared, Table, TableRule};
use std::alloc::Global;
use std::collections::LinkedList;
use std::snapshot::Snapshot;

pub(crate) const TICKET: usize = 0;

pub(crate) const SERVING: usize = 1;

pub(crate) const VALUE: usize = 0;

/// What the table learns once: how many passes there are, and the value as it was then, whose name is the lock's.
pub struct About<T> {
    pub passes: u32,
    pub value: Snapshot<T>,
}

impl<T> Drop for About<T> {
    fn drop(self) {
        let Self {
            passes: _,
            value: _,
        } = self;
    }
}

/// The rule of the table.
pub struct Line;

impl<T: Kept> TableRule<Option<T>, LinkedList<Known<T::Entry>>, About<T>> for Line {
    ghost use Rattle.turn_lock.specs.InLine.{InLine};
    ghost use Rattle.turn_lock.specs.Passes.{fresh_from};

    ghost holds = { λ about. InLine T.entries T.by T.name about.passes (T.name about.value.value) };

    ghost first = { λ about. fresh_from (T.name about.value.value) 0 about.passes };
}

pub(crate) type Board<T> = Table<
    Option<T>,
    LinkedList<Known<<T as Kept>::Entry>>,
    About<T>,
    Line,
    Global,
>;

pub(crate) type Place<T> = Seat<Option<T>, LinkedList<Known<<T as Kept>::Entry>>>;

/// The table without its memory.
pub(crate) type Top<T> = Shared<Option<T>, LinkedList<Known<<T as Kept>::Entry>>, About<T>, Line>;
