//! What is behind the lock of a shared clock: `Shared` asks it in its turns.
ghost use Rattle.std.specs.Prelude.{◌≡◌, ◌≤◌, ◌++◌, [], IfOk, OnErr, length};
ghost use Rattle.outside.specs.declared.clock.TheConstants.{MOST_MOMENT};
ghost use Rattle.turn_lock.specs.AddedBy.{AddedBy};
ghost use Rattle.outside.specs.shared.clock.Moments.{entry_of, greatest, told_to};

use crate::Clock;
use crate::shared::clock::told_moment::ToldMoment;
use kbytes::{List, NoMemory};
use std::alloc::Global;
use std::marker::Model;

/// A clock, and the moments that were told. None is above the moment that the clock gave last.
#[derive(Drop)]
pub struct ClockDesk<C: Clock> {
    clock: C,
    told: List<ToldMoment>,
    // the greatest of those
    latest: u64,
}

impl<C: Clock> Model for ClockDesk<C> {
    ghost use Rattle.std.specs.Prelude.{◌≡◌, ◌≤◌};
    ghost use Rattle.outside.specs.shared.clock.Desk.{Desk};

    ghost Value = { Desk C };

    ghost use Rattle.outside.specs.shared.clock.Moments.{greatest};

    ghost view = { λ d. record { clock = d.clock; told = d.told } };

    ghost invariant = { λ d. (d.latest ≡ greatest d.told) × (d.latest ≤ C.moment d.clock) };
}

impl<C: Clock> ClockDesk<C> {
    pub(crate) fn new(alloc: Global, clock: C) -> ClockDesk<C>
        ensures { result ≡ record { clock = clock; told = [] } }
    {
        ClockDesk {
            clock,
            told: List::new(alloc),
            latest: 0,
        }
    }

    /// Tells the pass of this number the moment now, and enters it where it is above all that were told. If memory runs out nothing is
    /// told or entered.
    pub(crate) fn tell(&mut self, by: u32) -> Result<u64, NoMemory>
        ensures told { IfOk result (λ moment. self.new.told ≡ self.old.told ++ entry_of by moment self.old.told) }
        ensures above { IfOk result (λ moment. greatest self.old.told ≤ moment) }
        ensures greatest { IfOk result (λ moment. greatest self.new.told ≡ moment) }
        ensures limit { IfOk result (λ moment. moment ≤ MOST_MOMENT) }
        ensures refused { OnErr result (self.new.told ≡ self.old.told) }
        ensures added { AddedBy told_to by self.old.told self.new.told }
    {
        let moment = self.clock.now();
        if moment > self.latest {
            self.told.push(ToldMoment { moment, by })?;
            self.latest = moment;
        }
        Ok(moment)
    }

    /// Lets the clock rest, and answers the moment then. It is told to nobody.
    pub(crate) fn rest(&mut self) -> u64
        ensures told { self.new.told ≡ self.old.told }
        ensures above { greatest self.new.told ≤ result }
        ensures limit { result ≤ MOST_MOMENT }
    {
        self.clock.next()
    }

    pub(crate) fn len(&self) -> u64
        ensures { result ≡ length self.now.told }
    {
        self.told.len() as u64
    }

    pub(crate) fn into_clock(self) -> C
        ensures { greatest self.told ≤ C.moment result }
    {
        self.clock
    }
}
