ghost use Rattle.std.specs.Prelude.{◌≡◌, ◌≤◌, All, IfOk, OnErr, length};
ghost use Rattle.outside.specs.declared.clock.TheConstants.{MOST_MOMENT};
ghost use Rattle.outside.specs.shared.clock.Asked.{HasSeen, WasTold};
ghost use Rattle.outside.specs.shared.clock.ClockViews.{IsPassOf};
ghost use Rattle.outside.specs.shared.clock.Fresh.{fresh_passes};
ghost use Rattle.outside.specs.shared.clock.Moments.{greatest};

use crate::Clock;
use crate::shared::clock::clock_desk::ClockDesk;
use crate::shared::clock::clock_pass::ClockPass;
use crate::shared::clock::making::{clock_passes, keys_of};
use kbytes::{List, NoMemory};
use std::alloc::Global;
use std::marker::Model;
use std::sync::Wait;
use turn_lock::TurnLock;

/// A clock that threads share, each with a pass of its own.
#[derive(Drop)]
pub struct Shared<C: Clock> {
    alloc: Global,
    lock: TurnLock<ClockDesk<C>>,
}

impl<C: Clock> Model for Shared<C> {
    ghost use Rattle.turn_lock.specs.Locks.{lock_id, lock_passes};
    ghost use Rattle.outside.specs.shared.clock.ClockViews.{ClockView};

    ghost Value = { ClockView };

    ghost view = { λ s. record { id = lock_id s.lock; passes = lock_passes s.lock } };
}

impl<C: Clock> Shared<C> {
    /// Shares a clock among this many passes, which come in the order of their numbers. It is refused where no memory is left, and the
    /// clock is dropped.
    pub fn make(
        alloc: Global,
        clock: C,
        passes: u32,
    ) -> Result<(Shared<C>, List<ClockPass<C>>), NoMemory>
    where
        C: Drop,
        requires some { 1 ≤ passes }
        ensures size { IfOk result (λ made. made.0.passes ≡ passes) }
        ensures passes { IfOk result (λ made. made.1 ≡ fresh_passes made.0.id passes) }
    {
        let desk = ClockDesk::new(alloc, clock);
        let (lock, keys) = TurnLock::make(alloc, desk, passes)?;
        let passes = clock_passes(alloc, keys)?;
        Ok((Shared { alloc, lock }, passes))
    }

    /// Tells the pass the moment now, in milliseconds. It waits for its turn. If memory runs out the pass is told nothing.
    pub fn now(&self, rt: &impl Wait, pass: &mut ClockPass<C>) -> Result<u64, NoMemory>
        requires pass { IsPassOf self.now pass.old }
        ensures told { IfOk result (λ moment. WasTold moment pass.old pass.new) }
        ensures limit { IfOk result (λ moment. moment ≤ MOST_MOMENT) }
        ensures refused { OnErr result (HasSeen pass.old pass.new) }
    {
        let mut turn = self.lock.turn(rt, &mut pass.key);
        let told = turn.value_mut().tell(pass.number);
        self.lock.end(&mut pass.key, turn);
        let moment = told?;
        pass.told = moment;
        Ok(moment)
    }

    /// Lets the clock rest, as for a millisecond, and answers the moment then. The pass isn't told it: nothing may be done at this moment
    /// that `now` hasn't told. It waits for its turn, and every other pass waits meanwhile.
    pub fn rest(&self, rt: &impl Wait, pass: &mut ClockPass<C>) -> u64
        requires pass { IsPassOf self.now pass.old }
        ensures seen { HasSeen pass.old pass.new }
        ensures above { greatest pass.new.seen ≤ result }
        ensures later { pass.new.told ≤ result }
        ensures limit { result ≤ MOST_MOMENT }
    {
        let mut turn = self.lock.turn(rt, &mut pass.key);
        let moment = turn.value_mut().rest();
        self.lock.end(&mut pass.key, turn);
        moment
    }

    /// Takes all passes back, in any order, and gives the clock out. The moment that it gave last is no less than any that a pass was told.
    /// If memory runs out nothing is given out.
    pub fn close(self, passes: List<ClockPass<C>>) -> Result<C, NoMemory>
    where
        C: Drop,
        requires all { length passes ≡ self.passes }
        requires each { All (λ pass. IsPassOf self pass) passes }
        ensures told { IfOk result (λ clock. All (λ pass. pass.told ≤ C.moment clock) passes) }
    {
        let keys = keys_of(self.alloc, passes)?;
        Ok(self.lock.close(keys).into_clock())
    }
}
