//! How a value with a history is put behind a turn lock.
ghost use Rattle.std.specs.Prelude.{◌≡◌, ℕ, ◌/◌, [], ◌∷◌, ◌++◌, ◌^◌, ◌<◌, length, All, IfOk, OnErr, OnOk, vec_len};
ghost use Rattle.turn_lock.specs.AddedBy.{AddedBy};
ghost use Rattle.turn_lock.specs.Locks.{known, lock_id, lock_name, AreFresh, IsPassOf, IsReady};
ghost use Rattle.tests_of_libraries.specs.Numbered.{IsNumbered};

use kbytes::{List, NoMemory};
use std::alloc::Global;
use std::sync::Wait;
use turn_lock::{Kept, TurnLock, TurnPass};

/// A series of numbers, in the order in which they came. The thousands of a number are its pass.
#[derive(Drop)]
pub struct Numbers {
    pub series: u64,
    pub items: Vec<u64>,
}

impl Kept for Numbers {
    type Entry = u64;

    ghost entries = { λ n. n.items.items };

    ghost by = { λ e. e / 1000 };

    ghost name = { λ n. n.series ∷ [] };

    fn count(&self) -> u64 {
        self.items.len() as u64
    }
}

impl Numbers {
    /// Adds a number at the end.
    pub fn add(&mut self, number: u64) -> Result<(), NoMemory>
        ensures ok { OnOk result (self.new.items.items ≡ self.old.items.items ++ number ∷ []) }
        ensures err { OnErr result (self.new.items.items ≡ self.old.items.items) }
        ensures history { AddedBy (λ e. e / 1000) (number / 1000) self.old.items.items self.new.items.items }
        ensures series { self.new.series ≡ self.old.series }
    {
        self.items.push(number)?;
        Ok(())
    }
}

/// One turn, in which the pass adds a number.
pub fn add_one(
    rt: &impl Wait,
    lock: &TurnLock<Numbers>,
    pass: &mut TurnPass<Numbers>,
    number: u64,
) -> Result<(), NoMemory>
    requires number { number / 1000 ≡ (known pass.old).number }
    requires pass { IsPassOf (λ n. n.series ∷ []) lock.now pass.old × IsReady pass.old }
    ensures ok { OnOk result ((known pass.new).mine ≡ (known pass.old).mine ++ number ∷ []) }
    ensures err { OnErr result ((known pass.new).mine ≡ (known pass.old).mine) }
    ensures number { (known pass.new).number ≡ (known pass.old).number }
    ensures pass { IsPassOf (λ n. n.series ∷ []) lock.now pass.new × IsReady pass.new }
{
    let mut turn = lock.turn(rt, pass);
    let added = turn.value_mut().add(number);
    lock.end(pass, turn);
    added
}

/// A pass with its number.
#[derive(Drop)]
pub struct NumberedPass {
    pub number: u64,
    pub pass: TurnPass<Numbers>,
}

/// The passes that `TurnLock::make` gave, each with its number, to be handed to threads.
pub fn numbered(
    alloc: Global,
    lock: &TurnLock<Numbers>,
    mut passes: List<TurnPass<Numbers>>,
) -> Result<Vec<NumberedPass>, NoMemory>
    requires fresh { AreFresh (lock_id lock.now) (lock_name (λ n. n.series ∷ []) lock.now) passes }
    requires few { length passes < 2 ^ 32 }
    ensures len { IfOk result (λ v. vec_len v ≡ length passes) }
    ensures each { IfOk result (λ v. All (IsNumbered lock.now) v.items) }
{
    let mut all = Vec::new(alloc);
    while let Some(pass) = passes.pop() {
        let number = passes.len() as u64;
        all.push(NumberedPass { number, pass })?;
    }
    Ok(all)
}
