//! `turn_lock`.
ghost use Rattle.std.specs.Prelude.{◌≡◌, ℕ, ◌+◌, ◌*◌, ◌/◌, ◌^◌, ◌<◌, ◌≤◌, [], ◌∷◌, ◌++◌, length, All, IfOk, vec_len};
ghost use Rattle.turn_lock.specs.Locks.{known, lock_id, lock_name, lock_passes, AreFresh, IsPassOf, IsReady};
ghost use Rattle.tests_of_libraries.specs.Numbered.{IsNumbered};

use crate::turn_examples::{NumberedPass, Numbers, add_one, numbered};
use kbytes::{List, NoMemory};
use std::alloc::Global;
use std::sync::Wait;
use std::test::*;
use std::thread::{Threads, map_vec};
use turn_lock::{Kept, TurnLock, TurnPass};

// In each of 500 turns the pass adds one number.
fn add_500(rt: &impl Wait, lock: &TurnLock<Numbers>, one: NumberedPass) -> TurnPass<Numbers>
    requires { IsNumbered lock.now one }
    ensures { IsPassOf (λ n. n.series ∷ []) lock.now result × IsReady result }
{
    let NumberedPass { number, mut pass } = one;
    for at in 0u64..500 {
        let _ = add_one(rt, lock, &mut pass, 1000 * number + at);
    }
    pass
}

fn given_back(
    alloc: Global,
    passes: Vec<TurnPass<Numbers>>,
) -> Result<List<TurnPass<Numbers>>, NoMemory>
    ensures { IfOk result (λ l. l ≡ passes.items) }
{
    let mut list = List::new(alloc);
    for pass in passes {
        list.push(pass)?;
    }
    Ok(list)
}

// So many threads take 500 turns each.
fn add_in_threads<R: Threads + Wait + Sync>(
    rt: &R,
    alloc: Global,
    count: u32,
) -> Result<Numbers, NoMemory>
    requires { 1 ≤ count }
{
    let numbers = Numbers {
        series: 1,
        items: Vec::with_capacity(alloc, 500 * count as usize)?,
    };
    let (lock, passes) = TurnLock::make(alloc, numbers, count)?;
    let all = numbered(alloc, &lock, passes)?;
    let done = map_vec(
        rt,
        all,
        &|one: NumberedPass| -> TurnPass<Numbers>
            requires { IsNumbered lock one }
            ensures { IsPassOf (λ n. n.series ∷ []) lock result × IsReady result }
        { add_500(rt, &lock, one) },
    )?;
    Ok(lock.close(given_back(alloc, done)?))
}

// Whether the numbers of each pass stand in their order, and 500 of each.
fn is_in_order(numbers: &Numbers, passes: u32) -> bool {
    (0..passes).all(|pass| {
        let first = 1000 * pass as u64;
        numbers
            .items
            .iter()
            .filter(|n| **n / 1000 == pass as u64)
            .copied()
            .eq(first..first + 500)
    })
}

#[test]
fn eight_threads_of_500_turns(rt: HostRuntime) {
    let numbers = add_in_threads(&rt, rt.alloc(), 8).expect(&rt, "memory");
    assert!(rt; numbers.count() == 4_000 && is_in_order(&numbers, 8));
}

// The one pass of a lock.
fn only_pass<T: Kept>(
    lock: &TurnLock<T>,
    mut passes: List<TurnPass<T>>,
) -> Result<TurnPass<T>, NoMemory>
    requires { AreFresh (lock_id lock.now) (lock_name T.name lock.now) passes × (length passes ≡ 1) }
    ensures { IfOk result (λ p. IsPassOf T.name lock.now p × IsReady p × ((known p).number ≡ 0)) }
{
    let Some(pass) = passes.pop() else {
        return Err(NoMemory);
    };
    Ok(pass)
}

#[test]
fn a_take_in_mid_run(rt: HostRuntime) {
    let numbers = Numbers {
        series: 1,
        items: Vec::new(rt.alloc()),
    };
    let (lock, passes) = TurnLock::make(rt.alloc(), numbers, 1).expect(&rt, "memory");
    let mut pass = only_pass(&lock, passes).expect(&rt, "a pass");
    assert!(rt; add_one(&rt, &lock, &mut pass, 5).is_ok());
    let mut turn = lock.turn(&rt, &mut pass);
    let added = turn.value_mut().add(6);
    let count = turn.value().count();
    let numbers = turn.take();
    assert!(rt; (added, count) == (Ok(()), 2));
    assert!(rt; numbers.items.as_slice() == [5u64, 6].as_slice());
}
