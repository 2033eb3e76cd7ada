//! A shared clock's passes and their keys, which are passes of its lock: `Shared` makes the ones of the others, and takes them apart.
ghost use Rattle.std.specs.Prelude.{◌≡◌, ◌<◌, ◌^◌, IfOk, length};
ghost use Rattle.atomic_table.specs.Seated.{TableId};
ghost use Rattle.outside.specs.shared.clock.Fresh.{fresh_passes};
ghost use Rattle.outside.specs.shared.clock.Keys.{AreFreshFrom, AreKeysOf};

use crate::Clock;
use crate::shared::clock::clock_desk::ClockDesk;
use crate::shared::clock::clock_pass::ClockPass;
use kbytes::{List, NoMemory};
use std::alloc::Global;
use turn_lock::TurnPass;

/// A pass for each key of a new lock, in their order.
pub(crate) fn clock_passes<C: Clock>(
    alloc: Global,
    keys: List<TurnPass<ClockDesk<C>>>,
) -> Result<List<ClockPass<C>>, NoMemory>
    requires few { length keys < 2 ^ 32 }
    requires keys { (id : TableId) × AreFreshFrom id 0 keys }
    ensures { IfOk result (λ passes. (id : TableId) → AreFreshFrom id 0 keys → passes ≡ fresh_passes id (length keys)) }
{
    let mut passes = List::new(alloc);
    for key in keys.into_vec() {
        let number = passes.len() as u32;
        passes.push(ClockPass {
            number,
            key,
            told: 0,
        })?;
    }
    Ok(passes)
}

/// The keys of passes that came back, in their order.
pub(crate) fn keys_of<C: Clock>(
    alloc: Global,
    passes: List<ClockPass<C>>,
) -> Result<List<TurnPass<ClockDesk<C>>>, NoMemory>
    ensures { IfOk result (λ keys. AreKeysOf passes keys) }
{
    let mut keys = List::new(alloc);
    for pass in passes.into_vec() {
        keys.push(pass.key)?;
    }
    Ok(keys)
}
