//! A shared port's passes and their keys, which are passes of its lock: `SharedPort` makes the ones of the others, and takes them apart.
ghost use Rattle.std.specs.Prelude.{◌≡◌, ◌<◌, ◌^◌, IfOk, length};
ghost use Rattle.atomic_table.specs.Seated.{TableId};
ghost use Rattle.outside.specs.shared.port.Fresh.{fresh_passes};
ghost use Rattle.outside.specs.shared.port.History.{Terms};
ghost use Rattle.outside.specs.shared.port.Keys.{AreFreshFrom, AreKeysOf};

use crate::Port;
use crate::shared::port::port_desk::PortDesk;
use crate::shared::port::port_pass::PortPass;
use kbytes::{List, NoMemory};
use std::alloc::Global;
use turn_lock::TurnPass;

/// A pass for each key of a new lock, in their order.
pub(crate) fn port_passes<P: Port>(
    alloc: Global,
    keys: List<TurnPass<PortDesk<P>>>,
) -> Result<List<PortPass<P>>, NoMemory>
    requires few { length keys < 2 ^ 32 }
    requires keys { (id : TableId) × (terms : Terms) × AreFreshFrom id terms 0 keys }
    ensures { IfOk result (λ passes. (id : TableId) (terms : Terms) → AreFreshFrom id terms 0 keys → passes ≡ fresh_passes id terms (length keys)) }
{
    let mut passes = List::new(alloc);
    for key in keys.into_vec() {
        let number = passes.len() as u32;
        passes.push(PortPass { number, key })?;
    }
    Ok(passes)
}

/// The keys of passes that came back, in their order.
pub(crate) fn keys_of<P: Port>(
    alloc: Global,
    passes: List<PortPass<P>>,
) -> Result<List<TurnPass<PortDesk<P>>>, NoMemory>
    ensures { IfOk result (λ keys. AreKeysOf passes keys) }
{
    let mut keys = List::new(alloc);
    for pass in passes.into_vec() {
        keys.push(pass.key)?;
    }
    Ok(keys)
}
