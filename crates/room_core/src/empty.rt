//! Tables in which nothing was read or learned: the parts of callers and scanners start with them, and go back to them before
//! each new check.
ghost use Rattle.std.specs.Prelude.{◌≡◌, IfOk, None, length, replicate};
ghost use Rattle.room_core.specs.CallerTables.{table};
ghost use Rattle.room_core.specs.Readings.{unread};

use kbytes::NoMemory;
use std::alloc::Global;

/// A table of readings that were not taken yet.
pub(crate) fn nothing_read(alloc: Global, count: usize) -> Result<Vec<Option<u64>>, NoMemory>
    ensures { IfOk result (λ v. v.items ≡ replicate count None) }
{
    Ok(vec![in alloc; None; count]?)
}

/// Forgets what was read or learned.
pub(crate) fn forget(values: &mut Vec<Option<u64>>)
    ensures size { length values.new.items ≡ length values.old.items }
    ensures forgotten { table values.new.items None ≡ unread }
{
    values.fill(None);
}
