ghost use Rattle.std.specs.Prelude.{◌≡◌, All, IfOk};

use kbytes::NoMemory;
use opcond::{Need, Op};
use std::alloc::Global;

/// No moment is this late.
const DEADLINE: u64 = 1_000_000_000;

/// An operation that waits until the gauge is past this value, and whose time doesn't run out.
pub fn waits_past(alloc: Global, gauge: u32, value: u64) -> Result<Op, NoMemory>
    ensures { IfOk result (λ op. All (λ need. need.gauge ≡ gauge) op.needs) }
{
    let mut op = Op::new(alloc, 1, DEADLINE);
    op.add(Need {
        gauge,
        start: value,
        cap: 1,
    })?;
    Ok(op)
}
