//! What `Engine` does once the clock has risen: followers that lag leave the in-sync sets of their partitions.

ghost use Rattle.std.specs.Prelude.{◌≡◌, map, OnOk};
ghost use Rattle.partlog.specs.Shrunk.{all_shrunk};

use kbytes::NoMemory;
use partlog::PartLog;

/// In one partition after the other, takes each follower that lags at this moment out of the in-sync set, the least first. If
/// memory runs out, some of them may be out, and the logs may only be dropped.
pub fn shrink_parts(parts: &mut [PartLog], t: u64) -> Result<(), NoMemory>
    ensures { OnOk result (parts.new ≡ map (λ h. all_shrunk h 0 t) parts.old) }
{
    for at in 0..parts.len() {
        parts[at].shrink_all(0, t)?;
    }
    Ok(())
}
