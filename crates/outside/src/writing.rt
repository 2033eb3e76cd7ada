//! Bytes are written to a link whole, in as many writes as it takes.
ghost use Rattle.std.specs.Prelude.{◌≡◌, ◌<◌, ℕ, OnErr, OnOk, length, take};
ghost use Rattle.std.specs.Io.KnownBytes.{Appends};
ghost use Rattle.outside.specs.Alike.{ShowsAlike};
ghost use Rattle.outside.specs.Causes.{HasCause};

use crate::failed::Failed;
use crate::link::Link;

/// Writes the whole part. Where a write fails, a proper prefix of it was written.
pub fn write_whole<L: Link>(link: &mut L, part: &[u8]) -> Result<(), Failed>
    ensures whole { OnOk result (Appends (L.written link.old) (L.written link.new) part.now) }
    ensures cut { OnErr result ((count : ℕ) × (count < length part.now)
        × Appends (L.written link.old) (L.written link.new) (take count part.now)) }
    ensures written_told { ShowsAlike (L.written link.old) (L.written link.new) }
    ensures taken { L.taken link.new ≡ L.taken link.old }
    ensures left { L.left link.new ≡ L.left link.old }
    ensures shut { L.is_shut link.new ≡ L.is_shut link.old }
    ensures cause { HasCause (L.faults link.old) (L.faults link.new) result }
{
    let mut done = 0;
    while done < part.len() {
        done += link.write(&part[done..])?;
    }
    Ok(())
}
