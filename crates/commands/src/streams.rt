//! Reads a part of a source, for `read_lines`, and writes a part to a sink whole.

ghost use Rattle.std.specs.Prelude.{◌≡◌, ◌<◌, ◌≤◌, ℕ, length, take, IfOk, IfErr, OnOk, OnErr};
ghost use Rattle.std.specs.Io.KnownBytes.{Appends, Consumes, IsAtEnd};
ghost use Rattle.outside.specs.Causes.{Rose};
ghost use Rattle.commands.specs.Streams.{HasWrittenFront};

use outside::{Failed, Sink, Source};

/// Reads into the room until it is full or the source ends. The answer is what came, at the front of the room.
pub fn fill<'a, S: Source>(source: &mut S, room: &'a mut [u8]) -> Result<&'a [u8], Failed>
    ensures came { IfOk result (λ part. Consumes (S.left source.old) (S.left source.new) part.now) }
    ensures most { IfOk result (λ part. length part.now ≤ length room.old) }
    ensures end { IfOk result (λ part. length part.now < length room.old → IsAtEnd (S.left source.new)) }
    ensures later { S.faults source.old ≤ S.faults source.new }
    ensures failed { OnErr result (Rose (S.faults source.old) (S.faults source.new)) }
{
    let mut count = 0;
    while count < room.len() {
        let came = source.read(&mut room[count..])?;
        if came == 0 {
            break;
        }
        count += came;
    }
    Ok(&room[..count])
}

/// Writes the whole part. If a write fails, a prefix of the part was written.
pub fn write_all<K: Sink>(sink: &mut K, part: &[u8]) -> Result<(), Failed>
    ensures written { OnOk result (Appends (K.written sink.old) (K.written sink.new) part.now) }
    ensures front { OnErr result (HasWrittenFront (K.written sink.old) (K.written sink.new) part.now) }
    ensures later { K.faults sink.old ≤ K.faults sink.new }
    ensures failed { OnErr result (Rose (K.faults sink.old) (K.faults sink.new)) }
{
    let mut done = 0;
    while done < part.len() {
        let count = sink.write(&part[done..])?;
        done += count;
    }
    Ok(())
}
