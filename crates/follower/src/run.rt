//! A follower's run, from the words of its command line to the line that it prints.
ghost use Rattle.std.specs.Prelude.{◌≡◌, ◌≢◌, ◌≤◌, ◌<◌, ◌^◌, ◌++◌, ◌↔◌, ℕ, IfOk, OnErr, OnOk, length, take};
ghost use Rattle.std.specs.Io.KnownBytes.{Appends, Keeps};
ghost use Rattle.outside.specs.Causes.{Rose};
ghost use Rattle.follower.specs.Commands.{IsOrdered, Order as TheOrder, said};
ghost use Rattle.follower.specs.Dialling.{dial_by};
ghost use Rattle.follower.specs.Flows.{link_by};
ghost use Rattle.follower.specs.Running.{HasRun, IsCut, IsTold, line_of, sink_of, status_of};

use crate::course::follow;
use crate::dial::Dial;
use crate::fault::FollowEnd;
use crate::replica::Replica;
use crate::words::Orders;
use itoa::Buffer;
use kbytes::{Bytes, NoMemory};
use outside::{Failed, Sink};
use std::alloc::Global;

// The line that tells how far a copy came.
fn line(alloc: Global, end: u64, bytes: u64) -> Result<Bytes, NoMemory>
    ensures { IfOk result (λ line. line ≡ line_of end bytes) }
{
    let mut line = Bytes::new(alloc);
    line.extend(b"follower end ")?;
    line.extend(Buffer::new().format(end).as_bytes())?;
    line.extend(b" bytes ")?;
    line.extend(Buffer::new().format(bytes).as_bytes())?;
    line.push(b'\n')?;
    Ok(line)
}

// Writes the whole part. If a write fails, a prefix of the part was written.
fn write_all<K: Sink>(sink: &mut K, part: &[u8]) -> Result<(), Failed>
    ensures written { OnOk result (Appends (K.written sink.old) (K.written sink.new) part.now) }
    ensures cut { OnErr result (IsCut part.now (sink_of (K.written sink.old) (K.faults sink.old)) (sink_of (K.written sink.new) (K.faults sink.new))) }
{
    let mut done = 0;
    while done < part.len() {
        let count = sink.write(&part[done..])?;
        done += count;
    }
    Ok(())
}

// The status that following comes to, where its line is written whole.
fn status_of(end: FollowEnd) -> u8
    ensures { result ≡ status_of end }
{
    match end {
        FollowEnd::Done | FollowEnd::Closed => 0,
        FollowEnd::Truncated { .. } | FollowEnd::FrameTooLong { .. } | FollowEnd::Take(_) => 2,
        FollowEnd::ReadFault | FollowEnd::WriteFault => 3,
        FollowEnd::NoMemory => 6,
    }
}

// Prints how far the copy came, and answers the status.
fn tell<K: Sink>(alloc: Global, sink: &mut K, end: FollowEnd, replica: &Replica) -> u8
    ensures { IsTold (status_of end) (line_of replica.now.end (length replica.now.log)) result
        (sink_of (K.written sink.old) (K.faults sink.old)) (sink_of (K.written sink.new) (K.faults sink.new)) }
{
    let due = status_of(end);
    if due == 6 {
        return 6;
    }
    let Ok(line) = line(alloc, replica.end(), replica.log().len() as u64) else {
        return 6;
    };
    match write_all(sink, line.as_slice()) {
        Ok(()) => due,
        Err(_) if due == 0 => 4,
        Err(_) => due,
    }
}

/// Follows the leader at the port of these words, PORT TOPIC INDEX REPLICA ROUNDS, for so many rounds, and prints how far its copy came. The
/// status is 0 where all was done and written; 1 where the words aren't so; 2 where the leader's replies end too early or are refused; 3 where
/// the leader can't be dialled, or its link failed; 4 where the line can't be written; and 6 where memory ran out.
pub fn run_follower<K: Sink, D: Dial>(
    alloc: Global,
    words: &[String],
    sink: &mut K,
    dial: &mut D,
) -> u8
    ensures usage { (result ≡ 1) ↔ ((order : TheOrder) → IsOrdered (said words.now) order → ⊥) }
    ensures unused { result ≡ 1 → Keeps (K.written sink.old) (K.written sink.new) × (dial_by D.faults D.dialled D.retired dial.new ≡ dial_by D.faults D.dialled D.retired dial.old) }
    ensures run { (order : TheOrder) → IsOrdered (said words.now) order
        → HasRun (link_by D.Link.taken D.Link.left D.Link.written D.Link.faults) order result
        (sink_of (K.written sink.old) (K.faults sink.old)) (sink_of (K.written sink.new) (K.faults sink.new))
        (dial_by D.faults D.dialled D.retired dial.old) (dial_by D.faults D.dialled D.retired dial.new) }
{
    let Some(orders) = Orders::of(words) else {
        return 1;
    };
    let Ok(mut replica) = Replica::new(
        alloc,
        orders.topic,
        orders.index as i32,
        orders.replica as i32,
    ) else {
        return 6;
    };
    let Ok(mut link) = dial.dial(orders.port) else {
        return 3;
    };
    let end = follow(alloc, &mut link, &mut replica, orders.rounds);
    dial.retire(link);
    tell(alloc, sink, end, &replica)
}
