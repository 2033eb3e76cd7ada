//! The records of a long reply, which stand in a partition's log as well: a session needn't keep them.
ghost use Rattle.std.specs.Prelude.{◌≡◌, ◌≤◌, ◌++◌, IfSome, length, take};
ghost use Rattle.audit.specs.broker.GoesOn.{Carried};
ghost use Rattle.shared_broker.specs.Finding.{HasCaughtUp, bytes_at};
ghost use Rattle.shared_broker.specs.Passes.{made_with};

use kbytes::Reader;
use shared_broker::{Broker, LogRange, Pass, Sought};
use std::sync::Wait;

/// How a frame's last bytes are those of a range of a log: which bytes it has before them, and the range.
#[derive(Clone, Copy)]
pub struct Stored {
    pub head: usize,
    pub range: LogRange,
}

// The partition that a reply to a fetch tells of, if it is one alone, and how many bytes the frame has before its records.
#[derive(Clone, Copy)]
struct FetchedAlone<'a> {
    topic: &'a [u8],
    index: i32,
    head: usize,
}

// Reads how many there are: one.
fn read_one(reader: &mut Reader<'_>) -> Option<()> {
    let count = reader.i32().ok()?;
    (count == 1).then_some(())
}

// Reads such a frame as Kafka spells it, up to its records. Of another frame this reads something or nothing.
fn fetched_alone(frame: &[u8]) -> Option<FetchedAlone<'_>> {
    let mut reader = Reader::new(frame);
    let _size = reader.i32().ok()?;
    let _correlation = reader.i32().ok()?;
    let _throttle = reader.i32().ok()?;
    read_one(&mut reader)?;
    let topic = reader.string().ok()?;
    read_one(&mut reader)?;
    let index = reader.i32().ok()?;
    let _error = reader.i16().ok()?;
    let _high = reader.i64().ok()?;
    let _stable = reader.i64().ok()?;
    let _aborted = reader.i32().ok()?;
    let _size = reader.i32().ok()?;
    Some(FetchedAlone {
        topic,
        index,
        head: reader.at(),
    })
}

// The first offset of the first batch.
fn first_offset(records: &[u8]) -> Option<u64> {
    let offset = Reader::new(records).i64().ok()?;
    u64::try_from(offset).ok()
}

/// Whether the records at the end of a reply's frame stand in a log, and where. They then stand there in every account that goes on from what the
/// pass has seen.
pub fn find_stored(rt: &impl Wait, broker: &Broker, pass: &mut Pass, frame: &[u8]) -> Option<Stored>
    requires made { made_with pass.old ≡ broker.now }
    ensures others { HasCaughtUp pass.old pass.new }
    ensures within { IfSome result (λ stored. stored.head ≤ length frame.now) }
    ensures found { IfSome result (λ stored. Carried pass.new.config pass.new.logs.parts pass.new.logs.clock
        (λ account. frame.now ≡ take stored.head frame.now ++ bytes_at account stored.range)) }
{
    let FetchedAlone { topic, index, head } = fetched_alone(frame)?;
    if head > frame.len() {
        return None;
    }
    let records = &frame[head..];
    let offset = first_offset(records)?;
    let sought = Sought {
        topic,
        index,
        offset,
        records,
    };
    let range = broker.find(rt, pass, &sought)?;
    Some(Stored { head, range })
}
