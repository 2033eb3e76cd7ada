//! Writing the topics of a reply to a fetch, for `put_reply`.

ghost use Rattle.std.specs.Prelude.{◌≡◌, ◌++◌, ◌∷◌, Some, length, OnOk};
ghost use Rattle.std.specs.List.{flat_map};
ghost use Rattle.kbytes.specs.Field.{field, fields, Array};
ghost use Rattle.kwire.specs.Spelling.{aborted, fetched_part_fields, fetched_topic_fields};
ghost use Rattle.kwire.specs.IsSpellable.{AreInRange};

use crate::put_produced::put_start;
use crate::reply::{FetchedPart, FetchedPartView, FetchedTopic};
use kbytes::{Bytes, NoMemory, put_array, put_i16, put_i32, put_i64, put_records, put_string};

// The aborted transactions: null for the isolation level 0, an empty list for 1.
fn put_aborted(out: &mut Bytes, isolation: i8) -> Result<(), NoMemory>
    ensures { OnOk result (out.new ≡ out.old ++ field (Array (aborted isolation))) }
{
    if isolation == 0 {
        put_array(out, None)
    } else {
        put_array(out, Some(0))
    }
}

/// What is told of one partition, with the records where they stand. The last stable offset is the high watermark. The
/// isolation level is 0 or 1.
pub fn put_fetched_part(
    out: &mut Bytes,
    version: i16,
    isolation: i8,
    part: &FetchedPartView<'_>,
) -> Result<(), NoMemory>
    requires { AreInRange (fetched_part_fields version isolation part.now) }
    ensures { OnOk result (out.new ≡ out.old ++ fields (fetched_part_fields version isolation part.now)) }
{
    put_i32(out, part.index)?;
    put_i16(out, part.code)?;
    put_i64(out, part.high)?;
    put_i64(out, part.high)?;
    put_start(out, version, part.start)?;
    put_aborted(out, isolation)?;
    put_records(out, Some(part.records))
}

fn put_part(
    out: &mut Bytes,
    version: i16,
    isolation: i8,
    part: &FetchedPart,
) -> Result<(), NoMemory>
    requires { AreInRange (fetched_part_fields version isolation part.now) }
    ensures { OnOk result (out.new ≡ out.old ++ fields (fetched_part_fields version isolation part.now)) }
{
    let part = FetchedPartView {
        index: part.index,
        code: part.code,
        high: part.high,
        start: part.start,
        records: part.records.as_slice(),
    };
    put_fetched_part(out, version, isolation, &part)
}

fn put_parts(
    out: &mut Bytes,
    version: i16,
    isolation: i8,
    parts: &[FetchedPart],
) -> Result<(), NoMemory>
    requires { AreInRange (flat_map (fetched_part_fields version isolation) parts.now) }
    ensures { OnOk result (out.new ≡ out.old ++ fields (flat_map (fetched_part_fields version isolation) parts.now)) }
{
    for part in parts {
        put_part(out, version, isolation, part)?;
    }
    Ok(())
}

fn put_topic(
    out: &mut Bytes,
    version: i16,
    isolation: i8,
    topic: &FetchedTopic,
) -> Result<(), NoMemory>
    requires { AreInRange (fetched_topic_fields version isolation topic.now) }
    ensures { OnOk result (out.new ≡ out.old ++ fields (fetched_topic_fields version isolation topic.now)) }
{
    put_string(out, topic.name.as_slice())?;
    put_array(out, Some(topic.parts.len() as u32))?;
    put_parts(out, version, isolation, topic.parts.as_slice())
}

fn put_topics(
    out: &mut Bytes,
    version: i16,
    isolation: i8,
    topics: &[FetchedTopic],
) -> Result<(), NoMemory>
    requires { AreInRange (flat_map (fetched_topic_fields version isolation) topics.now) }
    ensures { OnOk result (out.new ≡ out.old
        ++ fields (flat_map (fetched_topic_fields version isolation) topics.now)) }
{
    for topic in topics {
        put_topic(out, version, isolation, topic)?;
    }
    Ok(())
}

/// The topics, after their count. The isolation level is 0 or 1.
pub fn put_fetched(
    out: &mut Bytes,
    version: i16,
    isolation: i8,
    topics: &[FetchedTopic],
) -> Result<(), NoMemory>
    requires { AreInRange (Array (Some (length topics.now)) ∷ flat_map (fetched_topic_fields version isolation) topics.now) }
    ensures { OnOk result (out.new ≡ out.old
        ++ fields (Array (Some (length topics.now)) ∷ flat_map (fetched_topic_fields version isolation) topics.now)) }
{
    put_array(out, Some(topics.len() as u32))?;
    put_topics(out, version, isolation, topics)
}
