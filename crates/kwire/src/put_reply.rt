//! Writing a reply as a frame: the last step of each answer. The fields of each kind are in the other `put_` modules.

ghost use Rattle.std.specs.Prelude.{◌≡◌, ◌++◌, ◌∷◌, [], pos, IfOk, OnOk};
ghost use Rattle.kbytes.specs.Field.{fields, Int32};
ghost use Rattle.kwire.specs.declared.reply.Told.TheVariants.{Produced, Fetched};
ghost use Rattle.kwire.specs.IsSpellable.{AreInRange, IsSpellable};
ghost use Rattle.kwire.specs.Spelling.{told_fields, spelling};

use crate::put_fetched::put_fetched;
use crate::put_items::{begin_frame, end_frame};
use crate::put_metadata::{put_metadata, put_versions};
use crate::put_produced::put_produced;
use crate::reply::{FetchedPart, FetchedTopic, ProducedTopic, Reply, Told};
use kbytes::{Bytes, NoMemory, put_i32};
use std::alloc::Global;

/// The bytes around the topics of a reply to a produce or a fetch: the size, the correlation id, the throttle time and the
/// count.
pub const REPLY_HEAD_BYTES: usize = 16;

/// The bytes of a topic in such a reply beside its name and partitions: the name's length and the count.
pub const TOLD_TOPIC_BYTES: usize = 6;

/// The most bytes of a partition in a reply to a produce: those of the last version.
pub const PRODUCED_PART_BYTES: usize = 30;

/// The most bytes of a partition in a reply to a fetch, beside its records.
pub const FETCHED_PART_BYTES: usize = 38;

// The topics, and after them the throttle time 0.
fn put_produced_told(
    out: &mut Bytes,
    version: i16,
    topics: &[ProducedTopic],
) -> Result<(), NoMemory>
    requires { AreInRange (told_fields (Produced version topics.now)) }
    ensures { OnOk result (out.new ≡ out.old ++ fields (told_fields (Produced version topics.now))) }
{
    put_produced(out, version, topics)?;
    put_i32(out, 0)
}

// The throttle time 0, and after it the topics.
fn put_fetched_told(
    out: &mut Bytes,
    version: i16,
    isolation: i8,
    topics: &[FetchedTopic],
) -> Result<(), NoMemory>
    requires { AreInRange (told_fields (Fetched version isolation topics.now)) }
    ensures { OnOk result (out.new ≡ out.old ++ fields (told_fields (Fetched version isolation topics.now))) }
{
    put_i32(out, 0)?;
    put_fetched(out, version, isolation, topics)
}

fn put_told(out: &mut Bytes, told: &Told) -> Result<(), NoMemory>
    requires { AreInRange (told_fields told.now) }
    ensures { OnOk result (out.new ≡ out.old ++ fields (told_fields told.now)) }
{
    match told {
        Told::Produced { version, topics } => put_produced_told(out, *version, topics.as_slice()),
        Told::Fetched {
            version,
            isolation,
            topics,
        } => put_fetched_told(out, *version, *isolation, topics.as_slice()),
        Told::Metadata { port, topics } => put_metadata(out, *port, topics.as_slice()),
        Told::Versions { code } => put_versions(out, *code),
    }
}

// The bytes of the topics' fields. Nothing but what is reserved rests on it.
fn produced_room(topics: &[ProducedTopic]) -> usize {
    let mut room: usize = 0;
    for topic in topics {
        let parts = topic.parts.len().saturating_mul(PRODUCED_PART_BYTES);
        room = room.saturating_add(topic.name.len()).saturating_add(parts);
        room = room.saturating_add(TOLD_TOPIC_BYTES);
    }
    room
}

// The same for a fetch.
fn fetched_parts_room(parts: &[FetchedPart]) -> usize {
    let mut room: usize = 0;
    for part in parts {
        room = room.saturating_add(part.records.len());
        room = room.saturating_add(FETCHED_PART_BYTES);
    }
    room
}

fn fetched_room(topics: &[FetchedTopic]) -> usize {
    let mut room: usize = 0;
    for topic in topics {
        let parts = fetched_parts_room(topic.parts.as_slice());
        room = room.saturating_add(topic.name.len()).saturating_add(parts);
        room = room.saturating_add(TOLD_TOPIC_BYTES);
    }
    room
}

// The bytes of a frame that the reply needs, or none for a reply that is small or rare.
fn room_of(told: &Told) -> usize {
    match told {
        Told::Produced { topics, .. } => produced_room(topics.as_slice()).saturating_add(
            REPLY_HEAD_BYTES,
        ),
        Told::Fetched { topics, .. } => fetched_room(topics.as_slice()).saturating_add(
            REPLY_HEAD_BYTES,
        ),
        Told::Metadata { .. } | Told::Versions { .. } => 0,
    }
}

/// The beginning of a reply's frame, with memory reserved for so many bytes in all: 0 in place of the size, and the
/// correlation id. The reply's fields follow, and `end_frame` after them.
pub fn begin_reply(alloc: Global, correlation: i32, room: usize) -> Result<Bytes, NoMemory>
    ensures { IfOk result (λ frame. frame ≡ fields (Int32 (pos 0) ∷ Int32 correlation ∷ [])) }
{
    let mut frame = begin_frame(alloc, room)?;
    put_i32(&mut frame, correlation)?;
    Ok(frame)
}

/// The frame of a reply: the size, the correlation id and the fields.
pub fn reply_bytes(alloc: Global, reply: &Reply) -> Result<Bytes, NoMemory>
    requires { IsSpellable reply.now }
    ensures { IfOk result (λ frame. frame ≡ spelling reply.now) }
{
    let mut frame = begin_reply(alloc, reply.correlation, room_of(&reply.told))?;
    put_told(&mut frame, &reply.told)?;
    end_frame(&mut frame);
    Ok(frame)
}
