//! Writing a request as a frame, for clients and tests: the broker itself only reads requests.

ghost use Rattle.std.specs.Prelude.{◌≡◌, ◌≤◌, ◌<◌, ◌^◌, ◌++◌, length, IfOk, OnOk};
ghost use Rattle.kbytes.specs.Field.{fields};
ghost use Rattle.kwire.specs.Frames.{framed};
ghost use Rattle.kwire.specs.IsRequest.{IsRequest, IsWhole, version_of as asked_version, produce_part_fields, produce_topic_fields, fetch_part_fields, fetch_topic_fields, name_fields, ask_fields, request_fields};
ghost use Rattle.kwire.specs.IsSpellable.{AreInRange};

use crate::api::{Api, asked_api, has_log_start, key_of, versions_of};
use crate::put_items::{Written, begin_frame, end_frame, put_items, slice_of};
use crate::put_produced::put_start;
use crate::request::{Ask, FetchPart, FetchTopic, ProducePart, ProduceTopic, Request};
use kbytes::{
    Bytes, NoMemory, put_array, put_i8, put_i16, put_i32, put_i64, put_nullable_string,
    put_records, put_string,
};
use std::alloc::Global;

/// The bytes before what a request asks: the size, the key, the version, the correlation id, and the length of the client's
/// name.
const REQUEST_HEAD_BYTES: usize = 14;

/// The bytes before the topics of a produce: the length of the transaction's name, the acks, the timeout and the count.
const PRODUCE_HEAD_BYTES: usize = 12;

/// The bytes before the topics of a fetch: who asks, the longest wait, the least bytes, the most, the isolation and the
/// count.
const FETCH_HEAD_BYTES: usize = 21;

/// The bytes of a topic beside its name and partitions: the name's length and the count.
const TOPIC_BYTES: usize = 6;

/// The bytes of a partition of a produce beside its records: the number and their length.
const PRODUCE_PART_BYTES: usize = 8;

/// The bytes of a partition of a fetch beside where the asker's log starts: the number, the offset and the most bytes.
const FETCH_PART_BYTES: usize = 16;

/// The bytes that say where the asker's log starts, in the versions that do.
const LOG_START_BYTES: usize = 8;

impl Written for ProducePart {
    ghost written = { λ _. produce_part_fields };

    fn put(&self, out: &mut Bytes, _version: i16) -> Result<(), NoMemory> {
        put_i32(out, self.index)?;
        put_records(out, slice_of(&self.records))
    }
}

impl Written for ProduceTopic {
    ghost written = { λ _. produce_topic_fields };

    fn put(&self, out: &mut Bytes, version: i16) -> Result<(), NoMemory> {
        put_string(out, self.name.as_slice())?;
        put_array(out, Some(self.parts.len() as u32))?;
        put_items(out, version, self.parts.as_slice())
    }
}

impl Written for FetchPart {
    ghost written = { fetch_part_fields };

    fn put(&self, out: &mut Bytes, version: i16) -> Result<(), NoMemory> {
        put_i32(out, self.index)?;
        put_i64(out, self.offset)?;
        put_start(out, version, self.log_start)?;
        put_i32(out, self.most)
    }
}

impl Written for FetchTopic {
    ghost written = { fetch_topic_fields };

    fn put(&self, out: &mut Bytes, version: i16) -> Result<(), NoMemory> {
        put_string(out, self.name.as_slice())?;
        put_array(out, Some(self.parts.len() as u32))?;
        put_items(out, version, self.parts.as_slice())
    }
}

impl Written for Bytes {
    ghost written = { λ _. name_fields };

    fn put(&self, out: &mut Bytes, _version: i16) -> Result<(), NoMemory> {
        put_string(out, self.as_slice())
    }
}

// What stands after the client's id.
fn put_ask(out: &mut Bytes, ask: &Ask) -> Result<(), NoMemory>
    requires { AreInRange (ask_fields ask.now) }
    ensures { OnOk result (out.new ≡ out.old ++ fields (ask_fields ask.now)) }
{
    match ask {
        Ask::Produce {
            version,
            transactional,
            acks,
            timeout,
            topics,
        } => {
            put_nullable_string(out, slice_of(transactional))?;
            put_i16(out, *acks)?;
            put_i32(out, *timeout)?;
            put_array(out, Some(topics.len() as u32))?;
            put_items(out, *version, topics.as_slice())
        }
        Ask::Fetch {
            version,
            replica,
            max_wait,
            min_bytes,
            max_bytes,
            isolation,
            topics,
        } => {
            put_i32(out, *replica)?;
            put_i32(out, *max_wait)?;
            put_i32(out, *min_bytes)?;
            put_i32(out, *max_bytes)?;
            put_i8(out, *isolation)?;
            put_array(out, Some(topics.len() as u32))?;
            put_items(out, *version, topics.as_slice())
        }
        Ask::Metadata { topics: None } => put_array(out, None),
        Ask::Metadata {
            topics: Some(names),
        } => {
            put_array(out, Some(names.len() as u32))?;
            put_items(out, asked_version(ask), names.as_slice())
        }
        Ask::Versions { .. } => Ok(()),
    }
}

// The version in the header.
fn asked_version(ask: &Ask) -> i16
    ensures { result ≡ asked_version ask.now }
{
    match ask {
        Ask::Produce { version, .. } | Ask::Fetch { version, .. } | Ask::Versions { version } => {
            *version
        }
        Ask::Metadata { .. } => versions_of(Api::Metadata).greatest,
    }
}

fn put_request(out: &mut Bytes, request: &Request) -> Result<(), NoMemory>
    requires { AreInRange (request_fields request.now) }
    ensures { OnOk result (out.new ≡ out.old ++ fields (request_fields request.now)) }
{
    let api = asked_api(&request.ask);
    put_i16(out, key_of(api))?;
    put_i16(out, asked_version(&request.ask))?;
    put_i32(out, request.correlation)?;
    put_nullable_string(out, slice_of(&request.client))?;
    put_ask(out, &request.ask)
}

// The bytes of the partitions' fields. Nothing but what is reserved rests on it.
fn produce_parts_room(parts: &[ProducePart]) -> usize {
    let mut room: usize = 0;
    for part in parts {
        room = room.saturating_add(PRODUCE_PART_BYTES);
        if let Some(records) = &part.records {
            room = room.saturating_add(records.len());
        }
    }
    room
}

// The same of the topics' fields.
fn produce_room(topics: &[ProduceTopic]) -> usize {
    let mut room: usize = 0;
    for topic in topics {
        let parts = produce_parts_room(topic.parts.as_slice());
        room = room.saturating_add(topic.name.len()).saturating_add(parts);
        room = room.saturating_add(TOPIC_BYTES);
    }
    room
}

// The same for a fetch.
fn fetch_room(version: i16, topics: &[FetchTopic]) -> usize {
    let part_bytes = if has_log_start(version) {
        FETCH_PART_BYTES + LOG_START_BYTES
    } else {
        FETCH_PART_BYTES
    };
    let mut room: usize = 0;
    for topic in topics {
        let parts = topic.parts.len().saturating_mul(part_bytes);
        room = room.saturating_add(topic.name.len()).saturating_add(parts);
        room = room.saturating_add(TOPIC_BYTES);
    }
    room
}

// The bytes of a frame that the request needs, without the names of a client and of a transaction, or none for a request
// that is small or rare.
fn room_of(ask: &Ask) -> usize {
    match ask {
        Ask::Produce { topics, .. } => produce_room(topics.as_slice()).saturating_add(
            REQUEST_HEAD_BYTES + PRODUCE_HEAD_BYTES,
        ),
        Ask::Fetch {
            version,
            topics,
            ..
        } => fetch_room(*version, topics.as_slice()).saturating_add(
            REQUEST_HEAD_BYTES + FETCH_HEAD_BYTES,
        ),
        Ask::Metadata { .. } | Ask::Versions { .. } => 0,
    }
}

/// The frame of a request in a version that is read whole, which names at most 64 topics and partitions, and no
/// partition twice. Its body is that request, so reading it gives the same request.
pub fn request_bytes(alloc: Global, request: &Request) -> Result<Bytes, NoMemory>
    requires whole { IsWhole (fields (request_fields request.now)) request.now }
    requires short { length (fields (request_fields request.now)) < 2 ^ 31 }
    ensures spelled { IfOk result (λ frame. frame ≡ framed (fields (request_fields request.now))) }
    ensures again { IfOk result (λ _. IsRequest (fields (request_fields request.now)) request.now) }
{
    let mut frame = begin_frame(alloc, room_of(&request.ask))?;
    put_request(&mut frame, request)?;
    end_frame(&mut frame);
    Ok(frame)
}
