//! The frame of a reply to a fetch, for `reply`. The topics are written from the request and the readings, so that neither
//! names nor records are copied before.
ghost use Rattle.std.specs.Prelude.{◌≡◌, ◌++◌, ⊤, length, sum_by, All, IfOk, OnOk};
ghost use Rattle.kbytes.specs.Field.{fields};
ghost use Rattle.kwire.specs.declared.reply.FetchedPart.{FetchedPart as ToldPart};
ghost use Rattle.kwire.specs.declared.reply.Told.TheVariants.{Fetched};
ghost use Rattle.kwire.specs.IsSpellable.{AreInRange, IsSpellable};
ghost use Rattle.kwire.specs.Spelling.{fetched_part_fields, told_fields, spelling};
ghost use Rattle.kanswer.specs.LogReadings.{HasCarriable};
ghost use Rattle.kanswer.specs.ToldParts.{fetched_part, fetched_of};

use crate::accepted::{Accepted, Reading};
use crate::fetched::fetched_view;
use crate::told_topics::{Answered, put_topics};
use kbytes::{Bytes, NoMemory, put_array, put_i32};
use kwire::{
    FETCHED_PART_BYTES, FetchPart, FetchTopicView, REPLY_HEAD_BYTES, TOLD_TOPIC_BYTES, begin_reply,
    end_frame, put_fetched_part,
};
use std::alloc::Global;

/// A fetch that is answered by a frame: what the frame has of its request. The isolation level is 0 or 1.
#[derive(Clone, Copy)]
pub struct AnsweredFetch<'a> {
    pub correlation: i32,
    pub version: i16,
    pub isolation: i8,
    pub topics: &'a [FetchTopicView<'a>],
}

impl<'a> Answered for AnsweredFetch<'a> {
    type Topic = FetchTopicView<'a>;

    type Part = FetchPart;

    ghost name = { λ topic. topic.name };

    ghost parts = { λ topic. topic.parts };

    ghost Told = { ToldPart };

    ghost told = { λ _. fetched_part };

    ghost told_fields = { λ answered. fetched_part_fields answered.version answered.isolation };

    ghost HasResult = { λ _. ⊤ };

    ghost HasReading = { HasCarriable };

    fn name<'t>(topic: &'t FetchTopicView<'a>) -> &'t [u8] {
        topic.name
    }

    fn parts<'t>(topic: &'t FetchTopicView<'a>) -> &'t [FetchPart] {
        topic.parts.as_slice()
    }

    fn put_part(
        &self,
        out: &mut Bytes,
        part: &FetchPart,
        became: &Accepted,
        reading: &Reading,
    ) -> Result<(), NoMemory> {
        let told = fetched_view(part, became, reading);
        put_fetched_part(out, self.version, self.isolation, &told)
    }
}

// The throttle time 0, and after it the topics.
fn put_told(
    out: &mut Bytes,
    answered: &AnsweredFetch<'_>,
    accepted: &[Accepted],
    readings: &[Reading],
) -> Result<(), NoMemory>
    requires accepted { length accepted.now ≡ sum_by (λ topic. length topic.parts) answered.now.topics.now }
    requires readings { length readings.now ≡ sum_by (λ topic. length topic.parts) answered.now.topics.now }
    requires carriable { All HasCarriable readings.now }
    requires in_range { AreInRange (told_fields (Fetched answered.now.version answered.now.isolation
        (fetched_of answered.now.topics.now accepted.now readings.now))) }
    ensures { OnOk result (out.new ≡ out.old ++ fields (told_fields (Fetched answered.now.version answered.now.isolation
        (fetched_of answered.now.topics.now accepted.now readings.now)))) }
{
    put_i32(out, 0)?;
    put_array(out, Some(answered.topics.len() as u32))?;
    put_topics(out, answered, answered.topics, accepted, readings)
}

// The bytes of the topics, beside their partitions. Nothing but what is reserved rests on it.
fn topics_room(topics: &[FetchTopicView<'_>]) -> usize {
    let mut room: usize = 0;
    for topic in topics {
        room = room
            .saturating_add(topic.name.len())
            .saturating_add(TOLD_TOPIC_BYTES);
    }
    room
}

// The most bytes of the partitions: each has its reading.
fn parts_room(readings: &[Reading]) -> usize {
    let mut room: usize = 0;
    for reading in readings {
        room = room
            .saturating_add(reading.records.len())
            .saturating_add(FETCHED_PART_BYTES);
    }
    room
}

/// The frame of the reply to a fetch, from what became of each named partition and what was read of it.
pub fn fetched_frame(
    alloc: Global,
    answered: &AnsweredFetch<'_>,
    accepted: &[Accepted],
    readings: &[Reading],
) -> Result<Bytes, NoMemory>
    requires accepted { length accepted.now ≡ sum_by (λ topic. length topic.parts) answered.now.topics.now }
    requires readings { length readings.now ≡ sum_by (λ topic. length topic.parts) answered.now.topics.now }
    requires carriable { All HasCarriable readings.now }
    requires spellable { IsSpellable (record {
      correlation = answered.now.correlation;
      told = Fetched answered.now.version answered.now.isolation (fetched_of answered.now.topics.now accepted.now readings.now);
    }) }
    ensures { IfOk result (λ frame. frame ≡ spelling (record {
      correlation = answered.now.correlation;
      told = Fetched answered.now.version answered.now.isolation (fetched_of answered.now.topics.now accepted.now readings.now);
    })) }
{
    let room = topics_room(answered.topics).saturating_add(parts_room(readings));
    let room = room.saturating_add(REPLY_HEAD_BYTES);
    let mut frame = begin_reply(alloc, answered.correlation, room)?;
    put_told(&mut frame, answered, accepted, readings)?;
    end_frame(&mut frame);
    Ok(frame)
}
