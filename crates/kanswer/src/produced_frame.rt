//! The frame of a reply to a produce, for `reply`. The topics are written from the request and the readings, so that no
//! names are copied before.
ghost use Rattle.std.specs.Prelude.{◌≡◌, ◌++◌, ⊤, length, sum_by, All, IfOk, OnOk};
ghost use Rattle.kbytes.specs.Field.{fields};
ghost use Rattle.kwire.specs.declared.reply.ProducedPart.{ProducedPart as ToldPart};
ghost use Rattle.kwire.specs.declared.reply.Told.TheVariants.{Produced};
ghost use Rattle.kwire.specs.IsSpellable.{AreInRange, IsSpellable};
ghost use Rattle.kwire.specs.Spelling.{produced_part_fields, told_fields, spelling};
ghost use Rattle.kanswer.specs.LogReadings.{IsCarriable};
ghost use Rattle.kanswer.specs.ToldParts.{produced_part, produced_of};

use crate::accepted::{Accepted, Reading};
use crate::produced::{Producing, produced_part};
use crate::told_topics::{Answered, put_topics};
use kbytes::{Bytes, NoMemory, put_array, put_i32};
use kwire::{
    PRODUCED_PART_BYTES, ProducePartView, ProduceTopicView, REPLY_HEAD_BYTES, TOLD_TOPIC_BYTES,
    begin_reply, end_frame, put_produced_part,
};
use std::alloc::Global;

/// A produce that is answered by a frame: what the frame has of its request.
#[derive(Clone, Copy)]
pub struct AnsweredProduce<'a> {
    pub correlation: i32,
    pub version: i16,
    pub produce: Producing<'a>,
    pub topics: &'a [ProduceTopicView<'a>],
}

impl<'a> Answered for AnsweredProduce<'a> {
    type Topic = ProduceTopicView<'a>;

    type Part = ProducePartView<'a>;

    ghost name = { λ topic. topic.name };

    ghost parts = { λ topic. topic.parts };

    ghost Told = { ToldPart };

    ghost told = { λ answered. produced_part answered.produce.config.now answered.produce.acks };

    ghost told_fields = { λ answered. produced_part_fields answered.version };

    ghost HasResult = { IsCarriable };

    ghost HasReading = { λ _. ⊤ };

    fn name<'t>(topic: &'t ProduceTopicView<'a>) -> &'t [u8] {
        topic.name
    }

    fn parts<'t>(topic: &'t ProduceTopicView<'a>) -> &'t [ProducePartView<'a>] {
        topic.parts.as_slice()
    }

    fn put_part(
        &self,
        out: &mut Bytes,
        part: &ProducePartView<'a>,
        became: &Accepted,
        reading: &Reading,
    ) -> Result<(), NoMemory> {
        let told = produced_part(&self.produce, part, became, reading);
        put_produced_part(out, self.version, &told)
    }
}

// The topics, and after them the throttle time 0.
fn put_told(
    out: &mut Bytes,
    answered: &AnsweredProduce<'_>,
    accepted: &[Accepted],
    readings: &[Reading],
) -> Result<(), NoMemory>
    requires accepted { length accepted.now ≡ sum_by (λ topic. length topic.parts) answered.now.topics.now }
    requires readings { length readings.now ≡ sum_by (λ topic. length topic.parts) answered.now.topics.now }
    requires carriable { All IsCarriable accepted.now }
    requires in_range { AreInRange (told_fields (Produced answered.now.version
        (produced_of answered.now.produce.config.now answered.now.produce.acks answered.now.topics.now accepted.now readings.now))) }
    ensures { OnOk result (out.new ≡ out.old ++ fields (told_fields (Produced answered.now.version
        (produced_of answered.now.produce.config.now answered.now.produce.acks answered.now.topics.now accepted.now readings.now)))) }
{
    put_array(out, Some(answered.topics.len() as u32))?;
    put_topics(out, answered, answered.topics, accepted, readings)?;
    put_i32(out, 0)
}

// The most bytes of the frame. Nothing but what is reserved rests on it.
fn frame_room(topics: &[ProduceTopicView<'_>]) -> usize {
    let mut room: usize = REPLY_HEAD_BYTES;
    for topic in topics {
        let parts = topic.parts.len().saturating_mul(PRODUCED_PART_BYTES);
        room = room.saturating_add(topic.name.len()).saturating_add(parts);
        room = room.saturating_add(TOLD_TOPIC_BYTES);
    }
    room
}

/// The frame of the reply to a produce, from what became of each named partition and what was read of it.
pub fn produced_frame(
    alloc: Global,
    answered: &AnsweredProduce<'_>,
    accepted: &[Accepted],
    readings: &[Reading],
) -> Result<Bytes, NoMemory>
    requires accepted { length accepted.now ≡ sum_by (λ topic. length topic.parts) answered.now.topics.now }
    requires readings { length readings.now ≡ sum_by (λ topic. length topic.parts) answered.now.topics.now }
    requires carriable { All IsCarriable accepted.now }
    requires spellable { IsSpellable (record {
      correlation = answered.now.correlation;
      told = Produced answered.now.version
          (produced_of answered.now.produce.config.now answered.now.produce.acks answered.now.topics.now accepted.now readings.now);
    }) }
    ensures { IfOk result (λ frame. frame ≡ spelling (record {
      correlation = answered.now.correlation;
      told = Produced answered.now.version
          (produced_of answered.now.produce.config.now answered.now.produce.acks answered.now.topics.now accepted.now readings.now);
    })) }
{
    let mut frame = begin_reply(alloc, answered.correlation, frame_room(answered.topics))?;
    put_told(&mut frame, answered, accepted, readings)?;
    end_frame(&mut frame);
    Ok(frame)
}
