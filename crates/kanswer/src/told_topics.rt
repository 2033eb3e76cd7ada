//! The topics in the frame of a reply, for `fetched_frame` and `produced_frame`: each is told what became of its own
//! partitions, and what was read of them.
ghost use Rattle.std.specs.Prelude.{◌≡◌, ◌++◌, ℕ, length, sum_by, All, List as Items, OnOk};
ghost use Rattle.std.specs.List.{flat_map};
ghost use Rattle.kbytes.specs.Field.{Field, fields};
ghost use Rattle.kwire.specs.IsSpellable.{AreInRange};
ghost use Rattle.kanswer.specs.declared.accepted.Accepted.{Accepted as Became};
ghost use Rattle.kanswer.specs.declared.accepted.Reading.{Reading as Read};
ghost use Rattle.kanswer.specs.ToldParts.{parts_by, topic_fields, topics_fields};

use crate::accepted::{Accepted, Reading};
use kbytes::{Bytes, NoMemory, put_array, put_string};

/// A request that is answered by a frame: how its topics are named, and what is told of a partition.
pub trait Answered {
    type Topic;

    type Part;

    ghost name: { Self.Topic → Items ℕ };

    ghost parts: { Self.Topic → Items Self.Part };

    // what is told of a partition, and the fields of that
    ghost Told: { Type 0 };

    ghost told: { Self → Self.Part → Became → Read → Told };

    ghost told_fields: { Self → Told → Items Field };

    // which results and which readings can be told
    ghost HasResult: { Became → Type 0 };

    ghost HasReading: { Read → Type 0 };

    fn name(topic: &Self::Topic) -> &[u8]
        ensures { result.now ≡ name topic.now };

    fn parts(topic: &Self::Topic) -> &[Self::Part]
        ensures { result.now ≡ parts topic.now };

    fn put_part(
        &self,
        out: &mut Bytes,
        part: &Self::Part,
        became: &Accepted,
        reading: &Reading,
    ) -> Result<(), NoMemory>
        requires result { HasResult became.now }
        requires reading { HasReading reading.now }
        requires in_range { AreInRange (told_fields self.now (told self.now part.now became.now reading.now)) }
        ensures { OnOk result (out.new ≡ out.old
            ++ fields (told_fields self.now (told self.now part.now became.now reading.now))) };
}

fn put_parts<A: Answered>(
    out: &mut Bytes,
    answered: &A,
    parts: &[A::Part],
    accepted: &[Accepted],
    readings: &[Reading],
) -> Result<(), NoMemory>
    requires accepted { length accepted.now ≡ length parts.now }
    requires readings { length readings.now ≡ length parts.now }
    requires results { All A.HasResult accepted.now }
    requires carriable { All A.HasReading readings.now }
    requires in_range { AreInRange (flat_map (A.told_fields answered.now)
        (parts_by (A.told answered.now) parts.now accepted.now readings.now)) }
    ensures { OnOk result (out.new ≡ out.old ++ fields (flat_map (A.told_fields answered.now)
        (parts_by (A.told answered.now) parts.now accepted.now readings.now))) }
{
    for at in 0..parts.len() {
        answered.put_part(out, &parts[at], &accepted[at], &readings[at])?;
    }
    Ok(())
}

fn put_topic<A: Answered>(
    out: &mut Bytes,
    answered: &A,
    topic: &A::Topic,
    accepted: &[Accepted],
    readings: &[Reading],
) -> Result<(), NoMemory>
    requires accepted { length accepted.now ≡ length (A.parts topic.now) }
    requires readings { length readings.now ≡ length (A.parts topic.now) }
    requires results { All A.HasResult accepted.now }
    requires carriable { All A.HasReading readings.now }
    requires in_range { AreInRange (topic_fields A.name A.parts (A.told answered.now) (A.told_fields answered.now)
        topic.now accepted.now readings.now) }
    ensures { OnOk result (out.new ≡ out.old ++ fields (topic_fields A.name A.parts (A.told answered.now) (A.told_fields answered.now)
        topic.now accepted.now readings.now)) }
{
    let parts = A::parts(topic);
    put_string(out, A::name(topic))?;
    put_array(out, Some(parts.len() as u32))?;
    put_parts(out, answered, parts, accepted, readings)
}

/// The topics, one after the other.
pub fn put_topics<A: Answered>(
    out: &mut Bytes,
    answered: &A,
    topics: &[A::Topic],
    accepted: &[Accepted],
    readings: &[Reading],
) -> Result<(), NoMemory>
    requires accepted { length accepted.now ≡ sum_by (λ topic. length (A.parts topic)) topics.now }
    requires readings { length readings.now ≡ sum_by (λ topic. length (A.parts topic)) topics.now }
    requires results { All A.HasResult accepted.now }
    requires carriable { All A.HasReading readings.now }
    requires in_range { AreInRange (topics_fields A.name A.parts (A.told answered.now) (A.told_fields answered.now)
        topics.now accepted.now readings.now) }
    ensures { OnOk result (out.new ≡ out.old ++ fields (topics_fields A.name A.parts (A.told answered.now) (A.told_fields answered.now)
        topics.now accepted.now readings.now)) }
{
    let mut from = 0;
    for topic in topics {
        let upto = from + A::parts(topic).len();
        put_topic(
            out,
            answered,
            topic,
            &accepted[from..upto],
            &readings[from..upto],
        )?;
        from = upto;
    }
    Ok(())
}
