//! The topics in a reply to a produce, for `replies`, and what is told of one partition, for `produced_frame` too.
ghost use Rattle.std.specs.Prelude.{◌≡◌, negsuc, length, sum_by, All, IfOk};
ghost use Rattle.kanswer.specs.LogReadings.{IsCarriable};
ghost use Rattle.kanswer.specs.ToldParts.{code_at, parts_by, produced_part, produced_topic, produced_of};

use crate::accepted::{Accepted, LOG_START, Reading};
use kbytes::{List, NoMemory, copied};
use kwire::{Config, ProducePartView, ProduceTopicView, ProducedPart, ProducedTopic, codes};
use partlog::Numbers;
use std::alloc::Global;

/// A produce that is answered: its acks, and the topics with the least numbers of in-sync replicas that they ask for.
#[derive(Clone, Copy)]
pub struct Producing<'a> {
    pub config: &'a Config,
    pub acks: i16,
}

// With acks -1 it is code 7 where some replica in sync hasn't the whole batch yet, or else code 20 where fewer than `least`
// are in sync.
fn code_at(acks: i16, least: u32, after: u64, numbers: &Numbers) -> i16
    ensures { result ≡ code_at acks least after numbers.now }
{
    if acks != -1 {
        codes::NONE
    } else if numbers.high < after {
        codes::REQUEST_TIMED_OUT
    } else if numbers.insync < least {
        codes::NOT_ENOUGH_REPLICAS_AFTER_APPEND
    } else {
        codes::NONE
    }
}

// A partition to which nothing was appended has the base offset -1 and the log start -1.
fn without_base(index: i32, code: i16) -> ProducedPart
    ensures { result ≡ record { index = index; code = code; base = negsuc 0; start = negsuc 0 } }
{
    ProducedPart {
        index,
        code,
        base: -1,
        start: -1,
    }
}

/// What a produce is told of one partition.
pub fn produced_part(
    produce: &Producing<'_>,
    asked: &ProducePartView<'_>,
    became: &Accepted,
    reading: &Reading,
) -> ProducedPart
    requires { IsCarriable became.now }
    ensures { result ≡ produced_part produce.now.config.now produce.now.acks asked.now became.now reading.now }
{
    let index = asked.index;
    match *became {
        Accepted::Refused { code } => without_base(index, code),
        Accepted::Appended { part, base, count } => {
            let least = produce.config.min_insync_of(part);
            let after = base + u64::from(count);
            ProducedPart {
                index,
                code: code_at(produce.acks, least, after, &reading.numbers),
                base: base as i64,
                start: LOG_START,
            }
        }
        Accepted::Seen { .. } => without_base(index, 0),
    }
}

fn produced_parts(
    alloc: Global,
    produce: &Producing<'_>,
    parts: &[ProducePartView<'_>],
    accepted: &[Accepted],
    readings: &[Reading],
) -> Result<List<ProducedPart>, NoMemory>
    requires accepted { length accepted.now ≡ length parts.now }
    requires readings { length readings.now ≡ length parts.now }
    requires carriable { All IsCarriable accepted.now }
    ensures { IfOk result (λ told. told ≡ parts_by (produced_part produce.now.config.now produce.now.acks) parts.now accepted.now readings.now) }
{
    let mut told = List::new(alloc);
    for at in 0..parts.len() {
        told.push(produced_part(produce, &parts[at], &accepted[at], &readings[at]))?;
    }
    Ok(told)
}

fn produced_topic(
    alloc: Global,
    produce: &Producing<'_>,
    topic: &ProduceTopicView<'_>,
    accepted: &[Accepted],
    readings: &[Reading],
) -> Result<ProducedTopic, NoMemory>
    requires accepted { length accepted.now ≡ length topic.now.parts }
    requires readings { length readings.now ≡ length topic.now.parts }
    requires carriable { All IsCarriable accepted.now }
    ensures { IfOk result (λ told. told ≡ produced_topic produce.now.config.now produce.now.acks topic.now accepted.now readings.now) }
{
    let name = copied(alloc, topic.name)?;
    let parts = produced_parts(alloc, produce, topic.parts.as_slice(), accepted, readings)?;
    Ok(ProducedTopic { name, parts })
}

/// The topics of a produce, with what became of each partition.
pub fn produced_topics(
    alloc: Global,
    produce: &Producing<'_>,
    topics: &[ProduceTopicView<'_>],
    accepted: &[Accepted],
    readings: &[Reading],
) -> Result<List<ProducedTopic>, NoMemory>
    requires accepted { length accepted.now ≡ sum_by (λ topic. length topic.parts) topics.now }
    requires readings { length readings.now ≡ sum_by (λ topic. length topic.parts) topics.now }
    requires carriable { All IsCarriable accepted.now }
    ensures { IfOk result (λ told. told ≡ produced_of produce.now.config.now produce.now.acks topics.now accepted.now readings.now) }
{
    let mut told = List::new(alloc);
    let mut from = 0;
    for topic in topics {
        let upto = from + topic.parts.len();
        let became = &accepted[from..upto];
        told.push(produced_topic(alloc, produce, topic, became, &readings[from..upto])?)?;
        from = upto;
    }
    Ok(told)
}
