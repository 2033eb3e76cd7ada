//! The topics in a reply to a fetch, for `replies`, and what is told of one partition, for `fetched_frame` too.
ghost use Rattle.std.specs.Prelude.{◌≡◌, [], negsuc, length, sum_by, All, IfOk};
ghost use Rattle.kanswer.specs.LogReadings.{HasCarriable};
ghost use Rattle.kanswer.specs.ToldParts.{parts_by, fetched_part, fetched_topic, fetched_of};

use crate::accepted::{Accepted, LOG_START, Reading};
use kbytes::{List, NoMemory, copied};
use kwire::{FetchPart, FetchTopicView, FetchedPart, FetchedPartView, FetchedTopic, codes};
use std::alloc::Global;

// A partition with an error has the high watermark -1, the log start -1 and no records.
fn without_records<'a>(index: i32, code: i16) -> FetchedPartView<'a>
    ensures { result ≡ record { index = index; code = code; high = negsuc 0; start = negsuc 0; records = [] } }
{
    FetchedPartView {
        index,
        code,
        high: -1,
        start: -1,
        records: &[],
    }
}

/// What a fetch is told of one partition, with the records of the reading where it is seen.
pub fn fetched_view<'a>(
    asked: &FetchPart,
    became: &Accepted,
    reading: &'a Reading,
) -> FetchedPartView<'a>
    requires { HasCarriable reading.now }
    ensures { result ≡ fetched_part asked.now became.now reading.now }
{
    let index = asked.index;
    match *became {
        Accepted::Refused { code } => without_records(index, code),
        Accepted::Appended { .. } => without_records(index, 0),
        Accepted::Seen { .. } => FetchedPartView {
            index,
            code: codes::NONE,
            high: reading.numbers.high as i64,
            start: LOG_START,
            records: reading.records.as_slice(),
        },
    }
}

fn fetched_part(
    alloc: Global,
    asked: &FetchPart,
    became: &Accepted,
    reading: &Reading,
) -> Result<FetchedPart, NoMemory>
    requires { HasCarriable reading.now }
    ensures { IfOk result (λ told. told ≡ fetched_part asked.now became.now reading.now) }
{
    let told = fetched_view(asked, became, reading);
    Ok(FetchedPart {
        index: told.index,
        code: told.code,
        high: told.high,
        start: told.start,
        records: copied(alloc, told.records)?,
    })
}

fn fetched_parts(
    alloc: Global,
    parts: &[FetchPart],
    accepted: &[Accepted],
    readings: &[Reading],
) -> Result<List<FetchedPart>, NoMemory>
    requires accepted { length accepted.now ≡ length parts.now }
    requires readings { length readings.now ≡ length parts.now }
    requires carriable { All HasCarriable readings.now }
    ensures { IfOk result (λ told. told ≡ parts_by fetched_part parts.now accepted.now readings.now) }
{
    let mut told = List::new(alloc);
    for at in 0..parts.len() {
        told.push(fetched_part(alloc, &parts[at], &accepted[at], &readings[at])?)?;
    }
    Ok(told)
}

fn fetched_topic(
    alloc: Global,
    topic: &FetchTopicView<'_>,
    accepted: &[Accepted],
    readings: &[Reading],
) -> Result<FetchedTopic, NoMemory>
    requires accepted { length accepted.now ≡ length topic.now.parts }
    requires readings { length readings.now ≡ length topic.now.parts }
    requires carriable { All HasCarriable readings.now }
    ensures { IfOk result (λ told. told ≡ fetched_topic topic.now accepted.now readings.now) }
{
    let name = copied(alloc, topic.name)?;
    let parts = fetched_parts(alloc, topic.parts.as_slice(), accepted, readings)?;
    Ok(FetchedTopic { name, parts })
}

/// The topics of a fetch, with what was read of each partition.
pub fn fetched_topics(
    alloc: Global,
    topics: &[FetchTopicView<'_>],
    accepted: &[Accepted],
    readings: &[Reading],
) -> Result<List<FetchedTopic>, NoMemory>
    requires accepted { length accepted.now ≡ sum_by (λ topic. length topic.parts) topics.now }
    requires readings { length readings.now ≡ sum_by (λ topic. length topic.parts) topics.now }
    requires carriable { All HasCarriable readings.now }
    ensures { IfOk result (λ told. told ≡ fetched_of topics.now accepted.now readings.now) }
{
    let mut told = List::new(alloc);
    let mut from = 0;
    for topic in topics {
        let upto = from + topic.parts.len();
        let became = &accepted[from..upto];
        told.push(fetched_topic(alloc, topic, became, &readings[from..upto])?)?;
        from = upto;
    }
    Ok(told)
}
