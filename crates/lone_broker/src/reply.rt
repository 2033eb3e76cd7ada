//! What `handle` and `Engine` read of the logs: for the reply to a request that was accepted, and for whether it waits.

ghost use Rattle.std.specs.Prelude.{ℕ, ◌≡◌, ◌≤◌, ◌+◌, ◌++◌, ◌∷◌, [], length, All, List as Items, IfOk, OnOk, sum_by, map};
ghost use Rattle.std.specs.List.{AllByRecursion, flat_map};
ghost use Rattle.kanswer.specs.Waiting.{Shown};
ghost use Rattle.kanswer.specs.Answer.{answer};
ghost use Rattle.kanswer.specs.LogReadings.{AreReadings, IsCarriable, HasCarriable, named_count, budget_of};
ghost use Rattle.kwire.specs.IsRequest.{IsRequest};
ghost use Rattle.kanswer.specs.BytesRead.{bytes_read, most_left};
ghost use Rattle.lone_broker.specs.Gathered.{numbers_now, reading_now, left_now, readings_now, left_behind, shown_in_logs, numbers_in, part_numbers};
ghost use Rattle.kwire.specs.Spelling.{spelling};
ghost use Rattle.lone_broker.specs.Replying.{HasLog, ShowsLogs};

use kanswer::{Accepted, Budget, Reading, read_asked, read_nothing, read_numbers};
use kbytes::{Bytes, List, NoMemory};
use kwire::{AskView, Config, FetchPart, FetchTopicView, MOST_PARTITIONS, RequestView};
use partlog::{Numbers, PartLog};
use std::alloc::Global;

// The logs that a replica reads.
#[derive(Clone, Copy)]
struct Reader<'a> {
    alloc: Global,
    parts: &'a [PartLog],
    replica: i32,
}

// What is read of a partition as its log is.
fn read_one(
    reader: &Reader<'_>,
    asked: &FetchPart,
    became: &Accepted,
    budget: &mut Budget,
) -> Result<Reading, NoMemory>
    requires { HasLog (length reader.now.parts.now) became.now }
    ensures read { IfOk result (λ reading. reading ≡ reading_now reader.now.parts.now reader.now.replica asked.now became.now budget.old) }
    ensures left { OnOk result (budget.new ≡ left_now reader.now.parts.now reader.now.replica asked.now became.now budget.old) }
    ensures offset { IfOk result HasCarriable }
    ensures room { IfOk result (λ reading. length reading.records + most_left budget.new ≤ most_left budget.old) }
{
    match *became {
        Accepted::Refused { .. } | Accepted::Appended { .. } => Ok(read_nothing(reader.alloc)),
        Accepted::Seen { part, start } => {
            let log = &reader.parts[part as usize];
            read_asked(reader.alloc, reader.replica, asked, start, log, budget)
        }
    }
}

// The partitions of one topic.
fn read_topic(
    reader: &Reader<'_>,
    asked: &[FetchPart],
    accepted: &[Accepted],
    budget: &mut Budget,
    readings: &mut List<Reading>,
) -> Result<(), NoMemory>
    requires size { length accepted.now ≡ length asked.now }
    requires logs { AllByRecursion (HasLog (length reader.now.parts.now)) accepted.now }
    ensures read { OnOk result (readings.new ≡ readings.old
        ++ readings_now reader.now.parts.now reader.now.replica asked.now accepted.now budget.old) }
    ensures left { OnOk result (budget.new ≡ left_behind reader.now.parts.now reader.now.replica asked.now accepted.now budget.old) }
    ensures offsets { OnOk result (All HasCarriable readings.old → All HasCarriable readings.new) }
    ensures room { OnOk result (bytes_read readings.new + most_left budget.new ≤ bytes_read readings.old + most_left budget.old) }
{
    for at in 0..asked.len() {
        readings.push(read_one(reader, &asked[at], &accepted[at], budget)?)?;
    }
    Ok(())
}

// What is read for a fetch.
fn read_fetch(
    reader: &Reader<'_>,
    topics: &[FetchTopicView<'_>],
    accepted: &[Accepted],
    budget: Budget,
) -> Result<List<Reading>, NoMemory>
    requires size { length accepted.now ≡ sum_by (λ topic. length topic.parts) topics.now }
    requires logs { AllByRecursion (HasLog (length reader.now.parts.now)) accepted.now }
    ensures read { IfOk result (λ readings. readings
        ≡ readings_now reader.now.parts.now reader.now.replica (flat_map (λ topic. topic.parts) topics.now) accepted.now budget) }
    ensures offsets { IfOk result (All HasCarriable) }
    ensures room { IfOk result (λ readings. bytes_read readings ≤ most_left budget) }
{
    let mut budget = budget;
    let mut readings = List::new(reader.alloc);
    let mut from = 0;
    for topic in topics {
        let upto = from + topic.parts.len();
        let became = &accepted[from..upto];
        let asked = topic.parts.as_slice();
        read_topic(reader, asked, became, &mut budget, &mut readings)?;
        from = upto;
    }
    Ok(readings)
}

// Reads the numbers of a partition's log if a batch was appended.
fn read_numbers_of(alloc: Global, parts: &[PartLog], became: &Accepted) -> Reading
    requires { HasLog (length parts.now) became.now }
    ensures read { result ≡ numbers_now parts.now became.now }
    ensures offset { HasCarriable result }
{
    match *became {
        Accepted::Appended { part, .. } => read_numbers(alloc, &parts[part as usize]),
        Accepted::Refused { .. } | Accepted::Seen { .. } => read_nothing(alloc),
    }
}

// What is read for a request that isn't a fetch: numbers, and no records.
fn read_all_numbers(
    alloc: Global,
    parts: &[PartLog],
    accepted: &[Accepted],
) -> Result<List<Reading>, NoMemory>
    requires { AllByRecursion (HasLog (length parts.now)) accepted.now }
    ensures read { IfOk result (λ readings. readings ≡ map (numbers_now parts.now) accepted.now) }
    ensures offsets { IfOk result (All HasCarriable) }
{
    let mut readings = List::new(alloc);
    for became in accepted {
        readings.push(read_numbers_of(alloc, parts, became))?;
    }
    Ok(readings)
}

// What the reply needs of the logs.
fn gather(
    alloc: Global,
    parts: &[PartLog],
    request: &RequestView<'_>,
    accepted: &[Accepted],
) -> Result<List<Reading>, NoMemory>
    requires size { length accepted.now ≡ named_count request.now.ask }
    requires logs { AllByRecursion (HasLog (length parts.now)) accepted.now }
    ensures read { IfOk result (λ readings. AreReadings request.now.ask accepted.now readings (shown_in_logs parts.now accepted.now)) }
    ensures size { IfOk result (λ readings. length readings ≡ length accepted.now) }
    ensures offsets { IfOk result (All HasCarriable) }
    ensures room { IfOk result (λ readings. bytes_read readings ≤ most_left (budget_of request.now.ask)) }
{
    let budget = Budget::of(request);
    match &request.ask {
        AskView::Fetch {
            replica,
            topics,
            ..
        } => {
            let reader = Reader {
                alloc,
                parts,
                replica: *replica,
            };
            read_fetch(&reader, topics.as_slice(), accepted, budget)
        }
        AskView::Produce { .. } | AskView::Metadata { .. } | AskView::Versions { .. } => {
            read_all_numbers(alloc, parts, accepted)
        }
    }
}

/// The frame of the reply, from what became of each named partition and from the logs as they are. The request was read from a
/// body, so that its reply has a frame.
pub fn reply_frame(
    alloc: Global,
    config: &Config,
    parts: &[PartLog],
    request: &RequestView<'_>,
    accepted: &[Accepted],
) -> Result<Bytes, NoMemory>
    requires size { length accepted.now ≡ named_count request.now.ask }
    requires logs { AllByRecursion (HasLog (length parts.now)) accepted.now }
    requires offsets { All IsCarriable accepted.now }
    requires asked { (body : Items ℕ) × IsRequest body request.now }
    ensures { IfOk result (λ frame. (shown : Items Shown) → ShowsLogs parts.now accepted.now shown
        → frame ≡ spelling (answer config.now request.now shown)) }
{
    // topics as they may be declared, whose descriptions fit in a frame
    prove!(config.parts() <= MOST_PARTITIONS);
    let readings = gather(alloc, parts, request, accepted)?;
    kanswer::reply_frame(alloc, config, request, accepted, readings.as_slice())
}

const NO_NUMBERS: Numbers = Numbers {
    end: 0,
    high: 0,
    visible: 0,
    bytes: 0,
    insync: 0,
};

// The numbers of a partition's log as it is, if the log was asked.
fn part_numbers(parts: &[PartLog], became: &Accepted) -> Numbers
    requires { HasLog (length parts.now) became.now }
    ensures { result ≡ part_numbers parts.now became.now }
{
    match *became {
        Accepted::Refused { .. } => NO_NUMBERS,
        Accepted::Appended { part, .. } | Accepted::Seen { part, .. } => {
            parts[part as usize].numbers()
        }
    }
}

/// The numbers of each named partition's log as it is.
pub fn numbers_of(
    alloc: Global,
    parts: &[PartLog],
    accepted: &[Accepted],
) -> Result<List<Numbers>, NoMemory>
    requires { AllByRecursion (HasLog (length parts.now)) accepted.now }
    ensures { IfOk result (λ numbers. numbers ≡ numbers_in parts.now accepted.now) }
{
    let mut numbers = List::new(alloc);
    for became in accepted {
        numbers.push(part_numbers(parts, became))?;
    }
    Ok(numbers)
}
