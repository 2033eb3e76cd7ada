//! Reads again what a reply needs of the partitions, as they were at given places of their histories. `reply_to` makes the answer of it.

ghost use Rattle.std.specs.Prelude.{◌≡◌, ◌≤◌, ◌+◌, ◌-◌, ◌||◌, min, nat_lt, length, map, ◌++◌, List as Items, All, IfOk, OnOk};
ghost use Rattle.std.specs.List.{AllByRecursion};
ghost use Rattle.partlog.specs.Gauges.{numbers_of};
ghost use Rattle.partlog.specs.State.{PartState, state_at};
ghost use Rattle.partlog.specs.Taken.{joined};
ghost use Rattle.kanswer.specs.Waiting.{Shown, at_least_zero};
ghost use Rattle.kanswer.specs.Answer.{asked_parts, batches_as, budget_after, read_of};
ghost use Rattle.kanswer.specs.LogReadings.{AreReadings, FetchReadings, HasCarriable, HasNumbers, HasRecords, ProduceReadings, budget_of, named_count};
ghost use Rattle.kanswer.specs.BytesRead.{bytes_read, most_left};
ghost use Rattle.audit.specs.retelling.WasShown.{AreShown, HasPast, IsShownAt};

use crate::retelling::past::{Past, PastEntry};
use kanswer::{Accepted, Budget, Reading, read_nothing};
use kbytes::{Bytes, List, NoMemory, copied};
use kwire::{AskView, FetchPart, FetchTopicView, RequestView};
use std::alloc::Global;

// The most bytes that are taken of one partition.
fn limit_of(asked: &FetchPart, left: u64) -> u64
    ensures { result ≡ min (at_least_zero asked.now.most) left }
{
    (asked.most.max(0) as u64).min(left)
}

// The budget after this many bytes of whole batches.
fn lowered(budget: Budget, bytes: u64) -> Budget
    ensures { result ≡ record { left = budget.left - bytes; any = budget.any || nat_lt 0 bytes } }
{
    Budget {
        left: budget.left.saturating_sub(bytes),
        any: budget.any || bytes > 0,
    }
}

// The partitions as they were, which a replica reads.
#[derive(Clone, Copy)]
struct Reader<'a> {
    alloc: Global,
    pasts: &'a [Past],
    replica: i32,
}

// What is read of a partition, as it was just after an entry.
fn read_at(
    reader: &Reader<'_>,
    entry: &PastEntry<'_>,
    asked: &FetchPart,
    start: u64,
    budget: &mut Budget,
) -> Result<Reading, NoMemory>
    ensures numbers { IfOk result (λ reading. reading.numbers ≡ numbers_of (state_at entry.now.past.now entry.now.place)) }
    ensures records { IfOk result (λ reading. reading.records
        ≡ joined (read_of reader.now.replica asked.now start (state_at entry.now.past.now entry.now.place) budget.old)) }
    ensures offset { IfOk result HasCarriable }
    ensures lowered { OnOk result (budget.new
        ≡ budget_after (read_of reader.now.replica asked.now start (state_at entry.now.past.now entry.now.place) budget.old) budget.old) }
    ensures room { IfOk result (λ reading. length reading.records + most_left budget.new ≤ most_left budget.old) }
{
    let PastEntry { past, place } = *entry;
    let numbers = past.at(place);
    let share = Budget {
        left: limit_of(asked, budget.left),
        any: budget.any,
    };
    let readable = past.readable_at(place, reader.replica, start, share);
    let records = copied(reader.alloc, readable)?;
    *budget = lowered(*budget, records.len() as u64);
    Ok(Reading { numbers, records })
}

// What is read for a fetch of one partition.
fn read_seen(
    reader: &Reader<'_>,
    asked: &FetchPart,
    became: &Accepted,
    place: u64,
    budget: &mut Budget,
) -> Result<Reading, NoMemory>
    requires { HasPast (length reader.now.pasts.now) became.now }
    ensures read { IfOk result (λ reading. (state : PartState) → IsShownAt reader.now.pasts.now became.now place state
        → HasRecords reader.now.replica asked.now became.now reading state budget.old) }
    ensures left { OnOk result ((state : PartState) → IsShownAt reader.now.pasts.now became.now place state
        → budget.new ≡ budget_after (batches_as reader.now.replica asked.now became.now state budget.old) budget.old) }
    ensures offset { IfOk result HasCarriable }
    ensures room { IfOk result (λ reading. length reading.records + most_left budget.new ≤ most_left budget.old) }
{
    match *became {
        Accepted::Refused { .. } | Accepted::Appended { .. } => Ok(read_nothing(reader.alloc)),
        Accepted::Seen { part, start } => {
            let past = &reader.pasts[part as usize];
            let entry = PastEntry { past, place };
            read_at(reader, &entry, asked, start, budget)
        }
    }
}

// Adds what is asked of the partitions of a topic.
fn put_asked<'a>(all: &mut List<&'a FetchPart>, parts: &'a [FetchPart]) -> Result<(), NoMemory>
    ensures { OnOk result (map (λ asked. asked.now) all.new ≡ map (λ asked. asked.now) all.old ++ parts.now) }
{
    for asked in parts {
        all.push(asked)?;
    }
    Ok(())
}

// What a fetch asks of the partitions that it names, in order over all topics.
fn all_asked<'a>(
    alloc: Global,
    topics: &'a [FetchTopicView<'_>],
) -> Result<List<&'a FetchPart>, NoMemory>
    ensures { IfOk result (λ all. map (λ asked. asked.now) all ≡ asked_parts topics.now) }
{
    let mut all = List::new(alloc);
    for topic in topics {
        put_asked(&mut all, topic.parts.as_slice())?;
    }
    Ok(all)
}

// What is read for a fetch.
fn read_fetch(
    reader: &Reader<'_>,
    asked: &[&FetchPart],
    accepted: &[Accepted],
    places: &[u64],
    budget: Budget,
) -> Result<List<Reading>, NoMemory>
    requires results { length accepted.now ≡ length asked.now }
    requires places { length places.now ≡ length asked.now }
    requires pasts { AllByRecursion (HasPast (length reader.now.pasts.now)) accepted.now }
    ensures read { IfOk result (λ readings. (shown : Items Shown) → AreShown reader.now.pasts.now accepted.now places.now shown
        → FetchReadings reader.now.replica (map (λ asked. asked.now) asked.now) accepted.now readings shown budget) }
    ensures size { IfOk result (λ readings. length readings ≡ length accepted.now) }
    ensures offsets { IfOk result (All HasCarriable) }
    ensures room { IfOk result (λ readings. bytes_read readings ≤ most_left budget) }
{
    let mut budget = budget;
    let mut readings = List::new(reader.alloc);
    for at in 0..asked.len() {
        readings.push(read_seen(reader, asked[at], &accepted[at], places[at], &mut budget)?)?;
    }
    Ok(readings)
}

// Reads the numbers of a partition as they were just after the entry at a place, if a batch was appended.
fn read_appended(alloc: Global, pasts: &[Past], became: &Accepted, place: u64) -> Reading
    requires { HasPast (length pasts.now) became.now }
    ensures read { (state : PartState) → IsShownAt pasts.now became.now place state → HasNumbers became.now result state }
    ensures none { length result.records ≡ 0 }
    ensures offset { HasCarriable result }
{
    match *became {
        Accepted::Appended { part, .. } => Reading {
            numbers: pasts[part as usize].at(place),
            records: Bytes::new(alloc),
        },
        Accepted::Refused { .. } | Accepted::Seen { .. } => read_nothing(alloc),
    }
}

// What is read for a request that isn't a fetch: numbers, and no records.
fn read_numbers(
    alloc: Global,
    pasts: &[Past],
    accepted: &[Accepted],
    places: &[u64],
) -> Result<List<Reading>, NoMemory>
    requires places { length places.now ≡ length accepted.now }
    requires pasts { AllByRecursion (HasPast (length pasts.now)) accepted.now }
    ensures read { IfOk result (λ readings. (shown : Items Shown) → AreShown pasts.now accepted.now places.now shown
        → ProduceReadings accepted.now readings shown) }
    ensures size { IfOk result (λ readings. length readings ≡ length accepted.now) }
    ensures offsets { IfOk result (All HasCarriable) }
    ensures none { IfOk result (λ readings. bytes_read readings ≡ 0) }
{
    let mut readings = List::new(alloc);
    for at in 0..accepted.len() {
        readings.push(read_appended(alloc, pasts, &accepted[at], places[at]))?;
    }
    Ok(readings)
}

/// What the reply needs of each named partition, as it was just after the entry at its place.
pub fn reread(
    alloc: Global,
    pasts: &[Past],
    request: &RequestView<'_>,
    accepted: &[Accepted],
    places: &[u64],
) -> Result<List<Reading>, NoMemory>
    requires results { length accepted.now ≡ named_count request.now.ask }
    requires places { length places.now ≡ length accepted.now }
    requires pasts { AllByRecursion (HasPast (length pasts.now)) accepted.now }
    ensures read { IfOk result (λ readings. (shown : Items Shown) → AreShown pasts.now accepted.now places.now shown
        → AreReadings request.now.ask accepted.now readings shown) }
    ensures size { IfOk result (λ readings. length readings ≡ length accepted.now) }
    ensures offsets { IfOk result (All HasCarriable) }
    ensures room { IfOk result (λ readings. bytes_read readings ≤ most_left (budget_of request.now.ask)) }
{
    match &request.ask {
        AskView::Fetch {
            replica,
            topics,
            ..
        } => {
            let asked = all_asked(alloc, topics.as_slice())?;
            let reader = Reader {
                alloc,
                pasts,
                replica: *replica,
            };
            let budget = Budget::of(request);
            read_fetch(&reader, asked.as_slice(), accepted, places, budget)
        }
        AskView::Produce { .. } | AskView::Metadata { .. } | AskView::Versions { .. } => {
            read_numbers(alloc, pasts, accepted, places)
        }
    }
}
