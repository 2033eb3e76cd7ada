//! Reading one partition for a reply, when the request is answered. A broker reads the partitions in the order of the
//! request, each with what the earlier ones left of the budget.
ghost use Rattle.std.specs.Prelude.{◌≡◌, ◌≤◌, ◌-◌, ◌||◌, [], min, filter, nat_lt, slice_get, if◌then◌else◌, IfOk, OnOk, OnErr};
ghost use Rattle.std.specs.Option.{option_copied};
ghost use Rattle.partlog.specs.declared.part_log.TheConstants.{MOST_LOG_BYTES};
ghost use Rattle.partlog.specs.Kept.{IsKept};
ghost use Rattle.partlog.specs.State.{state_of};
ghost use Rattle.partlog.specs.Gauges.{numbers_of};
ghost use Rattle.partlog.specs.Taken.{batches_past, joined, taken};
ghost use Rattle.kanswer.specs.Waiting.{at_least_zero, is_consumer};
ghost use Rattle.kanswer.specs.Answer.{is_readable, read_of, asked_parts, read_at, budget_after};

use crate::accepted::{Budget, Reading};
use kbytes::{Bytes, NoMemory, copied};
use kwire::{AskView, FetchPart, FetchTopicView, RequestView};
use partlog::{Numbers, PartLog};
use std::alloc::Global;

// The most bytes that the reply takes of one partition.
fn limit_of(asked: &FetchPart, left: u64) -> u64
    ensures { result ≡ min (at_least_zero asked.now.most) left }
{
    (asked.most.max(0) as u64).min(left)
}

// The byte place up to which this replica may read.
fn upto(replica: i32, numbers: &Numbers) -> u64
    ensures { result ≡ (if is_consumer replica then numbers.now.visible else numbers.now.bytes) }
{
    if replica < 0 {
        numbers.visible
    } else {
        numbers.bytes
    }
}

// The bytes of the batches that this replica may read: a consumer those below the high watermark, a follower all.
fn readable(log: &PartLog, replica: i32, start: u64, limit: u64, any: bool) -> &[u8]
    ensures { let state = state_of log.now in
        result.now ≡ joined (taken limit any (filter (is_readable replica state) (batches_past start state.batches))) }
{
    let upto = upto(replica, &log.numbers());
    log.read(start, upto, limit, !any)
}

// The budget after that many bytes of whole batches.
fn lowered(budget: Budget, bytes: u64) -> Budget
    ensures { result ≡ record { left = budget.left - bytes; any = budget.any || nat_lt 0 bytes } }
{
    Budget {
        left: budget.left.saturating_sub(bytes),
        any: budget.any || bytes > 0,
    }
}

/// Reads one partition for a fetch, from the byte place `start` of its log on, and lowers the budget by what it takes:
/// whole batches, as many as fit together. Where not even the first one fits and the reply has no batch yet, it takes that
/// one. A negative replica is a consumer, which reads below the high watermark. After a refusal the budget is as it was.
pub fn read_asked(
    alloc: Global,
    replica: i32,
    asked: &FetchPart,
    start: u64,
    log: &PartLog,
    budget: &mut Budget,
) -> Result<Reading, NoMemory>
    ensures numbers { IfOk result (λ reading. reading.numbers ≡ numbers_of (state_of log.now)) }
    ensures records { IfOk result (λ reading. reading.records ≡ joined (read_of replica asked.now start (state_of log.now) budget.old)) }
    ensures bounded { IfOk result (λ reading. reading.numbers.high ≤ MOST_LOG_BYTES) }
    ensures lowered { OnOk result (budget.new ≡ budget_after (read_of replica asked.now start (state_of log.now) budget.old) budget.old) }
    ensures refused { OnErr result (budget.new ≡ budget.old) }
    ensures kept { IsKept log.now.log log.now.events }
{
    let numbers = log.numbers();
    let limit = limit_of(asked, budget.left);
    let seen = readable(log, replica, start, limit, budget.any);
    let records = copied(alloc, seen)?;
    *budget = lowered(*budget, records.len() as u64);
    Ok(Reading { numbers, records })
}

/// What a fetch asks of the partition that it names at this place. Places count from 0, over all topics.
pub(crate) fn asked_at<'a>(topics: &'a [FetchTopicView<'_>], at: u32) -> Option<&'a FetchPart>
    ensures { option_copied result ≡ slice_get (asked_parts topics.now) at }
{
    let mut left = at as usize;
    for topic in topics {
        let parts = topic.parts.as_slice();
        if left < parts.len() {
            return Some(&parts[left]);
        }
        left -= parts.len();
    }
    None
}

/// Reads the partition that a request names at this place. Places count from 0, over all topics. For a fetch it does what
/// `read_asked` does; for every other request it gives the numbers and no records. After a refusal the budget is as it was.
pub fn read_part(
    alloc: Global,
    request: &RequestView<'_>,
    at: u32,
    start: u64,
    log: &PartLog,
    budget: &mut Budget,
) -> Result<Reading, NoMemory>
    ensures numbers { IfOk result (λ reading. reading.numbers ≡ numbers_of (state_of log.now)) }
    ensures records { IfOk result (λ reading. reading.records ≡ joined (read_at request.now.ask at start (state_of log.now) budget.old)) }
    ensures bounded { IfOk result (λ reading. reading.numbers.high ≤ MOST_LOG_BYTES) }
    ensures lowered { OnOk result (budget.new ≡ budget_after (read_at request.now.ask at start (state_of log.now) budget.old) budget.old) }
    ensures refused { OnErr result (budget.new ≡ budget.old) }
    ensures kept { IsKept log.now.log log.now.events }
{
    if let AskView::Fetch {
        replica,
        topics,
        ..
    } = &request.ask
    {
        if let Some(asked) = asked_at(topics.as_slice(), at) {
            return read_asked(alloc, *replica, asked, start, log, budget);
        }
    }
    Ok(read_numbers(alloc, log))
}

/// The reading of a partition that was appended to: its numbers, and no records. It takes no memory.
pub fn read_numbers(alloc: Global, log: &PartLog) -> Reading
    ensures reading { result ≡ record { numbers = numbers_of (state_of log.now); records = [] } }
    ensures bounded { result.numbers.high ≤ MOST_LOG_BYTES }
    ensures kept { IsKept log.now.log log.now.events }
{
    Reading {
        numbers: log.numbers(),
        records: Bytes::new(alloc),
    }
}

/// The reading of a refused partition: nothing. It takes no memory.
pub fn read_nothing(alloc: Global) -> Reading
    ensures { result ≡ record { numbers = record { end = 0; high = 0; visible = 0; bytes = 0; insync = 0 }; records = [] } }
{
    Reading {
        numbers: Numbers {
            end: 0,
            high: 0,
            visible: 0,
            bytes: 0,
            insync: 0,
        },
        records: Bytes::new(alloc),
    }
}
