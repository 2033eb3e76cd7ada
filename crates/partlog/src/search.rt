//! Binary search in the starts of a log's batches, for `PartLog`. `next` is where the next batch will begin.
ghost use Rattle.std.specs.Prelude.{◌≡◌, ◌+◌, ◌≤◌, ◌<◌, ◌^◌, List, ℕ, length, not};
ghost use Rattle.partlog.specs.in_sync.InSync.{high_watermark_of, count_of};
ghost use Rattle.partlog.specs.in_sync.ReplicaEvent.{ReplicaEvent};
ghost use Rattle.partlog.specs.in_sync.Standings.{StandsFor};
ghost use Rattle.std.specs.List.Sorted.{IsNonDecreasingBy, IsPartitionPoint};
ghost use Rattle.partlog.specs.Batches.{StoredBatch};
ghost use Rattle.partlog.specs.Gauges.{bytes_in, batches_below};
ghost use Rattle.partlog.specs.Starts.{AreStarts};
ghost use Rattle.partlog.specs.Taken.{batches_past, batches_upto, fitting, taken};

use crate::batch_start::BatchStart;
use crate::in_sync::InSync;
use crate::numbers::Numbers;

/// How many batches begin at or before an offset.
fn count_at(starts: &[BatchStart], offset: u64) -> usize
    requires { IsNonDecreasingBy (λ s. s.base) starts.now }
    ensures bound { result ≤ length starts.now }
    ensures point { IsPartitionPoint (λ s. s.base ≤ offset) (λ s. offset < s.base) starts.now result }
{
    starts.partition_point(|start| start.base <= offset)
}

/// How many batches begin before a byte place.
fn count_before(starts: &[BatchStart], place: u64) -> usize
    requires { IsNonDecreasingBy (λ s. s.place) starts.now }
    ensures bound { result ≤ length starts.now }
    ensures point { IsPartitionPoint (λ s. s.place < place) (λ s. place ≤ s.place) starts.now result }
{
    starts.partition_point(|start| start.place < place)
}

/// The byte place of the first batch whose last offset is at least this one, or of the next batch.
pub(crate) fn start_of(starts: &[BatchStart], next: BatchStart, offset: u64) -> u64
    requires { (batches : List StoredBatch) × AreStarts starts.now next batches }
    ensures { (batches : List StoredBatch) → AreStarts starts.now next batches
        → result ≡ bytes_in (batches_below offset batches) }
{
    if offset >= next.base {
        return next.place;
    }
    let begun = count_at(starts, offset);
    starts[begun - 1].place
}

/// The place of the first batch that begins at or after a byte place, or of the next batch.
pub(crate) fn start_from(starts: &[BatchStart], next: BatchStart, place: u64) -> u64
    requires { (batches : List StoredBatch) × AreStarts starts.now next batches }
    ensures { (batches : List StoredBatch) → AreStarts starts.now next batches
        → result + bytes_in (batches_past place batches) ≡ bytes_in batches }
{
    let before = count_before(starts, place);
    if before < starts.len() {
        starts[before].place
    } else {
        next.place
    }
}

/// The end of the last batch that ends at or before a byte place, or 0.
fn end_upto(starts: &[BatchStart], next: BatchStart, place: u64) -> u64
    requires { (batches : List StoredBatch) × AreStarts starts.now next batches }
    ensures { (batches : List StoredBatch) → AreStarts starts.now next batches
        → result ≡ bytes_in (fitting place batches) }
{
    if place >= next.place {
        return next.place;
    }
    let before = count_before(starts, place + 1);
    starts[before - 1].place
}

/// The end of what a fetch takes from the batch that begins at `start`.
pub(crate) fn taken_end(
    starts: &[BatchStart],
    next: BatchStart,
    start: u64,
    upto: u64,
    limit: u64,
    force: bool,
) -> u64
    requires placed { (batches : List StoredBatch) × AreStarts starts.now next batches }
    requires within { start ≤ next.place }
    requires fits { next.place < 2 ^ 63 }
    ensures { (batches : List StoredBatch) (from : ℕ) → AreStarts starts.now next batches
        → start + bytes_in (batches_past from batches) ≡ bytes_in batches
        → result ≡ start + bytes_in (taken limit (not force) (batches_past from (batches_upto upto batches))) }
{
    let room = limit.min(upto.saturating_sub(start));
    let end = end_upto(starts, next, start + room);
    if end > start || !force {
        return end;
    }
    let after = start_from(starts, next, start + 1);
    if after <= upto { after } else { start }
}

/// The numbers of a log with these batches, where its replicas stand like this.
pub(crate) fn numbers_at(starts: &[BatchStart], next: BatchStart, replicas: &InSync) -> Numbers
    requires { (batches : List StoredBatch) × AreStarts starts.now next batches }
    ensures end { result.end ≡ next.base }
    ensures high { (followers : ℕ) (events : List ReplicaEvent) → StandsFor replicas.now followers events
        → result.high ≡ high_watermark_of followers events }
    ensures visible { (batches : List StoredBatch) → AreStarts starts.now next batches
        → result.visible ≡ bytes_in (batches_below result.high batches) }
    ensures bytes { result.bytes ≡ next.place }
    ensures insync { (followers : ℕ) (events : List ReplicaEvent) → StandsFor replicas.now followers events
        → result.insync ≡ count_of followers events }
{
    let high = replicas.high_watermark();
    Numbers {
        end: next.base,
        high,
        visible: start_of(starts, next, high),
        bytes: next.place,
        insync: replicas.count(),
    }
}
