//! The numbers of a partition's three gauges, and their values. Operations name their gauges by these numbers, and brokers
//! raise gauges by them.

ghost use Rattle.std.specs.Prelude.{◌≡◌, ◌<◌};
ghost use Rattle.kwire.specs.declared.config.TheConstants.{MOST_PARTITIONS};
ghost use Rattle.partlog.specs.Gauges.{numbers_of};
ghost use Rattle.partlog.specs.State.{PartState as State};
ghost use Rattle.kanswer.specs.PartitionGauges.{end_gauge, fetched_gauge, high_gauge, partition_of, visible_gauge};
ghost use Rattle.kanswer.specs.Reached.{gauge_in};
ghost use Rattle.kanswer.specs.Waiting.{gauge_value};

use partlog::Numbers;

/// The gauge of a partition's high watermark.
pub fn high_gauge(part: u32) -> u32
    requires { part < MOST_PARTITIONS }
    ensures { result ≡ high_gauge part }
{
    3 * part
}

/// The gauge of a partition's visible bytes: those of its batches wholly below the high watermark.
pub fn visible_gauge(part: u32) -> u32
    requires { part < MOST_PARTITIONS }
    ensures { result ≡ visible_gauge part }
{
    3 * part + 1
}

/// The gauge of a partition's end bytes: those of all its batches.
pub fn end_gauge(part: u32) -> u32
    requires { part < MOST_PARTITIONS }
    ensures { result ≡ end_gauge part }
{
    3 * part + 2
}

/// The partition that a gauge belongs to.
pub fn partition_of(gauge: u32) -> u32
    ensures { result ≡ partition_of gauge }
{
    gauge / 3
}

/// The gauge that a fetch needs of a partition: a consumer that of the visible bytes, a follower that of the end bytes.
pub fn fetched_gauge(replica: i32, part: u32) -> u32
    requires { part < MOST_PARTITIONS }
    ensures { result ≡ fetched_gauge replica part }
{
    if replica < 0 {
        visible_gauge(part)
    } else {
        end_gauge(part)
    }
}

/// The value of a gauge, from the numbers of its partition. It takes no memory.
pub fn value_of_gauge(gauge: u32, numbers: &Numbers) -> u64
    ensures number { result ≡ gauge_in gauge numbers.now }
    ensures value { (state : State) → numbers.now ≡ numbers_of state → result ≡ gauge_value gauge state }
{
    match gauge % 3 {
        0 => numbers.high,
        1 => numbers.visible,
        _ => numbers.bytes,
    }
}
