//! The number of bytes that records will take: `write` compares it with the most that a batch may have, before it takes
//! any memory. A number above the greatest `u64` counts as that one.

ghost use Rattle.std.specs.Prelude.{◌≡◌, ◌≤◌, ◌<◌, ◌+◌, ◌-◌, ◌^◌, min, length, pos, Some};
ghost use Rattle.std.specs.List.{flat_map, AllByRecursion};
ghost use Rattle.kbytes.specs.Field.{field, groups, zigzag, Varint, Varlong};
ghost use Rattle.kbatch.specs.Record.{IsRecord, sized, header_bytes, body_bytes, record_bytes, records_from};

use crate::record::{Header, Record};
use kbytes::Bytes;

// The number of groups of seven bits in a number, at most `more` and one.
fn group_count(number: u64, more: u64) -> u64
    requires { more < 10 }
    ensures count { result ≡ length (groups more number) }
    ensures most { result ≤ more + 1 }
{
    let mut count = 1;
    let mut rest = number;
    for _ in 0..more {
        if rest < 128 {
            return count;
        }
        rest /= 128;
        count += 1;
    }
    count
}

// The bytes of a length.
fn length_size(number: u64) -> u64
    ensures size { result ≡ length (field (Varint (pos number))) }
    ensures most { result ≤ 5 }
{
    if number < 1 << 27 {
        group_count(2 * number, 4)
    } else {
        5
    }
}

// 0, -1, 1, -2, 2 .. become 0, 1, 2, 3, 4 ..
fn zigzag_of(time: i64) -> u64
    ensures { result ≡ zigzag time }
{
    if time < 0 {
        2 * ((-1 - time) as u64) + 1
    } else {
        2 * (time as u64)
    }
}

// The bytes of a time.
fn time_size(time: i64) -> u64
    ensures size { result ≡ length (field (Varlong time)) }
    ensures most { result ≤ 10 }
{
    group_count(zigzag_of(time), 9)
}

fn sized_size(bytes: &[u8]) -> u64
    ensures { result ≡ min (length (sized (Some bytes.now))) (2 ^ 64 - 1) }
{
    let len = bytes.len() as u64;
    length_size(len).saturating_add(len)
}

fn nullable_size(value: &Option<Bytes>) -> u64
    ensures { result ≡ min (length (sized value.now)) (2 ^ 64 - 1) }
{
    match value {
        None => 1,
        Some(bytes) => sized_size(bytes.as_slice()),
    }
}

#[tactic(auto, unfolding(crate::specs::Record::header_bytes))]
fn header_size(header: &Header) -> u64
    ensures { result ≡ min (length (header_bytes header.now)) (2 ^ 64 - 1) }
{
    sized_size(header.key.as_slice()).saturating_add(nullable_size(&header.value))
}

fn headers_size(headers: &[Header]) -> u64
    ensures { result ≡ min (length (flat_map header_bytes headers.now)) (2 ^ 64 - 1) }
{
    let mut size: u64 = 0;
    for header in headers {
        size = size.saturating_add(header_size(header));
    }
    size
}

// The fields after a record's length.
pub(crate) fn body_size(delta: u64, record: &Record) -> u64
    ensures size { result ≡ min (length (body_bytes delta record.now)) (2 ^ 64 - 1) }
    ensures record { IsRecord record.now }
{
    let attributes = record.attributes.to_be_bytes().len() as u64;
    let time = record.time;
    let numbers = attributes + time_size(time) + length_size(delta);
    let count = length_size(record.headers.len() as u64);
    (numbers + count)
        .saturating_add(nullable_size(&record.key))
        .saturating_add(nullable_size(&record.value))
        .saturating_add(headers_size(record.headers.as_slice()))
}

fn record_size(delta: u64, record: &Record) -> u64
    ensures record { IsRecord record.now }
    ensures size { result ≡ min (length (record_bytes delta record.now)) (2 ^ 64 - 1) }
{
    let size = body_size(delta, record);
    length_size(size).saturating_add(size)
}

/// The bytes of records whose offset deltas rise from 0.
pub(crate) fn records_size(records: &[Record]) -> u64
    ensures each { AllByRecursion IsRecord records.now }
    ensures size { result ≡ min (length (records_from 0 records.now)) (2 ^ 64 - 1) }
{
    let mut size: u64 = 0;
    for (delta, record) in records.iter().enumerate() {
        size = size.saturating_add(record_size(delta as u64, record));
    }
    size
}
