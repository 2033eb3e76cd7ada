//! Writing records as a batch, for clients and tests: the size is checked first, then come the fields around the crc, and
//! the crc last.

ghost use Rattle.std.specs.Prelude.{◌≡◌, ◌≤◌, ◌<◌, ◌+◌, ◌^◌, ◌↔◌, ℕ, ◌++◌, [], length, take, drop, map, fold, pos, Some, IfOk, OnOk, IsErrOf};
ghost use Rattle.std.specs.List.{flat_map};
ghost use Rattle.std.specs.Int.{int_max};
ghost use Rattle.kbytes.specs.Field.{field, Uint32};
ghost use Rattle.kbatch.specs.declared.write_fault.WriteFault.TheVariants.{NoRecords, TooLarge};
ghost use Rattle.kbatch.specs.Record.{sized, header_bytes, body_bytes, record_bytes, records_from};
ghost use Rattle.kbatch.specs.Head.{head_bytes};
ghost use Rattle.kbatch.specs.Batch.{IsBatch, most_bytes};
ghost use Rattle.kbatch.specs.Written.{greatest_time, plain_head, written_with, written, written_size};

use crate::batch::Batch;
use crate::crc::crc32c;
use crate::head::{HEAD, MOST};
use crate::record::{Header, Record};
use crate::size::{body_size, records_size};
use crate::write_fault::WriteFault;
use byteorder::{BigEndian, ByteOrder};
use kbytes::{
    Bytes, NoMemory as Memory, put_i8, put_i16, put_i32, put_i64, put_u32, put_varint, put_varlong,
};
use std::alloc::Global;

fn put_sized(out: &mut Bytes, bytes: &[u8]) -> Result<(), Memory>
    requires { length bytes.now < 2 ^ 31 }
    ensures { OnOk result (out.new ≡ out.old ++ sized (Some bytes.now)) }
{
    put_varint(out, bytes.len() as i32)?;
    out.extend(bytes)
}

fn put_nullable(out: &mut Bytes, value: &Option<Bytes>) -> Result<(), Memory>
    requires { length (sized value.now) < 2 ^ 31 }
    ensures { OnOk result (out.new ≡ out.old ++ sized value.now) }
{
    match value {
        None => put_varint(out, -1),
        Some(bytes) => put_sized(out, bytes.as_slice()),
    }
}

fn put_header(out: &mut Bytes, header: &Header) -> Result<(), Memory>
    requires { length (header_bytes header.now) < 2 ^ 31 }
    ensures { OnOk result (out.new ≡ out.old ++ header_bytes header.now) }
{
    put_sized(out, header.key.as_slice())?;
    put_nullable(out, &header.value)
}

fn put_headers(out: &mut Bytes, headers: &[Header]) -> Result<(), Memory>
    requires { length (flat_map header_bytes headers.now) < 2 ^ 31 }
    ensures { OnOk result (out.new ≡ out.old ++ flat_map header_bytes headers.now) }
{
    for header in headers {
        put_header(out, header)?;
    }
    Ok(())
}

// The fields after a record's length.
fn put_body(out: &mut Bytes, delta: u32, record: &Record) -> Result<(), Memory>
    requires delta { delta < 2 ^ 31 }
    requires size { length (body_bytes delta record.now) < 2 ^ 31 }
    ensures { OnOk result (out.new ≡ out.old ++ body_bytes delta record.now) }
{
    put_i8(out, record.attributes)?;
    put_varlong(out, record.time)?;
    put_varint(out, delta as i32)?;
    put_nullable(out, &record.key)?;
    put_nullable(out, &record.value)?;
    put_varint(out, record.headers.len() as i32)?;
    put_headers(out, record.headers.as_slice())
}

fn put_record(out: &mut Bytes, delta: u32, record: &Record) -> Result<(), Memory>
    requires delta { delta < 2 ^ 31 }
    requires size { length (record_bytes delta record.now) < 2 ^ 31 }
    ensures { OnOk result (out.new ≡ out.old ++ record_bytes delta record.now) }
{
    put_varint(out, body_size(u64::from(delta), record) as i32)?;
    put_body(out, delta, record)
}

fn put_all(out: &mut Bytes, records: &[Record]) -> Result<(), Memory>
    requires { length (records_from 0 records.now) < 2 ^ 31 }
    ensures { OnOk result (out.new ≡ out.old ++ records_from 0 records.now) }
{
    for (delta, record) in records.iter().enumerate() {
        put_record(out, delta as u32, record)?;
    }
    Ok(())
}

// The fields up to the crc, with 0 in its place.
fn put_front(out: &mut Bytes, size: u32) -> Result<(), Memory>
    requires { size < 2 ^ 30 }
    ensures { OnOk result (out.new ≡ out.old ++ take 21 (head_bytes (plain_head 0 size 0 (pos 0)))) }
{
    put_i64(out, 0)?;
    put_i32(out, (49 + size) as i32)?;
    put_i32(out, 0)?;
    put_i8(out, 2)?;
    put_u32(out, 0)
}

// The fields after the crc.
fn put_back(out: &mut Bytes, count: u32, latest: i64) -> Result<(), Memory>
    requires some { 0 < count }
    requires fits { count < 2 ^ 31 }
    ensures { OnOk result (out.new ≡ out.old ++ drop 21 (head_bytes (plain_head 0 0 count latest))) }
{
    put_i16(out, 0)?;
    put_i32(out, (count - 1) as i32)?;
    put_i64(out, 0)?;
    put_i64(out, latest)?;
    put_i64(out, -1)?;
    put_i16(out, -1)?;
    put_i32(out, -1)?;
    put_i32(out, count as i32)
}

// The greatest of a time and the times of the records.
fn latest(first: i64, others: &[Record]) -> i64
    ensures { result ≡ fold int_max first (map (λ r. r.time) others.now) }
{
    let mut latest = first;
    for record in others {
        latest = latest.max(record.time);
    }
    latest
}

fn greatest_time(records: &[Record]) -> i64
    requires { 0 < length records.now }
    ensures { result ≡ greatest_time records.now }
{
    latest(records[0].time, &records[1..])
}

fn write_crc(bytes: &mut [u8], crc: u32)
    requires { 61 ≤ length bytes.old }
    ensures { bytes.new ≡ take 17 bytes.old ++ (field (Uint32 crc) ++ drop 21 bytes.old) }
{
    BigEndian::write_u32(&mut bytes[17..], crc);
}

// The batch without its crc.
fn unsigned(alloc: Global, records: &[Record]) -> Result<Bytes, Memory>
    requires some { 0 < length records.now }
    requires most { written_size records.now ≤ most_bytes }
    ensures { IfOk result (λ bytes. bytes ≡ written_with 0 records.now) }
{
    let size = records_size(records) as u32;
    let mut bytes = Bytes::new(alloc);
    bytes.reserve(HEAD + size as usize)?;
    put_front(&mut bytes, size)?;
    put_back(&mut bytes, records.len() as u32, greatest_time(records))?;
    put_all(&mut bytes, records)?;
    Ok(bytes)
}

/// The batch of these records, with base offset, leader epoch, attributes and base timestamp 0, the greatest `time` as its
/// max timestamp, and producer id, epoch and sequence -1. It answers `NoRecords` exactly for an empty list, and `TooLarge`,
/// with the number of bytes, exactly where the batch would have more than 1,048,588. A number of 2^63 or more, which fits
/// no memory, is answered with `NoMemory`.
pub fn write_batch(alloc: Global, records: &[Record]) -> Result<Batch, WriteFault>
    ensures bytes { IfOk result (λ batch. batch ≡ written records.now) }
    ensures batch { OnOk result (IsBatch (written records.now) records.now) }
    ensures empty { IsErrOf result NoRecords ↔ (length records.now ≡ 0) }
    ensures large { (bytes : ℕ) → (IsErrOf result (TooLarge bytes)
        ↔ ((bytes ≡ written_size records.now) × (most_bytes < bytes) × (bytes < 2 ^ 63))) }
{
    if records.is_empty() {
        return Err(WriteFault::NoRecords);
    }
    let bytes = records_size(records).saturating_add(HEAD as u64);
    if bytes >= 1 << 63 {
        return Err(WriteFault::NoMemory);
    }
    if bytes > MOST as u64 {
        return Err(WriteFault::TooLarge { bytes });
    }
    let mut bytes = unsigned(alloc, records)?;
    let (_, covered) = bytes.as_slice().split_at(21);
    let crc = crc32c(covered);
    write_crc(bytes.as_mut_slice(), crc);
    Ok(Batch::whole(bytes))
}
