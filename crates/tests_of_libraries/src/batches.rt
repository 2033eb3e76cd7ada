//! Batches that are read and written, and those that each fault refuses. Their checksums were made apart from this repository's crates.

use crate::samples::{FULL, ONE, THREE};
use kbatch::{BatchFault, Record, WriteFault, crc32c, read_batch, view_batch, write_batch};
use kbytes::{Bytes, List, NoMemory, copied, put_i8, put_i16, put_i32, put_u32};
use std::alloc::Global;
use std::test::*;

// The check values of RFC 3720, and that of the nine digits.
#[test]
fn crcs(rt: HostRuntime) {
    let mut rising = [0u8; 32];
    for place in 0..32u8 {
        rising[place as usize] = place;
    }
    for (bytes, want) in [
        (b"".as_slice(), 0x0000_0000u32),
        (b"123456789", 0xE306_9283),
        (&[0x00u8; 32], 0x8A91_36AA),
        (&[0xFFu8; 32], 0x62A8_AB43),
        (&rising, 0x46DD_794E),
    ] {
        assert!(rt; crc32c(bytes) == want);
    }
}

const READ: &[(&[u8], u32)] = &[(&ONE, 1), (&THREE, 3), (&FULL, 2)];

// Whether these bytes are read as a batch of so many records, and copied.
fn is_read(alloc: Global, bytes: &[u8], count: u32) -> bool {
    let Ok(batch) = read_batch(alloc, bytes) else {
        return false;
    };
    let Ok(copy) = batch.copy(alloc) else {
        return false;
    };
    copy.bytes() == bytes && copy.count() == count
}

// Whether they are viewed so, and copied.
fn is_viewed(alloc: Global, bytes: &[u8], count: u32) -> bool {
    let Ok(view) = view_batch(bytes) else {
        return false;
    };
    match view.copy(alloc) {
        Ok(copy) => copy.bytes() == bytes && view.count() == count,
        Err(_) => false,
    }
}

#[test]
fn batches_are_read(rt: HostRuntime) {
    for (bytes, count) in READ {
        assert!(rt; is_read(rt.alloc(), bytes, *count) && is_viewed(rt.alloc(), bytes, *count));
    }
}

#[test]
fn base_offset_and_epoch_are_stamped(rt: HostRuntime) {
    let mut batch = read_batch(rt.alloc(), &FULL).expect(&rt, "a batch");
    batch.stamp(0x1122_3344_5566_7788);
    let stamp = [
        0x11u8, 0x22, 0x33, 0x44, 0x55, 0x66, 0x77, 0x88, 0, 0, 0, 0x53, 0, 0, 0, 0,
    ];
    assert!(rt; batch.bytes().starts_with(&stamp) && batch.bytes().ends_with(&FULL[16..]));
}

// The parts in which bytes that are no batch differ from those of `ONE`.
#[derive(Clone, Copy)]
struct Shape {
    length: i32,
    magic: i8,
    crc: u32,
    attributes: i16,
    last: i32,
    count: i32,
    records: &'static [u8],
}

// That of `ONE`.
const PLAIN: Shape = Shape {
    length: 57,
    magic: 2,
    crc: 0xdbe9_c876,
    attributes: 0,
    last: 0,
    count: 1,
    records: b"\x0e\0\0\0\x01\x02a\0",
};

// In the order in which faults are looked for; where there are two in one row, the first is answered.
const REFUSED: &[(Shape, BatchFault)] = &[
    (
        Shape {
            length: 56,
            ..PLAIN
        },
        BatchFault::Length { kept: 56 },
    ),
    (
        Shape {
            magic: 1,
            crc: 0,
            ..PLAIN
        },
        BatchFault::Magic { found: 1 },
    ),
    (
        Shape { crc: 1, ..PLAIN },
        BatchFault::Crc {
            kept: 1,
            found: 0xdbe9_c876,
        },
    ),
    (
        Shape {
            crc: 0x0514_0df3,
            attributes: 0x14,
            ..PLAIN
        },
        BatchFault::Compressed { codec: 4 },
    ),
    (
        Shape {
            crc: 0x3cd8_6672,
            attributes: 0x10,
            ..PLAIN
        },
        BatchFault::Control,
    ),
    (
        Shape {
            crc: 0x1066_e28f,
            attributes: 0x20,
            ..PLAIN
        },
        BatchFault::Control,
    ),
    (
        Shape {
            length: 49,
            crc: 0xff36_e4ac,
            last: -1,
            count: 0,
            records: b"",
            ..PLAIN
        },
        BatchFault::Count { count: 0, last: -1 },
    ),
    (
        Shape {
            length: 65,
            crc: 0x0876_2a88,
            last: 2,
            count: 2,
            records: b"\x0e\0\0\0\x01\x02a\0\x0e\0\0\x02\x01\x02b\0",
            ..PLAIN
        },
        BatchFault::Count { count: 2, last: 2 },
    ),
    // the second of two records isn't there
    (
        Shape {
            crc: 0x501d_efce,
            last: 1,
            count: 2,
            ..PLAIN
        },
        BatchFault::Records { at: 69 },
    ),
    // a byte comes after the record
    (
        Shape {
            length: 58,
            crc: 0x059f_097c,
            records: b"\x0e\0\0\0\x01\x02a\0\0",
            ..PLAIN
        },
        BatchFault::Records { at: 69 },
    ),
    // the second record has the offset delta 0
    (
        Shape {
            length: 65,
            crc: 0x332c_ba5a,
            last: 1,
            count: 2,
            records: b"\x0e\0\0\0\x01\x02a\0\x0e\0\0\0\x01\x02b\0",
            ..PLAIN
        },
        BatchFault::Records { at: 69 },
    ),
    // the record's length takes a byte more than it needs
    (
        Shape {
            length: 58,
            crc: 0xa6f5_eccd,
            records: b"\x8e\0\0\0\0\x01\x02a\0",
            ..PLAIN
        },
        BatchFault::Records { at: 61 },
    ),
    // a byte comes after the record's headers, within its length
    (
        Shape {
            length: 58,
            crc: 0xfbb9_7066,
            records: b"\x10\0\0\0\x01\x02a\0\0",
            ..PLAIN
        },
        BatchFault::Records { at: 61 },
    ),
];

fn spell(out: &mut Bytes, shape: &Shape) -> Result<(), NoMemory> {
    out.extend(&[0; 8])?;
    put_i32(out, shape.length)?;
    out.extend(&[0; 4])?;
    put_i8(out, shape.magic)?;
    put_u32(out, shape.crc)?;
    put_i16(out, shape.attributes)?;
    put_i32(out, shape.last)?;
    out.extend(&[0; 16])?;
    out.extend(&[0xff; 14])?;
    put_i32(out, shape.count)?;
    out.extend(shape.records)
}

// Why the bytes of the shape are no batch.
fn fault_of(alloc: Global, shape: &Shape) -> Option<BatchFault> {
    let mut out = Bytes::new(alloc);
    spell(&mut out, shape).ok()?;
    read_batch(alloc, out.as_slice()).err()
}

#[test]
fn faults_in_order(rt: HostRuntime) {
    for (shape, want) in REFUSED {
        assert!(rt; fault_of(rt.alloc(), shape) == Some(*want));
    }
}

// A record at time 0, without key and headers.
fn of_value(alloc: Global, value: &[u8]) -> Result<Record, NoMemory> {
    let value = copied(alloc, value)?;
    Ok(Record {
        attributes: 0,
        time: 0,
        key: None,
        value: Some(value),
        headers: List::new(alloc),
    })
}

// Whether records of these values are written as these bytes.
fn is_written(alloc: Global, values: &[&[u8]], bytes: &[u8]) -> bool {
    let mut records = List::new(alloc);
    for value in values {
        let Ok(record) = of_value(alloc, value) else {
            return false;
        };
        if records.push(record).is_err() {
            return false;
        }
    }
    match write_batch(alloc, records.as_slice()) {
        Ok(batch) => batch.bytes() == bytes,
        Err(_) => false,
    }
}

const WRITTEN: &[(&[&[u8]], &[u8])] = &[(&[b"a"], &ONE), (&[b"a", b"b", b"c"], &THREE)];

#[test]
fn batches_are_written(rt: HostRuntime) {
    for (values, bytes) in WRITTEN {
        assert!(rt; is_written(rt.alloc(), values, bytes));
    }
}

fn is_first_of_full(record: &Record) -> bool {
    let is_keyed = matches!(&record.key, Some(key) if key.as_slice() == b"key".as_slice());
    let has_headers = matches!(
        record.headers.as_slice(),
        [one, other] if one.key.as_slice() == b"h".as_slice() && other.value.is_none()
    );
    record.attributes == -1 && record.time == -300 && is_keyed && has_headers
}

fn is_second_of_full(record: &Record) -> bool {
    record.attributes == 0 && record.time == 1 << 40 && record.value.is_none()
}

// Whether they are those of `FULL`, and written again as they were. The latest time is 2^40.
fn are_of_full(alloc: Global, records: &[Record]) -> bool {
    let [first, second] = records else {
        return false;
    };
    match write_batch(alloc, records) {
        Ok(again) => is_first_of_full(first)
            && is_second_of_full(second)
            && again.bytes().ends_with(&FULL[61..])
            && again.bytes().get(35..43) == Some([0u8, 0, 1, 0, 0, 0, 0, 0].as_slice()),
        Err(_) => false,
    }
}

#[test]
fn what_records_hold_is_read_and_written_again(rt: HostRuntime) {
    let batch = read_batch(rt.alloc(), &FULL).expect(&rt, "a batch");
    let records = batch.records(rt.alloc()).expect(&rt, "memory");
    assert!(rt; are_of_full(rt.alloc(), records.as_slice()));
}

fn of_length(alloc: Global, length: usize) -> Result<Record, NoMemory> {
    let value = vec![in alloc; b'a'; length]?;
    of_value(alloc, value.as_slice())
}

// How many bytes the batch has of one record, whose value has this length.
fn size_of_one(alloc: Global, length: usize) -> Result<usize, WriteFault> {
    let record = of_length(alloc, length)?;
    let batch = write_batch(alloc, &[record])?;
    Ok(batch.bytes().len())
}

#[test]
fn a_batch_has_1048588_bytes_at_most(rt: HostRuntime) {
    let fault = WriteFault::TooLarge { bytes: 1_048_589 };
    assert!(rt; size_of_one(rt.alloc(), 1_048_516) == Ok(1_048_588));
    assert!(rt; size_of_one(rt.alloc(), 1_048_517) == Err(fault));
    let large = vec![in rt.alloc(); 0u8; 1_048_589].expect(&rt, "memory");
    let fault = BatchFault::TooLarge { len: 1_048_589 };
    assert!(rt; view_batch(large.as_slice()).err() == Some(fault));
}
