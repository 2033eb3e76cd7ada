//! Fields as Kafka spells them, and why bytes are none.

use kbytes::{
    ByteFault, Bytes, NoMemory, Reader, put_array, put_i8, put_i16, put_i32, put_i64,
    put_nullable_string, put_records, put_string, put_u32, put_varint, put_varlong,
};
use std::test::*;

// Every kind of field: five integers, five fields with a length or a count, and two varints.
const FIELDS: [u8; 57] = [
    0x80, 0xff, 0xfe, 1, 2, 3, 4, 0xff, 0xff, 0xff, 0xfe, 1, 2, 3, 4, 5, 6, 7, 8, 0, 2, 104, 105,
    0xff, 0xff, 0, 0, 0, 1, 7, 0xff, 0xff, 0xff, 0xff, 0, 0, 1, 0, 0xff, 0xff, 0xff, 0xff, 0x80,
    0xff, 0x7f, 0xff, 0xff, 0xff, 0xff, 0xff, 0xff, 0xff, 0xff, 0xff, 1, 0, 0,
];

fn put_fields(out: &mut Bytes) -> Result<(), NoMemory> {
    put_i8(out, -128)?;
    put_i16(out, -2)?;
    put_i32(out, 16_909_060)?;
    put_u32(out, 4_294_967_294)?;
    put_i64(out, 72_623_859_790_382_856)?;
    put_string(out, b"hi")?;
    put_nullable_string(out, None)?;
    put_records(out, Some(&[7]))?;
    put_records(out, None)?;
    put_array(out, Some(256))?;
    put_array(out, None)?;
    put_varint(out, 1_048_512)?;
    put_varlong(out, -9_223_372_036_854_775_808)?;
    put_nullable_string(out, Some(b""))
}

#[test]
fn fields_are_written(rt: HostRuntime) {
    let mut out = Bytes::new(rt.alloc());
    assert!(rt; put_fields(&mut out).is_ok() && out.as_slice() == FIELDS.as_slice());
}

const VARINTS: &[(&[u8], i32)] = &[
    (&[0], 0),
    (&[1], -1),
    (&[126], 63),
    (&[128, 1], 64),
    (&[128, 255, 127], 1_048_512),
    (&[254, 255, 255, 255, 15], 2_147_483_647),
    (&[255, 255, 255, 255, 15], -2_147_483_648),
];

#[test]
fn varints(rt: HostRuntime) {
    for (bytes, value) in VARINTS {
        let read = (Reader::new(bytes).varint(), Reader::new(bytes).varlong());
        assert!(rt; read == (Ok(*value), Ok(i64::from(*value))));
    }
}

const MESSAGES: &[(ByteFault, &str)] = &[
    (
        ByteFault::Short { at: 3 },
        "the bytes end within the field at 3",
    ),
    (
        ByteFault::BadLength { at: 4, value: -2 },
        "the length -2 at 4 isn't allowed",
    ),
    (
        ByteFault::LongVarint { at: 5 },
        "the varint at 5 isn't in its shortest form or is out of range",
    ),
];

#[test]
fn messages(rt: HostRuntime) {
    for (fault, text) in MESSAGES {
        let said = format!(in rt.alloc(); "{fault}").expect(&rt, "memory");
        assert!(rt; said.as_str() == *text);
    }
}
