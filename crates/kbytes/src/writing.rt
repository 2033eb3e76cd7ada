//! Writing fields at the end of bytes. A refused write leaves the bytes as they were.

ghost use Rattle.std.specs.Prelude.{◌≡◌, ◌≤◌, ◌<◌, ◌^◌, ◌++◌, length, OnOk, OnErr, IfSome};
ghost use Rattle.std.specs.Option.{option_copied};
ghost use Rattle.kbytes.specs.Field.{field, Int8, Int16, Int32, Uint32, Int64, String, NullableString, Records, Array, Varint, Varlong};

use crate::bytes::Bytes;
use crate::no_memory::NoMemory;
use crate::varint::{put_groups, unsigned};

/// Writes one byte, a signed integer.
pub fn put_i8(out: &mut Bytes, value: i8) -> Result<(), NoMemory>
    ensures ok { OnOk result (out.new ≡ out.old ++ field (Int8 value)) }
    ensures err { OnErr result (out.new ≡ out.old) }
{
    out.extend(&value.to_be_bytes())
}

/// Writes two bytes, a signed integer, the highest byte first.
pub fn put_i16(out: &mut Bytes, value: i16) -> Result<(), NoMemory>
    ensures ok { OnOk result (out.new ≡ out.old ++ field (Int16 value)) }
    ensures err { OnErr result (out.new ≡ out.old) }
{
    out.extend(&value.to_be_bytes())
}

/// Writes four bytes, a signed integer, the highest byte first.
pub fn put_i32(out: &mut Bytes, value: i32) -> Result<(), NoMemory>
    ensures ok { OnOk result (out.new ≡ out.old ++ field (Int32 value)) }
    ensures err { OnErr result (out.new ≡ out.old) }
{
    out.extend(&value.to_be_bytes())
}

/// Writes four bytes, an unsigned integer, the highest byte first.
pub fn put_u32(out: &mut Bytes, value: u32) -> Result<(), NoMemory>
    ensures ok { OnOk result (out.new ≡ out.old ++ field (Uint32 value)) }
    ensures err { OnErr result (out.new ≡ out.old) }
{
    out.extend(&value.to_be_bytes())
}

/// Writes eight bytes, a signed integer, the highest byte first.
pub fn put_i64(out: &mut Bytes, value: i64) -> Result<(), NoMemory>
    ensures ok { OnOk result (out.new ≡ out.old ++ field (Int64 value)) }
    ensures err { OnErr result (out.new ≡ out.old) }
{
    out.extend(&value.to_be_bytes())
}

/// Writes a length of two bytes and the bytes, at most 32,767.
pub fn put_string(out: &mut Bytes, value: &[u8]) -> Result<(), NoMemory>
    requires { length value.now ≤ 32767 }
    ensures ok { OnOk result (out.new ≡ out.old ++ field (String value.now)) }
    ensures err { OnErr result (out.new ≡ out.old) }
{
    let length = value.len() as i16;
    out.extend_twice(&length.to_be_bytes(), value)
}

/// The same, or the length -1 for `None`.
pub fn put_nullable_string(out: &mut Bytes, value: Option<&[u8]>) -> Result<(), NoMemory>
    requires { IfSome value (λ bytes. length bytes.now ≤ 32767) }
    ensures ok { OnOk result (out.new ≡ out.old ++ field (NullableString (option_copied value.entry))) }
    ensures err { OnErr result (out.new ≡ out.old) }
{
    match value {
        None => put_i16(out, -1),
        Some(bytes) => put_string(out, bytes),
    }
}

/// Writes a length of four bytes and the bytes, at most 2,147,483,647, or the length -1 for `None`.
pub fn put_records(out: &mut Bytes, value: Option<&[u8]>) -> Result<(), NoMemory>
    requires { IfSome value (λ bytes. length bytes.now < 2 ^ 31) }
    ensures ok { OnOk result (out.new ≡ out.old ++ field (Records (option_copied value.entry))) }
    ensures err { OnErr result (out.new ≡ out.old) }
{
    match value {
        None => put_i32(out, -1),
        Some(bytes) => {
            let length = bytes.len() as i32;
            out.extend_twice(&length.to_be_bytes(), bytes)
        }
    }
}

/// Writes the count of an array's items, at most 2,147,483,647, or the count -1 for `None`. The items follow it.
pub fn put_array(out: &mut Bytes, value: Option<u32>) -> Result<(), NoMemory>
    requires { IfSome value (λ count. count < 2 ^ 31) }
    ensures ok { OnOk result (out.new ≡ out.old ++ field (Array value)) }
    ensures err { OnErr result (out.new ≡ out.old) }
{
    match value {
        None => put_i32(out, -1),
        Some(count) => put_i32(out, count as i32),
    }
}

/// Writes a signed integer in one to five bytes: its zigzag number in groups of seven bits, the lowest group first.
pub fn put_varint(out: &mut Bytes, value: i32) -> Result<(), NoMemory>
    ensures ok { OnOk result (out.new ≡ out.old ++ field (Varint value)) }
    ensures err { OnErr result (out.new ≡ out.old) }
{
    put_groups(out, unsigned(i64::from(value)), 4)
}

/// The same for 64 bits, in one to ten bytes.
pub fn put_varlong(out: &mut Bytes, value: i64) -> Result<(), NoMemory>
    ensures ok { OnOk result (out.new ≡ out.old ++ field (Varlong value)) }
    ensures err { OnErr result (out.new ≡ out.old) }
{
    put_groups(out, unsigned(value), 9)
}
