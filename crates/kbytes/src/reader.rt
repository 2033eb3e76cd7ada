//! Reading fields from the left.

ghost use Rattle.std.specs.Prelude.{◌≡◌, ◌<◌, ◌≤◌, ◌^◌, ◌⊎◌, ℤ, pos, negsuc, ◌<ℤ◌, take, length, Err, IfOk, IfErr, OnErr, IsErr, ◌↔◌};
ghost use Rattle.std.specs.Option.{option_copied};
ghost use Rattle.std.specs.Int.{w8, w16, w32, w64};
ghost use Rattle.kbytes.specs.declared.fault.ByteFault.TheVariants.{Short, BadLength, LongVarint};

use crate::fault::ByteFault;
use crate::varint::{groups, signed};
use std::marker::Model;

/// Bytes, and the place up to which they were read. A refused read leaves it as it was.
#[derive(Drop)]
pub struct Reader<'a> {
    bytes: &'a [u8],
    at: usize,
}

impl<'a> Model for Reader<'a> {
    ghost use Rattle.std.specs.Prelude.{◌≤◌, length};
    ghost use Rattle.kbytes.specs.Cursor.{Cursor};
    ghost use Rattle.kbytes.specs.Octets.{IsBytes};

    ghost Value = { Cursor };

    ghost view = { λ r. record { bytes = r.bytes.now; at = r.at } };

    ghost invariant = { λ r. (r.at ≤ length r.bytes.now) × IsBytes r.bytes.now };
}

impl<'a> Reader<'a> {
    ghost use Rattle.kbytes.specs.Cursor.{rest_of, moved};
    ghost use Rattle.kbytes.specs.Octets.{IsBytes};
    ghost use Rattle.kbytes.specs.Field.{Int8, Int16, Int32, Uint32, Int64, String, NullableString, Records, Array, Varint, Varlong, zigzag};
    ghost use Rattle.kbytes.specs.Fronts.{EndWithinVarint, BeginWith, HasLength, EndWithinSized};
    ghost use Rattle.kbytes.specs.Reading.{Gives, Spells, integer_at, unsigned_at, after_length, counted_after, sized_at, string_at, array_at, grouped_at, varint_at, varlong_at};

    /// A reader at the front of the bytes.
    pub fn new(bytes: &'a [u8]) -> Reader<'a>
        ensures bytes { result.bytes ≡ bytes.now }
        ensures at { result.at ≡ 0 }
    {
        Reader { bytes, at: 0 }
    }

    /// The place up to which the bytes were read, counted from 0.
    pub fn at(&self) -> usize
        ensures at { result ≡ self.now.at }
        ensures within { result ≤ length self.now.bytes }
    {
        self.at
    }

    /// The bytes that are left.
    pub fn rest(&self) -> &'a [u8]
        ensures { result.now ≡ rest_of self.now }
    {
        &self.bytes[self.at..]
    }

    // That many bytes from the front, or `Short`.
    fn next(&mut self, count: usize) -> Result<&'a [u8], ByteFault>
        ensures enough { IfOk result (λ _. count ≤ length (rest_of self.old)) }
        ensures part { IfOk result (λ part. part.now ≡ take count (rest_of self.old)) }
        ensures bytes { IfOk result (λ part. IsBytes part.now) }
        ensures moved { IfOk result (λ _. self.new ≡ moved self.old count) }
        ensures short { IfErr result (λ e. (e ≡ Short self.old.at) × (length (rest_of self.old) < count)) }
        ensures unchanged { OnErr result (self.new ≡ self.old) }
    {
        let rest = &self.bytes[self.at..];
        if rest.len() < count {
            return Err(ByteFault::Short { at: self.at });
        }
        let part = &rest[..count];
        self.at += count;
        Ok(part)
    }

    /// One byte, a signed integer.
    pub fn i8(&mut self) -> Result<i8, ByteFault>
        ensures exact { Gives (λ v. v) self.old self.new result (integer_at w8 self.old) }
        ensures read { IfOk result (λ v. Spells self.old self.new (Int8 v)) }
        ensures short { IsErr result ↔ (length (rest_of self.old) < 1) }
        ensures place { IfErr result (λ e. e ≡ Short self.old.at) }
        ensures unchanged { OnErr result (self.new ≡ self.old) }
    {
        let part = self.next(1)?;
        Ok(i8::from_be_bytes([part[0]]))
    }

    /// Two bytes, a signed integer, the highest byte first.
    pub fn i16(&mut self) -> Result<i16, ByteFault>
        ensures exact { Gives (λ v. v) self.old self.new result (integer_at w16 self.old) }
        ensures read { IfOk result (λ v. Spells self.old self.new (Int16 v)) }
        ensures short { IsErr result ↔ (length (rest_of self.old) < 2) }
        ensures place { IfErr result (λ e. e ≡ Short self.old.at) }
        ensures unchanged { OnErr result (self.new ≡ self.old) }
    {
        let part = self.next(2)?;
        Ok(i16::from_be_bytes([part[0], part[1]]))
    }

    /// Four bytes, a signed integer, the highest byte first.
    pub fn i32(&mut self) -> Result<i32, ByteFault>
        ensures exact { Gives (λ v. v) self.old self.new result (integer_at w32 self.old) }
        ensures read { IfOk result (λ v. Spells self.old self.new (Int32 v)) }
        ensures short { IsErr result ↔ (length (rest_of self.old) < 4) }
        ensures place { IfErr result (λ e. e ≡ Short self.old.at) }
        ensures unchanged { OnErr result (self.new ≡ self.old) }
    {
        let part = self.next(4)?;
        Ok(i32::from_be_bytes([part[0], part[1], part[2], part[3]]))
    }

    /// Four bytes, an unsigned integer, the highest byte first.
    pub fn u32(&mut self) -> Result<u32, ByteFault>
        ensures exact { Gives (λ v. v) self.old self.new result (unsigned_at w32 self.old) }
        ensures read { IfOk result (λ v. Spells self.old self.new (Uint32 v)) }
        ensures short { IsErr result ↔ (length (rest_of self.old) < 4) }
        ensures place { IfErr result (λ e. e ≡ Short self.old.at) }
        ensures unchanged { OnErr result (self.new ≡ self.old) }
    {
        let part = self.next(4)?;
        Ok(u32::from_be_bytes([part[0], part[1], part[2], part[3]]))
    }

    /// Eight bytes, a signed integer, the highest byte first.
    pub fn i64(&mut self) -> Result<i64, ByteFault>
        ensures exact { Gives (λ v. v) self.old self.new result (integer_at w64 self.old) }
        ensures read { IfOk result (λ v. Spells self.old self.new (Int64 v)) }
        ensures short { IsErr result ↔ (length (rest_of self.old) < 8) }
        ensures place { IfErr result (λ e. e ≡ Short self.old.at) }
        ensures unchanged { OnErr result (self.new ≡ self.old) }
    {
        let part = self.next(8)?;
        Ok(i64::from_be_bytes([
            part[0], part[1], part[2], part[3], part[4], part[5], part[6], part[7],
        ]))
    }

    // A number in groups of seven bits, below the limit. `last` is the index of the last byte that it may have.
    fn grouped(&mut self, last: usize, limit: u128) -> Result<i64, ByteFault>
        requires last { last < 10 }
        requires limit { limit ≤ 2 ^ 64 }
        ensures exact { Gives (λ v. v) self.old self.new result (grouped_at last limit self.old) }
        ensures range { IfOk result (λ v. zigzag v < limit) }
        ensures bytes { IsBytes (rest_of self.old) }
    {
        let (number, count) = groups(&self.bytes[self.at..], self.at, last)?;
        if number >= limit {
            return Err(ByteFault::LongVarint { at: self.at });
        }
        self.at += count;
        Ok(signed(number as u64))
    }

    /// A signed integer in one to five bytes: its zigzag number in groups of seven bits, the lowest group first. Only the
    /// shortest form is read.
    pub fn varint(&mut self) -> Result<i32, ByteFault>
        ensures exact { Gives (λ v. v) self.old self.new result (varint_at self.old) }
        ensures read { IfOk result (λ v. Spells self.old self.new (Varint v)) }
        ensures short { (result ≡ Err (Short self.old.at)) ↔ EndWithinVarint 5 (rest_of self.old) }
        ensures long { (result ≡ Err (LongVarint self.old.at))
            ↔ ((EndWithinVarint 5 (rest_of self.old) → ⊥) × (BeginWith w32 Varint (rest_of self.old) → ⊥)) }
        ensures place { IfErr result (λ e. (e ≡ Short self.old.at) ⊎ (e ≡ LongVarint self.old.at)) }
        ensures unchanged { OnErr result (self.new ≡ self.old) }
    {
        let value = self.grouped(4, 1 << 32)?;
        Ok(value as i32)
    }

    /// The same for 64 bits, in one to ten bytes.
    pub fn varlong(&mut self) -> Result<i64, ByteFault>
        ensures exact { Gives (λ v. v) self.old self.new result (varlong_at self.old) }
        ensures read { IfOk result (λ v. Spells self.old self.new (Varlong v)) }
        ensures short { (result ≡ Err (Short self.old.at)) ↔ EndWithinVarint 10 (rest_of self.old) }
        ensures long { (result ≡ Err (LongVarint self.old.at))
            ↔ ((EndWithinVarint 10 (rest_of self.old) → ⊥) × (BeginWith w64 Varlong (rest_of self.old) → ⊥)) }
        ensures place { IfErr result (λ e. (e ≡ Short self.old.at) ⊎ (e ≡ LongVarint self.old.at)) }
        ensures unchanged { OnErr result (self.new ≡ self.old) }
    {
        self.grouped(9, 1 << 64)
    }

    // A reader at the same place.
    fn ahead(&self) -> Reader<'a>
        ensures same { result ≡ self.now }
        ensures bytes { IsBytes (rest_of self.now) }
    {
        Reader {
            bytes: self.bytes,
            at: self.at,
        }
    }

    // That many bytes after a length that was read ahead.
    fn counted(&mut self, mut ahead: Reader<'a>, length: i64) -> Result<&'a [u8], ByteFault>
        ensures exact { Gives (λ part. part.now) self.old self.new result (counted_after self.old (length, ahead.entry)) }
    {
        if length < 0 {
            return Err(ByteFault::BadLength {
                at: self.at,
                value: length,
            });
        }
        match ahead.next(length as usize) {
            Err(_) => Err(ByteFault::Short { at: self.at }),
            Ok(part) => {
                *self = ahead;
                Ok(part)
            }
        }
    }

    // The same where the length -1 stands for null.
    fn nullable(&mut self, ahead: Reader<'a>, length: i64) -> Result<Option<&'a [u8]>, ByteFault>
        ensures exact { Gives option_copied self.old self.new result (after_length self.old (length, ahead.entry)) }
    {
        if length == -1 {
            *self = ahead;
            return Ok(None);
        }
        let part = self.counted(ahead, length)?;
        Ok(Some(part))
    }

    /// The bytes after a length of two bytes, which is 0 or more.
    #[tactic(auto, unfolding(crate::specs::Reading::string_at, crate::specs::Reading::sized_at))]
    pub fn string(&mut self) -> Result<&'a [u8], ByteFault>
        ensures exact { Gives (λ v. v.now) self.old self.new result (string_at self.old) }
        ensures read { IfOk result (λ v. Spells self.old self.new (String v.now)) }
        ensures short { (result ≡ Err (Short self.old.at)) ↔ EndWithinSized w16 (rest_of self.old) }
        ensures bad_length { (n : ℤ) → (result ≡ Err (BadLength self.old.at n))
            ↔ (HasLength w16 n (rest_of self.old) × (n <ℤ pos 0)) }
        ensures place { IfErr result (λ e. (e ≡ Short self.old.at) ⊎ ((n : ℤ) × (e ≡ BadLength self.old.at n))) }
        ensures unchanged { OnErr result (self.new ≡ self.old) }
    {
        let mut ahead = self.ahead();
        let length = ahead.i16()?;
        self.counted(ahead, i64::from(length))
    }

    /// The same, or `None` for the length -1.
    #[tactic(auto, unfolding(crate::specs::Reading::sized_at))]
    pub fn nullable_string(&mut self) -> Result<Option<&'a [u8]>, ByteFault>
        ensures exact { Gives option_copied self.old self.new result (sized_at w16 self.old) }
        ensures read { IfOk result (λ v. Spells self.old self.new (NullableString (option_copied v))) }
        ensures short { (result ≡ Err (Short self.old.at)) ↔ EndWithinSized w16 (rest_of self.old) }
        ensures bad_length { (n : ℤ) → (result ≡ Err (BadLength self.old.at n))
            ↔ (HasLength w16 n (rest_of self.old) × (n <ℤ negsuc 0)) }
        ensures place { IfErr result (λ e. (e ≡ Short self.old.at) ⊎ ((n : ℤ) × (e ≡ BadLength self.old.at n))) }
        ensures unchanged { OnErr result (self.new ≡ self.old) }
    {
        let mut ahead = self.ahead();
        let length = ahead.i16()?;
        self.nullable(ahead, i64::from(length))
    }

    /// The bytes after a length of four bytes, or `None` for the length -1.
    #[tactic(auto, unfolding(crate::specs::Reading::sized_at))]
    pub fn records(&mut self) -> Result<Option<&'a [u8]>, ByteFault>
        ensures exact { Gives option_copied self.old self.new result (sized_at w32 self.old) }
        ensures read { IfOk result (λ v. Spells self.old self.new (Records (option_copied v))) }
        ensures short { (result ≡ Err (Short self.old.at)) ↔ EndWithinSized w32 (rest_of self.old) }
        ensures bad_length { (n : ℤ) → (result ≡ Err (BadLength self.old.at n))
            ↔ (HasLength w32 n (rest_of self.old) × (n <ℤ negsuc 0)) }
        ensures place { IfErr result (λ e. (e ≡ Short self.old.at) ⊎ ((n : ℤ) × (e ≡ BadLength self.old.at n))) }
        ensures unchanged { OnErr result (self.new ≡ self.old) }
    {
        let mut ahead = self.ahead();
        let length = ahead.i32()?;
        self.nullable(ahead, i64::from(length))
    }

    /// The count of four bytes before the items of an array, or `None` for the count -1.
    #[tactic(auto, unfolding(crate::specs::Reading::array_at))]
    pub fn array(&mut self) -> Result<Option<u32>, ByteFault>
        ensures exact { Gives (λ v. v) self.old self.new result (array_at self.old) }
        ensures read { IfOk result (λ v. Spells self.old self.new (Array v)) }
        ensures short { (result ≡ Err (Short self.old.at)) ↔ (length (rest_of self.old) < 4) }
        ensures bad_length { (n : ℤ) → (result ≡ Err (BadLength self.old.at n))
            ↔ (HasLength w32 n (rest_of self.old) × (n <ℤ negsuc 0)) }
        ensures place { IfErr result (λ e. (e ≡ Short self.old.at) ⊎ ((n : ℤ) × (e ≡ BadLength self.old.at n))) }
        ensures unchanged { OnErr result (self.new ≡ self.old) }
    {
        let mut ahead = self.ahead();
        let count = ahead.i32()?;
        if count < -1 {
            return Err(ByteFault::BadLength {
                at: self.at,
                value: i64::from(count),
            });
        }
        *self = ahead;
        if count == -1 {
            return Ok(None);
        }
        Ok(Some(count as u32))
    }
}
