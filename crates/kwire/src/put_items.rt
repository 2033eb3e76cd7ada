//! What all `put_` modules share: items that are written one after the other, and the frame around a body.

ghost use Rattle.std.specs.Prelude.{◌≡◌, ◌≤◌, ◌<◌, ◌+◌, ◌^◌, ◌++◌, ℤ, pos, List as Items, length, drop, IfOk, OnOk};
ghost use Rattle.std.specs.Option.{option_copied};
ghost use Rattle.std.specs.List.{flat_map};
ghost use Rattle.kbytes.specs.Field.{Field, Int32, field, fields};
ghost use Rattle.kwire.specs.Frames.{framed};
ghost use Rattle.kwire.specs.IsSpellable.{AreInRange};

use kbytes::{Bytes, NoMemory, put_i32};
use std::alloc::Global;

/// An item that is written as its fields in a version, one after the other.
pub trait Written {
    ghost written: { ℤ → Self → Items Field };

    fn put(&self, out: &mut Bytes, version: i16) -> Result<(), NoMemory>
        requires { AreInRange (written version self.now) }
        ensures { OnOk result (out.new ≡ out.old ++ fields (written version self.now)) };
}

/// Items, one after the other.
pub fn put_items<T: Written>(out: &mut Bytes, version: i16, items: &[T]) -> Result<(), NoMemory>
    requires { AreInRange (flat_map (T.written version) items.now) }
    ensures { OnOk result (out.new ≡ out.old ++ fields (flat_map (T.written version) items.now)) }
{
    for item in items {
        item.put(out, version)?;
    }
    Ok(())
}

/// The bytes, where they aren't null.
pub fn slice_of(bytes: &Option<Bytes>) -> Option<&[u8]>
    ensures { option_copied result ≡ bytes.now }
{
    match bytes {
        None => None,
        Some(bytes) => Some(bytes.as_slice()),
    }
}

/// The beginning of a frame, with memory reserved for so many bytes in all: 0 in place of the size. The body follows, and
/// `end_frame` after it.
pub fn begin_frame(alloc: Global, room: usize) -> Result<Bytes, NoMemory>
    ensures { IfOk result (λ frame. frame ≡ field (Int32 (pos 0))) }
{
    let mut frame = Bytes::new(alloc);
    frame.reserve(room)?;
    put_i32(&mut frame, 0)?;
    Ok(frame)
}

// Writes the bytes over the first ones.
fn put_front(bytes: &mut [u8], front: &[u8])
    requires { length front.now ≤ length bytes.old }
    ensures { bytes.new ≡ front.now ++ drop (length front.now) bytes.old }
{
    let count = front.len();
    bytes[..count].copy_from_slice(front);
}

/// Writes the size of a whole frame over its first four bytes.
pub fn end_frame(frame: &mut Bytes)
    requires least { 4 ≤ length frame.old }
    requires most { length frame.old < 2 ^ 31 + 4 }
    ensures { frame.new ≡ framed (drop 4 frame.old) }
{
    let size = (frame.len() - 4) as i32;
    put_front(frame.as_mut_slice(), &size.to_be_bytes());
}
