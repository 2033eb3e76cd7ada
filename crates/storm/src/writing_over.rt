//! Fields that are written over those of a frame.

ghost use Rattle.std.specs.Prelude.{◌≡◌, ◌≤◌, ◌+◌, length};
ghost use Rattle.kbytes.specs.Field.{Int16, Int32, Int64, Uint32, field};
ghost use Rattle.storm.specs.Formed.{over_at};

/// Writes these bytes over those from a place on.
pub(crate) fn put_over(frame: &mut [u8], place: usize, bytes: &[u8])
    requires { place + length bytes.now ≤ length frame.old }
    ensures { frame.new ≡ over_at place (length bytes.now) bytes.now frame.old }
{
    let end = place + bytes.len();
    frame[place..end].copy_from_slice(bytes);
}

pub(crate) fn put_i16(frame: &mut [u8], place: usize, value: i16)
    requires { place + 2 ≤ length frame.old }
    ensures { frame.new ≡ over_at place 2 (field (Int16 value)) frame.old }
{
    put_over(frame, place, &value.to_be_bytes());
}

pub(crate) fn put_i32(frame: &mut [u8], place: usize, value: i32)
    requires { place + 4 ≤ length frame.old }
    ensures { frame.new ≡ over_at place 4 (field (Int32 value)) frame.old }
{
    put_over(frame, place, &value.to_be_bytes());
}

pub(crate) fn put_u32(frame: &mut [u8], place: usize, value: u32)
    requires { place + 4 ≤ length frame.old }
    ensures { frame.new ≡ over_at place 4 (field (Uint32 value)) frame.old }
{
    put_over(frame, place, &value.to_be_bytes());
}

pub(crate) fn put_i64(frame: &mut [u8], place: usize, value: i64)
    requires { place + 8 ≤ length frame.old }
    ensures { frame.new ≡ over_at place 8 (field (Int64 value)) frame.old }
{
    put_over(frame, place, &value.to_be_bytes());
}
