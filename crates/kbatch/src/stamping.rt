ghost use Rattle.std.specs.Prelude.{◌≡◌, ◌≤◌, length};
ghost use Rattle.kbatch.specs.Stamp.{stamped};

use byteorder::{BigEndian, ByteOrder};

/// Writes a base offset and the leader epoch 0 into the bytes of a batch, for example within a log. It takes no memory.
pub fn stamp(bytes: &mut [u8], base: u64)
    requires { 61 ≤ length bytes.old }
    ensures { bytes.new ≡ stamped base bytes.old }
{
    BigEndian::write_u64(bytes, base);
    BigEndian::write_u32(&mut bytes[12..], 0);
}
