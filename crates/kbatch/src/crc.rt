//! The CRC-32C of bytes, eight at a time, by the table in `remainders`. `head` compares it with the one in a batch, and
//! `write` puts it into a new one.

ghost use Rattle.std.specs.Prelude.{◌≡◌, ◌<◌, ◌+◌, ◌*◌, [], ◌∷◌, length, fold};
ghost use Rattle.kbatch.specs.Crc.{after_bit, message_bits, crc32c_of};
ghost use Rattle.kbatch.specs.Zeros.{after_zeros};

use crate::remainders::REMAINDERS;

/// The remainder of a byte and that many bytes of zeros after it, from the remainder 0.
#[inline(always)]
fn remainder_of(byte: u8, zeros: usize) -> u32
    requires { zeros < 8 }
    ensures { result ≡ after_zeros (8 * (zeros + 1)) byte }
{
    REMAINDERS[zeros][byte as usize]
}

/// The remainder after one more byte.
#[inline(always)]
fn after_byte(remainder: u32, byte: u8) -> u32
    ensures { result ≡ fold after_bit remainder (message_bits (byte ∷ [])) }
{
    let mixed = remainder ^ u32::from(byte);
    remainder_of((mixed % 256) as u8, 0) ^ (mixed / 256)
}

/// The remainder after eight more bytes.
#[inline(always)]
fn after_eight(remainder: u32, part: &[u8]) -> u32
    requires { length part.now ≡ 8 }
    ensures { result ≡ fold after_bit remainder (message_bits part.now) }
{
    let word = u64::from_le_bytes([
        part[0], part[1], part[2], part[3], part[4], part[5], part[6], part[7],
    ]);
    let [a, b, c, d, e, f, g, h] = (word ^ u64::from(remainder)).to_le_bytes();
    remainder_of(a, 7)
        ^ remainder_of(b, 6)
        ^ remainder_of(c, 5)
        ^ remainder_of(d, 4)
        ^ remainder_of(e, 3)
        ^ remainder_of(f, 2)
        ^ remainder_of(g, 1)
        ^ remainder_of(h, 0)
}

/// The CRC-32C of the bytes (RFC 3720, appendix B.4). It takes no memory.
pub fn crc32c(bytes: &[u8]) -> u32
    ensures { result ≡ crc32c_of bytes.now }
{
    let mut remainder = u32::MAX;
    let mut rest = bytes;
    while rest.len() >= 8 {
        let (part, behind) = rest.split_at(8);
        remainder = after_eight(remainder, part);
        rest = behind;
    }
    for byte in rest {
        remainder = after_byte(remainder, *byte);
    }
    remainder ^ u32::MAX
}
