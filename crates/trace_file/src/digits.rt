//! The two digits of each byte, in a table that the crate `hex` fills once. `reply_line` looks them up.

ghost use Rattle.std.specs.Prelude.{◌≡◌, ◌*◌, ◌<◌, ℕ, length, slice_index};
ghost use Rattle.hex.specs.Hex.{encode_lower};
ghost use Rattle.trace_file.specs.declared.digits.TheConstants.{BYTES};

use kbytes::NoMemory;
use std::alloc::Global;
use std::marker::Model;

/// The number of bytes that there are.
pub const BYTES: usize = 256;

/// The two lower case digits of each byte, as the crate `hex` writes them. Who prints many replies makes it once, and prints
/// them by it ([`put_reply_line`](Digits::put_reply_line)).
#[derive(Drop)]
pub struct Digits {
    pairs: Vec<u8>,
}

impl Model for Digits {
    ghost use Rattle.std.specs.Prelude.{List, ℕ};
    ghost use Rattle.trace_file.specs.DigitTables.{ArePairs};

    ghost Value = { List ℕ };

    ghost view = { λ d. d.pairs.items };

    ghost invariant = { λ d. ArePairs d.pairs.items };
}

// Every byte, in order.
fn every_byte() -> [u8; BYTES]
    ensures all { length result ≡ BYTES }
    ensures each { (byte : ℕ) → byte < BYTES → slice_index result byte ≡ byte }
{
    let mut bytes = [0; BYTES];
    for byte in 0..BYTES {
        bytes[byte] = byte as u8;
    }
    bytes
}

impl Digits {
    /// The digits of each byte.
    pub fn make(alloc: Global) -> Result<Digits, NoMemory> {
        let digits = hex::encode(alloc, every_byte())?;
        Ok(Digits {
            pairs: digits.into_bytes(),
        })
    }

    /// Writes the digits of the bytes, two for each, for who writes the line of a reply by itself.
    pub fn write(&self, bytes: &[u8], out: &mut [u8])
        requires { length out.old ≡ 2 * length bytes.now }
        ensures { out.new ≡ encode_lower bytes.now }
    {
        let pairs = self.pairs.as_slice();
        'bytes: for i in 0..bytes.len() {
            let at = 2 * bytes[i] as usize;
            let high = pairs[at];
            let low = pairs[at + 1];
            out[2 * i] = high;
            out[2 * i + 1] = low;
        }
    }
}
