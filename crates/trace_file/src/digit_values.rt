//! The value of each digit, in tables that the crate `hex` fills once. `read_line` looks them up.

ghost use Rattle.std.specs.Prelude.{◌≡◌, ◌*◌, ℕ, Err, Ok, MatchBool, length};
ghost use Rattle.hex.specs.Hex.{decode_of};
ghost use Rattle.hex.specs.declared.error.FromHexError.{FromHexError};
ghost use Rattle.trace_file.specs.DigitTables.{AreValues, value_or_none};

use crate::digits::BYTES;

/// What stands for the value of a byte that is no digit. It is no byte, and no sum with it is one.
const NO_DIGIT: u16 = 256;

/// The value of each digit, in either case, as the first of two and as the second.
#[derive(Drop)]
pub struct DigitValues {
    high: [u16; BYTES],
    low: [u16; BYTES],
    ghost right: { AreValues high low },
}

// The value of a digit, which the crate `hex` tells.
fn value_of(digit: u8) -> u16
    ensures { result ≡ value_or_none digit }
{
    let mut byte = [0];
    match hex::decode_to_slice([b'0', digit], &mut byte) {
        Ok(()) => u16::from(byte[0]),
        Err(_) => NO_DIGIT,
    }
}

impl DigitValues {
    pub fn make() -> DigitValues {
        let mut high = [0; BYTES];
        let mut low = [0; BYTES];
        for digit in 0..BYTES {
            let value = value_of(digit as u8);
            high[digit] = value * 16;
            low[digit] = value;
        }
        DigitValues { high, low }
    }

    /// Writes the bytes that the digits are. Where one is no digit, it answers false, and what the room then has is left open.
    pub fn decode(&self, digits: &[u8], out: &mut [u8]) -> bool
        requires { length digits.now ≡ 2 * length out.old }
        ensures { MatchBool result (decode_of digits.now ≡ Ok out.new) ((e : FromHexError) × (decode_of digits.now ≡ Err e)) }
    {
        // Every sum is a byte where they together have no higher bit.
        let mut seen: u16 = 0;
        'bytes: for i in 0..out.len() {
            let sum = self.high[digits[2 * i] as usize] + self.low[digits[2 * i + 1] as usize];
            seen |= sum;
            out[i] = (sum % 256) as u8;
        }
        seen < NO_DIGIT
    }
}
