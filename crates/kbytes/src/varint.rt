//! Numbers in groups of seven bits, the lowest group first, each byte but the last with its top bit set.

ghost use Rattle.std.specs.Prelude.{◌≡◌, ◌<◌, ◌≤◌, ◌+◌, ◌^◌, ◌++◌, length, IfOk, OnOk, OnErr};
ghost use Rattle.kbytes.specs.Reading.{groups_at, unzigzag};
ghost use Rattle.kbytes.specs.Field.{zigzag, groups as spelling};

use crate::bytes::Bytes;
use crate::fault::ByteFault;
use crate::no_memory::NoMemory;

// The number at the front of the bytes that are left at a place, and how many bytes it takes. `last` is the index of
// the last byte that it may have.
pub fn groups(rest: &[u8], at: usize, last: usize) -> Result<(u128, usize), ByteFault>
    requires { last < 10 }
    ensures exact { result ≡ groups_at at last rest.now }
    ensures within { IfOk result (λ found. found.1 ≤ length rest.now) }
{
    let mut number: u128 = 0;
    for (place, byte) in rest.iter().enumerate() {
        number |= u128::from(*byte & 0x7f) << (7 * place);
        if *byte < 0x80 {
            if *byte == 0 && place > 0 {
                return Err(ByteFault::LongVarint { at });
            }
            return Ok((number, place + 1));
        }
        if place == last {
            return Err(ByteFault::LongVarint { at });
        }
    }
    Err(ByteFault::Short { at })
}

// 0, 1, 2, 3, 4 and so on stand for 0, -1, 1, -2, 2.
pub fn signed(number: u64) -> i64
    ensures { result ≡ unzigzag number }
{
    let half = (number / 2) as i64;
    if number % 2 == 0 { half } else { -1 - half }
}

// 0, -1, 1, -2, 2 and so on become 0, 1, 2, 3, 4.
pub fn unsigned(value: i64) -> u64
    ensures { result ≡ zigzag value }
{
    if value < 0 {
        2 * ((-1 - value) as u64) + 1
    } else {
        2 * (value as u64)
    }
}

// Writes a number. `last` is the index of the last byte that it may have.
pub fn put_groups(out: &mut Bytes, number: u64, last: usize) -> Result<(), NoMemory>
    requires last { last < 10 }
    requires number { number < 128 ^ (last + 1) }
    ensures ok { OnOk result (out.new ≡ out.old ++ spelling last number) }
    ensures err { OnErr result (out.new ≡ out.old) }
{
    let mut bytes = [0; 10];
    let mut count = 0;
    let mut rest = number;
    while rest >= 128 {
        bytes[count] = (rest % 128) as u8 + 128;
        rest /= 128;
        count += 1;
    }
    bytes[count] = rest as u8;
    out.extend(&bytes[..count + 1])
}
