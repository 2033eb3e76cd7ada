//! The checks of a batch's header, one function each. `read` calls them in the order of `BatchFault`.

ghost use Rattle.std.specs.Prelude.{◌≡◌, ◌<◌, ◌≤◌, ◌+◌, ◌^◌, length, pos, ◌+ℤ◌, OnOk, IfOk, IfErr, drop};
ghost use Rattle.std.specs.Int.{w8, w16, w32, IsBitSet};
ghost use Rattle.kbatch.specs.Crc.{crc32c_of};
ghost use Rattle.kbatch.specs.Batch.{most_bytes, codec_of};
ghost use Rattle.kbatch.specs.Kept.{kept_number, kept_integer, kept_length, kept_magic, kept_crc, kept_attributes, kept_last, kept_count, count_of};
ghost use Rattle.kbatch.specs.Fault.{NoneBefore, IsFirstFault};

use crate::crc::crc32c;
use crate::fault::BatchFault;

/// The bytes of a header.
pub(crate) const HEAD: usize = 61;
/// The most bytes of a batch.
pub(crate) const MOST: usize = 1_048_588;
/// The attribute of a batch of a transaction.
const TRANSACTIONAL: u16 = 1 << 4;
/// The attribute of a control batch.
const CONTROL: u16 = 1 << 5;

pub(crate) fn u32_at(bytes: &[u8], place: usize) -> u32
    requires { place + 4 ≤ length bytes.now }
    ensures { result ≡ kept_number w32 place bytes.now }
{
    let part = &bytes[place..place + 4];
    u32::from_be_bytes([part[0], part[1], part[2], part[3]])
}

fn i32_at(bytes: &[u8], place: usize) -> i32
    requires { place + 4 ≤ length bytes.now }
    ensures { result ≡ kept_integer w32 place bytes.now }
{
    let part = &bytes[place..place + 4];
    i32::from_be_bytes([part[0], part[1], part[2], part[3]])
}

pub(crate) fn check_size(bytes: &[u8]) -> Result<(), BatchFault>
    ensures most { OnOk result (length bytes.now ≤ most_bytes) }
    ensures least { OnOk result (61 ≤ length bytes.now) }
    ensures before { OnOk result (NoneBefore 3 bytes.now) }
    ensures fault { IfErr result (λ f. IsFirstFault bytes.now f) }
{
    if bytes.len() > MOST {
        return Err(BatchFault::TooLarge { len: bytes.len() });
    }
    if bytes.len() < HEAD {
        return Err(BatchFault::Short);
    }
    Ok(())
}

#[tactic(auto, unfolding(crate::specs::Kept::kept_length))]
pub(crate) fn check_length(bytes: &[u8]) -> Result<(), BatchFault>
    requires most { length bytes.now ≤ most_bytes }
    requires least { 61 ≤ length bytes.now }
    requires before { NoneBefore 3 bytes.now }
    ensures stands { OnOk result (kept_length bytes.now +ℤ pos 12 ≡ pos (length bytes.now)) }
    ensures before { OnOk result (NoneBefore 4 bytes.now) }
    ensures fault { IfErr result (λ f. IsFirstFault bytes.now f) }
{
    let kept = i32_at(bytes, 8);
    if i64::from(kept) + 12 != bytes.len() as i64 {
        return Err(BatchFault::Length { kept });
    }
    Ok(())
}

#[tactic(auto, unfolding(crate::specs::Kept::kept_magic))]
pub(crate) fn check_magic(bytes: &[u8]) -> Result<(), BatchFault>
    requires least { 61 ≤ length bytes.now }
    requires before { NoneBefore 4 bytes.now }
    ensures stands { OnOk result (kept_magic bytes.now ≡ pos 2) }
    ensures before { OnOk result (NoneBefore 5 bytes.now) }
    ensures fault { IfErr result (λ f. IsFirstFault bytes.now f) }
{
    let part = &bytes[16..17];
    let found = i8::from_be_bytes([part[0]]);
    if found != 2 {
        return Err(BatchFault::Magic { found });
    }
    Ok(())
}

#[tactic(auto, unfolding(crate::specs::Kept::kept_crc))]
pub(crate) fn check_crc(bytes: &[u8]) -> Result<(), BatchFault>
    requires least { 61 ≤ length bytes.now }
    requires before { NoneBefore 5 bytes.now }
    ensures stands { OnOk result (kept_crc bytes.now ≡ crc32c_of (drop 21 bytes.now)) }
    ensures before { OnOk result (NoneBefore 6 bytes.now) }
    ensures fault { IfErr result (λ f. IsFirstFault bytes.now f) }
{
    let kept = u32_at(bytes, 17);
    let (_, covered) = bytes.split_at(21);
    let found = crc32c(covered);
    if kept != found {
        return Err(BatchFault::Crc { kept, found });
    }
    Ok(())
}

#[tactic(auto, unfolding(crate::specs::Kept::kept_attributes))]
pub(crate) fn check_attributes(bytes: &[u8]) -> Result<(), BatchFault>
    requires least { 61 ≤ length bytes.now }
    requires before { NoneBefore 6 bytes.now }
    ensures plain { OnOk result (codec_of (kept_attributes bytes.now) ≡ 0) }
    ensures no_transaction { OnOk result (¬ IsBitSet (kept_attributes bytes.now) 4) }
    ensures no_control { OnOk result (¬ IsBitSet (kept_attributes bytes.now) 5) }
    ensures before { OnOk result (NoneBefore 8 bytes.now) }
    ensures fault { IfErr result (λ f. IsFirstFault bytes.now f) }
{
    let part = &bytes[21..23];
    let attributes = u16::from_be_bytes([part[0], part[1]]);
    let codec = (attributes % 8) as u8;
    if codec != 0 {
        return Err(BatchFault::Compressed { codec });
    }
    if attributes & TRANSACTIONAL != 0 || attributes & CONTROL != 0 {
        return Err(BatchFault::Control);
    }
    Ok(())
}

#[tactic(auto, unfolding(crate::specs::Kept::kept_last, crate::specs::Kept::kept_count, crate::specs::Kept::count_of))]
pub(crate) fn check_count(bytes: &[u8]) -> Result<u32, BatchFault>
    requires least { 61 ≤ length bytes.now }
    requires before { NoneBefore 8 bytes.now }
    ensures count { IfOk result (λ count. kept_count bytes.now ≡ pos count) }
    ensures some_record { IfOk result (λ count. 1 ≤ count) }
    ensures number { IfOk result (λ count. count ≡ count_of bytes.now) }
    ensures fits { IfOk result (λ count. count < 2 ^ 31) }
    ensures last { IfOk result (λ count. kept_last bytes.now +ℤ pos 1 ≡ pos count) }
    ensures before { OnOk result (NoneBefore 9 bytes.now) }
    ensures fault { IfErr result (λ f. IsFirstFault bytes.now f) }
{
    let count = i32_at(bytes, 57);
    let last = i32_at(bytes, 23);
    if count < 1 || last != count - 1 {
        return Err(BatchFault::Count { count, last });
    }
    Ok(count as u32)
}
