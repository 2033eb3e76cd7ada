//! The batches that a reply brings, one after the other.
ghost use Rattle.std.specs.Prelude.{◌≡◌, ◌≤◌, ◌<◌, ◌^◌, ◌+◌, [], ℕ, List, drop, length, IfErr, IfNone, IfOk, IfSome};
ghost use Rattle.kbatch.specs.Kept.{count_of, kept_length};
ghost use Rattle.follower.specs.Checking.{HasReached, IsNextBatch, IsNotNext, IsStuck};
ghost use Rattle.follower.specs.Logs.{base_of};
ghost use Rattle.follower.specs.Verdict.{IsPiece};

use crate::fault::TakeFault;
use kbatch::{BatchFault, BatchView, view_batch};

// The length in the header of the batch at the front.
#[tactic(auto, unfolding(kbatch::specs::Kept::kept_length))]
fn header_length(rest: &[u8]) -> i32
    requires { 12 ≤ length rest.now }
    ensures { result ≡ kept_length rest.now }
{
    i32::from_be_bytes([rest[8], rest[9], rest[10], rest[11]])
}

// How many bytes the piece at the front has by the length in its header, and nothing where not so many are there.
fn piece_size(rest: &[u8]) -> Option<usize>
    ensures some { IfSome result (IsPiece rest.now) }
    ensures none { IfNone result ((size : ℕ) → IsPiece rest.now size → ⊥) }
{
    if rest.len() < 12 {
        return None;
    }
    let size = i64::from(header_length(rest)) + 12;
    if size < 0 {
        return None;
    }
    let size = size as usize;
    if rest.len() < size {
        return None;
    }
    Some(size)
}

// The base offset in a batch's header.
fn base_offset(bytes: &[u8]) -> i64
    requires { 8 ≤ length bytes.now }
    ensures { result ≡ base_of bytes.now }
{
    i64::from_be_bytes([
        bytes[0], bytes[1], bytes[2], bytes[3], bytes[4], bytes[5], bytes[6], bytes[7],
    ])
}

// The batch at the front, which has to have this base offset. `at` is its place in the body.
fn next_batch(rest: &[u8], end: u64, at: usize) -> Result<BatchView<'_>, TakeFault>
    requires end { end < 2 ^ 63 }
    ensures batch { IfOk result (IsNextBatch end rest.now) }
    ensures fault { IfErr result (IsNotNext end rest.now at) }
{
    let Some(size) = piece_size(rest) else {
        return Err(TakeFault::BadBatch {
            at,
            why: BatchFault::Short,
        });
    };
    let batch = match view_batch(&rest[..size]) {
        Ok(batch) => batch,
        Err(why) => return Err(TakeFault::BadBatch { at, why }),
    };
    let found = base_offset(batch.bytes());
    if found != end as i64 {
        return Err(TakeFault::Gap { kept: end, found });
    }
    Ok(batch)
}

// What follows so many bytes.
fn behind(rest: &[u8], count: usize) -> &[u8]
    requires { count ≤ length rest.now }
    ensures { result.now ≡ drop count rest.now }
{
    let (_, after) = rest.split_at(count);
    after
}

/// How many batches were checked, and the offset after the last.
#[derive(Clone, Copy)]
pub(crate) struct Checked {
    pub(crate) count: u32,
    pub(crate) end: u64,
}

/// Checks that the records are batches from this offset on. `all` is the number of bytes of the body that they end.
pub(crate) fn check_batches(records: &[u8], from: u64, all: usize) -> Result<Checked, TakeFault>
    requires short { length records.now < 2 ^ 31 }
    requires from { from < 2 ^ 32 }
    requires within { length records.now ≤ all }
    ensures batches { IfOk result (λ checked. HasReached from records.now checked.count checked.end []) }
    ensures stuck { IfErr result (IsStuck from records.now all) }
{
    let mut rest = records;
    let mut count = 0;
    let mut end = from;
    while !rest.is_empty() {
        let batch = match next_batch(rest, end, all - rest.len()) {
            Ok(batch) => batch,
            Err(fault) => return Err(fault),
        };
        count += 1;
        end += u64::from(batch.count());
        rest = behind(rest, batch.bytes().len());
    }
    Ok(Checked { count, end })
}
