//! The tally that a shard's scanner computes from the words that it has learned. They may be a mixture of two descriptions, so
//! `opcond`, which wants a valid operation, can't be asked.
ghost use Rattle.std.specs.Prelude.{◌≡◌, ◌<◌, ◌≤◌, ◌+◌, ◌*◌, ℕ, length, slice_index};
ghost use Rattle.opcond.specs.Tally.{counted};
ghost use Rattle.room_core.specs.Description.{cap_word, gauge_of, gauge_word, need_of, tally_below};
ghost use Rattle.room_core.specs.Numbers.{most_needs};

use room_core::{CAP_WORD, GAUGE_WORD, NEED_WORDS, START_WORD};

// How much of a value counts for the need with this number.
fn part(words: &[u64], values: &[u64], need: u32) -> u64
    requires need { cap_word need < length words.now }
    requires few { need < most_needs }
    requires gauge { gauge_of (slice_index words.now) need < length values.now }
    ensures { result ≡ counted (need_of (slice_index words.now) need) (slice_index values.now (gauge_of (slice_index words.now) need)) }
{
    let gauge = words[(GAUGE_WORD + NEED_WORDS * need) as usize] as usize;
    let start = words[(START_WORD + NEED_WORDS * need) as usize];
    let cap = words[(CAP_WORD + NEED_WORDS * need) as usize];
    cap.min(values[gauge].saturating_sub(start))
}

/// The tally of the first needs of a description at these values of the gauges. Its caps may be of any size, and their sum above
/// 64 bits.
#[tactic(auto, using(room_core::proofs::Laws::tally_more, room_core::proofs::Laws::tally_none))]
pub(crate) fn tally(words: &[u64], values: &[u64], needs: u32) -> u128
    requires few { needs ≤ most_needs }
    requires words { gauge_word needs ≤ length words.now }
    requires gauges { (i : ℕ) → i < needs → gauge_of (slice_index words.now) i < length values.now }
    ensures { result ≡ tally_below (slice_index words.now) (slice_index values.now) needs }
{
    let mut total: u128 = 0;
    for need in 0..needs {
        total += u128::from(part(words, values, need));
    }
    total
}
