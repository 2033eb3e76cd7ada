//! Whether the words that a pass has written describe an operation: `CallerPart::may_open` asks this, so a pass never opens
//! anything else.
ghost use Rattle.std.specs.Prelude.{◌≡◌, ◌≢◌, ◌↔◌, ℕ, ◌+◌, ◌*◌, ◌<◌, ◌^◌, IsTrue, length};
ghost use Rattle.room_core.specs.CallerTables.{table};
ghost use Rattle.room_core.specs.Description.{IsOperation, gauge_of};
ghost use Rattle.room_core.specs.Gauges.{clock_of};

use crate::description::{
    CAP_WORD, DESCRIPTION_WORDS, GAUGE_WORD, LEAST_WORD, NEED_WORDS, NEEDS_WORD,
};
use crate::gauges::clock;
use crate::numbers::{CAP_LIMIT, MOST_NEEDS};
use crate::shape::Shape;

/// Whether a need's gauge is one of the room's and isn't the clock, and its cap is below 2^31.
fn is_need(shape: Shape, words: &[u64], i: u32) -> bool
    requires words { length words.now ≡ DESCRIPTION_WORDS }
    requires need { i < MOST_NEEDS }
    ensures { IsTrue result
        ↔ ((gauge_of (table words.now 0) i < clock_of shape) × (table words.now 0 (5 + 3 * i) < 2 ^ 31)) }
{
    words[(GAUGE_WORD + NEED_WORDS * i) as usize] < u64::from(clock(shape))
        && words[(CAP_WORD + NEED_WORDS * i) as usize] < CAP_LIMIT
}

/// Whether no earlier need has the gauge of need `i`.
fn is_new(words: &[u64], i: u32) -> bool
    requires words { length words.now ≡ DESCRIPTION_WORDS }
    requires need { i < MOST_NEEDS }
    ensures { IsTrue result
        ↔ ((j : ℕ) → j < i → gauge_of (table words.now 0) j ≢ gauge_of (table words.now 0) i) }
{
    for j in 0..i {
        if words[(GAUGE_WORD + NEED_WORDS * j) as usize]
            == words[(GAUGE_WORD + NEED_WORDS * i) as usize]
        {
            return false;
        }
    }
    true
}

/// Whether the words describe an operation.
pub(crate) fn is_operation(shape: Shape, words: &[u64]) -> bool
    requires { length words.now ≡ DESCRIPTION_WORDS }
    ensures { IsTrue result ↔ IsOperation shape (table words.now 0) }
{
    let needs = words[NEEDS_WORD as usize];
    if needs > MOST_NEEDS || words[LEAST_WORD as usize] >= CAP_LIMIT {
        return false;
    }
    for i in 0..needs as u32 {
        if !is_need(shape, words, i) {
            return false;
        }
        if !is_new(words, i) {
            return false;
        }
    }
    true
}
