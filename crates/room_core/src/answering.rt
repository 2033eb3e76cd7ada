//! Whether readings of the gauges answer an operation. The owner's steps ask all of it; a scanner's checks only look up what was
//! read.
ghost use Rattle.std.specs.Prelude.{◌≡◌, ◌↔◌, ◌+◌, ◌*◌, ◌<◌, ◌≤◌, ◌||◌, IsSome, IsTrue, None as Nothing, length};
ghost use Rattle.opcond.specs.Tally.{counted};
ghost use Rattle.room_core.specs.CallerTables.{table};
ghost use Rattle.room_core.specs.Checks.{AreRead, IsRead, IsWon, is_overdue, is_satisfied};
ghost use Rattle.room_core.specs.Description.{gauge_of, need_of};
ghost use Rattle.room_core.specs.Readings.{read_only};

use crate::description::{
    CAP_WORD, DEADLINE_WORD, DESCRIPTION_WORDS, GAUGE_WORD, LEAST_WORD, NEED_WORDS, NEEDS_WORD,
    START_WORD,
};
use crate::event::How;
use crate::gauges::clock;
use crate::numbers::MOST_NEEDS;
use crate::shape::Shape;

/// What was read of a gauge, or 0 where nothing was.
pub(crate) fn read_of(readings: &[Option<u64>], gauge: u64) -> u64
    ensures { result ≡ read_only (table readings.now Nothing) gauge }
{
    if gauge >= readings.len() as u64 {
        return 0;
    }
    readings[gauge as usize].unwrap_or(0)
}

/// Whether a gauge was read.
pub(crate) fn has_read(readings: &[Option<u64>], gauge: u64) -> bool
    ensures { IsTrue result ↔ IsSome (table readings.now Nothing gauge) }
{
    if gauge >= readings.len() as u64 {
        return false;
    }
    readings[gauge as usize].is_some()
}

/// How much of a need counts.
fn part_of(words: &[u64], i: u32, readings: &[Option<u64>]) -> u64
    requires words { length words.now ≡ DESCRIPTION_WORDS }
    requires need { i < MOST_NEEDS }
    ensures { result ≡ counted (need_of (table words.now 0) i) (read_only (table readings.now Nothing) (gauge_of (table words.now 0) i)) }
{
    let value = read_of(readings, words[(GAUGE_WORD + NEED_WORDS * i) as usize]);
    let past = value.saturating_sub(words[(START_WORD + NEED_WORDS * i) as usize]);
    words[(CAP_WORD + NEED_WORDS * i) as usize].min(past)
}

/// Whether the readings satisfy the operation. Needs past the 64th count nothing.
pub(crate) fn is_satisfied(words: &[u64], readings: &[Option<u64>]) -> bool
    requires { length words.now ≡ DESCRIPTION_WORDS }
    ensures { result ≡ is_satisfied (table words.now 0) (table readings.now Nothing) }
{
    let needs = words[NEEDS_WORD as usize].min(MOST_NEEDS);
    let mut left = words[LEAST_WORD as usize];
    for i in 0..needs as u32 {
        left = left.saturating_sub(part_of(words, i, readings));
    }
    left == 0
}

/// Whether the clock's reading is at the deadline or past it.
pub(crate) fn is_overdue(shape: Shape, words: &[u64], readings: &[Option<u64>]) -> bool
    requires { length words.now ≡ DESCRIPTION_WORDS }
    ensures { result ≡ is_overdue shape (table words.now 0) (table readings.now Nothing) }
{
    words[DEADLINE_WORD as usize] <= read_of(readings, u64::from(clock(shape)))
}

/// Whether the readings show that the operation may be won in this way.
pub(crate) fn is_won(shape: Shape, how: How, words: &[u64], readings: &[Option<u64>]) -> bool
    requires { length words.now ≡ DESCRIPTION_WORDS }
    ensures { IsTrue result ↔ IsWon shape how (table words.now 0) (table readings.now Nothing) }
{
    match how {
        How::Satisfied => is_satisfied(words, readings),
        How::Expired => {
            has_read(readings, u64::from(clock(shape))) && is_overdue(shape, words, readings)
        }
    }
}

/// The gauge of a need, or 0 past the end of the description.
fn gauge_of(words: &[u64], i: u32) -> u64
    requires words { length words.now ≡ DESCRIPTION_WORDS }
    requires need { i ≤ MOST_NEEDS }
    ensures { result ≡ gauge_of (table words.now 0) i }
{
    if u64::from(i) == MOST_NEEDS {
        return 0;
    }
    words[(GAUGE_WORD + NEED_WORDS * i) as usize]
}

/// Whether a gauge was read, or is the one that is read last.
pub(crate) fn is_read(readings: &[Option<u64>], last: u32, gauge: u64) -> bool
    ensures { IsTrue result ↔ IsRead (table readings.now Nothing) last gauge }
{
    has_read(readings, gauge) || gauge == u64::from(last)
}

/// Whether each need's gauge was read, or is the one that is read last. Needs past the 64th all have gauge 0, so one look is enough.
pub(crate) fn are_read(words: &[u64], readings: &[Option<u64>], last: u32) -> bool
    requires { length words.now ≡ DESCRIPTION_WORDS }
    ensures { IsTrue result ↔ AreRead (table readings.now Nothing) last (table words.now 0) }
{
    let needs = words[NEEDS_WORD as usize].min(MOST_NEEDS + 1);
    for i in 0..needs as u32 {
        if !is_read(readings, last, gauge_of(words, i)) {
            return false;
        }
    }
    true
}

/// Whether the readings make the operation answerable.
pub(crate) fn is_answerable(shape: Shape, words: &[u64], readings: &[Option<u64>]) -> bool
    requires { length words.now ≡ DESCRIPTION_WORDS }
    ensures { result ≡ (is_satisfied (table words.now 0) (table readings.now Nothing)
        || is_overdue shape (table words.now 0) (table readings.now Nothing)) }
{
    is_satisfied(words, readings) || is_overdue(shape, words, readings)
}
