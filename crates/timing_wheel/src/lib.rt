//! Hierarchical timing wheels: ids with deadlines, and the ids that are due.
//!
//! A list sorted by deadline pays for each insert, and one bucket for each millisecond pays in
//! memory. Timing wheels (Varghese and Lauck, 1987) are like the hands of a clock. The lowest wheel
//! has 20 buckets of 1 ms each. One bucket of the next wheel spans a whole turn of it, 20 ms; one
//! of the third 400 ms; and the eighth wheel reaches 24 billion ms ahead. A near deadline goes to
//! the exact millisecond, a far one into a coarse bucket, and when that bucket starts the entry is
//! put again, into a finer one.
//!
//! At moment 0 an id is inserted with the deadline 1,234. Level 0 ends at 20 and level 1 at 400.
//! Level 2 ends at 8,000, so the id goes there, into bucket 3: its 400 ms start at 1,200.
//!
//! ```text
//! moment 0      level 2  |     0 |   400 |   800 | *1200 |  1600 | ..   1234 / 400 = 3
//! moment 1,200  level 1  |  1200 | *1220 |  1240 | ..                   1234 / 20 = 61, mod 20: 1
//! moment 1,220  level 0  |  1220 |  1221 | ..    | *1234 | ..           1234 mod 20 = 14
//! moment 1,234  due
//! ```
//!
//! The wheels don't tick. `Wheels::pop_due` turns them to any later moment at once and empties the
//! buckets that start on the way, at most 20 of each level, the lowest level first: what is put
//! again goes to a lower level, where the turn has been. Each level has a moment before which no
//! bucket that holds an entry starts. A turn that stays before it has nothing to do there, so a step
//! over empty buckets reads eight moments and moves on.
//!
//! The layer above may use `Wheels` and `Due`: `insert`, `remove`, `deadline` and `where_is` in
//! constant time, and `pop_due` in the time of the entries that it moves and the buckets that it passes. Nothing
//! takes memory after `new`.
#![tactic(auto)]

mod buckets;
mod due;
mod entries;
mod laws;
mod numbers;
mod place;
mod timer;
mod turn;
mod wheels;

pub use due::Due;
pub use laws::level_exists;
pub use numbers::LEVELS;
pub use place::Place;
pub use timer::Timer;
pub use wheels::Wheels;
