//! Which sessions wait for what on one thread, and which of them may have become answerable.
//!
//! A broker keeps for each session at most one delayed operation. After a line was played, few of
//! them can have become answerable: those that wait for a gauge that rose, and those whose deadline
//! has come. They are the suspects, and the broker checks no others.
//!
//! ```text
//! moment 0    session 3 waits for gauges 4 and 20, deadline 500     suspects: none
//!             gauge 20 rises                                        suspects: 3
//!             3 was checked and isn't answerable: `clear`           suspects: none
//! moment 500  the clock ticks                                       suspects: 3
//!             3 is answered: `done`                                 suspects: none
//! ```
//!
//! Gauges 4 and 20 are in one shard of watchers, which has every sixteenth gauge. When session 3 is
//! done, the watchers that it leaves are stale. A stale watcher goes when its gauge rises the next
//! time, and a shard with 500 watchers is purged before the next is listed. Deadlines are in timing
//! wheels.
//!
//! The layer above may use `Waiters`, and `SessionSet` for any set of sessions. No call but
//! `Waiters::new` takes memory.

mod session_set;
mod shelves;
mod waiters;
mod walk;

pub use session_set::{SESSIONS, SessionSet};
pub use shelves::GAUGES;
pub use waiters::Waiters;
