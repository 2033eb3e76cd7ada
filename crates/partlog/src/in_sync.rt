//! Who of a partition's followers is in sync with its leader, who lags, and the high watermark that follows.
//!
//! A partition has a leader and followers, which are numbered from 1 and copy the leader's log by fetching from where they
//! are. Those that keep up are the in-sync set. A record counts as replicated once all in the set have it: the high watermark
//! is the least of the log end and the positions of the followers in sync. A follower that hasn't caught up for `MOST_LAG`
//! milliseconds lags, and holds everyone up. So whoever keeps the partition asks at times who lags, and takes that one out of
//! the set. It comes back by a fetch from the high watermark or above it.
//!
//! ```text
//! let mut replicas = InSync::new(alloc, 1)?;
//! replicas.append(1);              // log end 1, high watermark 0: the follower hasn't fetched the record
//! replicas.lagging(29_999);        // None
//! replicas.lagging(30_000);        // Some(1)
//! replicas.leave(1, 30_000);       // count 1, the leader alone, and high watermark 1
//! replicas.append(1);              // high watermark 2
//! replicas.fetch(1, 1, 30_000);    // still out: 1 is below the high watermark
//! replicas.fetch(1, 2, 30_000);    // back in: count 2
//! ```
//!
//! An `InSync` keeps no history, and each call takes it from any history that it stands for to the one with an entry more.
//! What stands in such a history, and what follows from it, is said in `specs/`.

mod limits;
mod promises;
mod replicas;
mod standing;

pub use limits::MOST_LAG;
pub use promises::{
    high_watermark_never_falls, in_sync_again, lagging_is_tested, nobody_left, standings_say,
    worked_histories,
};
pub use replicas::InSync;
