//! One shard of keyed watchers: who watches a key, and since which generation of its id.
//!
//! Kafka's purgatory lists a delayed operation under each key that may complete it. When a key
//! changes, its watchers are looked at; those that are done elsewhere stay in the list, and are purged
//! from time to time. Here a key and an id are numbers, and the generation of an id tells its
//! present operation from earlier ones: a watcher of another generation is stale.
//!
//! The layer above may use `Shard`: `each` walks the watchers of a key, `drop_stale` takes one out,
//! and `purge` all that are stale. Nothing takes memory after `new`.
#![tactic(auto)]

mod row;
mod shard;
mod watch;

pub use shard::{MOST_WATCHERS, Shard};
pub use watch::Watch;
