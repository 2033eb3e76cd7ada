//! One partition's log and history, and the clock's history.
//!
//! The layer above sees a `PartLog` as its log's bytes, its number of followers and its whole history. It appends batches,
//! enters the fetches of followers, takes those out of the in-sync set that lag, reads the numbers that follow from the
//! history, and takes log and history in the end.
//! A `ClockLog` is the clock's history, and its moment follows from it. Each entry names the pass and the call that made
//! it, so that a call's answer can be recomputed from the entries before it. Who of the followers is in sync, and the high watermark that
//! follows, is kept by an `InSync` of the part `in_sync`, which knows neither batches nor logs.
#![tactic(auto)]

mod batch_start;
mod clock_event;
mod clock_log;
mod event;
mod fault;
pub mod in_sync;
mod numbers;
mod part_log;
mod placed;
mod promises;
mod search;
mod who;

pub use clock_event::{ClockEvent, MOST_MOMENT};
pub use clock_log::ClockLog;
pub use event::PartEvent;
pub use fault::{FollowFault, LogFault};
pub use numbers::Numbers;
pub use part_log::{MOST_LOG_BYTES, PartLog};
pub use placed::Placed;
pub use promises::{fronts_are_kept, numbers_never_fall, visible_is_readable};
pub use who::Who;
