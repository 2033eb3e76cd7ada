//! What Kafka answers: what becomes of each partition that a request names, whether the request waits, and the reply to it.
//!
//! A request is decided partition by partition; `Decides` defines what becomes of each. For a partition of a produce the
//! layer above first calls `decide_put`, without the log. Then, with the log to itself, it appends the batch (`enter_batch`) or
//! enters the fetch (`enter_fetch`): either makes exactly one entry in the log's history. From what became of all partitions it
//! learns whether the request waits (`needs_op`), and as which operation (`op_of`). In the end it reads the partitions, one
//! at a time (`read_asked`, `read_numbers`), and makes the reply from the readings (`answer`), or its frame (`reply_frame`).
#![tactic(auto)]

mod accepted;
mod batch;
mod code;
mod described;
mod entered;
mod fetch;
mod fetched;
mod fetched_frame;
mod gauges;
mod look;
mod need;
mod one_part;
mod produced;
mod produced_frame;
mod promises;
mod put;
mod replies;
mod reply;
mod terms;
mod told_topics;
mod visitor;
mod waiting;

pub use accepted::{Accepted, Budget, LOG_START, MOST_REPLY_BYTES, Reading};
pub use batch::enter_batch;
pub use code::code_of;
pub use entered::Entered;
pub use fetch::enter_fetch;
pub use gauges::{
    end_gauge, fetched_gauge, high_gauge, partition_of, value_of_gauge, visible_gauge,
};
pub use one_part::{read_asked, read_nothing, read_numbers, read_part};
pub use promises::requests_are_decided;
pub use put::decide_put;
pub use replies::answer;
pub use reply::reply_frame;
pub use terms::{STORAGE_ERROR_VERSION, SentBatch, Terms};
pub use visitor::Visitor;
pub use waiting::{can_wait, is_quiet, needs_op, op_of};
