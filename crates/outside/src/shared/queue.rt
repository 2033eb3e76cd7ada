//! The bounded queue through which numbered links pass from the thread that accepted them to the one that serves them.
//!
//! A `LinkQueue` is shared, and each thread has a `QueuePass`, which knows what the thread put and took. The rule of the queue says that
//! what all passes put is what all took and what the queue holds, each link as often, in some order. A run of lanes starts with one pass
//! that has every part of the right to know the whole, gives threads passes by `another`, and puts them together again by `absorb`: a `pop`
//! that then answers `None` shows that each link that was put was taken, once.

mod condition;
mod crossing;
mod hand;
mod link_queue;
mod moves;
mod numbered;
mod queue_pass;

pub use condition::{AnyLink, Condition};
pub use link_queue::LinkQueue;
pub use numbered::Numbered;
pub use queue_pass::{PARTS, QueuePass};
