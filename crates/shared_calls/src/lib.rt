//! The calls of a request over logs that threads share: it is accepted, and where it had to wait and was won it is completed.
//!
//! `accept` decides each partition that the request names, in order; where a log is asked the call leaves an entry there, in a turn of its
//! lock. Of what came the layer above asks whether the request waits, or makes its reply. `complete` brings a delayed request that was won
//! to its end: its call looks at each partition of its operation, in a turn whose state is no older than what makes it due, and reads what
//! the reply takes there.
#![tactic(auto)]

mod accepting;
mod came;
mod completing;
mod fetching;
mod few;
mod looking;
mod named;
mod producing;
mod reading;
mod values;

pub use accepting::{Asking, accept};
pub use came::Came;
pub use completing::{Completing, complete};
