//! What is kept of a request that waits.

use kanswer::Accepted;
use kbytes::List;
use opcond::Op;

/// What became of each partition that a request names, and its operation.
#[derive(Drop)]
pub struct Parked {
    pub accepted: List<Accepted>,
    pub op: Op,
}
