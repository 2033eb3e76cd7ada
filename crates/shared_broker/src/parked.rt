use kanswer::Accepted;
use kbytes::List;
use opcond::Op;

/// What is kept of a request that waits: what became of each partition that it names, and its operation.
#[derive(Drop)]
pub struct Parked {
    pub(crate) accepted: List<Accepted>,
    pub(crate) op: Op,
}
