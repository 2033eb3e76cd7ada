//! What `Room::register` and `Room::poll` answer. `Owner` makes a `Done` of the session word in which it finds its operation won.
use room_core::How;

/// How an operation ended, and the number of its winner: a shard's scanner (0 to 15), the clock's (16), or its own pass (17 plus its
/// number).
#[derive(Clone, Copy, PartialEq, Eq)]
pub struct Done {
    pub how: How,
    pub by: u32,
}

/// What became of an operation that was registered.
#[derive(Clone, Copy, PartialEq, Eq)]
pub enum Registered {
    /// It waits. After a scan has won it, `Room::poll` says so.
    Parked,
    /// It was won in this call.
    Won(Done),
}
