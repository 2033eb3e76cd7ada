//! What session words and parts are made of. The layers above use `Session`, `Phase` and `Entry`; the other types are in the
//! machine's own tables and in contracts.
use crate::event::How;

/// What a session word says of its operation.
#[derive(Clone, Copy)]
pub enum Phase {
    Idle,
    Open,
    /// Won by the winner with this number: a scanner's own, or 17 more than a pass's.
    Won { how: How, by: u32 },
}

/// A pass's session word: which operation, counted from 1, and what became of it.
#[derive(Clone, Copy)]
pub struct Session {
    pub generation: u32,
    pub phase: Phase,
}

/// How far a caller is with its operation.
#[derive(Clone, Copy, PartialEq, Eq)]
pub enum Stage {
    Idle,
    /// It waits for the scanners to list its operation.
    Listing,
    /// It reads the gauges of its operation and the clock.
    Checking,
    Waiting,
    /// It knows how the operation was won, and by whom.
    Over { how: How, by: u32 },
}

/// What a source knows: the value that it stored, and whether it has yet to see that a scan up to it was asked for.
#[derive(Clone, Copy)]
pub struct Source {
    pub stored: u64,
    pub loud: bool,
}

/// What a scanner has heard of a gauge.
#[derive(Clone, Copy)]
pub struct Heard {
    pub gauge: u32,
    pub number: u64,
}

/// An operation in a listing: its generation, and in the clock's listing its deadline (elsewhere 0).
#[derive(Clone, Copy)]
pub struct Entry {
    pub generation: u32,
    pub deadline: u64,
}

/// An operation that a scan has yet to check, and the gauge that was scanned.
#[derive(Clone, Copy)]
pub struct Duty {
    pub gauge: u32,
    pub generation: u32,
}

/// The pass whose open operation a scanner has met.
#[derive(Clone, Copy)]
pub struct Meeting {
    pub pass: u32,
    pub generation: u32,
}

/// One exchange that a winner won.
#[derive(Clone, Copy)]
pub struct Prize {
    pub pass: u32,
    pub generation: u32,
    pub how: How,
}

/// The end of an operation, as its pass took it.
#[derive(Clone, Copy)]
pub struct Taken {
    pub generation: u32,
    pub how: How,
    pub by: u32,
}
