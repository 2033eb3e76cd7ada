//! The account as data. A broker records calls and transcripts while it runs, and makes the account of them when it closes.

use kbytes::{Bytes, List};
use kwire::{Config, WireFault};
use partlog::{ClockEvent, PartEvent};

/// The number of the clock's history, after those of the partitions.
pub const CLOCK_PART: u32 = 64;

/// The most calls of a pass.
pub const MOST_CALLS: u32 = 4_294_967_295;

/// A place in the history of a partition, or in that of the clock, which has the number `CLOCK_PART`.
#[derive(Clone, Copy, PartialEq, Eq)]
pub struct Point {
    pub part: u32,
    pub place: u64,
}

/// How a call ended, and by which winner.
#[derive(Clone, Copy, PartialEq, Eq)]
pub enum CallHow {
    /// It asked for no reply.
    Quiet,
    /// It was answered when it was accepted.
    AtOnce,
    /// It waited until its partitions' states satisfied it.
    Satisfied { by: u32 },
    /// It waited until its deadline.
    Expired { by: u32 },
    /// It still waits.
    Parked,
    /// It ran out of memory. `won` is its winner, if it had been won.
    Cut { won: Option<u32> },
}

/// A request that was handled: its frame without the size, the entries that it made when it was accepted, and those that it
/// made when it was completed. The reply isn't kept: it is computed from these.
#[derive(Drop)]
pub struct Call {
    pub frame: Bytes,
    pub accept: List<Point>,
    pub finish: List<Point>,
    pub how: CallHow,
}

/// How a session ended.
#[derive(Clone, Copy, PartialEq, Eq)]
pub enum SessionEnd {
    /// The input ended between frames.
    Closed,
    /// The input ended with that many bytes of a frame.
    Truncated { got: u32 },
    FrameTooLong { size: i32 },
    Refused { why: WireFault },
    /// The pass has 4,294,967,295 calls.
    CallsFull,
    ReadFault,
    WriteFault,
    NoMemory,
}

/// What one session did. Its call k is the pass's call number `first + k`.
#[derive(Drop)]
pub struct Transcript {
    pub number: u64,
    pub first: u32,
    pub calls: List<Call>,
    pub end: Option<SessionEnd>,
}

#[derive(Drop)]
pub struct PartAccount {
    pub followers: u32,
    pub log: Bytes,
    pub events: List<PartEvent>,
}

/// The account of a run: the topics, each partition's log and history, the clock's history, each pass's transcripts in the
/// order in which they began, and the number of operations that each winner completed.
#[derive(Drop)]
pub struct Account {
    pub config: Config,
    pub parts: List<PartAccount>,
    pub clock: List<ClockEvent>,
    pub passes: List<List<Transcript>>,
    pub wins: List<u64>,
}
