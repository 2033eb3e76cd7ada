//! Why a reply is not taken, and how following ends.

use kbatch::BatchFault;

/// Why a replica takes nothing of a reply. The first that applies comes, in this order, and leaves the replica as it was.
#[derive(Clone, Copy, Debug, PartialEq, Eq)]
pub enum TakeFault {
    /// The body isn't that of a reply to what was asked: `at` is the first byte of the field that doesn't read or differs.
    BadReply { at: usize },
    /// The leader answered with this code, which isn't 0.
    Refused { code: i16 },
    /// At this place of the body, by the length in its header, there is no batch.
    BadBatch { at: usize, why: BatchFault },
    /// A batch has the base offset `found`, where the log ends at `kept`.
    Gap { kept: u64, found: i64 },
    /// The log would have more than 67,108,864 bytes.
    ReplicaFull,
    /// Out of memory.
    NoMemory,
}

/// How following a leader ended.
#[derive(Clone, Copy, Debug, PartialEq, Eq)]
pub enum FollowEnd {
    /// All rounds were made.
    Done,
    /// The leader ended the connection between two replies.
    Closed,
    /// The leader ended the connection with that many bytes of a reply.
    Truncated { got: u32 },
    /// A reply has a size below 0 or above 8,388,608.
    FrameTooLong { size: i32 },
    /// A reply wasn't taken.
    Take(TakeFault),
    /// Reading failed.
    ReadFault,
    /// Writing failed.
    WriteFault,
    /// Out of memory.
    NoMemory,
}
