//! A line of a trace as data, the limits of a trace, and what can be wrong with a line. `reading` makes lines of a text, and
//! brokers play them.

ghost use Rattle.std.specs.Prelude.{◌≡◌};
ghost use Rattle.trace_file.specs.declared.line.TraceFault.TheVariants.{NoMemory as OutOfMemory};

use kbytes::{Bytes, NoMemory};
use thiserror::Error;

/// The number of sessions that a trace may have. They are numbered from 0.
pub const MOST_SESSIONS: u32 = kbytes::MOST_SESSIONS;

/// The greatest number of a session of a trace.
pub const LAST_SESSION: u32 = MOST_SESSIONS - 1;

/// The greatest number of partitions, followers or in-sync replicas that a line may write. A topic may have fewer.
pub const MOST_NUMBER: u32 = 4_294_967_295;

/// The greatest moment that a line may write, in milliseconds.
pub const LAST_MOMENT: u64 = kbytes::MOST_MOMENT;

/// The most bytes that a trace may have.
pub const MOST_TRACE_BYTES: usize = 67_108_864;

/// The port that metadata names in a replay.
pub const REPLAY_PORT: u16 = 9092;

/// A line of a trace.
#[derive(Drop)]
pub enum Line {
    /// `topic NAME PARTITIONS FOLLOWERS MIN` declares a topic. Without MIN the least number of in-sync replicas is 1.
    Topic {
        name: Bytes,
        partitions: u32,
        followers: u32,
        min_insync: u32,
    },
    /// `bytes S HEX`: the session receives these bytes.
    Feed {
        session: u32,
        bytes: Bytes,
    },
    /// `close S`: the input of the session ends.
    Shut {
        session: u32,
    },
    /// `clock T`: the clock's moment rises to this one, in milliseconds.
    Clock {
        t: u64,
    },
    /// `end`: the trace ends.
    End,
}

/// What is wrong with a line. A line's kind is the first that applies, in the order of the variants, except that `Order`
/// comes before `BadTopic`. Where no line is bad, `NoEnd` is the kind of the line after the last one. `TooLong` is the kind
/// of the line that goes past the limit, and comes before every other.
#[derive(Debug, Drop, Error, Clone, Copy, PartialEq, Eq)]
pub enum LineKind {
    #[error("a line begins with topic, bytes, close, clock or end")]
    Word,
    #[error("a line has as many words as its kind, and one space between two words")]
    Form,
    #[error("a session is a number from 0 to 63, a moment from 0 to 10^15, partitions, followers and in-sync replicas from 0 to \
         4294967295, with no leading zeros")]
    Number,
    #[error("bytes are written as pairs of hex digits")]
    Hex,
    #[error("a topic has a new name of at most 249 letters, digits, dots, underscores and hyphens, at least 1 partition, at most 64 \
         with those of other topics, at most 8 followers, and a least number of in-sync replicas from 1 to one more than its \
         followers")]
    BadTopic,
    #[error("topics stand first and end last, the clock never goes back, and nothing more comes for a session that is closed")]
    Order,
    #[error("the line end is missing")]
    NoEnd,
    #[error("a trace has at most 67108864 bytes")]
    TooLong,
}

/// The first bad line, counted from 1.
#[derive(Debug, Drop, Error, Clone, Copy, PartialEq, Eq)]
#[error("line {line}: {kind}")]
pub struct LineFault {
    pub line: u32,
    pub kind: LineKind,
}

/// Why a text isn't read as a trace: its first bad line, or out of memory.
#[derive(Debug, Drop, Error)]
pub enum TraceFault {
    #[error(transparent)]
    Bad(LineFault),
    #[error("no memory was left")]
    NoMemory,
}

impl From<NoMemory> for TraceFault {
    ghost from_gives = { λ _ e. e ≡ OutOfMemory };

    fn from(_refused: NoMemory) -> TraceFault {
        TraceFault::NoMemory
    }
}
