//! What `next_frame` finds at the front of a stream, and the causes for which `view_request` refuses a frame's body.

ghost use Rattle.std.specs.Prelude.{◌≡◌};
ghost use Rattle.kwire.specs.declared.frame.WireFault.TheVariants.{BadRequest, NoMemory as OutOfMemory};
ghost use Rattle.kwire.specs.Reading.{place_of_fault};

use kbytes::{ByteFault, NoMemory};
use std::error::Error;
use std::fmt;

/// What is at the front of a stream.
#[derive(Clone, Copy, PartialEq, Eq)]
pub enum Frame {
    /// A whole frame, which ends before the place `end`.
    Whole { end: usize },
    /// Not a whole frame yet.
    NotYet,
    /// A size below 0 or above 8,388,608.
    TooLong { size: i32 },
}

/// Why the body of a frame is no request.
#[derive(Clone, Copy, Debug, PartialEq, Eq)]
pub enum WireFault {
    /// The field at this place is malformed, or there are bytes after the request.
    BadRequest { at: usize },
    UnknownApi { key: i16 },
    Unsupported { key: i16, version: i16 },
    /// More than 64 topics or partitions are named.
    TooMany { count: u32 },
    /// A partition is named twice; `topic` is the number of the later topic entry.
    Twice { topic: u32, partition: i32 },
    NoMemory,
}

impl fmt::Display for WireFault {
    fn fmt<W: fmt::Write>(&self, f: &mut fmt::Formatter<W>) -> fmt::Result {
        match self {
            WireFault::BadRequest { at } => write!(f, "the request doesn't read at {at}"),
            WireFault::UnknownApi { key } => write!(f, "the api {key} is unknown"),
            WireFault::Unsupported { key, version } => write!(
                f,
                "the version {version} of the api {key} isn't supported"
            ),
            WireFault::TooMany { count } => write!(f, "{count} topics or partitions are too many"),
            WireFault::Twice { topic, partition } => write!(
                f,
                "the partition {partition} of topic entry {topic} is named twice"
            ),
            WireFault::NoMemory => write!(f, "no memory was left"),
        }
    }
}

impl Error for WireFault {}

impl From<NoMemory> for WireFault {
    ghost from_gives = { λ _ fault. fault ≡ OutOfMemory };

    fn from(_refused: NoMemory) -> WireFault {
        WireFault::NoMemory
    }
}

impl From<ByteFault> for WireFault {
    ghost from_gives = { λ refused fault. fault ≡ BadRequest (place_of_fault refused) };

    fn from(refused: ByteFault) -> WireFault {
        match refused {
            ByteFault::Short { at } => WireFault::BadRequest { at },
            ByteFault::BadLength { at, .. } => WireFault::BadRequest { at },
            ByteFault::LongVarint { at } => WireFault::BadRequest { at },
        }
    }
}
