//! The causes for which a `PartLog` refuses a batch or a follower's fetch, and their texts.

ghost use Rattle.std.specs.Prelude.{◌≡◌};

use kbytes::NoMemory;
use std::error::Error;
use std::fmt;

/// Why a batch isn't appended. The log is as it was.
#[derive(Clone, Copy, Debug, PartialEq, Eq)]
pub enum LogFault {
    /// The log would have more than `MOST_LOG_BYTES` bytes.
    LogFull,
    /// Out of memory.
    NoMemory,
}

impl fmt::Display for LogFault {
    fn fmt<W: fmt::Write>(&self, f: &mut fmt::Formatter<W>) -> fmt::Result {
        match self {
            LogFault::LogFull => write!(f, "the log would have more than 67,108,864 bytes"),
            LogFault::NoMemory => write!(f, "no memory was left"),
        }
    }
}

impl Error for LogFault {}

impl From<NoMemory> for LogFault {
    ghost use Rattle.partlog.specs.declared.fault.LogFault.TheVariants.{NoMemory as OutOfMemory};

    ghost from_gives = { λ _ fault. fault ≡ OutOfMemory };

    fn from(_refused: NoMemory) -> LogFault {
        LogFault::NoMemory
    }
}

/// Why a follower's fetch isn't entered. The log is as it was.
#[derive(Clone, Copy, Debug, PartialEq, Eq)]
pub enum FollowFault {
    /// The replica isn't one of the followers, which are numbered from 1.
    NoReplica,
    /// The offset is below 0 or above the log end.
    OutOfRange { log_end: u64 },
    /// Out of memory.
    NoMemory,
}

impl fmt::Display for FollowFault {
    fn fmt<W: fmt::Write>(&self, f: &mut fmt::Formatter<W>) -> fmt::Result {
        match self {
            FollowFault::NoReplica => write!(f, "the replica isn't one of the followers"),
            FollowFault::OutOfRange { log_end } => write!(
                f,
                "the offset isn't between 0 and the log end {log_end}"
            ),
            FollowFault::NoMemory => write!(f, "no memory was left"),
        }
    }
}

impl Error for FollowFault {}

impl From<NoMemory> for FollowFault {
    ghost use Rattle.partlog.specs.declared.fault.FollowFault.TheVariants.{NoMemory as OutOfMemory};

    ghost from_gives = { λ _ fault. fault ≡ OutOfMemory };

    fn from(_refused: NoMemory) -> FollowFault {
        FollowFault::NoMemory
    }
}
