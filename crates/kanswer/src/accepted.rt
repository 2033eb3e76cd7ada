//! What the steps of answering hand on to each other: what became of each partition, what was read of it, and what the
//! reply may still take. Brokers keep these while a request waits.

ghost use Rattle.std.specs.Prelude.{◌≡◌};
ghost use Rattle.kanswer.specs.Waiting.{reply_limit};

use kbytes::Bytes;
use kwire::{AskView, RequestView};
use partlog::Numbers;

/// What became of one named partition of a request as it was accepted.
#[derive(Clone, Copy)]
pub enum Accepted {
    Refused { code: i16 },
    /// A batch of `count` records was appended to the partition's log, at the offset `base`.
    Appended { part: u32, base: u64, count: u32 },
    /// The partition is to be read, from the byte place `start` of its log on.
    Seen { part: u32, start: u64 },
}

/// What was read of one named partition.
#[derive(Drop)]
pub struct Reading {
    pub numbers: Numbers,
    pub records: Bytes,
}

/// How many bytes a reply may still take, and whether it has a batch already.
#[derive(Clone, Copy)]
pub struct Budget {
    pub left: u64,
    pub any: bool,
}

/// Where each log starts: no batch is ever removed from its front.
pub const LOG_START: i64 = 0;

/// The most bytes of records in a reply, whatever the request asks for.
pub const MOST_REPLY_BYTES: u64 = 52_428_800;

/// The most bytes of records in a reply to a fetch that asks for at most `max_bytes`.
pub(crate) fn reply_limit(max_bytes: i32) -> u64
    ensures { result ≡ reply_limit max_bytes }
{
    (max_bytes.max(0) as u64).min(MOST_REPLY_BYTES)
}

impl Budget {
    ghost use Rattle.kanswer.specs.LogReadings.{budget_of};

    /// What a reply to this request may take: for a fetch as many bytes as it asks for, but at most 52,428,800.
    pub fn of(request: &RequestView<'_>) -> Budget
        ensures { result ≡ budget_of request.now.ask }
    {
        let left = match &request.ask {
            AskView::Fetch { max_bytes, .. } => reply_limit(*max_bytes),
            AskView::Produce { .. } | AskView::Metadata { .. } | AskView::Versions { .. } => 0,
        };
        Budget { left, any: false }
    }
}
