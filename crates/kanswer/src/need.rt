//! What a request needs of each partition: of which gauge, from which value on, and how much. `waiting` makes operations of
//! these needs.
ghost use Rattle.std.specs.Prelude.{◌≡◌, ◌<◌, ◌^◌, Some, IfSome, length, slice_get};
ghost use Rattle.kwire.specs.Views.{ask_of};
ghost use Rattle.opcond.specs.Tally.{counted};
ghost use Rattle.kanswer.specs.Reached.{reached_at};
ghost use Rattle.kanswer.specs.Results.{AreResults, IsBounded};
ghost use Rattle.kanswer.specs.Waiting.{fetch_need, needs_by_part, produce_need};

use crate::accepted::Accepted;
use crate::gauges::{fetched_gauge, high_gauge, value_of_gauge};
use crate::one_part::asked_at;
use kwire::{AskView, FetchPart};
use opcond::Need;
use partlog::Numbers;

// How much of a value counts for a need.
fn counted(need: &Need, value: u64) -> u64
    ensures { result ≡ counted need.now value }
{
    value.saturating_sub(need.start).min(need.cap)
}

// A produce needs the high watermark after its batch.
fn produce_need(became: &Accepted) -> Option<Need>
    requires { IsBounded became.now }
    ensures need { result ≡ produce_need became.now }
    ensures limit { IfSome result (λ need. need.cap < 2 ^ 31) }
{
    match *became {
        Accepted::Appended { part, base, count } => Some(Need {
            gauge: high_gauge(part),
            start: base + u64::from(count) - 1,
            cap: 1,
        }),
        Accepted::Refused { .. } | Accepted::Seen { .. } => None,
    }
}

// A consumer needs visible bytes, a follower bytes.
fn fetch_need(replica: i32, asked: &FetchPart, became: &Accepted) -> Option<Need>
    requires { IsBounded became.now }
    ensures need { result ≡ fetch_need replica (asked.now, became.now) }
    ensures limit { IfSome result (λ need. need.cap < 2 ^ 31) }
{
    match *became {
        Accepted::Seen { part, start } => Some(Need {
            gauge: fetched_gauge(replica, part),
            start,
            cap: asked.most.max(0) as u64,
        }),
        Accepted::Refused { .. } | Accepted::Appended { .. } => None,
    }
}

/// What a request needs of the partition that it names at this place. Places count from 0, over all topics.
pub(crate) fn need_at(ask: &AskView<'_>, accepted: &[Accepted], at: usize) -> Option<Need>
    requires results { AreResults (ask_of ask.now) accepted.now }
    requires within { at < length accepted.now }
    ensures need { slice_get (needs_by_part (ask_of ask.now) accepted.now) at ≡ Some result }
    ensures limit { IfSome result (λ need. need.cap < 2 ^ 31) }
{
    match ask {
        AskView::Produce { .. } => produce_need(&accepted[at]),
        AskView::Fetch {
            replica,
            topics,
            ..
        } => {
            let asked = asked_at(topics.as_slice(), at as u32)?;
            fetch_need(*replica, asked, &accepted[at])
        }
        AskView::Metadata { .. } | AskView::Versions { .. } => None,
    }
}

/// How much of a need is reached by these numbers of its partition.
pub(crate) fn reached_at(need: Option<Need>, numbers: &Numbers) -> u64
    requires { IfSome need (λ n. n.cap < 2 ^ 31) }
    ensures reached { result ≡ reached_at need numbers.now }
    ensures limit { result < 2 ^ 31 }
{
    match need {
        Some(need) => counted(&need, value_of_gauge(need.gauge, numbers)),
        None => 0,
    }
}
