//! Entering the fetch of one partition, by the broker that has the log to itself. What the reply takes of it is read later,
//! by `one_part`.
ghost use Rattle.std.specs.Prelude.{◌≡◌, ◌<◌, ◌≤◌, ◌≤ℤ◌, ℕ, pos, IfSome, IfNone, IfOk, OnErr};
ghost use Rattle.partlog.specs.Start.{start_of};
ghost use Rattle.partlog.specs.State.{state_of};
ghost use Rattle.kanswer.specs.Decisions.{Looked, fetch_outcome, in_range_outcome};
ghost use Rattle.kanswer.specs.Entered.{HasEntered};

use crate::Accepted;
use crate::entered::Entered;
use crate::look::look_at;
use crate::visitor::Visitor;
use kbytes::NoMemory;
use kwire::{FetchPart, codes};
use partlog::{FollowFault, PartLog};

// The offset, where it is between 0 and the log end.
fn offset_within(asked: &FetchPart, end: u64) -> Option<u64>
    ensures within { IfSome result (λ offset. (asked.now.offset ≡ pos offset) × (offset ≤ end)) }
    ensures outside { IfNone result ((offset : ℕ) → asked.now.offset ≡ pos offset → end < offset) }
{
    if asked.offset < 0 {
        return None;
    }
    let offset = asked.offset as u64;
    if offset > end { None } else { Some(offset) }
}

// A consumer's fetch only looks at the log.
fn consume(
    log: &mut PartLog,
    visitor: Visitor,
    part: u32,
    asked: &FetchPart,
) -> Result<Entered, NoMemory>
    ensures entered { IfOk result (λ entered.
        HasEntered visitor.who.by visitor.who.seq visitor.moment (in_range_outcome part asked.now.offset Looked) log.old log.new entered) }
    ensures refused { OnErr result (log.new ≡ log.old) }
{
    let Some(offset) = offset_within(asked, log.numbers().end) else {
        return look_at(
            log,
            visitor,
            Accepted::Refused {
                code: codes::OFFSET_OUT_OF_RANGE,
            },
        );
    };
    let start = log.locate(offset);
    look_at(log, visitor, Accepted::Seen { part, start })
}

// The byte place where reading from an offset begins. An offset below 0 counts as 0.
fn start_at(log: &PartLog, offset: i64) -> u64
    ensures { (at : ℕ) → offset ≡ pos at → result ≡ start_of at (state_of log.now) }
{
    if offset < 0 {
        return 0;
    }
    log.locate(offset as u64)
}

// A replica's fetch is entered where the replica is a follower and the offset in range.
fn follow(
    log: &mut PartLog,
    visitor: Visitor,
    replica: i32,
    part: u32,
    asked: &FetchPart,
) -> Result<Entered, NoMemory>
    requires { pos 0 ≤ℤ replica }
    ensures entered { IfOk result (λ entered.
        HasEntered visitor.who.by visitor.who.seq visitor.moment (fetch_outcome log.old.followers replica asked.now part)
        log.old log.new entered) }
    ensures refused { OnErr result (log.new ≡ log.old) }
{
    let start = start_at(log, asked.offset);
    match log.follow(visitor.who, replica, asked.offset, visitor.moment) {
        Ok(place) => Ok(Entered {
            became: Accepted::Seen { part, start },
            place,
        }),
        Err(FollowFault::NoReplica) => look_at(
            log,
            visitor,
            Accepted::Refused {
                code: codes::REPLICA_NOT_AVAILABLE,
            },
        ),
        Err(FollowFault::OutOfRange { .. }) => look_at(
            log,
            visitor,
            Accepted::Refused {
                code: codes::OFFSET_OUT_OF_RANGE,
            },
        ),
        Err(FollowFault::NoMemory) => Err(NoMemory),
    }
}

/// Enters the fetch of one partition. A follower's fetch in range is entered at the visitor's moment; every other fetch
/// looks at the log. A replica of 0 or more that isn't a follower is refused with code 9, else an offset below 0 or above the
/// log end with code 1. `part` is the partition's number, and a negative replica is a consumer. If memory runs out, the log
/// is as it was.
pub fn enter_fetch(
    log: &mut PartLog,
    visitor: Visitor,
    replica: i32,
    part: u32,
    asked: &FetchPart,
) -> Result<Entered, NoMemory>
    ensures entered { IfOk result (λ entered.
        HasEntered visitor.who.by visitor.who.seq visitor.moment (fetch_outcome log.old.followers replica asked.now part)
        log.old log.new entered) }
    ensures refused { OnErr result (log.new ≡ log.old) }
{
    if replica >= 0 {
        follow(log, visitor, replica, part, asked)
    } else {
        consume(log, visitor, part, asked)
    }
}
