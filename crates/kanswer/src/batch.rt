//! Appending the batch of a produce, by the broker that has the log to itself. `put` decided before that it may be.
ghost use Rattle.std.specs.Prelude.{◌≡◌, ◌≤◌, IfOk, OnErr};
ghost use Rattle.partlog.specs.State.{state_of};
ghost use Rattle.kanswer.specs.Sent.{sent_outcome};
ghost use Rattle.kanswer.specs.Entered.{HasEntered};

use crate::Accepted;
use crate::entered::Entered;
use crate::look::look_at;
use crate::terms::SentBatch;
use crate::visitor::Visitor;
use kbytes::NoMemory;
use kwire::codes;
use partlog::{LogFault, PartLog};

// Where enough replicas are in sync.
fn append(
    log: &mut PartLog,
    visitor: Visitor,
    part: u32,
    sent: &SentBatch<'_>,
) -> Result<Entered, NoMemory>
    requires { sent.now.least ≤ (state_of log.old).insync }
    ensures entered { IfOk result (λ entered.
        HasEntered visitor.who.by visitor.who.seq visitor.moment (sent_outcome part sent.now) log.old log.new entered) }
    ensures refused { OnErr result (log.new ≡ log.old) }
{
    match log.append_view(visitor.who, &sent.batch) {
        Ok(placed) => Ok(Entered {
            became: Accepted::Appended {
                part,
                base: placed.base,
                count: sent.batch.count(),
            },
            place: placed.place,
        }),
        Err(LogFault::LogFull) => look_at(
            log,
            visitor,
            Accepted::Refused {
                code: sent.full_code(),
            },
        ),
        Err(LogFault::NoMemory) => Err(NoMemory),
    }
}

/// Appends a batch to the partition's log, where enough replicas are in sync and there is room. Else it looks at the log,
/// and refuses the partition: with code 19 where too few are in sync, or else with the code of a full log. `part` is the
/// partition's number. If memory runs out, the log is as it was.
pub fn enter_batch(
    log: &mut PartLog,
    visitor: Visitor,
    part: u32,
    sent: &SentBatch<'_>,
) -> Result<Entered, NoMemory>
    ensures entered { IfOk result (λ entered.
        HasEntered visitor.who.by visitor.who.seq visitor.moment (sent_outcome part sent.now) log.old log.new entered) }
    ensures refused { OnErr result (log.new ≡ log.old) }
{
    if log.numbers().insync < sent.least {
        return look_at(
            log,
            visitor,
            Accepted::Refused {
                code: codes::NOT_ENOUGH_REPLICAS,
            },
        );
    }
    append(log, visitor, part, sent)
}
