ghost use Rattle.std.specs.Prelude.{◌≡◌, IfOk, OnErr};
ghost use Rattle.partlog.specs.State.{PartState, state_of};
ghost use Rattle.kanswer.specs.Decisions.{Outcome, look};
ghost use Rattle.kanswer.specs.LogReadings.{IsCarriable};
ghost use Rattle.kanswer.specs.Entered.{HasEntered};

use crate::Accepted;
use crate::entered::Entered;
use crate::visitor::Visitor;
use kbytes::NoMemory;
use partlog::PartLog;

/// Enters a look at the log, for a partition of which this became.
pub(crate) fn look_at(
    log: &mut PartLog,
    visitor: Visitor,
    became: Accepted,
) -> Result<Entered, NoMemory>
    requires { IsCarriable became }
    ensures entered { IfOk result (λ entered. (outcome : PartState → Outcome) → outcome (state_of log.old) ≡ look became
        → HasEntered visitor.who.by visitor.who.seq visitor.moment outcome log.old log.new entered) }
    ensures refused { OnErr result (log.new ≡ log.old) }
{
    let place = log.look(visitor.who)?;
    Ok(Entered { became, place })
}
