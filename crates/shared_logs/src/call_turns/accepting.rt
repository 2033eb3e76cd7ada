//! The turns in which a request is accepted: one for each partition whose log it asks.
ghost use Rattle.std.specs.Prelude.{◌≡◌, ◌<◌, ◌≤◌, [], ◌∷◌, ◌++◌, IfOk, OnErr, length, slice_index};
ghost use Rattle.kanswer.specs.Decisions.{fetch_outcome};
ghost use Rattle.kanswer.specs.Sent.{sent_outcome};
ghost use Rattle.partlog.specs.declared.part_log.TheConstants.{MOST_LOG_BYTES};
ghost use Rattle.partlog.specs.State.{state_of};
ghost use Rattle.audit.specs.broker.Board.{history_at};
ghost use Rattle.shared_logs.specs.Asked.{HasAsked, HasRead};
ghost use Rattle.shared_logs.specs.Coming.{HasCaughtUp};
ghost use Rattle.shared_logs.specs.Seen.{HasSeen};
ghost use Rattle.shared_logs.specs.Shared.{followers_in};

use super::caller::Caller;
use super::points::{fill_in, put_down, take_back};
use crate::{Fetched, LogPass, Put, Wanted};
use audit::Point;
use kanswer::{Budget, SentBatch};
use kbytes::{List, NoMemory};
use partlog::Who;
use std::sync::Wait;

/// Puts a batch into a partition for a call of the pass, and notes the point of its entry. If memory runs out, there is neither.
pub fn put(
    by: &Caller<'_, '_, impl Wait>,
    pass: &mut LogPass,
    points: &mut List<Point>,
    part: u32,
    sent: &SentBatch<'_>,
) -> Result<Put, NoMemory>
    requires made { pass.old.made ≡ by.now.logs.now }
    requires there { part < length by.now.logs.now.parts }
    ensures made { pass.new.made ≡ by.now.logs.now }
    ensures seen { HasSeen pass.old × HasSeen pass.new }
    ensures asked { IfOk result (λ put. HasAsked part by.now.seq (sent_outcome part sent.now) pass.old pass.new put.entered put.numbers) }
    ensures points { IfOk result (λ put. points.new ≡ points.old ++ record { part = part; place = put.entered.place } ∷ []) }
    ensures refused { OnErr result (HasCaughtUp pass.old pass.new) }
    ensures none { OnErr result (points.new ≡ points.old) }
{
    let who = Who {
        by: pass.number(),
        seq: by.seq,
    };
    put_down(points, part)?;
    match by.logs.put(by.rt, pass, part, who, sent) {
        Ok(put) => {
            fill_in(points, put.entered.place);
            Ok(put)
        }
        Err(NoMemory) => {
            take_back(points);
            Err(NoMemory)
        }
    }
}

/// Enters what a fetch asks of a partition for a call of the pass, notes the point of its entry, and reads what the reply takes of the
/// partition: the budget is lowered by that. If memory runs out, there is neither entry nor point.
pub fn fetch(
    by: &Caller<'_, '_, impl Wait>,
    pass: &mut LogPass,
    points: &mut List<Point>,
    wanted: &Wanted<'_>,
    budget: &mut Budget,
) -> Result<Fetched, NoMemory>
    requires made { pass.old.made ≡ by.now.logs.now }
    requires there { wanted.now.part < length by.now.logs.now.parts }
    ensures made { pass.new.made ≡ by.now.logs.now }
    ensures seen { HasSeen pass.old × HasSeen pass.new }
    ensures asked { IfOk result (λ fetched. HasAsked wanted.now.part by.now.seq
        (fetch_outcome (slice_index (followers_in by.now.logs.now) wanted.now.part) wanted.now.replica wanted.now.asked.now wanted.now.part)
        pass.old pass.new fetched.entered fetched.numbers) }
    ensures read { IfOk result (λ fetched. IfOk fetched.records (λ records.
        HasRead wanted.now.replica wanted.now.asked.now fetched.entered.became (state_of (history_at pass.new.parts wanted.now.part)) fetched.numbers
        records budget.old budget.new)) }
    ensures bounded { IfOk result (λ fetched. fetched.numbers.high ≤ MOST_LOG_BYTES) }
    ensures points { IfOk result (λ fetched. points.new ≡ points.old ++ record { part = wanted.now.part; place = fetched.entered.place } ∷ []) }
    ensures refused { OnErr result (HasCaughtUp pass.old pass.new) }
    ensures none { OnErr result (points.new ≡ points.old) }
{
    let who = Who {
        by: pass.number(),
        seq: by.seq,
    };
    put_down(points, wanted.part)?;
    match by.logs.fetch(by.rt, pass, who, wanted, budget) {
        Ok(fetched) => {
            fill_in(points, fetched.entered.place);
            Ok(fetched)
        }
        Err(NoMemory) => {
            take_back(points);
            Err(NoMemory)
        }
    }
}
