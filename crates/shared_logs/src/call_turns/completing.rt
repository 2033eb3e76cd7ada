//! The turns in which a request that waited is completed, and the look at the clock that ends the acceptance of one that waits.
ghost use Rattle.std.specs.Prelude.{◌≡◌, ◌<◌, ◌≤◌, ◌/◌, ℕ, [], ◌∷◌, ◌++◌, IfOk, OnErr, length};
ghost use Rattle.audit.specs.Histories.{clock_part};
ghost use Rattle.kanswer.specs.declared.accepted.Accepted.TheVariants.{Seen};
ghost use Rattle.partlog.specs.declared.part_log.TheConstants.{MOST_LOG_BYTES};
ghost use Rattle.partlog.specs.State.{state_of};
ghost use Rattle.audit.specs.broker.Board.{history_at};
ghost use Rattle.shared_logs.specs.Asked.{HasLooked, HasLookedAtClock, HasRead};
ghost use Rattle.shared_logs.specs.Coming.{HasCaughtUp};
ghost use Rattle.shared_logs.specs.Seen.{HasSeen};

use super::caller::Caller;
use super::points::{fill_in, put_down, take_back};
use crate::{AtLeast, LogPass, Read, Rest};
use audit::{CLOCK_PART, Point};
use kanswer::Budget;
use kbytes::{List, NoMemory};
use partlog::{Numbers, Who};
use std::sync::Wait;

/// Looks at a partition for a call of the pass, in a turn in which the gauge, one of this partition's, is at least at the value; notes the
/// point of the look, and answers the log's numbers there. If memory runs out, there is neither look nor point.
pub fn look(
    by: &Caller<'_, '_, impl Wait>,
    pass: &mut LogPass,
    points: &mut List<Point>,
    late: AtLeast,
) -> Result<Numbers, NoMemory>
    requires made { pass.old.made ≡ by.now.logs.now }
    requires there { late.gauge / 3 < length by.now.logs.now.parts }
    ensures made { pass.new.made ≡ by.now.logs.now }
    ensures seen { HasSeen pass.old × HasSeen pass.new }
    ensures looked { IfOk result (λ numbers. (place : ℕ) × HasLooked (late.gauge / 3) by.now.seq late.gauge late.value pass.old pass.new place numbers
        × (points.new ≡ points.old ++ record { part = late.gauge / 3; place = place } ∷ [])) }
    ensures bounded { IfOk result (λ numbers. numbers.high ≤ MOST_LOG_BYTES) }
    ensures refused { OnErr result (HasCaughtUp pass.old pass.new) }
    ensures none { OnErr result (points.new ≡ points.old) }
{
    let who = Who {
        by: pass.number(),
        seq: by.seq,
    };
    put_down(points, late.gauge / 3)?;
    match by.logs.look(by.rt, pass, who, late) {
        Ok(looked) => {
            fill_in(points, looked.place);
            Ok(looked.numbers)
        }
        Err(NoMemory) => {
            take_back(points);
            Err(NoMemory)
        }
    }
}

/// The same, and reads what the reply to a fetch takes of the partition: the budget is lowered by that. If memory runs out in the reading,
/// look and point are there all the same.
pub fn read(
    by: &Caller<'_, '_, impl Wait>,
    pass: &mut LogPass,
    points: &mut List<Point>,
    rest: &Rest<'_>,
    budget: &mut Budget,
) -> Result<Read, NoMemory>
    requires made { pass.old.made ≡ by.now.logs.now }
    requires there { rest.now.late.gauge / 3 < length by.now.logs.now.parts }
    ensures made { pass.new.made ≡ by.now.logs.now }
    ensures seen { HasSeen pass.old × HasSeen pass.new }
    ensures looked { IfOk result (λ read. HasLooked (rest.now.late.gauge / 3) by.now.seq rest.now.late.gauge rest.now.late.value
        pass.old pass.new read.looked.place read.looked.numbers) }
    ensures points { IfOk result (λ read. points.new ≡ points.old ++ record { part = rest.now.late.gauge / 3; place = read.looked.place } ∷ []) }
    ensures read { IfOk result (λ read. IfOk read.records (λ records.
        HasRead rest.now.replica rest.now.asked.now (Seen (rest.now.late.gauge / 3) rest.now.start) (state_of (history_at pass.new.parts (rest.now.late.gauge / 3)))
        read.looked.numbers records budget.old budget.new)) }
    ensures bounded { IfOk result (λ read. read.looked.numbers.high ≤ MOST_LOG_BYTES) }
    ensures refused { OnErr result (HasCaughtUp pass.old pass.new) }
    ensures none { OnErr result (points.new ≡ points.old) }
{
    let who = Who {
        by: pass.number(),
        seq: by.seq,
    };
    put_down(points, rest.late.gauge / 3)?;
    match by.logs.read(by.rt, pass, who, rest, budget) {
        Ok(read) => {
            fill_in(points, read.looked.place);
            Ok(read)
        }
        Err(NoMemory) => {
            take_back(points);
            Err(NoMemory)
        }
    }
}

/// Looks at the clock for a call of the pass, in a turn in which its moment is no less than `least`; notes the point of the look, and
/// answers the moment there. If memory runs out, there is neither look nor point.
pub fn look_at_clock(
    by: &Caller<'_, '_, impl Wait>,
    pass: &mut LogPass,
    points: &mut List<Point>,
    least: u64,
) -> Result<u64, NoMemory>
    requires made { pass.old.made ≡ by.now.logs.now }
    ensures made { pass.new.made ≡ by.now.logs.now }
    ensures seen { HasSeen pass.old × HasSeen pass.new }
    ensures looked { IfOk result (λ moment. (place : ℕ) × HasLookedAtClock by.now.seq least pass.old pass.new place moment
        × (points.new ≡ points.old ++ record { part = clock_part; place = place } ∷ [])) }
    ensures refused { OnErr result (HasCaughtUp pass.old pass.new) }
    ensures none { OnErr result (points.new ≡ points.old) }
{
    let who = Who {
        by: pass.number(),
        seq: by.seq,
    };
    put_down(points, CLOCK_PART)?;
    match by.logs.look_at_clock(by.rt, pass, who, least) {
        Ok((place, moment)) => {
            fill_in(points, place);
            Ok(moment)
        }
        Err(NoMemory) => {
            take_back(points);
            Err(NoMemory)
        }
    }
}
