//! A request that waits: `Engine::due` asks here whether the logs satisfy its operation, and `Engine::finish` leaves the looks of its
//! completion.

ghost use Rattle.std.specs.Prelude.{◌≡◌, ◌↔◌, ◌<◌, [], ◌∷◌, ◌++◌, length, map, take, IsTrue, OnOk};
ghost use Rattle.std.specs.List.{AllByRecursion};
ghost use Rattle.kanswer.specs.PartitionGauges.{partition_of};
ghost use Rattle.kanswer.specs.Results.{parts_asked};
ghost use Rattle.kanswer.specs.Waiting.{gauge_value};
ghost use Rattle.opcond.specs.Tally.{IsSatisfied};
ghost use Rattle.partlog.specs.State.{state_of};
ghost use Rattle.audit.specs.broker.Board.{history_at};
ghost use Rattle.audit.specs.broker.Completing.{look_all};
ghost use Rattle.audit.specs.broker.Board.{gauge_now};
ghost use Rattle.lone_broker.specs.Looks.{HasGauge, clock_after, clock_points};
ghost use Rattle.lone_broker.specs.Replying.{HasLog};

use audit::{CLOCK_PART, CallHow, Point};
use kanswer::{Accepted, partition_of, value_of_gauge};
use kbytes::{List, NoMemory};
use opcond::{Op, is_satisfied};
use partlog::{ClockLog, PartLog, Who};

// The most needs of an operation.
const MOST_NEEDS: usize = 64;

// The value of a gauge.
fn gauge_now(parts: &[PartLog], gauge: u32) -> u64
    requires { partition_of gauge < length parts.now }
    ensures { result ≡ gauge_value gauge (state_of (history_at parts.now (partition_of gauge))) }
{
    value_of_gauge(gauge, &parts[partition_of(gauge) as usize].numbers())
}

// The values of the operation's gauges, one for each need in order, at the front of the array.
fn values_now(op: &Op, parts: &[PartLog]) -> [u64; MOST_NEEDS]
    requires { AllByRecursion (HasGauge (length parts.now)) op.now.needs }
    ensures { take (length op.now.needs) result ≡ map (gauge_now parts.now) op.now.needs }
{
    let mut values = [0; MOST_NEEDS];
    let needs = op.needs();
    for at in 0..needs.len() {
        values[at] = gauge_now(parts, needs[at].gauge);
    }
    values
}

/// Whether the logs as they are satisfy the operation.
pub fn is_reached(op: &Op, parts: &[PartLog]) -> bool
    requires { AllByRecursion (HasGauge (length parts.now)) op.now.needs }
    ensures { IsTrue result ↔ IsSatisfied op.now (map (gauge_now parts.now) op.now.needs) }
{
    let values = values_now(op, parts);
    is_satisfied(op, &values[..op.needs().len()])
}

// Looks at the partition if its log was asked.
fn look_at(
    who: Who,
    became: &Accepted,
    parts: &mut [PartLog],
    finish: &mut List<Point>,
) -> Result<(), NoMemory>
    requires { HasLog (length parts.old) became.now }
    ensures parts { OnOk result (parts.new ≡ (look_all who.by who.seq (parts_asked (became.now ∷ [])) parts.old).1) }
    ensures points { OnOk result (finish.new ≡ finish.old ++ (look_all who.by who.seq (parts_asked (became.now ∷ [])) parts.old).0) }
{
    match *became {
        Accepted::Refused { .. } => Ok(()),
        Accepted::Appended { part, .. } | Accepted::Seen { part, .. } => {
            let place = parts[part as usize].look(who)?;
            finish.push(Point { part, place })
        }
    }
}

/// Looks at each partition whose log was asked, in order. If memory runs out, some may have been looked at.
pub fn look_at_parts(
    who: Who,
    accepted: &[Accepted],
    parts: &mut [PartLog],
    finish: &mut List<Point>,
) -> Result<(), NoMemory>
    requires { AllByRecursion (HasLog (length parts.old)) accepted.now }
    ensures parts { OnOk result (parts.new ≡ (look_all who.by who.seq (parts_asked accepted.now) parts.old).1) }
    ensures points { OnOk result (finish.new ≡ finish.old ++ (look_all who.by who.seq (parts_asked accepted.now) parts.old).0) }
{
    for became in accepted {
        look_at(who, became, parts, finish)?;
    }
    Ok(())
}

/// Looks at the clock if the request expired.
pub fn look_at_clock(
    who: Who,
    how: &CallHow,
    clock: &mut ClockLog,
    finish: &mut List<Point>,
) -> Result<(), NoMemory>
    ensures clock { OnOk result (clock.new ≡ clock_after how.now who.by who.seq clock.old) }
    ensures points { OnOk result (finish.new ≡ finish.old ++ clock_points how.now clock.old) }
{
    match how {
        CallHow::Expired { .. } => {
            let place = clock.look(who)?;
            finish.push(Point {
                part: CLOCK_PART,
                place,
            })
        }
        CallHow::Quiet
        | CallHow::AtOnce
        | CallHow::Satisfied { .. }
        | CallHow::Parked
        | CallHow::Cut { .. } => Ok(()),
    }
}
