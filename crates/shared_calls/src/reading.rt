//! The looks at all partitions of an operation, one by one by `looking`, in the order in which the request names them. `completing` makes
//! the reply's readings of these.
ghost use Rattle.std.specs.Prelude.{◌≡◌, ◌≤◌, ◌+◌, ◌++◌, List as Items, ℕ, [], All, IfOk, OnErr, OnOk, length, map, sum_by};
ghost use Rattle.std.specs.List.{flat_map};
ghost use Rattle.kanswer.specs.declared.accepted.Budget.{Budget as TheBudget};
ghost use Rattle.kanswer.specs.declared.accepted.Reading.{Reading as TheReading};
ghost use Rattle.kanswer.specs.LogReadings.{HasCarriable};
ghost use Rattle.kanswer.specs.Results.{IsBounded, parts_asked};
ghost use Rattle.audit.specs.broker.Sound.{AllBelow};
ghost use Rattle.kanswer.specs.BytesRead.{bytes_read, most_left};
ghost use Rattle.shared_calls.specs.declared.values.TheConstants.{MOST_NEEDS};
ghost use Rattle.kanswer.specs.PartitionGauges.{fetched_gauge, high_gauge};
ghost use Rattle.shared_calls.specs.Fresh.{IsFresh};
ghost use Rattle.shared_calls.specs.Looks.{HaveStopped};
ghost use Rattle.shared_calls.specs.Readings.{WereNumbered, WereRead};

use crate::looking::{FetchLooks, Looking, look_at, read_at};
use audit::Point;
use kanswer::{Accepted, Budget, Reading};
use kbytes::{List, NoMemory};
use kwire::{FetchPart, FetchTopicView};
use shared_logs::LogPass;
use std::sync::Wait;

/// Each partition whose log a produce asked is looked at.
pub(crate) fn look_at_each(
    call: &Looking<'_, '_, '_, impl Wait>,
    pass: &mut LogPass,
    points: &mut List<Point>,
    accepted: &[Accepted],
) -> Result<List<Reading>, NoMemory>
    requires made { pass.old.made ≡ call.now.by.now.logs.now }
    requires few { length call.now.needs.now ≤ MOST_NEEDS }
    requires bounded { All IsBounded accepted.now }
    requires there { AllBelow (length call.now.by.now.logs.now.parts) (parts_asked accepted.now) }
    ensures made { pass.new.made ≡ call.now.by.now.logs.now }
    ensures looked { IfOk result (λ readings. WereNumbered call.now.by.now.seq (IsFresh high_gauge call.now.needs.now call.now.values.now)
        pass.old points.old accepted.now pass.new points.new readings) }
    ensures offsets { IfOk result (All HasCarriable) }
    ensures size { IfOk result (λ readings. length readings ≡ length accepted.now) }
    ensures none { IfOk result (λ readings. bytes_read readings ≡ 0) }
    ensures stopped { OnErr result (HaveStopped call.now.by.now.seq (IsFresh high_gauge call.now.needs.now call.now.values.now)
        pass.old points.old accepted.now pass.new points.new) }
{
    let mut readings = List::new(call.by.logs.alloc());
    for became in accepted {
        readings.push(look_at(call, pass, points, became)?)?;
    }
    Ok(readings)
}

// The partitions of one topic, of which this became.
fn read_topic(
    call: &FetchLooks<'_, '_, '_, impl Wait>,
    pass: &mut LogPass,
    points: &mut List<Point>,
    asked: &[FetchPart],
    accepted: &[Accepted],
    budget: &mut Budget,
    readings: &mut List<Reading>,
) -> Result<(), NoMemory>
    requires made { pass.old.made ≡ call.now.looking.by.now.logs.now }
    requires few { length call.now.looking.needs.now ≤ MOST_NEEDS }
    requires bounded { All IsBounded accepted.now }
    requires there { AllBelow (length call.now.looking.by.now.logs.now.parts) (parts_asked accepted.now) }
    requires size { length accepted.now ≡ length asked.now }
    ensures made { pass.new.made ≡ call.now.looking.by.now.logs.now }
    ensures read { OnOk result ((more : Items TheReading) × (readings.new ≡ readings.old ++ more)
        × WereRead call.now.looking.by.now.seq (IsFresh (fetched_gauge call.now.replica) call.now.looking.needs.now call.now.looking.values.now) call.now.replica
        asked.now pass.old points.old accepted.now budget.old pass.new points.new budget.new more) }
    ensures offsets { OnOk result (All HasCarriable readings.old → All HasCarriable readings.new) }
    ensures size { OnOk result (length readings.new ≡ length readings.old + length accepted.now) }
    ensures room { OnOk result (bytes_read readings.new + most_left budget.new ≤ bytes_read readings.old + most_left budget.old) }
    ensures stopped { OnErr result (HaveStopped call.now.looking.by.now.seq (IsFresh (fetched_gauge call.now.replica) call.now.looking.needs.now call.now.looking.values.now)
        pass.old points.old accepted.now pass.new points.new) }
{
    for at in 0..asked.len() {
        let reading = read_at(call, pass, points, &asked[at], &accepted[at], budget)?;
        readings.push(reading)?;
    }
    Ok(())
}

/// Each partition whose log a fetch asked is looked at, and read within the budget.
pub(crate) fn read_each(
    call: &FetchLooks<'_, '_, '_, impl Wait>,
    pass: &mut LogPass,
    points: &mut List<Point>,
    topics: &[FetchTopicView<'_>],
    accepted: &[Accepted],
    budget: Budget,
) -> Result<List<Reading>, NoMemory>
    requires made { pass.old.made ≡ call.now.looking.by.now.logs.now }
    requires few { length call.now.looking.needs.now ≤ MOST_NEEDS }
    requires bounded { All IsBounded accepted.now }
    requires there { AllBelow (length call.now.looking.by.now.logs.now.parts) (parts_asked accepted.now) }
    requires size { length accepted.now ≡ sum_by (λ topic. length topic.parts) topics.now }
    ensures made { pass.new.made ≡ call.now.looking.by.now.logs.now }
    ensures read { IfOk result (λ readings. (left : TheBudget) × WereRead call.now.looking.by.now.seq (IsFresh (fetched_gauge call.now.replica) call.now.looking.needs.now call.now.looking.values.now) call.now.replica
        (flat_map (λ topic. topic.parts) topics.now) pass.old points.old accepted.now budget pass.new points.new left readings) }
    ensures offsets { IfOk result (All HasCarriable) }
    ensures size { IfOk result (λ readings. length readings ≡ length accepted.now) }
    ensures room { IfOk result (λ readings. bytes_read readings ≤ most_left budget) }
    ensures stopped { OnErr result (HaveStopped call.now.looking.by.now.seq (IsFresh (fetched_gauge call.now.replica) call.now.looking.needs.now call.now.looking.values.now)
        pass.old points.old accepted.now pass.new points.new) }
{
    let mut budget = budget;
    let mut readings = List::new(call.looking.by.logs.alloc());
    let mut from = 0;
    for topic in topics {
        let upto = from + topic.parts.len();
        let asked = topic.parts.as_slice();
        let became = &accepted[from..upto];
        read_topic(
            call,
            pass,
            points,
            asked,
            became,
            &mut budget,
            &mut readings,
        )?;
        from = upto;
    }
    Ok(readings)
}
