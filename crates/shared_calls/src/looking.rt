//! The look at one partition of an operation, for `reading`: it waits for a state that is no older than what was read of the gauges, and
//! hands on what the reply takes of it.
ghost use Rattle.std.specs.Prelude.{◌≡◌, ◌≤◌, ◌<◌, ◌+◌, ◌/◌, ◌∷◌, [], ℕ, List as Items, IfOk, OnErr, OnOk, length};
ghost use Rattle.kanswer.specs.declared.accepted.Accepted.{Accepted as TheAccepted};
ghost use Rattle.kanswer.specs.declared.accepted.Accepted.TheVariants.{Seen};
ghost use Rattle.kanswer.specs.LogReadings.{HasCarriable};
ghost use Rattle.kanswer.specs.Results.{IsBounded, parts_asked};
ghost use Rattle.kwire.specs.declared.config.TheConstants.{MOST_PARTITIONS};
ghost use Rattle.partlog.specs.declared.part_log.TheConstants.{MOST_LOG_BYTES};
ghost use Rattle.partlog.specs.Gauges.{numbers_of};
ghost use Rattle.partlog.specs.State.{PartState};
ghost use Rattle.audit.specs.broker.Sound.{AllBelow};
ghost use Rattle.kanswer.specs.BytesRead.{most_left};
ghost use Rattle.shared_calls.specs.declared.values.TheConstants.{MOST_NEEDS};
ghost use Rattle.kanswer.specs.PartitionGauges.{fetched_gauge, high_gauge};
ghost use Rattle.shared_calls.specs.Fresh.{IsFresh};
ghost use Rattle.shared_calls.specs.Looks.{HaveLooked, HaveStopped};
ghost use Rattle.shared_calls.specs.Readings.{WereNumbered, WereRead};

use crate::values::{Values, least_of};
use audit::Point;
use kanswer::{Accepted, Budget, Reading, fetched_gauge, read_nothing};
use kbytes::{Bytes, List, NoMemory};
use kwire::FetchPart;
use opcond::Need;
use partlog::Numbers;
use shared_logs::call_turns::{Caller, look, read};
use shared_logs::{AtLeast, LogPass, Rest, Wanted};
use std::sync::Wait;

/// The call of a pass that looks, and what was read of the gauges that it needs.
#[derive(Drop)]
pub(crate) struct Looking<'a, 'r, 'l, W> {
    pub(crate) by: &'a Caller<'r, 'l, W>,
    pub(crate) needs: &'a [Need],
    pub(crate) values: &'a Values,
}

/// The looks of a fetch, and for which replica. A negative one is a consumer.
#[derive(Drop)]
pub(crate) struct FetchLooks<'a, 'r, 'l, W> {
    pub(crate) looking: Looking<'a, 'r, 'l, W>,
    pub(crate) replica: i32,
}

// Looks at the partition of this gauge, in a turn in which the gauge is no less than what was read of it.
fn look_fresh(
    call: &Looking<'_, '_, '_, impl Wait>,
    pass: &mut LogPass,
    points: &mut List<Point>,
    gauge: u32,
) -> Result<Numbers, NoMemory>
    requires made { pass.old.made ≡ call.now.by.now.logs.now }
    requires few { length call.now.needs.now ≤ MOST_NEEDS }
    requires there { gauge / 3 < length call.now.by.now.logs.now.parts }
    ensures made { pass.new.made ≡ call.now.by.now.logs.now }
    ensures looked { IfOk result (λ numbers. (gauges : ℕ → ℕ) (became : TheAccepted) → gauges (gauge / 3) ≡ gauge
        → parts_asked (became ∷ []) ≡ (gauge / 3) ∷ [] → (state : PartState) × (numbers ≡ numbers_of state)
        × HaveLooked call.now.by.now.seq (IsFresh gauges call.now.needs.now call.now.values.now) pass.old points.old (became ∷ []) pass.new points.new (state ∷ [])) }
    ensures bounded { IfOk result (λ numbers. numbers.high ≤ MOST_LOG_BYTES) }
    ensures stopped { OnErr result ((gauges : ℕ → ℕ) (next : Items TheAccepted)
        → HaveStopped call.now.by.now.seq (IsFresh gauges call.now.needs.now call.now.values.now) pass.old points.old next pass.new points.new) }
{
    let value = least_of(call.needs, call.values, gauge);
    look(call.by, pass, points, AtLeast { gauge, value })
}

/// One partition is looked at for a produce, where its log was asked.
pub(crate) fn look_at(
    call: &Looking<'_, '_, '_, impl Wait>,
    pass: &mut LogPass,
    points: &mut List<Point>,
    became: &Accepted,
) -> Result<Reading, NoMemory>
    requires made { pass.old.made ≡ call.now.by.now.logs.now }
    requires few { length call.now.needs.now ≤ MOST_NEEDS }
    requires bounded { IsBounded became.now }
    requires there { AllBelow (length call.now.by.now.logs.now.parts) (parts_asked (became.now ∷ [])) }
    ensures made { pass.new.made ≡ call.now.by.now.logs.now }
    ensures looked { IfOk result (λ reading. WereNumbered call.now.by.now.seq (IsFresh high_gauge call.now.needs.now call.now.values.now)
        pass.old points.old (became.now ∷ []) pass.new points.new (reading ∷ [])) }
    ensures offset { IfOk result HasCarriable }
    ensures none { IfOk result (λ reading. reading.records ≡ []) }
    ensures stopped { OnErr result (HaveStopped call.now.by.now.seq (IsFresh high_gauge call.now.needs.now call.now.values.now)
        pass.old points.old (became.now ∷ []) pass.new points.new) }
{
    match *became {
        Accepted::Refused { .. } => Ok(read_nothing(call.by.logs.alloc())),
        Accepted::Appended { part, .. } | Accepted::Seen { part, .. } => {
            let numbers = look_fresh(call, pass, points, 3 * part)?;
            let records = Bytes::new(call.by.logs.alloc());
            Ok(Reading { numbers, records })
        }
    }
}

// Looks at a partition in such a turn, and reads what a fetch asks of it from the byte place `start` on.
fn read_fresh(
    call: &Looking<'_, '_, '_, impl Wait>,
    pass: &mut LogPass,
    points: &mut List<Point>,
    wanted: &Wanted<'_>,
    start: u64,
    budget: &mut Budget,
) -> Result<Reading, NoMemory>
    requires made { pass.old.made ≡ call.now.by.now.logs.now }
    requires few { length call.now.needs.now ≤ MOST_NEEDS }
    requires there { wanted.now.part < length call.now.by.now.logs.now.parts }
    requires number { wanted.now.part < MOST_PARTITIONS }
    ensures made { pass.new.made ≡ call.now.by.now.logs.now }
    ensures read { IfOk result (λ reading. WereRead call.now.by.now.seq (IsFresh (fetched_gauge wanted.now.replica) call.now.needs.now call.now.values.now) wanted.now.replica
        (wanted.now.asked.now ∷ []) pass.old points.old (Seen wanted.now.part start ∷ []) budget.old pass.new points.new budget.new (reading ∷ [])) }
    ensures offset { IfOk result HasCarriable }
    ensures room { IfOk result (λ reading. length reading.records + most_left budget.new ≤ most_left budget.old) }
    ensures stopped { OnErr result (HaveStopped call.now.by.now.seq (IsFresh (fetched_gauge wanted.now.replica) call.now.needs.now call.now.values.now)
        pass.old points.old (Seen wanted.now.part start ∷ []) pass.new points.new) }
{
    let gauge = fetched_gauge(wanted.replica, wanted.part);
    let value = least_of(call.needs, call.values, gauge);
    let rest = Rest {
        late: AtLeast { gauge, value },
        replica: wanted.replica,
        asked: wanted.asked,
        start,
    };
    let read = read(call.by, pass, points, &rest, budget)?;
    let numbers = read.looked.numbers;
    let records = read.records?;
    Ok(Reading { numbers, records })
}

/// One partition is looked at for a fetch, where its log was asked, and read; the budget is lowered by that.
pub(crate) fn read_at(
    call: &FetchLooks<'_, '_, '_, impl Wait>,
    pass: &mut LogPass,
    points: &mut List<Point>,
    asked: &FetchPart,
    became: &Accepted,
    budget: &mut Budget,
) -> Result<Reading, NoMemory>
    requires made { pass.old.made ≡ call.now.looking.by.now.logs.now }
    requires few { length call.now.looking.needs.now ≤ MOST_NEEDS }
    requires bounded { IsBounded became.now }
    requires there { AllBelow (length call.now.looking.by.now.logs.now.parts) (parts_asked (became.now ∷ [])) }
    ensures made { pass.new.made ≡ call.now.looking.by.now.logs.now }
    ensures read { IfOk result (λ reading. WereRead call.now.looking.by.now.seq (IsFresh (fetched_gauge call.now.replica) call.now.looking.needs.now call.now.looking.values.now) call.now.replica
        (asked.now ∷ []) pass.old points.old (became.now ∷ []) budget.old pass.new points.new budget.new (reading ∷ [])) }
    ensures offset { IfOk result HasCarriable }
    ensures room { IfOk result (λ reading. length reading.records + most_left budget.new ≤ most_left budget.old) }
    ensures stopped { OnErr result (HaveStopped call.now.looking.by.now.seq (IsFresh (fetched_gauge call.now.replica) call.now.looking.needs.now call.now.looking.values.now)
        pass.old points.old (became.now ∷ []) pass.new points.new) }
{
    match *became {
        Accepted::Refused { .. } => Ok(read_nothing(call.looking.by.logs.alloc())),
        // no fetch appends
        Accepted::Appended { part, .. } => {
            look_fresh(
                &call.looking,
                pass,
                points,
                fetched_gauge(call.replica, part),
            )?;
            Ok(read_nothing(call.looking.by.logs.alloc()))
        }
        Accepted::Seen { part, start } => {
            let wanted = Wanted {
                replica: call.replica,
                part,
                asked,
            };
            read_fresh(&call.looking, pass, points, &wanted, start, budget)
        }
    }
}
