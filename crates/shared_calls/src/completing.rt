//! A request that waited and was won is completed, for the crate above, by the looks of `reading`.
ghost use Rattle.std.specs.Prelude.{◌≡◌, ◌≤◌, ◌*◌, ℕ, [], All, IfOk, OnErr, length};
ghost use Rattle.kanswer.specs.LogReadings.{HasCarriable, budget_of};
ghost use Rattle.kanswer.specs.Results.{AreResults, parts_asked};
ghost use Rattle.kanswer.specs.Waiting.{operation_of};
ghost use Rattle.audit.specs.broker.Sound.{AllBelow};
ghost use Rattle.kanswer.specs.BytesRead.{bytes_read, most_left};
ghost use Rattle.shared_calls.specs.Finished.{WasFinished, WasStopped};
ghost use Rattle.shared_calls.specs.Fresh.{IsFresh, gauge_for};
ghost use Rattle.shared_calls.specs.Looks.{WasWon};

use crate::looking::{FetchLooks, Looking};
use crate::reading::{look_at_each, read_each};
use crate::values::{MOST_NEEDS, Values, satisfying};
use audit::Point;
use kanswer::{Accepted, Budget, Reading};
use kbytes::{List, NoMemory};
use kwire::{AskView, RequestView};
use opcond::Op;
use purgatory::How;
use shared_logs::LogPass;
use shared_logs::call_turns::{Caller, look_at_clock};
use std::sync::Wait;

/// A request that waited: the call of the pass, what became of its partitions, its operation, and how it was won.
#[derive(Drop)]
pub struct Completing<'a, 'r, 'l, W> {
    pub by: &'a Caller<'r, 'l, W>,
    pub accepted: &'a [Accepted],
    pub op: &'a Op,
    pub how: How,
}

// The gauges' values where the request was satisfied. Where it expired it looks at the clock, and needs no gauge.
fn win(
    call: &Completing<'_, '_, '_, impl Wait>,
    pass: &mut LogPass,
    points: &mut List<Point>,
    request: &RequestView<'_>,
) -> Result<Values, NoMemory>
    requires made { pass.old.made ≡ call.now.by.now.logs.now }
    requires unfinished { points.old ≡ [] }
    requires operation { (moment : ℕ) × (call.now.op.now ≡ operation_of request.now.ask call.now.accepted.now moment) }
    requires gauges { All (λ need. need.gauge ≤ 3 * length call.now.by.now.logs.now.parts) call.now.op.now.needs }
    ensures made { pass.new.made ≡ call.now.by.now.logs.now }
    ensures won { IfOk result (λ values. WasWon call.now.by.now.seq request.now call.now.accepted.now call.now.op.now call.now.how
        (IsFresh (gauge_for request.now.ask) call.now.op.now.needs values) pass.old pass.new points.new) }
    ensures stopped { OnErr result (WasStopped call.now.by.now.seq request.now call.now.accepted.now call.now.op.now pass.old pass.new points.new) }
{
    match call.how {
        How::Satisfied => Ok(satisfying(call.by, pass, call.op)),
        How::Expired => {
            look_at_clock(call.by, pass, points, call.op.deadline())?;
            Ok([0; MOST_NEEDS])
        }
    }
}

/// Completes a request for a call of the pass, and notes the points of its looks. One that expired looks at the clock first, at a moment
/// no earlier than its deadline; one that was satisfied reads its gauges until they satisfy it, and then looks at states that are no
/// older. Answers what the reply takes of each named partition at these looks. If memory runs out, some of the looks may have been left,
/// with their points.
pub fn complete(
    call: &Completing<'_, '_, '_, impl Wait>,
    pass: &mut LogPass,
    points: &mut List<Point>,
    request: &RequestView<'_>,
) -> Result<List<Reading>, NoMemory>
    requires made { pass.old.made ≡ call.now.by.now.logs.now }
    requires unfinished { points.old ≡ [] }
    requires listed { AreResults request.now.ask call.now.accepted.now }
    requires operation { (moment : ℕ) × (call.now.op.now ≡ operation_of request.now.ask call.now.accepted.now moment) }
    requires there { AllBelow (length call.now.by.now.logs.now.parts) (parts_asked call.now.accepted.now) }
    ensures made { pass.new.made ≡ call.now.by.now.logs.now }
    ensures finished { IfOk result (λ readings.
        WasFinished call.now.by.now.seq request.now call.now.accepted.now call.now.op.now call.now.how pass.old pass.new points.new readings) }
    ensures offsets { IfOk result (λ readings. All HasCarriable readings) }
    ensures size { IfOk result (λ readings. length readings ≡ length call.now.accepted.now) }
    ensures room { IfOk result (λ readings. bytes_read readings ≤ most_left (budget_of request.now.ask)) }
    ensures stopped { OnErr result (WasStopped call.now.by.now.seq request.now call.now.accepted.now call.now.op.now pass.old pass.new points.new) }
{
    let values = win(call, pass, points, request)?;
    let looking = Looking {
        by: call.by,
        needs: call.op.needs(),
        values: &values,
    };
    match &request.ask {
        AskView::Fetch {
            replica,
            topics,
            ..
        } => {
            let budget = Budget::of(request);
            let topics = topics.as_slice();
            let fetch = FetchLooks {
                looking,
                replica: *replica,
            };
            read_each(&fetch, pass, points, topics, call.accepted, budget)
        }
        AskView::Produce { .. } | AskView::Metadata { .. } | AskView::Versions { .. } => {
            look_at_each(&looking, pass, points, call.accepted)
        }
    }
}
