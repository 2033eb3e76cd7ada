//! A request is accepted, for a call of a pass: by `producing` or `fetching`, partition by partition. The crate above answers from what
//! came of that, or lets the request wait.
ghost use Rattle.std.specs.Prelude.{◌≡◌, ◌≤◌, ℕ, true, [], List as Items, IfOk, OnErr, OnOk, length};
ghost use Rattle.std.specs.List.{AllZip};
ghost use Rattle.kanswer.specs.Decisions.{Decides, Decision};
ghost use Rattle.kanswer.specs.LogReadings.{budget_of};
ghost use Rattle.kanswer.specs.Results.{AreResults};
ghost use Rattle.kwire.specs.Configuration.{followers_of, partitions_of};
ghost use Rattle.kwire.specs.declared.config.TheConstants.{MOST_PARTITIONS};
ghost use Rattle.kwire.specs.IsRequest.{IsRequest};
ghost use Rattle.kanswer.specs.BytesRead.{bytes_read, most_left};
ghost use Rattle.shared_logs.specs.Shared.{followers_in};
ghost use Rattle.shared_calls.specs.Accepted.{WasAccepted};
ghost use Rattle.shared_calls.specs.Carried.{HasStopped};
ghost use Rattle.shared_calls.specs.Stand.{IsEven, IsResultOf};

use crate::came::Came;
use crate::fetching::{Fetching, fetch_topics};
use crate::producing::{Producing, produce_topics};
use audit::Point;
use kanswer::{Budget, Terms};
use kbytes::{List, NoMemory};
use kwire::{AskView, Config, RequestView};
use shared_logs::LogPass;
use shared_logs::call_turns::Caller;
use std::sync::Wait;

/// The call of a pass that asks, and of what topics, and whether a reply is made of what a fetch reads. Else it reads no records.
#[derive(Drop)]
pub struct Asking<'a, 'r, 'l, W> {
    pub config: &'a Config,
    pub by: &'a Caller<'r, 'l, W>,
    pub is_read: bool,
}

// What the reply to a request may take, or nothing where none is made.
fn reply_room(request: &RequestView<'_>, is_read: bool) -> Budget
    ensures read { is_read ≡ true → result ≡ budget_of request.now.ask }
    ensures least { most_left result ≤ most_left (budget_of request.now.ask) }
{
    if is_read {
        return Budget::of(request);
    }
    // as of a reply that has a batch already, and may take no byte more
    Budget { left: 0, any: true }
}

// What is decided of the request is carried out, and what comes of that is noted.
fn carry_out(
    call: &Asking<'_, '_, '_, impl Wait>,
    pass: &mut LogPass,
    points: &mut List<Point>,
    request: &RequestView<'_>,
    came: &mut Came,
) -> Result<(), NoMemory>
    requires made { pass.old.made ≡ call.now.by.now.logs.now }
    requires followers { followers_in call.now.by.now.logs.now ≡ followers_of call.now.config.now.topics }
    requires nothing { came.old ≡ record { accepted = []; numbers = []; readings = [] } }
    ensures made { pass.new.made ≡ call.now.by.now.logs.now }
    ensures accepted { OnOk result ((decisions : Items Decision) → Decides call.now.config.now request.now.ask decisions
        → WasAccepted call.now.is_read call.now.config.now call.now.by.now.seq request.now decisions pass.old points.old pass.new points.new came.new) }
    ensures results { OnOk result ((decisions : Items Decision) → Decides call.now.config.now request.now.ask decisions
        → AllZip IsResultOf decisions came.new.accepted) }
    ensures even { OnOk result (IsEven came.new) }
    ensures room { OnOk result (bytes_read came.new.readings ≤ most_left (budget_of request.now.ask)) }
    ensures stopped { OnErr result ((decisions : Items Decision) → Decides call.now.config.now request.now.ask decisions
        → HasStopped call.now.config.now call.now.by.now.seq decisions pass.old points.old pass.new points.new) }
{
    match &request.ask {
        AskView::Produce {
            version,
            transactional,
            acks,
            topics,
            ..
        } => {
            let terms = Terms {
                version: *version,
                is_transactional: transactional.is_some(),
                acks: *acks,
            };
            let producing = Producing {
                config: call.config,
                by: call.by,
                terms,
            };
            produce_topics(&producing, pass, points, topics.as_slice(), came)
        }
        AskView::Fetch {
            replica,
            topics,
            ..
        } => {
            let mut budget = reply_room(request, call.is_read);
            let fetching = Fetching {
                config: call.config,
                by: call.by,
                replica: *replica,
            };
            let topics = topics.as_slice();
            fetch_topics(&fetching, pass, points, topics, &mut budget, came)
        }
        AskView::Metadata { .. } | AskView::Versions { .. } => Ok(()),
    }
}

/// Accepts a request for a call of the pass, and notes the points of its entries. The pass may then owe scans. If memory runs out, some of
/// the named partitions may have their entries, with their points.
pub fn accept(
    call: &Asking<'_, '_, '_, impl Wait>,
    pass: &mut LogPass,
    points: &mut List<Point>,
    request: &RequestView<'_>,
) -> Result<Came, NoMemory>
    requires made { pass.old.made ≡ call.now.by.now.logs.now }
    requires followers { followers_in call.now.by.now.logs.now ≡ followers_of call.now.config.now.topics }
    requires few { partitions_of call.now.config.now.topics ≤ MOST_PARTITIONS }
    requires asked { (body : Items ℕ) × IsRequest body request.now }
    ensures made { pass.new.made ≡ call.now.by.now.logs.now }
    ensures accepted { IfOk result (λ came. (decisions : Items Decision) → Decides call.now.config.now request.now.ask decisions
        → WasAccepted call.now.is_read call.now.config.now call.now.by.now.seq request.now decisions pass.old points.old pass.new points.new came) }
    ensures results { IfOk result (λ came. (decisions : Items Decision) → Decides call.now.config.now request.now.ask decisions
        → AreResults request.now.ask came.accepted) }
    ensures numbers { IfOk result (λ came. length came.numbers ≡ length came.accepted) }
    ensures readings { IfOk result (λ came. length came.readings ≡ length came.accepted) }
    ensures room { IfOk result (λ came. bytes_read came.readings ≤ most_left (budget_of request.now.ask)) }
    ensures stopped { OnErr result ((decisions : Items Decision) → Decides call.now.config.now request.now.ask decisions
        → HasStopped call.now.config.now call.now.by.now.seq decisions pass.old points.old pass.new points.new) }
{
    let mut came = Came::new(call.by.logs.alloc());
    carry_out(call, pass, points, request, &mut came)?;
    Ok(came)
}
