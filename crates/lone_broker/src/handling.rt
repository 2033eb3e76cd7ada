//! What `Engine` does with a request that a session sent: it is accepted, and then answered at once or kept waiting.

ghost use Rattle.std.specs.Prelude.{◌≡◌, ℕ, [], ◌∷◌, ◌++◌, length, map, List as Items, Some, None, IfOk, OnOk};
ghost use Rattle.std.specs.List.{AllByRecursion};
ghost use Rattle.audit.specs.declared.account.CallHow.TheVariants.{Parked as Waits};
ghost use Rattle.audit.specs.Histories.{clock_part};
ghost use Rattle.kanswer.specs.LogReadings.{IsCarriable};
ghost use Rattle.kanswer.specs.Results.{AreResults};
ghost use Rattle.kanswer.specs.Numbered.{AreNumbers};
ghost use Rattle.kanswer.specs.Waiting.{Shown, becomes_delayed, is_quiet, operation_of, results_of};
ghost use Rattle.kwire.specs.Configuration.{followers_of};
ghost use Rattle.kwire.specs.IsRequest.{IsRequest};
ghost use Rattle.kwire.specs.Views.{ask_of};
ghost use Rattle.partlog.specs.Moment.{moment_of};
ghost use Rattle.audit.specs.broker.Turns.{how_at_once, text_at_once};
ghost use Rattle.lone_broker.specs.Gathered.{numbers_in};
ghost use Rattle.lone_broker.specs.Handled.{IsHandled, looked_by};
ghost use Rattle.lone_broker.specs.Replying.{HasLog, ShowsLogs};

use crate::accept::{Asking, accept};
use crate::came::Came;
use crate::parked::Parked;
use crate::reply::{numbers_of, reply_frame};
use audit::{CLOCK_PART, CallHow, Point};
use kanswer::{Accepted, can_wait, is_quiet, needs_op, op_of};
use kbytes::{Bytes, List, NoMemory};
use kwire::{AskView, MOST_PARTITIONS, RequestView};
use partlog::{ClockLog, PartLog};
use std::alloc::Global;

/// What was done with a request: the points of the entries that it left, how its call ended or that it waits, and what is kept
/// of it if it waits.
#[derive(Drop)]
pub struct Handled {
    pub accept: List<Point>,
    pub how: CallHow,
    pub parked: Option<Parked>,
}

// How a call ends that needn't wait.
fn how_at_once(ask: &AskView<'_>) -> CallHow
    ensures { result ≡ how_at_once (ask_of ask.now) }
{
    if is_quiet(ask) {
        CallHow::Quiet
    } else {
        CallHow::AtOnce
    }
}

// Puts the reply to a request that needn't wait at the end of `out`, if it asks for a reply.
fn answer_at_once(
    call: &Asking<'_>,
    parts: &[PartLog],
    request: &RequestView<'_>,
    came: Came,
    out: &mut Bytes,
) -> Result<Handled, NoMemory>
    requires listed { AreResults request.now.ask came.accepted }
    requires logs { AllByRecursion (HasLog (length parts.now)) came.accepted }
    requires asked { (body : Items ℕ) × IsRequest body request.now }
    ensures points { IfOk result (λ handled. handled.accept ≡ came.points) }
    ensures how { IfOk result (λ handled. handled.how ≡ how_at_once request.now.ask) }
    ensures none { IfOk result (λ handled. handled.parked ≡ None) }
    ensures printed { OnOk result ((shown : Items Shown) → ShowsLogs parts.now came.accepted shown
        → out.new ≡ out.old ++ text_at_once call.now.config.now call.now.visitor.who.by request.now shown) }
{
    if !is_quiet(&request.ask) {
        let frame = reply_frame(call.alloc, call.config, parts, request, came.accepted())?;
        call.digits
            .put_reply_line(out, call.visitor.who.by, frame.as_slice())?;
    }
    Ok(Handled {
        accept: came.into_points(),
        how: how_at_once(&request.ask),
        parked: None,
    })
}

// Lets the request wait: looks at the clock, and counts the deadline from the moment there.
fn park(
    call: &Asking<'_>,
    clock: &mut ClockLog,
    request: &RequestView<'_>,
    came: Came,
) -> Result<Handled, NoMemory>
    requires { AreResults request.now.ask came.accepted }
    ensures looked { OnOk result (clock.new ≡ looked_by call.now.visitor.who.by call.now.visitor.who.seq clock.old) }
    ensures points { IfOk result (λ handled. handled.accept
        ≡ came.points ++ record { part = clock_part; place = length clock.old } ∷ []) }
    ensures how { IfOk result (λ handled. handled.how ≡ Waits) }
    ensures some { IfOk result (λ handled. handled.parked ≡ Some (record {
      accepted = came.accepted;
      op = operation_of request.now.ask came.accepted (moment_of clock.new);
    })) }
{
    let place = clock.look(call.visitor.who)?;
    let op = op_of(call.alloc, request, came.accepted(), clock.now())?;
    let (accepted, mut accept) = came.into_parts();
    accept.push(Point {
        part: CLOCK_PART,
        place,
    })?;
    Ok(Handled {
        accept,
        how: CallHow::Parked,
        parked: Some(Parked { accepted, op }),
    })
}

// Whether the request is to wait, by its partitions' logs as they are.
fn is_delayed(
    alloc: Global,
    parts: &[PartLog],
    request: &RequestView<'_>,
    accepted: &[Accepted],
) -> Result<bool, NoMemory>
    requires results { AreResults request.now.ask accepted.now }
    requires logs { AllByRecursion (HasLog (length parts.now)) accepted.now }
    ensures { IfOk result (λ delayed. (shown : Items Shown) → results_of shown ≡ accepted.now → AreNumbers (numbers_in parts.now accepted.now) shown
        → delayed ≡ becomes_delayed request.now.ask shown) }
{
    if !can_wait(request, accepted) {
        return Ok(false);
    }
    let numbers = numbers_of(alloc, parts, accepted)?;
    Ok(needs_op(request, accepted, numbers.as_slice()))
}

/// Handles a request of a session: accepts it, and answers it at the end of `out` or lets it wait. If memory runs out, some of
/// the named partitions may have their entries, and the logs may only be dropped.
pub fn handle(
    call: &Asking<'_>,
    parts: &mut [PartLog],
    clock: &mut ClockLog,
    request: &RequestView<'_>,
    out: &mut Bytes,
) -> Result<Handled, NoMemory>
    requires asked { (body : Items ℕ) × IsRequest body request.now }
    requires followers { map (λ h. h.followers) parts.old ≡ followers_of call.now.config.now.topics }
    requires moment { call.now.visitor.moment ≡ moment_of clock.old }
    ensures { IfOk result (λ handled. IsHandled call.now.config.now call.now.visitor.who.by call.now.visitor.who.seq request.now parts.old parts.new
        clock.old clock.new handled out.old out.new) }
{
    // so few partitions that there is a gauge for each that the request may wait for
    prove!(call.config.parts() <= MOST_PARTITIONS);
    let mut came = Came::new(call.alloc);
    accept(call, parts, request, &mut came)?;
    let delayed = is_delayed(call.alloc, parts, request, came.accepted())?;
    if delayed {
        park(call, clock, request, came)
    } else {
        answer_at_once(call, parts, request, came, out)
    }
}
