//! Whether an accepted request waits, and as which operation. A broker asks when all partitions are accepted; `need` says
//! what each of them needs.
ghost use Rattle.std.specs.Prelude.{◌≡◌, ◌<◌, ◌≤◌, ◌^◌, List as Items, false, count_by, length, IfOk};
ghost use Rattle.std.specs.List.{list_any};
ghost use Rattle.kwire.specs.Views.{ask_of};
ghost use Rattle.partlog.specs.declared.clock_event.TheConstants.{MOST_MOMENT};
ghost use Rattle.kanswer.specs.Appends.{is_appended};
ghost use Rattle.kanswer.specs.MayWait.{may_wait};
ghost use Rattle.kanswer.specs.Numbered.{AreNumbers};
ghost use Rattle.kanswer.specs.Reached.{reached_by};
ghost use Rattle.kanswer.specs.Results.{AreResults};
ghost use Rattle.kanswer.specs.Waiting.{Shown, all_seen, becomes_delayed, is_quiet, is_refused, least_of, needs_by_part, needs_of, operation_of, results_of, wait_of};

use crate::accepted::{Accepted, reply_limit};
use crate::need::{need_at, reached_at};
use kbytes::NoMemory;
use kwire::{AskView, RequestView};
use opcond::Op;
use partlog::Numbers;
use std::alloc::Global;

fn is_appended(became: &Accepted) -> bool
    ensures { result ≡ is_appended became.now }
{
    match became {
        Accepted::Appended { .. } => true,
        Accepted::Refused { .. } | Accepted::Seen { .. } => false,
    }
}

// The number of partitions that were appended to.
fn appended_count(accepted: &[Accepted]) -> usize
    ensures { result ≡ count_by is_appended accepted.now }
{
    accepted
        .iter()
        .filter(|became| is_appended(*became))
        .count()
}

fn is_refused(became: &Accepted) -> bool
    ensures { result ≡ is_refused became.now }
{
    match became {
        Accepted::Refused { .. } => true,
        Accepted::Appended { .. } | Accepted::Seen { .. } => false,
    }
}

fn any_refused(accepted: &[Accepted]) -> bool
    ensures { result ≡ list_any is_refused accepted.now }
{
    accepted.iter().any(|became| is_refused(became))
}

// At least one partition is named, and none was refused.
fn all_seen(accepted: &[Accepted]) -> bool
    ensures { result ≡ all_seen accepted.now }
{
    !accepted.is_empty() && !any_refused(accepted)
}

// Whether the request would wait while its tally isn't reached.
fn may_wait(ask: &AskView<'_>, accepted: &[Accepted]) -> bool
    ensures { result ≡ may_wait (ask_of ask.now) accepted.now }
{
    match ask {
        AskView::Produce { acks, .. } => *acks == -1,
        AskView::Fetch { max_wait, .. } => *max_wait > 0 && all_seen(accepted),
        AskView::Metadata { .. } | AskView::Versions { .. } => false,
    }
}

// The least tally that satisfies the request.
fn least_of(ask: &AskView<'_>, accepted: &[Accepted]) -> u64
    requires { AreResults (ask_of ask.now) accepted.now }
    ensures least { result ≡ least_of (ask_of ask.now) (needs_of (ask_of ask.now) accepted.now) }
    ensures limit { result < 2 ^ 31 }
{
    match ask {
        AskView::Produce { .. } => appended_count(accepted) as u64,
        AskView::Fetch {
            min_bytes,
            max_bytes,
            ..
        } => ((*min_bytes).max(0) as u64).min(reply_limit(*max_bytes)),
        AskView::Metadata { .. } | AskView::Versions { .. } => 0,
    }
}

// How long the request may wait, in milliseconds.
fn wait_of(ask: &AskView<'_>) -> u64
    ensures wait { result ≡ wait_of (ask_of ask.now) }
    ensures limit { result < 2 ^ 31 }
{
    match ask {
        AskView::Produce { timeout, .. } => (*timeout).max(0) as u64,
        AskView::Fetch { max_wait, .. } => (*max_wait).max(0) as u64,
        AskView::Metadata { .. } | AskView::Versions { .. } => 0,
    }
}

// The tally of the request's needs.
fn reached(ask: &AskView<'_>, accepted: &[Accepted], numbers: &[Numbers]) -> u64
    requires results { AreResults (ask_of ask.now) accepted.now }
    requires numbers { length numbers.now ≡ length accepted.now }
    ensures { result ≡ reached_by (needs_by_part (ask_of ask.now) accepted.now) numbers.now }
{
    let mut reached = 0;
    for at in 0..accepted.len() {
        reached += reached_at(need_at(ask, accepted, at), &numbers[at]);
    }
    reached
}

/// Whether a request may wait at all, from what became of each partition that it names. One that may not doesn't wait, whatever
/// the states of its partitions, so nobody need read their numbers. It takes no memory.
pub fn can_wait(request: &RequestView<'_>, accepted: &[Accepted]) -> bool
    ensures may { result ≡ may_wait request.now.ask accepted.now }
    ensures never { result ≡ false → (shown : Items Shown) → results_of shown ≡ accepted.now → becomes_delayed request.now.ask shown ≡ false }
{
    may_wait(&request.ask, accepted)
}

/// Whether a request waits, from what became of each partition that it names and its numbers just after that. It waits
/// exactly where it may and states with these numbers don't satisfy it. The numbers of a refused partition don't matter. It
/// takes no memory.
pub fn needs_op(request: &RequestView<'_>, accepted: &[Accepted], numbers: &[Numbers]) -> bool
    requires results { AreResults request.now.ask accepted.now }
    requires numbers { length numbers.now ≡ length accepted.now }
    ensures { (shown : Items Shown) → results_of shown ≡ accepted.now → AreNumbers numbers.now shown
        → result ≡ becomes_delayed request.now.ask shown }
{
    let ask = &request.ask;
    may_wait(ask, accepted) && reached(ask, accepted, numbers) < least_of(ask, accepted)
}

/// The operation of a request that was accepted at a moment, in milliseconds: what it needs of its partitions, the least
/// tally that satisfies it, and its deadline.
pub fn op_of(
    alloc: Global,
    request: &RequestView<'_>,
    accepted: &[Accepted],
    now: u64,
) -> Result<Op, NoMemory>
    requires results { AreResults request.now.ask accepted.now }
    requires moment { now ≤ MOST_MOMENT }
    ensures { IfOk result (λ op. op ≡ operation_of request.now.ask accepted.now now) }
{
    let ask = &request.ask;
    let mut op = Op::new(alloc, least_of(ask, accepted), now + wait_of(ask));
    for at in 0..accepted.len() {
        if let Some(need) = need_at(ask, accepted, at) {
            op.add(need)?;
        }
    }
    Ok(op)
}

/// Whether a request asks for no reply: a produce with acks 0.
pub fn is_quiet(ask: &AskView<'_>) -> bool
    ensures { result ≡ is_quiet (ask_of ask.now) }
{
    matches!(ask, AskView::Produce { acks: 0, .. })
}
