//! The counts in a summary, over all entries of a history or all calls of a session.

ghost use Rattle.std.specs.Prelude.{◌≡◌, ◌≤◌, ◌∷◌, [], List, ℕ, length};
ghost use Rattle.partlog.specs.Batches.{batches_of};
ghost use Rattle.audit.specs.Fits.{answered_of, is_answered};
ghost use Rattle.audit.specs.Printed.{is_parked, parked_of};

use crate::account::{Call, CallHow};
use partlog::PartEvent;

// The number of batches that an entry added.
fn put(event: &PartEvent) -> usize
    ensures counted { (log : List ℕ) → result ≡ length (batches_of (event.now ∷ []) log) }
    ensures few { result ≤ 1 }
{
    match event {
        PartEvent::Append { .. } => 1,
        _ => 0,
    }
}

/// The number of batches in a history.
pub fn batch_count(events: &[PartEvent]) -> usize
    ensures { (log : List ℕ) → result ≡ length (batches_of events.now log) }
{
    let mut count = 0;
    for event in events {
        count += put(event);
    }
    count
}

fn is_answered(how: CallHow) -> bool
    ensures { result ≡ is_answered how }
{
    match how {
        CallHow::AtOnce | CallHow::Satisfied { .. } | CallHow::Expired { .. } => true,
        CallHow::Quiet | CallHow::Parked | CallHow::Cut { .. } => false,
    }
}

/// The number of calls that have a reply.
pub fn reply_count(calls: &[Call]) -> usize
    ensures { result ≡ length (answered_of calls.now) }
{
    calls.iter().filter(|call| is_answered(call.how)).count()
}

fn is_parked(how: CallHow) -> bool
    ensures { result ≡ is_parked how }
{
    match how {
        CallHow::Parked => true,
        CallHow::Quiet
        | CallHow::AtOnce
        | CallHow::Satisfied { .. }
        | CallHow::Expired { .. }
        | CallHow::Cut { .. } => false,
    }
}

/// 1 if the last call is parked, else 0.
pub fn parked_count(calls: &[Call]) -> usize
    ensures { result ≡ parked_of calls.now }
{
    match calls.last() {
        Some(call) => usize::from(is_parked(call.how)),
        None => 0,
    }
}
