//! The log end and the high watermark of a history, computed from all its entries. `summary` prints them; a `PartLog` would
//! have them at hand, but the account has none.

ghost use Rattle.std.specs.Prelude.{◌≡◌, ◌<◌, ◌^◌, ◌∷◌, ◌++◌, [], ℕ, pos, List, IfOk, IfSome, IfNone};
ghost use Rattle.partlog.specs.in_sync.InSync.{high_watermark_of};
ghost use Rattle.partlog.specs.in_sync.Standings.{StandsFor};
ghost use Rattle.partlog.specs.Added.{added_count, log_end_of};
ghost use Rattle.partlog.specs.Replicas.{replica_events};
ghost use Rattle.partlog.specs.declared.event.PartEvent.{PartEvent as Event};
ghost use Rattle.audit.specs.Trackable.{CanEnter, IsTrackable};

use kbytes::NoMemory;
use partlog::PartEvent;
use partlog::in_sync::InSync;
use std::alloc::Global;

// The number of records that an entry added.
fn added_count(event: &PartEvent) -> u64
    ensures { result ≡ added_count event.now }
{
    match event {
        PartEvent::Append { count, .. } => u64::from(*count),
        _ => 0,
    }
}

/// The log end offset of a history: the number of records that were added.
pub fn log_end(events: &[PartEvent]) -> u64
    requires { log_end_of events.now < 2 ^ 64 }
    ensures { result ≡ log_end_of events.now }
{
    events.iter().map(|event| added_count(event)).sum()
}

// The number of a replica, where it isn't below 0.
fn number_of(replica: i32) -> Option<u32>
    ensures number { IfSome result (λ number. replica ≡ pos number) }
    ensures none { IfNone result ((number : ℕ) → replica ≡ pos number → ⊥) }
{
    if replica < 0 {
        return None;
    }
    Some(replica as u32)
}

// Tells the replicas of an entry.
fn enter(replicas: &mut InSync, event: &PartEvent)
    requires { CanEnter replicas.old event.now }
    ensures { (followers : ℕ) (events : List Event) → StandsFor replicas.old followers (replica_events events)
        → StandsFor replicas.new followers (replica_events (events ++ event.now ∷ [])) }
{
    match *event {
        PartEvent::Append { count, .. } => replicas.append(count),
        PartEvent::Follow {
            replica,
            offset,
            t,
            ..
        } => {
            if let Some(number) = number_of(replica) {
                replicas.fetch(number, offset, t);
            }
        }
        PartEvent::Shrink { replica, t, .. } => {
            if let Some(number) = number_of(replica) {
                replicas.leave(number, t);
            }
        }
        PartEvent::Look { .. } => {}
    }
}

/// The high watermark of a history: the least of its log end and the positions of the followers in sync.
pub fn high_watermark(alloc: Global, events: &[PartEvent], followers: u32) -> Result<u64, NoMemory>
    requires { IsTrackable followers events.now }
    ensures { IfOk result (λ high. high ≡ high_watermark_of followers (replica_events events.now)) }
{
    let mut replicas = InSync::new(alloc, followers)?;
    for event in events {
        enter(&mut replicas, event);
    }
    Ok(replicas.high_watermark())
}
