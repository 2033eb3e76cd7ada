//! The two loops of the index: over the gauges of an operation as a session begins to wait, and over the watchers of a gauge that rose.
ghost use Rattle.std.specs.Prelude.{◌≡◌, ℕ, ◌<◌, ◌≤◌, ◌↔◌, ◌⊎◌, All, length, slice_index};
ghost use Rattle.lone_broker.specs.index.Sessions.{Has};
ghost use Rattle.lone_broker.specs.index.Index.{IsWatching};
ghost use Rattle.lone_broker.specs.index.Waiting.{Names};

use crate::index::session_set::{SESSIONS, SessionSet};
use crate::index::shelves::{GAUGES, Shelves};
use opcond::Need;

/// Lists a session under the gauge of each need, with its generation in `live`, which has one for each session.
pub(crate) fn list_all(shelves: &mut Shelves, live: &[u32], session: u32, needs: &[Need])
    requires session { session < SESSIONS }
    requires live { length live.now ≡ SESSIONS }
    requires generation { 1 ≤ slice_index live.now session }
    requires gauges { All (λ need. need.gauge < GAUGES) needs.now }
    ensures listed { (gauge id : ℕ) → IsWatching shelves.new gauge id (slice_index live.now id)
        ↔ (IsWatching shelves.old gauge id (slice_index live.now id) ⊎ (Names needs.now gauge × (id ≡ session))) }
    ensures within { (gauge id generation : ℕ) → IsWatching shelves.new gauge id generation
        → IsWatching shelves.old gauge id generation ⊎ ((id ≡ session) × (generation ≡ slice_index live.now session)) }
{
    for i in 0..needs.len() {
        shelves.list(needs[i].gauge, session, live);
    }
}

/// Adds the sessions that wait for a gauge to a set, and removes the watchers of older generations from its list.
pub(crate) fn walk(shelves: &mut Shelves, live: &[u32], gauge: u32, found: &mut SessionSet)
    requires live { length live.now ≡ SESSIONS }
    requires gauge { gauge < GAUGES }
    ensures found { (id : ℕ) → Has found.new id ↔ (Has found.old id ⊎ IsWatching shelves.old gauge id (slice_index live.now id)) }
    ensures fewer { (g id generation : ℕ) → IsWatching shelves.new g id generation → IsWatching shelves.old g id generation }
    ensures kept { (g id : ℕ) → IsWatching shelves.old g id (slice_index live.now id)
        → IsWatching shelves.new g id (slice_index live.now id) }
    ensures swept { (id generation : ℕ) → IsWatching shelves.new gauge id generation → generation ≡ slice_index live.now id }
{
    let mut at = 0;
    while let Some(watch) = shelves.each(gauge, at) {
        if live[watch.id as usize] == watch.generation {
            found.insert(watch.id);
            at += 1;
        } else {
            shelves.drop_stale(gauge, watch);
        }
    }
}
