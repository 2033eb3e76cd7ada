//! The watchers of all gauges, in sixteen shards. `Waiters` lists a session under its gauges here, and finds here the sessions that
//! wait for a gauge that rose.
ghost use Rattle.std.specs.Prelude.{◌≡◌, ◌≢◌, ℕ, ◌<◌, ◌≤◌, ◌/◌, ◌↔◌, ◌⊎◌, IfNone, IfOk, IfSome, Some, filter, length, not, slice_get, slice_index};
ghost use Rattle.watch_lists.specs.Watches.{IsListed, is_of, keys_of, size_of};
ghost use Rattle.lone_broker.specs.index.Index.{IsWatching};
ghost use Rattle.lone_broker.specs.index.Shelved.{row_at};

use crate::index::session_set::SESSIONS;
use kbytes::NoMemory;
use std::alloc::Global;
use std::marker::Model;
use watch_lists::{Shard, Watch};

/// How many gauges there can be. Their numbers are below it.
pub const GAUGES: u32 = 192;

/// A gauge is in the shard of its number modulo this.
const SHARDS: u32 = 16;

/// How many gauges a shard has.
const KEYS: u32 = 12;

/// A shard with this many watchers is purged before the next is listed.
const FULL: u32 = 500;

/// The watchers of all gauges.
#[derive(Drop)]
pub(crate) struct Shelves {
    shards: Vec<Shard>,
}

impl Model for Shelves {
    ghost use Rattle.std.specs.Prelude.{List};
    ghost use Rattle.watch_lists.specs.Watches.{Watches};
    ghost use Rattle.lone_broker.specs.index.Shelved.{AreShelved};

    ghost Value = { List Watches };

    ghost view = { λ s. s.shards.items };

    ghost invariant = { λ s. AreShelved s.shards.items };
}

// Purges the shard if it is full. `live` has the generation of each session.
fn make_room(shard: &mut Shard, live: &[u32])
    requires ids { shard.old.ids ≡ SESSIONS }
    requires live { length live.now ≡ SESSIONS }
    ensures keys { keys_of shard.new ≡ keys_of shard.old }
    ensures ids { shard.new.ids ≡ SESSIONS }
    ensures fewer { (key id generation : ℕ) → IsListed shard.new key id generation → IsListed shard.old key id generation }
    ensures kept { (key id : ℕ) → IsListed shard.old key id (slice_index live.now id) → IsListed shard.new key id (slice_index live.now id) }
    ensures purged { 500 ≤ size_of shard.old → (key id generation : ℕ) → IsListed shard.new key id generation
        → generation ≡ slice_index live.now id }
{
    if shard.len() >= FULL {
        shard.purge(live);
    }
}

// Lists a session under a key of a shard, with its generation.
fn list_in(shard: &mut Shard, key: u32, session: u32, live: &[u32])
    requires key { key < keys_of shard.old }
    requires ids { shard.old.ids ≡ SESSIONS }
    requires session { session < SESSIONS }
    requires live { length live.now ≡ SESSIONS }
    requires generation { 1 ≤ slice_index live.now session }
    ensures keys { keys_of shard.new ≡ keys_of shard.old }
    ensures ids { shard.new.ids ≡ SESSIONS }
    ensures listed { (k id : ℕ) → IsListed shard.new k id (slice_index live.now id)
        ↔ (IsListed shard.old k id (slice_index live.now id) ⊎ ((k ≡ key) × (id ≡ session))) }
    ensures within { (k id generation : ℕ) → IsListed shard.new k id generation
        → IsListed shard.old k id generation ⊎ ((id ≡ session) × (generation ≡ slice_index live.now session)) }
{
    make_room(shard, live);
    shard.list(key, session, live[session as usize]);
}

impl Shelves {
    /// Shards without watchers. No later call takes memory.
    pub(crate) fn new(alloc: Global) -> Result<Shelves, NoMemory>
        ensures { IfOk result (λ shelves. (gauge session generation : ℕ) → ¬ IsWatching shelves gauge session generation) }
    {
        let mut shards = Vec::with_capacity(alloc, SHARDS as usize)?;
        for _at in 0..SHARDS {
            let shard = Shard::new(alloc, KEYS, SESSIONS)?;
            shards.push(shard)?;
        }
        Ok(Shelves { shards })
    }

    /// Lists a session under a gauge, with its generation in `live`, which has one for each session.
    pub(crate) fn list(&mut self, gauge: u32, session: u32, live: &[u32])
        requires gauge { gauge < GAUGES }
        requires session { session < SESSIONS }
        requires live { length live.now ≡ SESSIONS }
        requires generation { 1 ≤ slice_index live.now session }
        ensures listed { (g id : ℕ) → IsWatching self.new g id (slice_index live.now id)
            ↔ (IsWatching self.old g id (slice_index live.now id) ⊎ ((g ≡ gauge) × (id ≡ session))) }
        ensures within { (g id generation : ℕ) → IsWatching self.new g id generation
            → IsWatching self.old g id generation ⊎ ((id ≡ session) × (generation ≡ slice_index live.now session)) }
    {
        let shard = &mut self.shards[(gauge % SHARDS) as usize];
        list_in(shard, gauge / SHARDS, session, live);
    }

    /// The watcher of a gauge at a place, in rising order of session, and `None` exactly if there are no more.
    pub(crate) fn each(&self, gauge: u32, at: u32) -> Option<Watch>
        requires { gauge < GAUGES }
        ensures place { result ≡ slice_get (row_at self.now gauge) at }
        ensures low { IfSome result (λ w. at ≤ w.id) }
        ensures within { IfSome result (λ w. w.id < SESSIONS) }
        ensures watching { IfSome result (λ w. IsWatching self.now gauge w.id w.generation) }
        ensures all { IfNone result ((id generation : ℕ) → IsWatching self.now gauge id generation
            → (earlier : ℕ) × (earlier < at) × (slice_get (row_at self.now gauge) earlier
            ≡ Some (record { key = gauge / 16; id = id; generation = generation }))) }
    {
        let shard = &self.shards[(gauge % SHARDS) as usize];
        shard.each(gauge / SHARDS, at)
    }

    /// Removes a stale watcher of a gauge.
    pub(crate) fn drop_stale(&mut self, gauge: u32, stale: Watch)
        requires gauge { gauge < GAUGES }
        requires session { stale.id < SESSIONS }
        ensures row { row_at self.new gauge ≡ filter (λ w. not (is_of stale.id stale.generation w)) (row_at self.old gauge) }
        ensures listed { (g id generation : ℕ) → IsWatching self.new g id generation
            ↔ (IsWatching self.old g id generation × (g ≡ gauge → id ≡ stale.id → generation ≢ stale.generation)) }
    {
        let shard = &mut self.shards[(gauge % SHARDS) as usize];
        shard.drop_stale(gauge / SHARDS, stale.id, stale.generation);
    }
}
