ghost use Rattle.std.specs.Prelude.{◌≡◌, ◌≢◌, ◌+◌, ◌*◌, ◌^◌, ◌<◌, ◌≤◌, ◌↔◌, ℕ, [], Contains, IfNone, IfOk, IfSome, IsTrue, Some, filter, length, map, not, replicate, slice_get, slice_index};
ghost use Rattle.watch_lists.specs.Row.{IsRow};
ghost use Rattle.watch_lists.specs.Watches.{IsListed, is_live, is_of, keys_of, listing, row_of, size_of, with_row};

use crate::row::{keep_live, put, take};
use crate::watch::Watch;
use kbytes::NoMemory;
use std::alloc::Global;
use std::marker::Model;

/// How many watchers a shard has room for, at most.
pub const MOST_WATCHERS: u32 = 1 << 20;

/// Who watches which key. Each key has its watchers in a list of its own, in rising order of id.
#[derive(Drop)]
pub struct Shard {
    ids: u32,
    rows: Vec<Vec<Watch>>,
    // how many watchers there are, of all keys
    count: u32,
}

impl Model for Shard {
    ghost use Rattle.std.specs.Prelude.{◌≡◌, length, map, sum_by};
    ghost use Rattle.watch_lists.specs.Watches.{Watches};
    ghost use Rattle.watch_lists.specs.Rows.{AreRows};

    ghost Value = { Watches };

    ghost view = { λ s. record { ids = s.ids; rows = map (λ row. row.items) s.rows.items } };

    ghost invariant = { λ s. AreRows s.ids s.rows.items × (s.count ≡ sum_by (λ row. length row.items) s.rows.items) };
}

impl Shard {
    /// A shard with nothing listed, for the keys below `keys` and the ids below `ids`. Nothing
    /// takes memory after this.
    pub fn new(alloc: Global, keys: u32, ids: u32) -> Result<Shard, NoMemory>
        requires { keys * ids ≤ MOST_WATCHERS }
        ensures rows { IfOk result (λ shard. shard ≡ record { ids = ids; rows = replicate keys [] }) }
        ensures none { IfOk result
            (λ shard. (key : ℕ) (id : ℕ) (generation : ℕ) → ¬ IsListed shard key id generation) }
    {
        let mut rows = Vec::with_capacity(alloc, keys as usize)?;
        for _key in 0..keys {
            let row = Vec::with_capacity(alloc, ids as usize)?;
            rows.push(row)?;
        }
        Ok(Shard {
            ids,
            rows,
            count: 0,
        })
    }

    /// Lists an id under a key with a generation, in place of an older one. Generations are 1 or
    /// more.
    #[inline(always)]
    pub fn list(&mut self, key: u32, id: u32, generation: u32)
        requires key { key < keys_of self.old }
        requires id { id < self.old.ids }
        requires generation { 1 ≤ generation }
        ensures rest { self.new ≡ with_row self.old key
            (listing (record { key = key; id = id; generation = generation }) (row_of self.old key)) }
        ensures listed { (g : ℕ) → IsListed self.new key id g ↔ (g ≡ generation) }
        ensures others { (k : ℕ) (i : ℕ) (g : ℕ) → (k ≡ key → i ≢ id)
            → IsListed self.new k i g ↔ IsListed self.old k i g }
    {
        let watch = Watch {
            key,
            id,
            generation,
        };
        let ids = self.ids;
        let row = &mut self.rows[key as usize];
        let before = row.len() as u32;
        put(row, watch, ids);
        let after = row.len() as u32;
        self.count = self.count - before + after;
    }

    /// The watcher at a place of a key, in rising order of id. `None` exactly where there are no
    /// more.
    pub fn each(&self, key: u32, at: u32) -> Option<Watch>
        requires { key < keys_of self.now }
        ensures place { result ≡ slice_get (row_of self.now key) at }
        ensures listed { IfSome result
            (λ w. (w.key ≡ key) × IsListed self.now key w.id w.generation) }
        ensures within { IfSome result (λ w. (w.id < self.now.ids) × (1 ≤ w.generation)) }
        ensures row { IsRow key self.now.ids (row_of self.now key) }
        ensures all { IfNone result ((id : ℕ) (generation : ℕ) → IsListed self.now key id generation
            → (earlier : ℕ) × (earlier < at) × (slice_get (row_of self.now key) earlier
            ≡ Some (record { key = key; id = id; generation = generation }))) }
    {
        self.rows[key as usize].get(at as usize).copied()
    }

    /// How many watchers a key has.
    pub fn watchers(&self, key: u32) -> u32
        requires { key < keys_of self.now }
        ensures { result ≡ length (row_of self.now key) }
    {
        self.rows[key as usize].len() as u32
    }

    /// Takes a watcher out. False where it isn't listed with this generation.
    pub fn drop_stale(&mut self, key: u32, id: u32, generation: u32) -> bool
        requires key { key < keys_of self.old }
        requires id { id < self.old.ids }
        ensures listed { IsTrue result ↔ Contains (row_of self.old key)
            (record { key = key; id = id; generation = generation }) }
        ensures rest { self.new ≡ with_row self.old key
            (filter (λ w. not (is_of id generation w)) (row_of self.old key)) }
        ensures was { IsTrue result ↔ IsListed self.old key id generation }
        ensures others { (k : ℕ) (i : ℕ) (g : ℕ) → IsListed self.new k i g
            ↔ (IsListed self.old k i g × (k ≡ key → i ≡ id → g ≢ generation)) }
    {
        let row = &mut self.rows[key as usize];
        let before = row.len() as u32;
        let was = take(row, id, generation);
        let after = row.len() as u32;
        self.count = self.count - before + after;
        was
    }

    /// Takes out every watcher whose generation isn't the live one of its id, and answers how many.
    /// `live` has a generation for each id, 0 where the id isn't open.
    pub fn purge(&mut self, live: &[u32]) -> u32
        requires { length live.now ≡ self.old.ids }
        ensures live { self.new
            ≡ record self.old { rows = map (filter (is_live live.now)) self.old.rows } }
        ensures listed { (k : ℕ) (i : ℕ) (g : ℕ) → IsListed self.new k i g
            ↔ (IsListed self.old k i g × (g ≡ slice_index live.now i)) }
        ensures count { result + size_of self.new ≡ size_of self.old }
    {
        let mut removed = 0;
        for key in 0..self.rows.len() {
            removed += keep_live(&mut self.rows[key], live);
        }
        let removed = removed as u32;
        self.count -= removed;
        removed
    }

    /// How many watchers are listed, of all keys.
    pub fn len(&self) -> u32
        ensures { result ≡ size_of self.now }
    {
        self.count
    }

    /// Law: the watchers of a key are in rising order of id, each with the key, an id below the
    /// limit and a generation of 1 or more. So an id is listed under a key once at most.
    pub fn watchers_rise(&self)
        ensures rows { (key : ℕ) → key < keys_of self.now
            → IsRow key self.now.ids (row_of self.now key) }
        ensures within { (key : ℕ) (id : ℕ) (generation : ℕ) → IsListed self.now key id generation
            → (key < keys_of self.now) × (id < self.now.ids) × (1 ≤ generation) }
        ensures once { (key : ℕ) (id : ℕ) (one : ℕ) (other : ℕ) → IsListed self.now key id one
            → IsListed self.now key id other → one ≡ other }
    {
        let _ids = self.ids;
    }
}
