//! The watchers of one key: a list in rising order of id.
ghost use Rattle.std.specs.Prelude.{◌≡◌, ◌+◌, ◌<◌, ◌≤◌, ◌↔◌, ℕ, List, AllPairs, Any, IsTrue, filter, length, not, slice_index_or, vec_capacity};
ghost use Rattle.watch_lists.specs.declared.watch.Watch.{Watch as Watcher};
ghost use Rattle.watch_lists.specs.Row.{IsRow};
ghost use Rattle.watch_lists.specs.Watches.{is_live, is_of, listing};

use crate::watch::Watch;

/// How many watchers have a lower id.
fn place_in(row: &[Watch], id: u32) -> usize
    requires { AllPairs (λ a b. a.id < b.id) row.now }
    ensures within { result ≤ length row.now }
    ensures before { (k : ℕ) (d : Watcher) → k < result → (slice_index_or row.now k d).id < id }
    ensures after { (k : ℕ) (d : Watcher) → result ≤ k → k < length row.now
        → id ≤ (slice_index_or row.now k d).id }
{
    let mut low = 0;
    let mut high = row.len();
    while low < high {
        let middle = low + (high - low) / 2;
        if row[middle].id < id {
            low = middle + 1;
        } else {
            high = middle;
        }
    }
    low
}

/// Whether the watcher at a place is of this id.
fn has_id(row: &[Watch], place: usize, id: u32) -> bool
    ensures { IsTrue result ↔ ((place < length row.now)
        × ((d : Watcher) → (slice_index_or row.now place d).id ≡ id)) }
{
    place < row.len() && row[place].id == id
}

/// Puts a watcher in its place, instead of another of its id.
pub(crate) fn put(row: &mut Vec<Watch>, watch: Watch, ids: u32)
    requires row { IsRow watch.key ids row.old.items }
    requires id { watch.id < ids }
    requires generation { 1 ≤ watch.generation }
    requires room { ids ≤ vec_capacity row.old }
    ensures items { row.new.items ≡ listing watch row.old.items }
    ensures row { IsRow watch.key ids row.new.items }
    ensures room { ids ≤ vec_capacity row.new }
{
    let place = place_in(row, watch.id);
    if has_id(row, place, watch.id) {
        row[place] = watch;
    } else if place == row.len() {
        // Mostly so, and then no watcher has to be moved.
        let _ = row.push(watch);
    } else {
        let _ = row.insert(place, watch);
    }
}

/// Takes the watcher of an id out, where it has this generation.
pub(crate) fn take(row: &mut Vec<Watch>, id: u32, generation: u32) -> bool
    requires { AllPairs (λ a b. a.id < b.id) row.old.items }
    ensures listed { IsTrue result
        ↔ Any (λ w. (w.id ≡ id) × (w.generation ≡ generation)) row.old.items }
    ensures items { row.new.items ≡ filter (λ w. not (is_of id generation w)) row.old.items }
    ensures room { vec_capacity row.new ≡ vec_capacity row.old }
{
    let place = place_in(row, id);
    if !has_id(row, place, id) {
        return false;
    }
    if row[place].generation != generation {
        return false;
    }
    row.remove(place);
    true
}

fn is_live(watch: &Watch, live: &[u32]) -> bool
    ensures { result ≡ is_live live.now watch.now }
{
    watch.generation == live.get(watch.id as usize).copied().unwrap_or(0)
}

/// Keeps the live watchers, and answers how many went.
pub(crate) fn keep_live(row: &mut Vec<Watch>, live: &[u32]) -> usize
    ensures items { row.new.items ≡ filter (is_live live.now) row.old.items }
    ensures count { result + length row.new.items ≡ length row.old.items }
    ensures room { vec_capacity row.new ≡ vec_capacity row.old }
{
    let len = row.len();
    let mut kept = 0;
    for at in 0..len {
        let watch = row[at];
        if is_live(&watch, live) {
            row[kept] = watch;
            kept += 1;
        }
    }
    row.truncate(kept);
    len - kept
}
