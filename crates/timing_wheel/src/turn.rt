//! Turning the wheels: the buckets that the moment passes, lowest level first.
ghost use Rattle.std.specs.Prelude.{◌≡◌, ◌≢◌, ◌+◌, ◌<◌, ◌≤◌, ◌⊎◌, ◌==◌, ℕ, Option, count_by, length, map, slice_index_or, slice_set, IfSome};
ghost use Rattle.timing_wheel.specs.declared.timer.Timer.{Timer as Entry};
ghost use Rattle.timing_wheel.specs.Place.{level_of, place_of, tick_of};
ghost use Rattle.timing_wheel.specs.Timers.{listed};
ghost use Rattle.timing_wheel.specs.Turn.{turned};
ghost use Rattle.timing_wheel.specs.Filed.{StartFrom};
ghost use Rattle.timing_wheel.specs.Handover.{IsPartOfTurn, handed};
ghost use Rattle.timing_wheel.specs.Wait.{AllTurnedBelow, AllWait, HasCome, Waits, number_of};

use crate::due::Due;
use crate::entries::Entries;
use crate::numbers::{BUCKETS, LEVELS};
use crate::place::Place;
use crate::timer::Timer;

/// Hands out an entry whose bucket has started, or puts it again, into a lower level.
fn turn_entry(entries: &mut Entries, id: u32, t: u64, due: &mut Due)
    requires within { id < length entries.old }
    requires come { IfSome (slice_index_or entries.old id None) (λ e. HasCome t e) }
    requires room { length due.old.ids + listed entries.old ≤ due.old.room }
    ensures entry { entries.new
        ≡ slice_set entries.old id (turned t (slice_index_or entries.old id None)) }
    ensures part { IsPartOfTurn t entries.old entries.new due.old due.new }
{
    if let Some(timer) = entries.take(id) {
        if timer.deadline <= t {
            due.push(id);
        } else {
            entries.put(
                id,
                Timer {
                    deadline: timer.deadline,
                    put: t,
                },
            );
        }
    }
}

/// Empties a bucket that has started.
fn turn_bucket(entries: &mut Entries, place: Place, t: u64, due: &mut Due)
    requires level { place.level < LEVELS }
    requires bucket { place.bucket < BUCKETS }
    requires come { (id : ℕ) (e : Entry) → slice_index_or entries.old id None ≡ Some e
        → number_of (place_of e) ≡ number_of place → HasCome t e }
    requires room { length due.old.ids + listed entries.old ≤ due.old.room }
    ensures part { IsPartOfTurn t entries.old entries.new due.old due.new }
    ensures rest { (id : ℕ) (e : Entry) → slice_index_or entries.new id None ≡ Some e
        → ((slice_index_or entries.old id None ≡ Some e) × (number_of (place_of e) ≢ number_of place))
        ⊎ ((level_of e < place.level) × Waits t e) }
{
    let number = place.number();
    while let Some(id) = entries.first(number) {
        turn_entry(entries, id, t, due);
    }
}

/// Empties the buckets of a level that start after `now` and by `t`. A longer way than a whole wheel
/// passes each of them once.
fn pass_buckets(entries: &mut Entries, level: u32, tick: u64, now: u64, t: u64, due: &mut Due)
    requires level { level < LEVELS }
    requires tick { tick ≡ tick_of level }
    requires later { now ≤ t }
    requires below { AllTurnedBelow level now t entries.old }
    requires room { length due.old.ids + listed entries.old ≤ due.old.room }
    ensures part { IsPartOfTurn t entries.old entries.new due.old due.new }
    ensures below { AllTurnedBelow (level + 1) now t entries.new }
{
    let start = now / tick;
    let passed = (t / tick - start).min(BUCKETS);
    for step in 0..passed {
        let bucket = ((start + 1 + step) % BUCKETS) as u32;
        turn_bucket(entries, Place { level, bucket }, t, due);
    }
}

/// Where the first bucket of a level starts that holds an entry; where none does, the last moment.
fn first_start(entries: &Entries, level: u32, tick: u64, t: u64) -> u64
    requires level { level < LEVELS }
    requires tick { tick ≡ tick_of level }
    requires wait { (id : ℕ) (e : Entry) → slice_index_or entries.now id None ≡ Some e
        → level_of e ≡ level → Waits t e }
    ensures { StartFrom level result entries.now }
{
    let ticks = t / tick;
    for step in 1..BUCKETS {
        let bucket = ((ticks % BUCKETS + step) % BUCKETS) as u32;
        if entries.first(Place { level, bucket }.number()).is_some() {
            return ticks.saturating_add(step).saturating_mul(tick);
        }
    }
    u64::MAX
}

/// Turns a level, if a bucket that holds an entry may start by `t`.
fn turn_level(entries: &mut Entries, level: u32, tick: u64, now: u64, t: u64, due: &mut Due)
    requires level { level < LEVELS }
    requires tick { tick ≡ tick_of level }
    requires later { now ≤ t }
    requires below { AllTurnedBelow level now t entries.old }
    requires room { length due.old.ids + listed entries.old ≤ due.old.room }
    ensures part { IsPartOfTurn t entries.old entries.new due.old due.new }
    ensures below { AllTurnedBelow (level + 1) now t entries.new }
{
    if entries.may_start(level, t) {
        pass_buckets(entries, level, tick, now, t, due);
        let start = first_start(entries, level, tick, t);
        entries.start_from(level, start);
    }
}

/// Turns the wheels from `now` to `t`: the lowest first, so that what is put again goes where the
/// turn has been.
pub(crate) fn turn(entries: &mut Entries, now: u64, t: u64, due: &mut Due)
    requires later { now ≤ t }
    requires wait { AllWait now entries.old }
    requires room { length due.old.ids + listed entries.old ≤ due.old.room }
    ensures turned { entries.new ≡ map (turned t) entries.old }
    ensures wait { AllWait t entries.new }
    ensures hands { (id : ℕ) → count_by (λ x. x == id) due.new.ids
        ≡ handed t entries.old due.old id }
    ensures room { due.new.room ≡ due.old.room }
{
    let mut tick: u64 = 1;
    for level in 0..LEVELS {
        turn_level(entries, level, tick, now, t, due);
        tick *= BUCKETS;
    }
}
