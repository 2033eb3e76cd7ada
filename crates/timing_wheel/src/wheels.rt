ghost use Rattle.std.specs.Prelude.{◌≡◌, ◌+◌, ◌^◌, ◌<◌, ◌≤◌, ◌↔◌, [], ℕ, Contains, IfOk, IsSome, IsTrue, length, replicate};
ghost use Rattle.std.specs.Bool.{OnFalse, OnTrue};
ghost use Rattle.std.specs.List.Sorted.{IsStrictlyIncreasing};
ghost use Rattle.std.specs.Option.{option_map};
ghost use Rattle.timing_wheel.specs.declared.timer.Timer.{Timer as Entry};
ghost use Rattle.timing_wheel.specs.Place.{place_of};
ghost use Rattle.timing_wheel.specs.Timers.{deadline_of, entry_of, ids_of, listed, with_entry};
ghost use Rattle.timing_wheel.specs.Turn.{IsDue, bucket_start, turned_to};

use crate::due::Due;
use crate::entries::Entries;
use crate::place::Place;
use crate::timer::Timer;
use crate::turn::turn;
use kbytes::NoMemory;
use std::alloc::Global;
use std::marker::Model;

/// Ids with deadlines, in buckets of eight wheels. Moments and deadlines are in milliseconds.
#[derive(Drop)]
pub struct Wheels {
    moment: u64,
    entries: Entries,
}

impl Model for Wheels {
    ghost use Rattle.timing_wheel.specs.Timers.{Timers};
    ghost use Rattle.timing_wheel.specs.Wait.{AllWait};

    ghost Value = { Timers };

    ghost view = { λ w. record { moment = w.moment; slots = w.entries } };

    ghost invariant = { λ w. AllWait w.moment w.entries };
}

impl Wheels {
    /// Wheels at moment 0, with nothing listed, for the ids below `entries`. Nothing takes memory
    /// after this.
    pub fn new(alloc: Global, entries: u32) -> Result<Wheels, NoMemory>
        ensures { IfOk result (λ w. w ≡ record { moment = 0; slots = replicate entries None }) }
    {
        let entries = Entries::new(alloc, entries)?;
        Ok(Wheels { moment: 0, entries })
    }

    /// Lists an id with a deadline less than 2^31 ms ahead, in place of an older entry of the id.
    /// False where the deadline has come: then the id isn't listed.
    pub fn insert(&mut self, id: u32, deadline: u64) -> bool
        requires id { id < ids_of self.old }
        requires near { self.old.moment < deadline → deadline < self.old.moment + 2 ^ 31 }
        ensures listed { IsTrue result ↔ (self.old.moment < deadline) }
        ensures entry { OnTrue result (self.new
            ≡ with_entry self.old id (Some (record { deadline = deadline; put = self.old.moment }))) }
        ensures none { OnFalse result (self.new ≡ with_entry self.old id None) }
    {
        self.entries.take(id);
        if deadline <= self.moment {
            return false;
        }
        self.entries.put(
            id,
            Timer {
                deadline,
                put: self.moment,
            },
        );
        true
    }

    /// Takes an id out. False where it wasn't listed.
    pub fn remove(&mut self, id: u32) -> bool
        requires { id < ids_of self.old }
        ensures listed { IsTrue result ↔ IsSome (entry_of self.old id) }
        ensures none { self.new ≡ with_entry self.old id None }
    {
        self.entries.take(id).is_some()
    }

    /// Turns the wheels to moment t. The ids that are due move to `due`, in rising order; an entry
    /// of a higher level whose bucket has started is put again at t, and every other entry stays
    /// where it is.
    pub fn pop_due(&mut self, t: u64, due: &mut Due)
        requires later { self.old.moment ≤ t }
        requires empty { due.old.ids ≡ [] }
        requires room { ids_of self.old ≤ due.old.room }
        ensures rest { self.new ≡ turned_to t self.old }
        ensures rising { IsStrictlyIncreasing due.new.ids }
        ensures due { (id : ℕ) → Contains due.new.ids id ↔ IsDue t self.old id }
        ensures others { (id : ℕ) (deadline : ℕ) → (deadline_of self.new id ≡ Some deadline)
            ↔ ((deadline_of self.old id ≡ Some deadline) × (t < deadline)) }
        ensures room { due.new.room ≡ due.old.room }
    {
        turn(&mut self.entries, self.moment, t, due);
        self.moment = t;
        due.sort();
    }

    /// The moment up to which the wheels were turned.
    pub fn now(&self) -> u64
        ensures { result ≡ self.now.moment }
    {
        self.moment
    }

    /// The deadline of an id, `None` exactly where it isn't listed.
    pub fn deadline(&self, id: u32) -> Option<u64>
        requires { id < ids_of self.now }
        ensures { result ≡ deadline_of self.now id }
    {
        let timer = self.entries.get(id)?;
        Some(timer.deadline)
    }

    /// The place of an id, `None` exactly where it isn't listed.
    pub fn where_is(&self, id: u32) -> Option<Place>
        requires { id < ids_of self.now }
        ensures { result ≡ option_map place_of (entry_of self.now id) }
    {
        let timer = self.entries.get(id)?;
        Some(timer.place())
    }

    /// Law: between calls each deadline is past the moment, and no bucket of a higher level that
    /// holds an entry has started.
    pub fn entries_wait(&self)
        ensures past { (id : ℕ) (e : Entry) → entry_of self.now id ≡ Some e
            → self.now.moment < e.deadline }
        ensures ahead { (id : ℕ) (e : Entry) → entry_of self.now id ≡ Some e
            → self.now.moment < bucket_start e }
    {
        let _moment = self.moment;
    }

    /// How many ids are listed.
    pub fn len(&self) -> u32
        ensures { result ≡ listed self.now.slots }
    {
        self.entries.count()
    }
}
