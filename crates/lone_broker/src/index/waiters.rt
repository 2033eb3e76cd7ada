//! The index that the one-thread broker searches after each line: which sessions wait for what, and which are suspects.
ghost use Rattle.std.specs.Prelude.{◌≡◌, ◌≢◌, ℕ, ◌+◌, ◌^◌, ◌<◌, ◌≤◌, ◌↔◌, ◌⊎◌, All, IfNone, IfOk, IfSome, Some};
ghost use Rattle.lone_broker.specs.index.Sessions.{IsLeastFrom};
ghost use Rattle.lone_broker.specs.index.Index.{ComesBy, IsSuspect, WaitsFor, coming_of, generation_of, last_of, moment_of};
ghost use Rattle.lone_broker.specs.index.Waiting.{IsIdle, WaitsNoMore, WaitsOn, WaitsWith, WatchesOn};

use crate::index::session_set::{SESSIONS, SessionSet};
use crate::index::shelves::{GAUGES, Shelves};
use crate::index::walk::{list_all, walk};
use kbytes::NoMemory;
use opcond::Op;
use std::alloc::Global;
use std::marker::Model;
use timing_wheel::{Due, Wheels};

/// What each of 64 sessions waits for. Moments and deadlines are in milliseconds.
#[derive(Drop)]
pub struct Waiters {
    shelves: Shelves,
    wheels: Wheels,
    due: Due,
    live: [u32; SESSIONS as usize],
    last: [u32; SESSIONS as usize],
    suspects: SessionSet,
}

impl Model for Waiters {
    ghost use Rattle.lone_broker.specs.index.Index.{Index};
    ghost use Rattle.lone_broker.specs.index.Kept.{AreWaiting, IsIndex};

    ghost Value = { Index };

    ghost view = { λ w. record { shards = w.shelves; timers = w.wheels; live = w.live; last = w.last; suspects = w.suspects } };

    ghost invariant = { λ w. IsIndex w.shelves w.wheels w.due w.live w.last × AreWaiting w.wheels w.live w.suspects };
}

impl Waiters {
    /// An index in which no session waits, at moment 0. No later call takes memory.
    pub fn new(alloc: Global) -> Result<Waiters, NoMemory>
        ensures idle { IfOk result IsIdle }
        ensures suspects { IfOk result (λ w. (session : ℕ) → ¬ IsSuspect w session) }
    {
        let shelves = Shelves::new(alloc)?;
        let wheels = Wheels::new(alloc, SESSIONS)?;
        let due = Due::new(alloc, SESSIONS)?;
        Ok(Waiters {
            shelves,
            wheels,
            due,
            live: [0; SESSIONS as usize],
            last: [0; SESSIONS as usize],
            suspects: SessionSet::none(),
        })
    }

    /// The session waits for the gauges and the deadline of an operation, in place of what it waited for before. It is a
    /// suspect if the deadline has come. `generation` is greater than any earlier one of this session.
    pub fn wait(&mut self, session: u32, generation: u32, op: &Op)
        requires session { session < SESSIONS }
        requires generation { last_of self.old session < generation }
        requires gauges { All (λ need. need.gauge < GAUGES) op.now.needs }
        requires near { moment_of self.old < op.now.deadline → op.now.deadline < moment_of self.old + 2 ^ 31 }
        ensures waits { WaitsWith self.new session generation op.now }
        ensures others { (other : ℕ) → other ≢ session → WaitsOn self.old self.new other }
        ensures moment { moment_of self.new ≡ moment_of self.old }
        ensures suspect { IsSuspect self.new session ↔ (op.now.deadline ≤ moment_of self.old) }
        ensures suspects { (other : ℕ) → other ≢ session → IsSuspect self.new other ↔ IsSuspect self.old other }
    {
        let at = session as usize;
        self.live[at] = generation;
        self.last[at] = generation;
        list_all(&mut self.shelves, &self.live, session, op.needs());
        let is_ahead = self.wheels.insert(session, op.deadline());
        self.suspects.put(session, !is_ahead);
    }

    /// A gauge has risen: every session that waits for it becomes a suspect.
    pub fn rise(&mut self, gauge: u32)
        requires { gauge < GAUGES }
        ensures suspects { (session : ℕ) → IsSuspect self.new session ↔ (IsSuspect self.old session ⊎ WaitsFor self.old session gauge) }
        ensures sessions { (session : ℕ) → WaitsOn self.old self.new session }
        ensures moment { moment_of self.new ≡ moment_of self.old }
    {
        walk(&mut self.shelves, &self.live, gauge, &mut self.suspects);
    }

    /// The moment is t: every session whose deadline has come becomes a suspect.
    pub fn tick(&mut self, t: u64)
        requires { moment_of self.old ≤ t }
        ensures moment { moment_of self.new ≡ t }
        ensures suspects { (session : ℕ) → IsSuspect self.new session ↔ (IsSuspect self.old session ⊎ ComesBy t self.old session) }
        ensures watches { (session : ℕ) → WatchesOn self.old self.new session }
        ensures coming { (session deadline : ℕ) → (coming_of self.new session ≡ Some deadline)
            ↔ ((coming_of self.old session ≡ Some deadline) × (t < deadline)) }
    {
        self.wheels.pop_due(t, &mut self.due);
        self.suspects.insert_all(self.due.ids());
        self.due.clear();
    }

    /// The least suspect that is at least `from`, and `None` exactly if there is none.
    pub fn least_suspect(&self, from: u32) -> Option<u32>
        ensures found { IfSome result (λ session. IsLeastFrom self.now.suspects from session) }
        ensures within { IfSome result (λ session. session < SESSIONS) }
        ensures none { IfNone result ((session : ℕ) → from ≤ session → ¬ IsSuspect self.now session) }
    {
        self.suspects.least_from(from)
    }

    /// The session was checked and isn't answerable: it is no longer a suspect, and still waits.
    pub fn clear(&mut self, session: u32)
        requires { session < SESSIONS }
        ensures suspects { (other : ℕ) → IsSuspect self.new other ↔ (IsSuspect self.old other × (other ≢ session)) }
        ensures sessions { (other : ℕ) → WaitsOn self.old self.new other }
        ensures moment { moment_of self.new ≡ moment_of self.old }
    {
        self.suspects.remove(session);
    }

    /// The session no longer waits, and is no suspect.
    pub fn done(&mut self, session: u32)
        requires { session < SESSIONS }
        ensures done { WaitsNoMore self.old self.new session }
        ensures others { (other : ℕ) → other ≢ session → WaitsOn self.old self.new other }
        ensures suspects { (other : ℕ) → IsSuspect self.new other ↔ (IsSuspect self.old other × (other ≢ session)) }
        ensures moment { moment_of self.new ≡ moment_of self.old }
    {
        self.live[session as usize] = 0;
        self.wheels.remove(session);
        self.suspects.put(session, false);
    }

    /// Law: a session that watches a gauge, has a deadline to come or is a suspect waits, and a deadline to come is past the moment.
    pub fn who_waits(&self)
        ensures gauges { (session gauge : ℕ) → WaitsFor self.now session gauge → 1 ≤ generation_of self.now session }
        ensures coming { (session deadline : ℕ) → coming_of self.now session ≡ Some deadline → 1 ≤ generation_of self.now session }
        ensures past { (session deadline : ℕ) → coming_of self.now session ≡ Some deadline → moment_of self.now < deadline }
        ensures suspects { (session : ℕ) → IsSuspect self.now session → 1 ≤ generation_of self.now session }
    {
        self.wheels.entries_wait();
    }
}
