//! How a pass waits: first at the gate, without a ticket, and then with its ticket.
//!
//! A ticket in the hand of a pass that has no processor holds up all who drew after it, and each of those would have to be woken in
//! turn. So a pass draws its ticket only once the lock is free, when the next ticket is the one that is served. Until then it stays
//! at the gate: awake for 40 to 200 microseconds, which is longer than it takes to wake a sleeper, and then asleep for up to 20
//! milliseconds. Whoever ends its turn while nobody else has a ticket calls one of the sleepers. A call keeps nothing for it, and
//! another pass may draw first; so after a call it is awake at the gate again, and looks again. No stream of others keeps it there:
//! it draws its ticket all the same after a sleep in which nobody called, and after CALLS sleeps with a call, about a third of a
//! second.
//!
//! With its ticket it looks again and again at the ticket that is served, awake for as long as at the gate; the more passes come
//! before it, the longer it pauses between two looks. It doesn't yield its processor in between: where others want it, a yield gives
//! away a whole slice of time, and the pass isn't there when its turn comes. Then it sleeps on a bench. A pass stays awake so once in a
//! turn, before its first sleep: who finds at the end of a sleep that others still come first sleeps again at once, and longer. So
//! many passes that wait for long cost next to nothing.
//!
//! There are a few benches, and a ticket's number gives its own. The pass that ends its turn wakes the bench of the ticket
//! that is served next, and only where somebody sleeps there. A sleeper first counts itself, then looks whether it still has to
//! wait, and then sleeps; who passes the turn on first shows the next ticket, and then looks whether anybody
//! is counted. So one of the two sees the other. No proof says so: therefore each sleep ends by itself too.
ghost use Rattle.std.specs.Prelude.{◌<◌, ◌≤◌};

use crate::kept::Kept;
use crate::line::{SERVING, TICKET, Top};
use std::hint;
use std::sync::Wait;
use std::sync::atomic::{AtomicU64, Ordering};
use std::time::Duration;

// The pauses in which a pass stays awake before its first sleep. A pause is the processor's own, of some 10 to 50
// nanoseconds.
const AWAKE: u32 = 4_000;

// The pauses between two looks for each pass that comes first, and the most passes that count.
const PAUSES: u32 = 2;

const MOST_AHEAD: u64 = 16;

// The first sleep, and the longest, in milliseconds.
const FIRST_SLEEP: u64 = 20;

const LONGEST_SLEEP: u64 = 1_000;

// Tickets that are as many apart share a bench.
const BENCHES: u64 = 8;

// The most rounds of a pass at the gate, each awake and then asleep. After the last it draws its ticket, whoever has one.
const CALLS: u32 = 16;

/// The patience of one pass in one turn.
#[derive(Drop)]
pub(crate) struct Patience {
    pauses: u32,
    // how long it sleeps next, in milliseconds
    sleep: u64,
}

fn spin(pauses: u32) {
    for _ in 0..pauses {
        hint::spin_loop();
    }
}

impl Patience {
    pub(crate) fn new() -> Patience {
        Patience {
            pauses: 0,
            sleep: FIRST_SLEEP,
        }
    }

    /// Waits a little, awake, with that many passes before it. False if no patience is left for that.
    pub(crate) fn rest(&mut self, ahead: u64) -> bool {
        if self.pauses >= AWAKE {
            return false;
        }
        let pauses = PAUSES * ahead.min(MOST_AHEAD) as u32;
        spin(pauses);
        self.pauses = self.pauses.saturating_add(pauses.max(1));
        true
    }

    /// How long to sleep now. The next sleep is twice as long, up to the longest.
    pub(crate) fn sleep(&mut self) -> Duration {
        let now = self.sleep;
        self.sleep = now.saturating_mul(2).min(LONGEST_SLEEP);
        Duration::from_millis(now)
    }

    /// Somebody passed a turn on meanwhile, so the next sleep is short.
    pub(crate) fn wake(&mut self) {
        self.sleep = FIRST_SLEEP;
    }
}

// The half of a word at which a sleeper looks.
fn low(word: u64) -> u32 {
    (word & u32::MAX as u64) as u32
}

// What a sleeper waits for.
#[derive(Clone, Copy)]
enum Awaited {
    // this ticket's turn
    Turn(u64),
    // that nobody has a ticket which isn't past its turn
    FreeLock,
}

impl Awaited {
    fn has_come<T: Kept>(self, top: &Top<T>) -> bool
        requires { 1 < top.now.table_id.words }
    {
        match self {
            Awaited::Turn(ticket) => top.peek(SERVING) == ticket,
            Awaited::FreeLock => top.peek(SERVING) == top.peek(TICKET),
        }
    }

    // Stays awake until it has come, for a while at most. Whether it has.
    fn comes_soon<T: Kept>(self, rt: &impl Wait, top: &Top<T>) -> bool
        requires { 1 < top.now.table_id.words }
    {
        let mut patience = Patience::new();
        for _ in rt.forever() {
            if self.has_come::<T>(top) {
                return true;
            }
            if !patience.rest(1) {
                return false;
            }
        }
        unreachable!()
    }
}

// Where passes sleep.
#[derive(Drop)]
struct Bench {
    asleep: AtomicU64,
    calls: AtomicU64,
}

impl Bench {
    fn new() -> Bench {
        Bench {
            asleep: AtomicU64::new(0),
            calls: AtomicU64::new(0),
        }
    }

    // Sleeps so long, where what is awaited hasn't come yet. Whether somebody called the bench meanwhile.
    fn sleep<T: Kept>(&self, rt: &impl Wait, top: &Top<T>, awaited: Awaited, time: Duration) -> bool
        requires { 1 < top.now.table_id.words }
    {
        let calls = self.calls.load(Ordering::SeqCst);
        self.asleep.fetch_add(1, Ordering::SeqCst);
        if !awaited.has_come::<T>(top) {
            self.calls.park_timeout(rt, low(calls), time);
        }
        self.asleep.fetch_sub(1, Ordering::SeqCst);
        self.calls.load(Ordering::SeqCst) != calls
    }

    // Whether anybody was there to be called.
    fn call(&self) -> bool {
        let some = self.asleep.load(Ordering::SeqCst) != 0;
        if some {
            self.calls.fetch_add(1, Ordering::SeqCst);
        }
        some
    }

    fn wake_all(&self) {
        if self.call() {
            self.calls.wake_all();
        }
    }

    fn wake_one(&self) {
        if self.call() {
            self.calls.wake_one();
        }
    }
}

/// The benches of a lock, of which one is at its gate.
#[derive(Drop)]
pub(crate) struct Benches {
    gate: Bench,
    benches: [Bench; BENCHES as usize],
}

impl Benches {
    pub(crate) fn new() -> Benches {
        Benches {
            gate: Bench::new(),
            benches: [
                Bench::new(),
                Bench::new(),
                Bench::new(),
                Bench::new(),
                Bench::new(),
                Bench::new(),
                Bench::new(),
                Bench::new(),
            ],
        }
    }

    fn of(&self, ticket: u64) -> &Bench {
        &self.benches[(ticket % BENCHES) as usize]
    }

    /// Sleeps so long, where the ticket isn't served yet. Whether somebody woke its bench meanwhile.
    #[inline(never)]
    pub(crate) fn sleep<T: Kept>(
        &self,
        rt: &impl Wait,
        top: &Top<T>,
        ticket: u64,
        time: Duration,
    ) -> bool
        requires { 1 < top.now.table_id.words }
    {
        self.of(ticket).sleep(rt, top, Awaited::Turn(ticket), time)
    }

    // Waits at the gate once, awake and then asleep. False if somebody called there while it slept.
    fn stay<T: Kept>(&self, rt: &impl Wait, top: &Top<T>) -> bool
        requires { 1 < top.now.table_id.words }
    {
        let free = Awaited::FreeLock;
        let time = Duration::from_millis(FIRST_SLEEP);
        free.comes_soon::<T>(rt, top) || !self.gate.sleep::<T>(rt, top, free, time)
    }

    /// Waits at the gate until nobody has a ticket, or for so long that the pass may draw its own all the same.
    pub(crate) fn come<T: Kept>(&self, rt: &impl Wait, top: &Top<T>)
        requires { 1 < top.now.table_id.words }
    {
        if !Awaited::FreeLock.has_come::<T>(top) {
            self.come_late::<T>(rt, top);
        }
    }

    // The same, where somebody has a ticket. Apart from `come`, which is over at once where the lock is free.
    #[inline(never)]
    fn come_late<T: Kept>(&self, rt: &impl Wait, top: &Top<T>)
        requires { 1 < top.now.table_id.words }
    {
        for _ in 0..CALLS {
            if self.stay::<T>(rt, top) {
                return;
            }
        }
    }

    /// Wakes who waits for this ticket's turn, or one of those at the gate if nobody has drawn the ticket.
    pub(crate) fn wake<T: Kept>(&self, top: &Top<T>, ticket: u64)
        requires { 1 < top.now.table_id.words }
    {
        if top.peek(TICKET) == ticket {
            self.gate.wake_one();
        } else {
            self.of(ticket).wake_all();
        }
    }
}

/// Waits a while, where the ticket is never served.
#[inline(never)]
pub(crate) fn sleep_on<T: Kept>(rt: &impl Wait, top: &Top<T>)
    requires { 1 < top.now.table_id.words }
{
    let next = low(top.peek(TICKET));
    top.park_timeout(rt, TICKET, next, Duration::from_millis(LONGEST_SLEEP));
}
