//! What is done in the room and in the plain room.
use crate::fault::Fault;
use crate::figure::{Cost, Figure, nanoseconds, time};
use crate::plain_room::PlainRoom;
use crate::room_seat::{GAUGES, PASSES, room_seats};
use crate::size::Size;
use crate::waiter::Waiter;
use purgatory::{Room, RoomParts};
use std::alloc::Global;
use std::sync::Wait;
use std::sync::atomic::{AtomicUsize, Ordering};
use std::thread::{Threads, join, map_vec};
use std::time::{Clock, Duration, Instant};
use std::{hint, io, thread};

/// How far apart the gauges of two threads are: they have different scanners, and their words lie in different lines of the
/// cache.
const APART: usize = 17;

/// How often a thread looks whether all others have come, before it begins without them: 55 ms on one machine.
const LOOKS: u32 = 10_000_000;

/// No gauge gets this far.
const FAR: u64 = 1_000_000_000;

/// How many microseconds before a raise the owner has gone to sleep.
const BEFORE: u64 = 200;

#[derive(Clone, Copy)]
pub enum Deed {
    /// On that many threads each registers an operation that waits, raises the gauge for which it waits, settles, and polls.
    Operations {
        threads: usize,
    },
    /// A gauge is raised and settled, while that many operations wait under it and stay waiting.
    Settles {
        watchers: usize,
    },
    /// One thread sleeps while its operation waits, and another raises the gauge. That many in a hundred wake within this time.
    Wakes {
        named: &'static str,
        hundredths: usize,
    },
}

pub const DEEDS: [Deed; 9] = [
    Deed::Operations { threads: 1 },
    Deed::Operations { threads: 2 },
    Deed::Operations { threads: 4 },
    Deed::Settles { watchers: 0 },
    Deed::Settles { watchers: 20 },
    Deed::Settles { watchers: 60 },
    Deed::Settles { watchers: 79 },
    Deed::Wakes {
        named: "median",
        hundredths: 50,
    },
    Deed::Wakes {
        named: "99th in a hundred",
        hundredths: 99,
    },
];

/// Where threads wait for one another before they operate, so that they do it at the same time. At std's `Barrier` they would wait forever for
/// one that can't be started.
#[derive(Drop)]
struct StartLine {
    arrived: AtomicUsize,
    threads: usize,
}

impl StartLine {
    fn new(threads: usize) -> StartLine {
        StartLine {
            arrived: AtomicUsize::new(0),
            threads,
        }
    }

    // Waits for the others, but not for long.
    fn wait(&self) {
        self.arrived.fetch_add(1, Ordering::SeqCst);
        for _ in 0..LOOKS {
            if self.arrived.load(Ordering::SeqCst) >= self.threads {
                return;
            }
            hint::spin_loop();
        }
    }
}

fn operate<R: Wait, S: Waiter>(rt: &R, start: &StartLine, mut seat: S, rounds: u32) -> bool {
    start.wait();
    let gauge = seat.gauge();
    for round in 0..rounds {
        if !seat.register(rt, gauge, u64::from(round)) {
            return false;
        }
        seat.raise(rt);
        if !seat.is_answered(rt) {
            return false;
        }
    }
    true
}

fn operations<R: Threads + Wait + Clock + Sync, S: Waiter>(
    rt: &R,
    seats: Vec<S>,
    rounds: u32,
) -> Result<Cost, Fault> {
    let steps = u64::from(rounds).saturating_mul(seats.len() as u64);
    let start = StartLine::new(seats.len());
    time(rt, steps, || {
        let all = map_vec(rt, seats, &|seat: S| operate(rt, &start, seat, rounds))?;
        if all.iter().all(|went| *went) {
            Ok(steps)
        } else {
            Err(Fault::Stopped)
        }
    })
}

fn settles<R: Wait + Clock, S: Waiter>(
    rt: &R,
    mut seats: Vec<S>,
    watchers: usize,
    rounds: u32,
) -> Result<Cost, Fault> {
    let mut raiser = seats.pop().ok_or(Fault::Stopped)?;
    let gauge = raiser.gauge();
    for seat in seats.iter_mut().take(watchers) {
        if !seat.register(rt, gauge, FAR) {
            return Err(Fault::Stopped);
        }
    }
    time(rt, u64::from(rounds), || {
        for _ in 0..rounds {
            raiser.raise(rt);
        }
        Ok(u64::from(rounds))
    })
}

// Sleeps until the seat's operation is answered. When that was.
fn wake<R: Wait + Clock, S: Waiter>(rt: &R, mut seat: S) -> (S, io::Result<Instant>) {
    seat.sleep(rt);
    (seat, Instant::now(rt))
}

// Lets the other thread go to sleep, and raises the seat's gauge. When that was.
fn raise<R: Wait + Clock, S: Waiter>(rt: &R, mut seat: S) -> (S, io::Result<Instant>) {
    thread::sleep(rt, Duration::from_micros(BEFORE));
    let now = Instant::now(rt);
    seat.raise(rt);
    (seat, now)
}

// How many nanoseconds the wake of one operation took, and both seats again.
fn wake_once<R: Threads + Wait + Clock + Sync, S: Waiter>(
    rt: &R,
    mut sleeper: S,
    raiser: S,
    past: u64,
) -> Result<(S, S, u64), Fault> {
    if !sleeper.register(rt, raiser.gauge(), past) {
        return Err(Fault::Stopped);
    }
    let (slept, raised) = join(rt, move || wake(rt, sleeper), move || raise(rt, raiser));
    let took = slept.1?.duration_since(raised.1?);
    Ok((slept.0, raised.0, nanoseconds(took)))
}

// What that many in a hundred of these don't exceed.
fn most_of(mut times: Vec<u64>, hundredths: usize) -> Result<u64, Fault> {
    times.sort()?;
    let place = (times.len() / 100).saturating_mul(hundredths);
    Ok(times.get(place).copied().unwrap_or(0))
}

fn wakes<R: Threads + Wait + Clock + Sync, S: Waiter>(
    rt: &R,
    alloc: Global,
    mut seats: Vec<S>,
    hundredths: usize,
    rounds: u32,
) -> Result<Cost, Fault> {
    let mut sleeper = seats.pop().ok_or(Fault::Stopped)?;
    let mut raiser = seats.pop().ok_or(Fault::Stopped)?;
    let mut times = Vec::new(alloc);
    for round in 0..rounds {
        let (slept, raised, took) = wake_once(rt, sleeper, raiser, u64::from(round))?;
        times.push(took)?;
        sleeper = slept;
        raiser = raised;
    }
    let within = most_of(times, hundredths)?;
    Ok(Cost {
        each: within.saturating_mul(1_000),
        came_to: within,
    })
}

impl Deed {
    fn name(self, alloc: Global) -> Result<String, Fault> {
        Ok(match self {
            Deed::Operations { threads } => {
                format!(in alloc; "an operation in the room, threads: {threads}")?
            }
            Deed::Settles { watchers } => {
                format!(in alloc; "raise and settle, watchers: {watchers}")?
            }
            Deed::Wakes { named, .. } => {
                format!(in alloc; "from the raise to the owner's wake, {named}")?
            }
        })
    }

    fn rounds(self, size: Size) -> u32 {
        size.steps(match self {
            Deed::Operations { .. } => 200_000,
            Deed::Settles { .. } => 50_000,
            Deed::Wakes { .. } => 2_000,
        })
    }

    fn time<R: Threads + Wait + Clock + Sync, S: Waiter>(
        self,
        rt: &R,
        alloc: Global,
        seats: Vec<S>,
        rounds: u32,
    ) -> Result<Cost, Fault> {
        match self {
            Deed::Operations { threads } => {
                let seats = seats
                    .into_iter()
                    .step_by(APART)
                    .take(threads)
                    .collect(alloc)?;
                operations(rt, seats, rounds)
            }
            Deed::Settles { watchers } => settles(rt, seats, watchers, rounds),
            Deed::Wakes { hundredths, .. } => wakes(rt, alloc, seats, hundredths, rounds),
        }
    }

    // In the room.
    fn time_in_room<R: Threads + Wait + Clock + Sync>(
        self,
        rt: &R,
        alloc: Global,
        rounds: u32,
    ) -> Result<Cost, Fault> {
        let RoomParts {
            room,
            sources,
            passes,
        } = Room::make(alloc, GAUGES, PASSES)?;
        let seats = room_seats(alloc, &room, sources, passes)?;
        self.time(rt, alloc, seats, rounds)
    }

    // In the plain room.
    fn time_in_plain_room<R: Threads + Wait + Clock + Sync>(
        self,
        rt: &R,
        alloc: Global,
        rounds: u32,
    ) -> Result<Cost, Fault> {
        let room = PlainRoom::make(alloc, GAUGES)?;
        let seats = room.seats(alloc, PASSES)?;
        self.time(rt, alloc, seats, rounds)
    }

    pub fn figure<R: Threads + Wait + Clock + Sync>(
        self,
        rt: &R,
        alloc: Global,
        size: Size,
    ) -> Result<Figure, Fault> {
        let rounds = self.rounds(size);
        let ours = self.time_in_room(rt, alloc, rounds)?;
        let theirs = self.time_in_plain_room(rt, alloc, rounds)?;
        let name = self.name(alloc)?;
        Ok(Figure {
            name,
            ours,
            baseline: "a plain room",
            theirs,
        })
    }
}
