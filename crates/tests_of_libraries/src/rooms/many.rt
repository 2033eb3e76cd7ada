//! Eight threads in a ring on one room: in each round every thread waits until the next one has raised its gauge.
ghost use Rattle.std.specs.Prelude.{◌≡◌, All, IfOk};
ghost use Rattle.std.specs.Thread.{IsSync};
ghost use Rattle.tests_of_libraries.specs.Crews.{IsCrewOf};

use super::crew::{Crew, Rise, halves, start};
use super::op_of;
use kbytes::NoMemory;
use opcond::Op;
use purgatory::{Registered, Room};
use std::alloc::Global;
use std::sync::Wait;
use std::test::*;
use std::thread::{Threads, map_vec};
use std::time::{Duration, Instant};

const THREADS: u32 = 8;

const ROUNDS: u64 = 200;

// Nobody raises the clock.
const NEVER: u64 = 1 << 40;

// A thread looks at most this many times for the end of an operation, for a second each time.
const LOOKS: u32 = 30;

// Whether the operation of the first pass ends.
fn ends(rt: &impl Wait, room: &Room, crew: &mut Crew) -> bool
    requires { IsCrewOf room.now crew.old }
    ensures { IsCrewOf room.now crew.new }
{
    for _ in 0..LOOKS {
        if crew.poll(room, 0).is_some() {
            return true;
        }
        crew.wait(rt, room, 0, Duration::from_secs(1));
    }
    false
}

// One round: an operation needs the next gauge at this value, and the own gauge is raised to it. Whether the operation ends.
fn is_answered(rt: &impl Wait, room: &Room, crew: &mut Crew, value: u64, op: Op) -> bool
    requires { IsCrewOf room.now crew.old }
    ensures { IsCrewOf room.now crew.new }
{
    let registered = crew.register(rt, room, 0, op);
    crew.raise(rt, room, 0, Rise::of(0, value));
    match registered {
        Some(Registered::Won(_)) => true,
        Some(Registered::Parked) => ends(rt, room, crew),
        None => false,
    }
}

// All rounds of one thread, up to one that isn't answered.
fn runs(rt: &impl Wait, alloc: Global, room: &Room, mut crew: Crew) -> bool
    requires { IsCrewOf room.now crew }
{
    let next = crew
        .first_gauge()
        .map_or(0, |gauge| gauge.wrapping_add(1) % THREADS);
    for value in 1..ROUNDS {
        let Ok(op) = op_of(alloc, &[next], value, NEVER) else {
            return false;
        };
        if !is_answered(rt, room, &mut crew, value, op) {
            return false;
        }
    }
    true
}

// Two crews of each.
fn halved(alloc: Global, room: &Room, mut crews: Vec<Crew>) -> Result<Vec<Crew>, NoMemory>
    requires { All (IsCrewOf room.now) crews.items }
    ensures { IfOk result (λ more. All (IsCrewOf room.now) more.items) }
{
    let mut more = Vec::new(alloc);
    while let Some(crew) = crews.pop() {
        let (one, other) = halves(room, crew)?;
        more.push(one)?;
        more.push(other)?;
    }
    Ok(more)
}

// Eight crews, each with a pass and a source. One has the clock's too.
fn dealt(alloc: Global, room: &Room, crew: Crew) -> Result<Vec<Crew>, NoMemory>
    requires { IsCrewOf room.now crew }
    ensures { IfOk result (λ crews. All (IsCrewOf room.now) crews.items) }
{
    let mut crews = Vec::new(alloc);
    crews.push(crew)?;
    let two = halved(alloc, room, crews)?;
    let four = halved(alloc, room, two)?;
    halved(alloc, room, four)
}

// A thread for each. Whether all rounds were answered.
fn run_all<R: Threads + Wait + Sync>(
    rt: &R,
    alloc: Global,
    room: Room,
    crews: Vec<Crew>,
) -> Result<bool, NoMemory>
    requires { All (IsCrewOf room) crews.items }
{
    let done = map_vec(
        rt,
        crews,
        &|crew: Crew| -> bool
            requires { IsSync R.row × IsCrewOf room crew }
        { runs(rt, alloc, &room, crew) },
    )?;
    Ok(done.len() == THREADS as usize && !done.contains(&false))
}

fn run_in_threads<R: Threads + Wait + Sync>(rt: &R, alloc: Global) -> Result<bool, NoMemory> {
    let (room, crew) = start(alloc, THREADS + 1, THREADS)?;
    let crews = dealt(alloc, &room, crew)?;
    run_all(rt, alloc, room, crews)
}

#[test]
fn eight_threads_wait_for_each_other(rt: HostRuntime) {
    let start = Instant::now(&rt).expect(&rt, "a clock");
    assert!(rt; matches!(run_in_threads(&rt, rt.alloc()), Ok(true)));
    // were nobody woken, each round would take a second
    let took = start.elapsed(&rt).expect(&rt, "a clock");
    assert!(rt; took < Duration::from_secs(100));
}
