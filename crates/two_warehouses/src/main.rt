//! Orders that wait for stock: a program of three threads that share a room.
//!
//! A shop has two warehouses. Goods are delivered to them now and then, and an order waits until enough have come, or until it expires.
//!
//! - A **gauge** is a number that only rises. Here there are three: how many goods were ever delivered to warehouse 0, how many to
//!   warehouse 1, and the clock, which is always the last gauge. What lies in stock is no gauge, since that falls too.
//! - A **source** is the right to raise one gauge. The thread that delivers has those of the warehouses, and the one that
//!   lets time pass has the clock's.
//! - A **pass** is the right to act in the room. Each thread has one, and with it at most one order at a time.
//! - A **need** says what counts of a gauge: what it has past `start`, but no more than `cap`. An order is satisfied where what counts of
//!   all its needs together is at least its least tally. It expires where the clock has reached its deadline.
//!
//! Whatever the threads' order, the first order is satisfied and the second expires, so the program always prints the same.
#![tactic(auto)]

ghost use Rattle.std.specs.Prelude.{◌≡◌, ◌<◌, All, IfOk, IfSome};
ghost use Rattle.std.specs.Thread.{IsSync};
ghost use Rattle.purgatory.specs.Rooms.{IsOfRoom, IsSourceOf, room_shape};
ghost use Rattle.two_warehouses.specs.Ready.{IsParked, IsReady};

use purgatory::{Done, How, List, Need, NoMemory, Op, Registered, Room, RoomPass, Source};
use std::alloc::Global;
use std::process::ExitCode;
use std::sync::Wait;
use std::thread::{Threads, join};
use std::time::{Clock, Duration};
use std::{io, thread};

// The number of deliveries, each of which brings one item to warehouse 0 and two to warehouse 1: 4 and 8 come in all.
const DELIVERIES: u32 = 4;

// The last moment of the clock.
const MOMENTS: u32 = 100;

// A thread looks for the end of its order this many times at most, for 10 milliseconds each time.
const LOOKS: u32 = 2_000;

// Delivers. A gauge says how many came in all, and not how many came now.
//
// `raise` stores the new number. The pass then owes a look at the orders that wait for it, and `settle` pays that: when it returns,
// each order that this satisfies is won. What was raised in a row can be settled together.
fn deliver(
    rt: &(impl Wait + Clock),
    room: &Room,
    mut first: Source,
    mut second: Source,
    mut pass: RoomPass,
)
    requires sources { IsSourceOf room.now first × IsSourceOf room.now second }
    requires pass { IsOfRoom room.now pass }
{
    for _ in 0..DELIVERIES {
        let came = first.value().saturating_add(1);
        room.raise(rt, &mut first, &mut pass, came);
        let came = second.value().saturating_add(2);
        room.raise(rt, &mut second, &mut pass, came);
        room.settle(rt, &mut pass);
        thread::sleep(rt, Duration::from_millis(5));
    }
}

// Lets time pass. The clock is raised as any other gauge, and in whatever unit the deadlines are. Nothing expires by itself: an order
// does when somebody has raised the clock to its deadline, and settles.
fn let_time_pass(rt: &(impl Wait + Clock), room: &Room, mut clock: Source, mut pass: RoomPass)
    requires clock { IsSourceOf room.now clock }
    requires pass { IsOfRoom room.now pass }
{
    for _ in 0..MOMENTS {
        let moment = clock.value().saturating_add(1);
        room.raise(rt, &mut clock, &mut pass, moment);
        room.settle(rt, &mut pass);
        thread::sleep(rt, Duration::from_millis(1));
    }
}

// An order of that many goods from the first delivery on, of which no more than `most` may be those of warehouse 1.
fn order(alloc: Global, goods: u64, most: u64, deadline: u64) -> Result<Op, NoMemory>
    requires { (goods < 1_000) × (most < 1_000) }
    ensures { IfOk result (λ op. All (λ need. need.gauge < 2) op.needs) }
{
    let mut op = Op::new(alloc, goods, deadline);
    op.add(Need {
        gauge: 0,
        start: 0,
        cap: goods,
    })?;
    op.add(Need {
        gauge: 1,
        start: 0,
        cap: most,
    })?;
    Ok(op)
}

// Waits for the end of an order that was parked. `wait` sleeps until somebody wins the order, or for that long. It may also wake for no
// reason, so `poll` has the word: None while the order waits, and then how it ended, and by whom.
fn end_of(rt: &impl Wait, room: &Room, pass: &mut RoomPass) -> Option<Done>
    requires { IsParked room.now pass.old }
    ensures { IfSome result (λ done. IsReady room.now pass.new) }
{
    for _ in 0..LOOKS {
        room.wait(rt, pass, Duration::from_millis(10));
        if let Some(done) = room.poll(pass) {
            return Some(done);
        }
    }
    None
}

// Places an order, and waits for its end. `register` may find that the order needn't wait. A pass opens fewer than 2^32 of them.
fn place(rt: &impl Wait, room: &Room, pass: &mut RoomPass, op: &Op) -> Option<Done>
    requires shape { room.now.table.shape ≡ room_shape 3 3 }
    requires pass { IsReady room.now pass.old }
    requires op { All (λ need. need.gauge < 2) op.now.needs }
    ensures { IfSome result (λ done. IsReady room.now pass.new) }
{
    if pass.generation() == u32::MAX {
        return None;
    }
    match room.register(rt, pass, op) {
        Registered::Won(done) => Some(done),
        Registered::Parked => end_of(rt, room, pass),
    }
}

// Places two orders, one after the other. The first can be met by all that comes. For the second only 3 of warehouse 1 count.
fn place_both(
    rt: &impl Wait,
    alloc: Global,
    room: &Room,
    mut pass: RoomPass,
) -> Option<(Done, Done)>
    requires shape { room.now.table.shape ≡ room_shape 3 3 }
    requires pass { IsReady room.now pass }
{
    let small = order(alloc, 8, 8, 1_000_000).ok()?;
    let large = order(alloc, 8, 3, 50).ok()?;
    let first = place(rt, room, &mut pass, &small)?;
    let second = place(rt, room, &mut pass, &large)?;
    Some((first, second))
}

// A room with its sources by gauge, and three passes.
#[derive(Drop)]
struct Shop {
    room: Room,
    first: Source,
    second: Source,
    clock: Source,
    passes: (RoomPass, RoomPass, RoomPass),
}

// The three sources of the room, by gauge.
fn three_sources(
    room: &Room,
    mut sources: List<Source>,
) -> Result<(Source, Source, Source), NoMemory>
    requires { All (IsSourceOf room.now) sources }
    ensures { IfOk result (λ s. IsSourceOf room.now s.0 × IsSourceOf room.now s.1 × IsSourceOf room.now s.2) }
{
    let clock = sources.pop().ok_or(NoMemory)?;
    let second = sources.pop().ok_or(NoMemory)?;
    let first = sources.pop().ok_or(NoMemory)?;
    Ok((first, second, clock))
}

// Its three passes.
fn three_passes(
    room: &Room,
    mut passes: List<RoomPass>,
) -> Result<(RoomPass, RoomPass, RoomPass), NoMemory>
    requires { All (IsReady room.now) passes }
    ensures { IfOk result (λ p. IsReady room.now p.0 × IsReady room.now p.1 × IsReady room.now p.2) }
{
    let last = passes.pop().ok_or(NoMemory)?;
    let other = passes.pop().ok_or(NoMemory)?;
    let one = passes.pop().ok_or(NoMemory)?;
    Ok((one, other, last))
}

fn make_shop(alloc: Global) -> Result<Shop, NoMemory>
    ensures shape { IfOk result (λ s. s.room.table.shape ≡ room_shape 3 3) }
    ensures sources { IfOk result (λ s. IsSourceOf s.room s.first × IsSourceOf s.room s.second × IsSourceOf s.room s.clock) }
    ensures passes { IfOk result (λ s. IsReady s.room s.passes.0 × IsReady s.room s.passes.1 × IsReady s.room s.passes.2) }
{
    let parts = Room::make(alloc, 3, 3)?;
    let room = parts.room;
    let (first, second, clock) = three_sources(&room, parts.sources)?;
    let passes = three_passes(&room, parts.passes)?;
    Ok(Shop {
        room,
        first,
        second,
        clock,
        passes,
    })
}

// What the thread needs that lets time pass.
#[derive(Drop)]
struct Ticker {
    clock: Source,
    pass: RoomPass,
}

// Two of the threads.
fn order_while_time_passes<R: Threads + Wait + Clock + Sync>(
    rt: &R,
    alloc: Global,
    room: &Room,
    ticker: Ticker,
    other: RoomPass,
) -> Option<(Done, Done)>
    requires shape { room.now.table.shape ≡ room_shape 3 3 }
    requires ticker { IsSourceOf room.now ticker.clock × IsOfRoom room.now ticker.pass }
    requires pass { IsReady room.now other }
{
    let Ticker { clock, pass } = ticker;
    let ((), ended) = join(
        rt,
        ||
            requires { IsSync R.row × IsSourceOf room.now clock × IsOfRoom room.now pass }
        { let_time_pass(rt, room, clock, pass) },
        || -> Option<(Done, Done)>
            requires { IsSync R.row × (room.now.table.shape ≡ room_shape 3 3) × IsReady room.now other }
        { place_both(rt, alloc, room, other) },
    );
    ended
}

// The three threads. They share the room, and each has a pass of its own.
fn run<R: Threads + Wait + Clock + Sync>(rt: &R, alloc: Global) -> Option<(Done, Done)> {
    let Shop {
        room,
        first,
        second,
        clock,
        passes,
    } = make_shop(alloc).ok()?;
    let (one, other, last) = passes;
    let ((), ended) = join(
        rt,
        ||
            requires { IsSync R.row × IsSourceOf room first × IsSourceOf room second × IsOfRoom room one }
        { deliver(rt, &room, first, second, one) },
        || -> Option<(Done, Done)>
            requires { IsSync R.row × (room.table.shape ≡ room_shape 3 3) × IsSourceOf room clock × IsOfRoom room other × IsReady room last }
        {
            let ticker = Ticker { clock, pass: other };
            order_while_time_passes(rt, alloc, &room, ticker, last)
        },
    );
    ended
}

fn text_of(how: How) -> &'static str {
    match how {
        How::Satisfied => "satisfied",
        How::Expired => "expired",
    }
}

fn main(rt: HostRuntime) -> io::Result<ExitCode> {
    let Some((first, second)) = run(&rt, rt.alloc()) else {
        eprintln!(rt; "no memory is left, or an order didn't end")?;
        return Ok(ExitCode::FAILURE);
    };
    println!(rt; "8 goods of either warehouse: {}", text_of(first.how))?;
    println!(rt;
        "8 goods, at most 3 of warehouse 1: {}",
        text_of(second.how)
    )?;
    Ok(ExitCode::SUCCESS)
}
