//! The wheels, the lists of watchers and the checksum, each beside a baseline of std.
ghost use Rattle.std.specs.Prelude.{◌≡◌, ◌≤◌, ◌<◌, ◌^◌, length};

use crate::fault::Fault;
use crate::figure::{Figure, time};
use crate::size::Size;
use kbatch::crc32c;
use std::alloc::Global;
use std::cmp::Reverse;
use std::collections::{BinaryHeap, HashMap};
use std::time::Clock;
use timing_wheel::{Due, Wheels};
use watch_lists::Shard;

/// A request's time is this many milliseconds longer than it waits.
const SPARE: u64 = 400;

const MEGABYTE: usize = 1_000_000;

// In each millisecond one id is taken out, is listed again for later, and what is due is handed out. It answers how
// many ids were due.
fn wheels(alloc: Global, entries: u32, steps: u32) -> Result<u64, Fault>
    requires { (1 ≤ entries) × (entries < 2 ^ 20) }
{
    let mut wheels = Wheels::new(alloc, entries)?;
    let mut due = Due::new(alloc, entries)?;
    let mut count: u64 = 0;
    let mut id = 0;
    for now in 1..steps {
        wheels.remove(id);
        wheels.insert(id, wheels.now() + u64::from(entries) + SPARE);
        id = if id + 1 < entries { id + 1 } else { 0 };
        wheels.pop_due(u64::from(now), &mut due);
        count = count.saturating_add(due.ids().len() as u64);
        due.clear();
    }
    Ok(count)
}

// The same by a heap. A request that is answered stays in it until its time, and is known by its round.
fn heap(alloc: Global, entries: u32, steps: u32) -> Result<u64, Fault>
    requires { (1 ≤ entries) × (entries < 2 ^ 20) }
{
    let mut heap = BinaryHeap::new(alloc);
    let mut rounds = vec![in alloc; 0u64; entries as usize]?;
    let mut count: u64 = 0;
    let mut id = 0;
    for now in 1..steps {
        let now = u64::from(now);
        rounds[id as usize] = now;
        let deadline = now + u64::from(entries) + SPARE;
        if heap.push(Reverse((deadline, id, now))).is_err() {
            return Err(Fault::NoMemory);
        }
        id = if id + 1 < entries { id + 1 } else { 0 };
        // One is listed in each step, so at most one is due.
        if heap.peek().is_some_and(|first| first.0.0 <= now) {
            if let Some(Reverse((_, due, round))) = heap.pop() {
                count = count.saturating_add(u64::from(rounds.get(due as usize) == Some(&round)));
            }
        }
    }
    Ok(count)
}

/// Steps of a millisecond, with that many entries at a time.
pub fn timers<R: Clock>(rt: &R, alloc: Global, size: Size, entries: u32) -> Result<Figure, Fault>
    requires { (1 ≤ entries) × (entries < 2 ^ 20) }
{
    let steps = size.steps(2_000_000);
    Ok(Figure {
        name: format!(in alloc; "timers, {entries} entries")?,
        ours: time(
            rt,
            u64::from(steps),
            || -> Result<u64, Fault>
                requires { (1 ≤ entries) × (entries < 2 ^ 20) }
            { wheels(alloc, entries, steps) },
        )?,
        baseline: "BinaryHeap",
        theirs: time(
            rt,
            u64::from(steps),
            || -> Result<u64, Fault>
                requires { (1 ≤ entries) × (entries < 2 ^ 20) }
            { heap(alloc, entries, steps) },
        )?,
    })
}

// A watcher is listed, a key is looked at, and in every third step the watcher is taken out. It answers how many were found.
fn in_a_shard(alloc: Global, steps: u32) -> Result<u64, Fault> {
    let mut shard = Shard::new(alloc, 12, 80)?;
    let mut found: u64 = 0;
    for step in 0..steps {
        let key = step % 12;
        let id = step % 80;
        shard.list(key, id, 1);
        found = found.saturating_add(u64::from(shard.each(key, 0).is_some()));
        if step % 3 == 0 {
            shard.drop_stale(key, id, 1);
        }
    }
    Ok(found)
}

fn in_a_map(alloc: Global, steps: u32) -> Result<u64, Fault> {
    let mut map: HashMap<(u32, u32), u32> = HashMap::new(alloc);
    let mut found: u64 = 0;
    for step in 0..steps {
        let key = step % 12;
        let id = step % 80;
        map.insert((key, id), 1)?;
        found = found.saturating_add(u64::from(map.contains_key(&(key, 0))));
        if step % 3 == 0 {
            map.remove(&(key, id));
        }
    }
    Ok(found)
}

pub fn watchers<R: Clock>(rt: &R, alloc: Global, size: Size) -> Result<Figure, Fault> {
    let steps = size.steps(2_000_000);
    Ok(Figure {
        name: format!(in alloc; "watchers, 12 keys and 80 ids")?,
        ours: time(rt, u64::from(steps), || in_a_shard(alloc, steps))?,
        baseline: "HashMap",
        theirs: time(rt, u64::from(steps), || in_a_map(alloc, steps))?,
    })
}

fn summed(bytes: &[u8]) -> u32 {
    bytes.iter().fold(0, |sum: u32, byte| {
        sum.wrapping_mul(31).wrapping_add(u32::from(*byte))
    })
}

// A function of this crate, to hand over: the checksum of bytes.
fn checksummed(bytes: &[u8]) -> u32 {
    crc32c(bytes)
}

// That many times the sum of a megabyte, whose first byte changes each time.
fn megabytes<F: Fn(&[u8]) -> u32>(alloc: Global, rounds: u32, sum: F) -> Result<u64, Fault>
    requires { F.IsAlwaysCallable sum }
{
    let mut bytes = vec![in alloc; 7u8; MEGABYTE]?;
    let mut all = 0;
    for _ in 0..rounds {
        all ^= sum(bytes.as_slice());
        if let Some(first) = bytes.first_mut() {
            *first = (all & 0xff) as u8;
        }
    }
    Ok(u64::from(all))
}

/// Each byte of a megabyte: what takes a nanosecond for each is 1,000 MB/s.
pub fn checksum<R: Clock>(rt: &R, alloc: Global, size: Size) -> Result<Figure, Fault> {
    let rounds = match size {
        Size::Tiny => 1,
        Size::Whole => 20,
    };
    let steps = u64::from(rounds) * MEGABYTE as u64;
    Ok(Figure {
        name: format!(in alloc; "crc32c of {MEGABYTE} bytes, each")?,
        ours: time(rt, steps, || megabytes(alloc, rounds, checksummed))?,
        baseline: "a sum",
        theirs: time(rt, steps, || megabytes(alloc, rounds, summed))?,
    })
}
