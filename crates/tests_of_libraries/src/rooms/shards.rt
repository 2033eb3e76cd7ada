//! Many entries in one shard, and deadlines far apart.
ghost use Rattle.std.specs.Prelude.{◌≡◌, IfOk};
ghost use Rattle.tests_of_libraries.specs.Crews.{IsCrewOf};

use super::crew::{Crew, Rise, start};
use super::op_of;
use kbytes::NoMemory;
use purgatory::{Registered, Room};
use std::alloc::Global;
use std::sync::Wait;
use std::test::*;

// All of the first shard.
const OF_ONE_SHARD: [u32; 12] = [0, 16, 32, 48, 64, 80, 96, 112, 128, 144, 160, 176];

const CLOCK: usize = 192;

// Operations with one deadline, each of another pass.
#[derive(Clone, Copy)]
struct Wave {
    passes: usize,
    deadline: u64,
}

// The first passes register an operation each, which is listed under all gauges of a shard. How many wait.
fn register_all(
    rt: &impl Wait,
    alloc: Global,
    room: &Room,
    crew: &mut Crew,
    wave: Wave,
) -> Result<u32, NoMemory>
    requires { IsCrewOf room.now crew.old }
    ensures { IsCrewOf room.now crew.new }
{
    let mut parked = 0u32;
    for hand in 0..wave.passes {
        let op = op_of(alloc, &OF_ONE_SHARD, 5, wave.deadline)?;
        if crew.register(rt, room, hand, op) == Some(Registered::Parked) {
            parked = parked.saturating_add(1);
        }
    }
    Ok(parked)
}

// How many operations have ended since the last look.
fn look_at_all(room: &Room, crew: &mut Crew) -> u32
    requires { IsCrewOf room.now crew.old }
    ensures { IsCrewOf room.now crew.new }
{
    let mut ended = 0u32;
    for hand in 0..crew.size() {
        if crew.poll(room, hand).is_some() {
            ended = ended.saturating_add(1);
        }
    }
    ended
}

// 70 passes have 840 entries; 70 operations expire, whose entries are stale. The next 80 find the shard full of them.
#[test]
fn a_full_shard_loses_no_open_operation(rt: HostRuntime) {
    let (room, mut crew) = start(rt.alloc(), 193, 80).expect(&rt, "memory");
    let first = Wave {
        passes: 70,
        deadline: 10,
    };
    assert!(rt;
        matches!(
            register_all(&rt, rt.alloc(), &room, &mut crew, first),
            Ok(70)
        )
    );
    crew.raise(&rt, &room, 79, Rise::of(CLOCK, 10));
    assert!(rt; look_at_all(&room, &mut crew) == 70);
    let second = Wave {
        passes: 80,
        deadline: 20,
    };
    assert!(rt;
        matches!(
            register_all(&rt, rt.alloc(), &room, &mut crew, second),
            Ok(80)
        )
    );
    crew.raise(&rt, &room, 79, Rise::of(176, 5));
    assert!(rt; look_at_all(&room, &mut crew) == 80);
}

// In milliseconds, each far past the one before.
const DEADLINES: [u64; 6] = [1, 70, 5_000, 300_000, 20_000_000, 1 << 40];

// A pass has an operation without needs for each deadline. How many wait.
fn register_each(
    rt: &impl Wait,
    alloc: Global,
    room: &Room,
    crew: &mut Crew,
) -> Result<u32, NoMemory>
    requires { IsCrewOf room.now crew.old }
    ensures { IsCrewOf room.now crew.new }
{
    let mut parked = 0u32;
    for hand in 0..DEADLINES.len() {
        let op = op_of(alloc, &[], 1, DEADLINES[hand])?;
        if crew.register(rt, room, hand, op) == Some(Registered::Parked) {
            parked = parked.saturating_add(1);
        }
    }
    Ok(parked)
}

#[test]
fn the_clock_jumps_far(rt: HostRuntime) {
    let (room, mut crew) = start(rt.alloc(), 1, 7).expect(&rt, "memory");
    assert!(rt; matches!(register_each(&rt, rt.alloc(), &room, &mut crew), Ok(6)));
    crew.raise(&rt, &room, 6, Rise::of(0, 299_999));
    assert!(rt; look_at_all(&room, &mut crew) == 3);
    crew.raise(&rt, &room, 6, Rise::of(0, 1 << 41));
    assert!(rt; look_at_all(&room, &mut crew) == 3);
}
