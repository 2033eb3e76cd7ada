//! `purgatory`, and below it `room_table`: the room's calls on one thread, and what threads come to that
//! share it.
ghost use Rattle.tests_of_libraries.specs.Crews.{IsCrewOf};

mod crew;
mod many;
mod shards;

use crew::{Crew, Rise, start};
use kbytes::NoMemory;
use opcond::{Need, Op};
use purgatory::{Done, Registered, Room};
use room_core::How;
use std::alloc::Global;
use std::sync::Wait;
use std::test::*;

// Adds a need, where the operation has room for it.
fn add_need(op: &mut Op, gauge: u32, start: u64, cap: u64) -> Result<(), NoMemory> {
    let needs = op.needs();
    if needs.len() < 64 && cap < 1 << 31 && needs.iter().all(|need| need.gauge != gauge) {
        op.add(Need { gauge, start, cap })?;
    }
    Ok(())
}

// An operation that is satisfied where so much of these gauges together has come, and overdue at the deadline.
fn op_of(alloc: Global, gauges: &[u32], least: u64, deadline: u64) -> Result<Op, NoMemory> {
    let mut op = Op::new(alloc, least.min(1_000_000), deadline);
    for gauge in gauges {
        add_need(&mut op, *gauge, 0, 1_000_000)?;
    }
    Ok(op)
}

// What a pass's operation waits for, and how it ends after each of these rises.
struct Case {
    gauges: &'static [u32],
    // a source, its value, and what has become of the operation then
    rises: &'static [(usize, u64, Option<Done>)],
}

const CASES: &[Case] = &[
    // under the second of two shards
    Case {
        gauges: &[3, 20],
        rises: &[
            (3, 3, None),
            (
                20,
                2,
                Some(Done {
                    how: How::Satisfied,
                    by: 4,
                }),
            ),
        ],
    },
    // at its deadline
    Case {
        gauges: &[0, 1, 2],
        rises: &[
            (39, 99, None),
            (
                39,
                100,
                Some(Done {
                    how: How::Expired,
                    by: 16,
                }),
            ),
        ],
    },
];

// Whether just this becomes of the operation of the first pass, as these rise.
fn ends_so(
    rt: &impl Wait,
    room: &Room,
    crew: &mut Crew,
    rises: &[(usize, u64, Option<Done>)],
) -> bool
    requires { IsCrewOf room.now crew.old }
    ensures { IsCrewOf room.now crew.new }
{
    for rise in rises {
        crew.raise(rt, room, 1, Rise::of(rise.0, rise.1));
        if crew.poll(room, 0) != rise.2 {
            return false;
        }
    }
    true
}

#[test]
fn operations_wait_and_end(rt: HostRuntime) {
    let (room, mut crew) = start(rt.alloc(), 40, 2).expect(&rt, "memory");
    for case in CASES {
        let op = op_of(rt.alloc(), case.gauges, 5, 100).expect(&rt, "memory");
        assert!(rt; crew.register(&rt, &room, 0, op) == Some(Registered::Parked));
        assert!(rt; ends_so(&rt, &room, &mut crew, case.rises));
    }
}
