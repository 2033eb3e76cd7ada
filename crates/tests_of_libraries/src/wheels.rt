//! `timing_wheel`.
ghost use Rattle.std.specs.Prelude.{◌<◌};
ghost use Rattle.timing_wheel.specs.Timers.{ids_of};

use std::test::*;
use timing_wheel::{Due, Place, Wheels};

fn is_at(wheels: &Wheels, id: u32, level: u32, bucket: u32) -> bool
    requires { id < ids_of wheels.now }
{
    wheels.where_is(id) == Some(Place { level, bucket })
}

// The last deadline of each wheel from moment 0 on, and the farthest that is taken.
#[test]
fn a_deadline_on_each_level(rt: HostRuntime) {
    let mut wheels = Wheels::new(rt.alloc(), 8).expect(&rt, "memory");
    let mut due = Due::new(rt.alloc(), 8).expect(&rt, "memory");
    let taken = [
        wheels.insert(0, 19),
        wheels.insert(1, 399),
        wheels.insert(2, 7_999),
        wheels.insert(3, 159_999),
        wheels.insert(4, 3_199_999),
        wheels.insert(5, 63_999_999),
        wheels.insert(6, 1_279_999_999),
        wheels.insert(7, 2_147_483_647),
    ];
    assert!(rt; taken == [true; 8]);
    for id in 0u32..7 {
        assert!(rt; is_at(&wheels, id, id, 19));
    }
    assert!(rt; is_at(&wheels, 7, 7, 1) && wheels.len() == 8);
    wheels.pop_due(2_147_483_648, &mut due);
    assert!(rt; due.ids() == [0u32, 1, 2, 3, 4, 5, 6, 7].as_slice());
    assert!(rt; (wheels.len(), wheels.now()) == (0, 2_147_483_648));
    due.clear();
    assert!(rt; due.ids().is_empty());
}

#[test]
fn an_entry_is_put_again(rt: HostRuntime) {
    let mut wheels = Wheels::new(rt.alloc(), 8).expect(&rt, "memory");
    let mut due = Due::new(rt.alloc(), 8).expect(&rt, "memory");
    assert!(rt; wheels.insert(3, 25) && is_at(&wheels, 3, 1, 1));
    assert!(rt; (wheels.deadline(3), wheels.deadline(4)) == (Some(25), None));
    wheels.pop_due(20, &mut due);
    assert!(rt; due.ids().is_empty() && is_at(&wheels, 3, 0, 5));
    let taken = (wheels.insert(3, 20), wheels.where_is(3), wheels.remove(3));
    assert!(rt; taken == (false, None, false));
}
