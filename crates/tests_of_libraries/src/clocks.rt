//! The clocks in memory and of the system.

use outside::{Clock, MOST_MOMENT, MemClock, SystemClock};
use std::test::*;

#[test]
fn a_clock_in_memory_moves_on_where_it_rests(rt: HostRuntime) {
    let mut clock = MemClock::new(MOST_MOMENT - 10, 7);
    let moments = [clock.now(), clock.next(), clock.now(), clock.next()];
    assert!(rt;
        moments
            == [
                MOST_MOMENT - 10,
                MOST_MOMENT - 3,
                MOST_MOMENT - 3,
                MOST_MOMENT
            ]
    );
}

#[test]
fn the_clock_of_the_system_moves_on(rt: HostRuntime) {
    let mut clock = SystemClock::new(&rt);
    let first = clock.now();
    for _ in 0..50 {
        clock.next();
    }
    let last = clock.now();
    assert!(rt; last >= first.saturating_add(50) && last < first.saturating_add(10_000));
}
