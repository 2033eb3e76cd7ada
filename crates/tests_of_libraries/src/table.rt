//! `room_table`. The tests of the room call its steps.
use room_core::Shape;
use room_table::{RoomTable, TableParts};
use std::test::*;

// Three gauges of a partition and the clock.
const PARTITION: Shape = Shape {
    gauges: 4,
    passes: 3,
    scanners: 2,
};

#[test]
fn a_new_table_has_all_seats_and_no_word(rt: HostRuntime) {
    let TableParts {
        table,
        sources,
        callers,
        scanners,
    } = RoomTable::make(rt.alloc(), PARTITION).expect(&rt, "memory");
    assert!(rt; (sources.len(), callers.len(), scanners.len()) == (4, 3, 2));
    let words = table.close(sources, callers, scanners);
    assert!(rt; (words.word(0), words.word(794)) == (0, 0));
}
