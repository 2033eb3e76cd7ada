//! Replays on workers: a sink that is full or fails, and sessions that wait for each other.

use crate::pieces::{A, PRODUCE, PRODUCE_TO_1, WAIT_FOR_0, WAIT_FOR_1};
use crate::replays::{THREE_LINES, printed_before};
use crate::runs::{Faults, NONE, ON_ONE_WORKER, Wanted, ended_as, prefix, run_pieces};
use std::test::*;

const ON_TWO_WORKERS: &[&str] = &["replay", "--workers", "2"];

#[test]
fn on_one_worker_the_summary_is_a_write_of_its_own_and_the_account_stays_where_one_fails(
    rt: HostRuntime,
) {
    let printed = printed_before(rt.alloc(), 4).expect(&rt, "memory");
    let block = printed_before(rt.alloc(), 2).expect(&rt, "memory");
    let replies = printed_before(rt.alloc(), 3).expect(&rt, "memory");
    for (writes, room, code, count) in [
        ([].as_slice(), 0, 4, 0),
        (&[], 1, 4, 1),
        (&[], 60, 4, 60),
        (&[], 600, 4, 600),
        (&[0], 4096, 4, 0),
        (&[1], 4096, 4, block.len()),
        (&[2], 4096, 4, replies.len()),
        (&[3], 4096, 0, 4096),
    ] {
        let faults = Faults {
            reads: &[],
            writes,
            room,
        };
        let wanted = Wanted {
            code,
            has_account: true,
            written: prefix(printed.as_slice(), count),
        };
        let ran = run_pieces(&rt, rt.alloc(), ON_ONE_WORKER, THREE_LINES, faults);
        assert!(rt; ended_as(ran, wanted), "with room {room}");
    }
}

/// Two fetches that wait for what another session produces: the first session's for the third's, and the second's for the first's.
const MEETING: &[&str] = &[
    "topic t 2 0\n",
    "bytes 0 ",
    WAIT_FOR_0,
    PRODUCE_TO_1,
    A,
    "\nbytes 1 ",
    WAIT_FOR_1,
    "\nbytes 2 ",
    PRODUCE,
    A,
    "\nend\n",
];

const END_OF_MEETING: &[u8] = b"part 0 end 1 high 1 batches 1 bytes 69\n\
part 1 end 1 high 1 batches 1 bytes 69\n\
session 0 calls 2 replies 2 parked 0\n\
session 1 calls 1 replies 1 parked 0\n\
session 2 calls 1 replies 1 parked 0\ndone\n";

#[test]
fn sessions_on_two_workers_wait_for_each_other(rt: HostRuntime) {
    assert!(rt;
        matches!(
            run_pieces(&rt, rt.alloc(), ON_TWO_WORKERS, MEETING, NONE),
            Ok(ran)
                if ran.code == 0 && ran.has_account && ran.sink.bytes().ends_with(END_OF_MEETING)
        )
    );
}
