//! A small storm, over a source that can't be read, and sinks that fail.

use crate::runs::{Faults, Ran, Wanted, ended_as, prefix, run_pieces};
use kbytes::NoMemory;
use std::alloc::Global;
use std::sync::Wait;
use std::test::*;
use std::thread::Threads;

const SMALL_STORM: &[&str] = &["storm", "7", "32", "2"];

/// Thirty-two requests are two blocks: sixteen produces, two to each partition, and sixteen fetches of the follower.
const END_OF_SMALL_STORM: &[u8] = b"part 0 end 2 batches 2 bytes 168\n\
part 1 end 2 batches 2 bytes 168\n\
part 2 end 2 batches 2 bytes 168\n\
part 3 end 2 batches 2 bytes 168\n\
part 4 end 2 batches 2 bytes 168\n\
part 5 end 2 batches 2 bytes 168\n\
part 6 end 2 batches 2 bytes 168\n\
part 7 end 2 batches 2 bytes 168\n\
sessions 16 calls 32 replies 32 parked 0\ndone\n";

// Runs the small storm over a source that has no trace and whose first read fails.
fn run_storm<R: Threads + Wait + Sync>(
    rt: &R,
    alloc: Global,
    writes: &[u64],
    room: u64,
) -> Result<Ran, NoMemory> {
    let faults = Faults {
        reads: &[0],
        writes,
        room,
    };
    run_pieces(rt, alloc, SMALL_STORM, &["nothing"], faults)
}

#[test]
fn a_storm_reads_nothing_and_is_summed_up_as_far_as_the_sink_takes_it(rt: HostRuntime) {
    for (writes, room, code, count) in [
        ([].as_slice(), 4096, 0, END_OF_SMALL_STORM.len()),
        (&[0], 4096, 4, 0),
        (&[], 40, 4, 40),
    ] {
        let wanted = Wanted {
            code,
            has_account: true,
            written: prefix(END_OF_SMALL_STORM, count),
        };
        assert!(rt; ended_as(run_storm(&rt, rt.alloc(), writes, room), wanted));
    }
}
