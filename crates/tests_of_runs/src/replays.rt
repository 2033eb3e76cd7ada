//! Replays: a stream that is cut at each byte, reads and writes that fail, and frames of the most bytes.

use crate::pieces::{
    A, A_AT_1, FETCH_138, FETCHED_138, PRODUCE, PRODUCE_NO_REPLY, PRODUCED, PRODUCED_AT_1,
};
use crate::runs::{
    Faults, NONE, ON_ONE_WORKER, REPLAY, Ran, Wanted, ended_as, joined, run_pieces, run_with,
};
use kbytes::{Bytes, NoMemory};
use std::alloc::Global;
use std::sync::Wait;
use std::test::*;
use std::thread::Threads;

const TOPIC: &str = "topic t 1 0\n";

const TO_0: &str = "bytes 0 ";

const OF_0: &str = "reply 0 ";

/// A session's bytes: two produces, the first without a reply, and a fetch of both batches.
const STREAM: &[&str] = &[PRODUCE_NO_REPLY, A, PRODUCE, A, FETCH_138];

/// What is printed where these come and no others.
const STREAM_PRINTED: &[&str] = &[
    OF_0,
    PRODUCED_AT_1,
    "\n",
    OF_0,
    FETCHED_138,
    A,
    A_AT_1,
    "\npart 0 end 2 high 2 batches 2 bytes 138\nsession 0 calls 3 replies 2 parked 0\ndone\n",
];

/// Two produces and a fetch, each in a line of its own.
pub const THREE_LINES: &[&str] = &[
    TOPIC, TO_0, PRODUCE, A, "\n", TO_0, PRODUCE, A, "\n", TO_0, FETCH_138, "\nend\n",
];

/// What is printed of these, write by write: the replies of three lines, and the summary.
const THREE_LINES_PRINTED: &[&[&str]] = &[
    &[OF_0, PRODUCED, "\n"],
    &[OF_0, PRODUCED_AT_1, "\n"],
    &[OF_0, FETCHED_138, A, A_AT_1, "\n"],
    &["part 0 end 2 high 2 batches 2 bytes 138\nsession 0 calls 3 replies 3 parked 0\ndone\n"],
];

/// What is printed of the three lines, but for the last writes. They are of one session, so it is the same on one worker.
pub fn printed_before(alloc: Global, writes: usize) -> Result<Bytes, NoMemory> {
    let mut text = Bytes::new(alloc);
    for pieces in THREE_LINES_PRINTED.iter().take(writes) {
        for piece in *pieces {
            text.extend(piece.as_bytes())?;
        }
    }
    Ok(text)
}

fn put_feed(text: &mut Bytes, digits: &[u8]) -> Result<(), NoMemory> {
    text.extend(TO_0.as_bytes())?;
    text.extend(digits)?;
    text.extend(b"\n")
}

// The trace that brings a session's bytes in two pieces.
fn put_in_two(text: &mut Bytes, front: &[u8], rest: &[u8]) -> Result<(), NoMemory> {
    text.extend(TOPIC.as_bytes())?;
    put_feed(text, front)?;
    put_feed(text, rest)?;
    text.extend(b"end\n")
}

// Runs the stream, cut after that many of its digits.
fn run_cut<R: Threads + Wait + Sync>(
    rt: &R,
    alloc: Global,
    stream: &[u8],
    digits: usize,
) -> Result<Ran, NoMemory> {
    let mut text = Bytes::new(alloc);
    if let Some((front, rest)) = stream.split_at_checked(digits) {
        put_in_two(&mut text, front, rest)?;
    }
    run_with(rt, alloc, REPLAY, text, NONE)
}

#[test]
fn a_stream_may_be_cut_at_any_byte(rt: HostRuntime) {
    let stream = joined(rt.alloc(), STREAM).expect(&rt, "memory");
    let printed = joined(rt.alloc(), STREAM_PRINTED).expect(&rt, "memory");
    let wanted = Wanted {
        code: 0,
        has_account: true,
        written: printed.as_slice(),
    };
    for cut in 1..stream.len() / 2 {
        let ran = run_cut(&rt, rt.alloc(), stream.as_slice(), 2 * cut);
        assert!(rt; ended_as(ran, wanted), "cut at byte {cut}");
    }
}

fn put_long(text: &mut Bytes) -> Result<(), NoMemory> {
    text.extend(TOPIC.as_bytes())?;
    for _ in 0..300 {
        text.extend(TO_0.as_bytes())?;
        text.extend(PRODUCE_NO_REPLY.as_bytes())?;
        text.extend(A.as_bytes())?;
        text.extend(b"\n")?;
    }
    text.extend(b"end\n")
}

// Runs a trace that takes three reads, where this one fails.
fn run_long<R: Threads + Wait + Sync>(
    rt: &R,
    alloc: Global,
    words: &[&str],
    read: u64,
) -> Result<Ran, NoMemory> {
    let mut text = Bytes::new(alloc);
    put_long(&mut text)?;
    let faults = Faults {
        reads: &[read],
        ..NONE
    };
    run_with(rt, alloc, words, text, faults)
}

#[test]
fn each_read_that_fails_leaves_nothing_written(rt: HostRuntime) {
    let unread = Wanted {
        code: 3,
        has_account: false,
        written: b"",
    };
    for (words, read) in [
        (REPLAY, 0),
        (REPLAY, 1),
        (REPLAY, 2),
        (ON_ONE_WORKER, 0),
        (ON_ONE_WORKER, 1),
        (ON_ONE_WORKER, 2),
    ] {
        let ran = run_long(&rt, rt.alloc(), words, read);
        assert!(rt; ended_as(ran, unread), "at read {read}");
    }
    let whole = Wanted {
        code: 0,
        has_account: true,
        written: b"part 0 end 300 high 300 batches 300 bytes 20700\n\
session 0 calls 300 replies 0 parked 0\ndone\n",
    };
    assert!(rt; ended_as(run_long(&rt, rt.alloc(), REPLAY, 3), whole));
}

#[test]
fn each_write_that_fails_leaves_the_front_of_the_output(rt: HostRuntime) {
    for write in 0..5 {
        let front = printed_before(rt.alloc(), write).expect(&rt, "memory");
        let faults = Faults {
            writes: &[write as u64],
            ..NONE
        };
        let wanted = Wanted {
            code: if write < 4 { 4 } else { 0 },
            has_account: write == 4,
            written: front.as_slice(),
        };
        let ran = run_pieces(&rt, rt.alloc(), REPLAY, THREE_LINES, faults);
        assert!(rt; ended_as(ran, wanted), "at write {write}");
    }
}

fn put_long_frame(text: &mut Bytes, size: &str) -> Result<(), NoMemory> {
    text.extend(TOPIC.as_bytes())?;
    text.extend(TO_0.as_bytes())?;
    text.extend(size.as_bytes())?;
    for _ in 0..262_144 {
        text.extend(b"0000000000000000000000000000000000000000000000000000000000000000")?;
    }
    text.extend(b"\nend\n")
}

// Runs the trace of a frame of eight mebibytes, whose size is written in these digits.
fn run_long_frame<R: Threads + Wait + Sync>(
    rt: &R,
    alloc: Global,
    size: &str,
) -> Result<Ran, NoMemory> {
    let mut text = Bytes::new(alloc);
    put_long_frame(&mut text, size)?;
    run_with(rt, alloc, REPLAY, text, NONE)
}

#[test]
fn a_frame_of_eight_mebibytes_is_read_and_one_more_byte_is_too_long(rt: HostRuntime) {
    for (size, written) in [
        (
            "00800000",
            b"end 0 refused unsupported 0 0\npart 0 end 0 high 0 batches 0 bytes 0\n\
session 0 calls 0 replies 0 parked 0\ndone\n"
                .as_slice(),
        ),
        (
            "00800001",
            b"end 0 too-long 8388609\npart 0 end 0 high 0 batches 0 bytes 0\n\
session 0 calls 0 replies 0 parked 0\ndone\n",
        ),
    ] {
        let wanted = Wanted {
            code: 0,
            has_account: true,
            written,
        };
        assert!(rt; ended_as(run_long_frame(&rt, rt.alloc(), size), wanted));
    }
}
