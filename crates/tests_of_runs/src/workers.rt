//! Workers meet, and the account of a run on one.
ghost use Rattle.std.specs.Prelude.{◌≤◌};

use crate::pieces::{A, PRODUCE, PRODUCE_TO_1, PRODUCED, WAIT_FOR_0, WAIT_FOR_1};
use crate::runs::joined;
use audit::{Account, Call, CallHow};
use kbytes::{Bytes, NoMemory};
use std::alloc::Global;
use std::sync::Wait;
use std::sync::atomic::{AtomicBool, AtomicU64, Ordering};
use std::test::*;
use std::thread;
use std::thread::Threads;
use std::time::{Clock, Duration};
use trace_file::{put_reply_line, read_trace};
use trace_workers::{Gate, NoGate, PrintPart, print_lines, run_lines};

// Fetches from t/1: from offset 0 without a wait, and of at least 1 byte from offset 1, which waits at most 100 ms.
const AT_ONCE: &str =
    "000000370001000400000004000163ffffffff00000000000000010320000000000000010001740000000100000001000000000000000000100000";

const BEHIND: &str =
    "000000370001000400000005000163ffffffff00000064000000010320000000000000010001740000000100000001000000000000000100100000";

const TOPIC: &str = "topic t 2 0\n";

// Runs the trace of these pieces on so many workers.
fn account_of<R: Threads + Wait + Sync, G: Gate + Sync>(
    rt: &R,
    alloc: Global,
    pieces: &[&str],
    workers: u32,
    gate: &G,
) -> Option<Account>
    requires { (1 ≤ workers) × (workers ≤ 16) }
{
    let text = joined(alloc, pieces).ok()?;
    let lines = read_trace(alloc, text.as_slice(), false).ok()?;
    run_lines(rt, alloc, lines.as_slice(), 9092, workers, false, gate).ok()
}

// The calls of the one transcript of a pass.
fn calls_of(account: &Account, pass: usize) -> &[Call] {
    let Some(transcripts) = account.passes.get(pass) else {
        return &[];
    };
    match transcripts.as_slice() {
        [transcript] => transcript.calls.as_slice(),
        _ => &[],
    }
}

fn how_of(account: &Account, pass: usize, call: usize) -> Option<CallHow> {
    match calls_of(account, pass).get(call) {
        Some(call) => Some(call.how),
        None => None,
    }
}

const TRIES: u32 = 20_000;

// Two workers, each of whom waits at its first line for the other.
#[derive(Drop)]
struct Meeting<'a, C> {
    clock: &'a C,
    first: AtomicBool,
    second: AtomicBool,
    // how many waited in vain
    alone: AtomicU64,
}

impl<C: Clock> Gate for Meeting<'_, C> {
    fn pass(&self, worker: u32, _line: u32) {
        let (own, other) = match worker {
            0 => (&self.first, &self.second),
            _ => (&self.second, &self.first),
        };
        own.store(true, Ordering::SeqCst);
        for _ in 0..TRIES {
            if other.load(Ordering::SeqCst) {
                return;
            }
            thread::sleep(self.clock, Duration::from_millis(1));
        }
        self.alone.fetch_add(1, Ordering::SeqCst);
    }
}

#[test]
fn two_workers_meet(rt: HostRuntime) {
    let gate = Meeting {
        clock: &rt,
        first: AtomicBool::new(false),
        second: AtomicBool::new(false),
        alone: AtomicU64::new(0),
    };
    let pieces = [
        TOPIC,
        "bytes 0 ",
        WAIT_FOR_0,
        PRODUCE_TO_1,
        A,
        "\nbytes 1 ",
        WAIT_FOR_1,
        "\nbytes 2 ",
        PRODUCE,
        A,
        "\nend\n",
    ];
    let account = account_of(&rt, rt.alloc(), &pieces, 2, &gate).expect(&rt, "memory");
    assert!(rt; gate.alone.load(Ordering::SeqCst) == 0);
    assert!(rt; account.passes.len() == 4 && calls_of(&account, 0).len() == 2);
    assert!(rt; calls_of(&account, 1).len() == 1 && calls_of(&account, 2).len() == 1);
}

#[test]
fn who_wins_on_one_worker(rt: HostRuntime) {
    let pieces = [
        TOPIC,
        "bytes 0 ",
        WAIT_FOR_0,
        PRODUCE_TO_1,
        A,
        "\nbytes 1 ",
        PRODUCE,
        A,
        "\nbytes 2 ",
        AT_ONCE,
        "\nbytes 2 ",
        BEHIND,
        "\nclock 100\nend\n",
    ];
    let account = account_of(&rt, rt.alloc(), &pieces, 1, &NoGate).expect(&rt, "memory");
    assert!(rt; how_of(&account, 0, 0) == Some(CallHow::Satisfied { by: 1 }));
    assert!(rt; how_of(&account, 2, 1) == Some(CallHow::Expired { by: 16 }));
    let mut wins = [0; 21];
    wins[1] = 1;
    wins[16] = 1;
    assert!(rt; account.wins.as_slice() == wins.as_slice());
}

#[test]
fn a_run_is_printed_in_parts(rt: HostRuntime) {
    let alloc = rt.alloc();
    let text = joined(alloc, &[TOPIC, "bytes 0 ", PRODUCE, A, "\nend\n"]).expect(&rt, "memory");
    let lines = read_trace(alloc, text.as_slice(), false).expect(&rt, "a trace");
    let printed = print_lines(&rt, alloc, lines, 9092, 1);
    let (account, parts) = printed.expect(&rt, "memory");
    assert!(rt; account.passes.len() == 2);
    let line = joined(alloc, &["reply 0 ", PRODUCED, "\n"]).expect(&rt, "memory");
    let first = parts.as_slice().first().expect(&rt, "the session's lines");
    assert!(rt; matches!(first, PrintPart::Text(text) if text.as_slice() == line.as_slice()));
}

// The lines of the frames whose records are read in the account.
fn lines_in_logs(alloc: Global, account: &Account, parts: &[PrintPart]) -> Result<Bytes, NoMemory> {
    let mut lines = Bytes::new(alloc);
    for part in parts {
        if let PrintPart::Stored {
            session,
            head,
            range,
        } = part
        {
            let mut frame = Bytes::new(alloc);
            frame.extend(head.as_slice())?;
            frame.extend(range.bytes_in(account))?;
            put_reply_line(&mut lines, *session, frame.as_slice())?;
        }
    }
    Ok(lines)
}

// A session produces the batch eight times, and then another one fetches all that is stored.
fn long_fetch(alloc: Global) -> Result<Bytes, NoMemory> {
    let mut text = joined(alloc, &[TOPIC, "bytes 0 "])?;
    for _ in 0..8 {
        text.extend(PRODUCE.as_bytes())?;
        text.extend(A.as_bytes())?;
    }
    text.extend(b"\nbytes 1 ")?;
    text.extend(WAIT_FOR_0.as_bytes())?;
    text.extend(b"\nend\n")?;
    Ok(text)
}

// The reply to that fetch, as far as the batches: they have 552 bytes, and the high watermark is 8.
const FETCHED_552: &str = "\
000002590000000100000000000000010001740000000100000000000000000000000000080000000000000008ff\
ffffff00000228";

// The batch behind its base offset.
const BEHIND_OFFSET: &str = "\
000000390000000002dbe9c87600000000000000000000000000000000000000000000ffffffffffffffffffffff\
ffffff000000010e00000001026100";

// The line of the reply to that fetch.
fn long_line(alloc: Global) -> Result<Bytes, NoMemory> {
    let mut line = joined(alloc, &["reply 1 ", FETCHED_552])?;
    for offset in b"01234567" {
        line.extend(b"000000000000000")?;
        line.push(*offset)?;
        line.extend(BEHIND_OFFSET.as_bytes())?;
    }
    line.push(b'\n')?;
    Ok(line)
}

#[test]
fn the_records_of_a_long_frame_are_read_in_the_log(rt: HostRuntime) {
    let alloc = rt.alloc();
    let text = long_fetch(alloc).expect(&rt, "memory");
    let lines = read_trace(alloc, text.as_slice(), false).expect(&rt, "a trace");
    let printed = print_lines(&rt, alloc, lines, 9092, 1);
    let (account, parts) = printed.expect(&rt, "memory");
    let told = lines_in_logs(alloc, &account, parts.as_slice()).expect(&rt, "memory");
    let line = long_line(alloc).expect(&rt, "memory");
    assert!(rt; told.as_slice() == line.as_slice());
}
