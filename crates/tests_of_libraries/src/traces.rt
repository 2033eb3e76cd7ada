//! Lines that are read, and written as they are spelled.

ghost use Rattle.std.specs.Prelude.{◌≤◌};

use kbytes::{Bytes, List, NoMemory};
use std::alloc::Global;
use std::test::*;
use std::thread::Threads;
use trace_file::{Line, LineFault, LineKind, TraceFault, TraceReader, put_line, read_trace};

// Every kind of line. The least number of in-sync replicas stands where it is above 1.
const WHOLE: &[u8] =
    b"topic t 1 1\ntopic u 1 1 2\ntopic v 1 8 9\nbytes 63 00ffab\nclock 500\nclose 63\nend\n";

// Upper-case digits, a number in sync that may be left out, and no line feed at the end.
const OTHERWISE: &[u8] =
    b"topic t 1 1 1\ntopic u 1 1 2\ntopic v 1 8 9\nbytes 63 00fFAb\nclock 500\nclose 63\nend";

// How many lines of bytes a trace has that threads read in shares: with 64 KiB it is long enough.
const MANY: u32 = 2000;

// A trace with many lines of bytes, from this one on with a word that begins none.
fn long_trace(alloc: Global, good: u32) -> Result<Bytes, NoMemory> {
    let mut text = Bytes::new(alloc);
    text.extend(b"topic t 1 1\n")?;
    for line in 0..MANY {
        text.extend(if line < good { b"bytes" } else { b"bites" })?;
        text.extend(b" 63 00ffab00ffab00ffab00ffab00ffab\n")?;
    }
    text.extend(b"end\n")?;
    Ok(text)
}

fn put_lines(out: &mut Bytes, lines: &[Line]) -> Result<(), NoMemory> {
    for line in lines {
        put_line(out, line)?;
    }
    Ok(())
}

fn are_written_as(alloc: Global, lines: Result<List<Line>, TraceFault>, text: &[u8]) -> bool {
    let Ok(lines) = lines else {
        return false;
    };
    let mut out = Bytes::new(alloc);
    put_lines(&mut out, lines.as_slice()).is_ok() && out.as_slice() == text
}

fn fault_in(lines: Result<List<Line>, TraceFault>) -> Option<LineFault> {
    match lines {
        Err(TraceFault::Bad(fault)) => Some(fault),
        Err(TraceFault::NoMemory) | Ok(_) => None,
    }
}

#[test]
fn lines_are_read_and_written(rt: HostRuntime) {
    for text in [WHOLE, OTHERWISE] {
        let lines = read_trace(rt.alloc(), text, false);
        assert!(rt; are_written_as(rt.alloc(), lines, WHOLE));
    }
}

// The lines of a text that comes in parts of so many bytes, each read by so many threads.
fn read_in_parts<R: Threads + Sync>(
    rt: &R,
    alloc: Global,
    text: &[u8],
    size: usize,
    threads: u32,
) -> Result<List<Line>, TraceFault>
    requires { (1 ≤ size) × (1 ≤ threads) }
{
    let mut reader = TraceReader::new(alloc, false);
    for part in text.chunks(size) {
        reader = reader.take(rt, alloc, part, threads)?;
    }
    reader.lines(alloc)
}

#[test]
fn parts_of_lines_are_read(rt: HostRuntime) {
    for text in [WHOLE, OTHERWISE] {
        let lines = read_in_parts(&rt, rt.alloc(), text, 7, 1);
        assert!(rt; are_written_as(rt.alloc(), lines, WHOLE));
    }
}

#[test]
fn three_threads_read_a_long_trace(rt: HostRuntime) {
    let text = long_trace(rt.alloc(), MANY).expect(&rt, "memory for the text");
    let lines = read_in_parts(&rt, rt.alloc(), text.as_slice(), 70_000, 3);
    assert!(rt; are_written_as(rt.alloc(), lines, text.as_slice()));
}

#[test]
fn three_threads_find_the_first_bad_line(rt: HostRuntime) {
    let text = long_trace(rt.alloc(), MANY / 2 + 100).expect(&rt, "memory for the text");
    let fault = fault_in(read_in_parts(&rt, rt.alloc(), text.as_slice(), 70_000, 3));
    assert!(rt; fault == fault_in(read_trace(rt.alloc(), text.as_slice(), false)));
    assert!(rt;
        fault
            == Some(LineFault {
                line: MANY / 2 + 102,
                kind: LineKind::Word
            })
    );
}
