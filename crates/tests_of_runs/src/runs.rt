//! Runs over a source and a sink in memory, which may fail, and how they ended.

ghost use Rattle.std.specs.Prelude.{◌≡◌, Some, IfOk};
ghost use Rattle.outside.specs.shared.port.History.{IsNewPort};

use commands::run;
use kbytes::{Bytes, List, NoMemory};
use outside::{MemClock, MemPort, MemSink, MemSource};
use std::alloc::{AllocError, Global};
use std::sync::Wait;
use std::thread::Threads;

/// A trace on one thread.
pub const REPLAY: &[&str] = &["replay"];

/// A trace on one worker.
pub const ON_ONE_WORKER: &[&str] = &["replay", "--workers", "1"];

/// The reads and writes that fail, by their numbers, and how many bytes the sink takes.
#[derive(Clone, Copy)]
pub struct Faults<'a> {
    pub reads: &'a [u64],
    pub writes: &'a [u64],
    pub room: u64,
}

/// Nothing fails, and the sink has room.
pub const NONE: Faults<'static> = Faults {
    reads: &[],
    writes: &[],
    room: 4096,
};

/// How a run ended, and what it wrote.
#[derive(Drop)]
pub struct Ran {
    pub code: u8,
    pub has_account: bool,
    pub sink: MemSink,
}

/// How a run is to end: its code, whether it has an account, and all that it writes.
#[derive(Clone, Copy)]
pub struct Wanted<'a> {
    pub code: u8,
    pub has_account: bool,
    pub written: &'a [u8],
}

/// Whether the run had its memory and ended so.
pub fn ended_as(ran: Result<Ran, NoMemory>, wanted: Wanted<'_>) -> bool {
    match ran {
        Ok(ran) => ran.code == wanted.code
            && ran.has_account == wanted.has_account
            && ran.sink.bytes() == wanted.written,
        Err(_) => false,
    }
}

/// The first bytes of a text, or all of it.
pub fn prefix(text: &[u8], count: usize) -> &[u8] {
    match text.get(..count) {
        Some(prefix) => prefix,
        None => text,
    }
}

/// A list of these.
pub fn numbers(alloc: Global, items: &[u64]) -> Result<List<u64>, NoMemory> {
    let mut list = List::new(alloc);
    for item in items {
        list.push(*item)?;
    }
    Ok(list)
}

/// The words of a command line.
pub fn line_of(alloc: Global, words: &[&str]) -> Result<Vec<String>, AllocError> {
    let mut line = Vec::new(alloc);
    for word in words {
        line.push(String::from_str(alloc, word)?)?;
    }
    Ok(line)
}

/// The text of these pieces.
pub fn joined(alloc: Global, pieces: &[&str]) -> Result<Bytes, NoMemory> {
    let mut text = Bytes::new(alloc);
    for piece in pieces {
        text.extend(piece.as_bytes())?;
    }
    Ok(text)
}

/// What a run plays over.
#[derive(Drop)]
pub struct Stage {
    line: Vec<String>,
    source: MemSource,
    sink: MemSink,
    port: MemPort,
}

/// These words, a source with this text, a sink, and this port.
pub fn stage_of(
    alloc: Global,
    words: &[&str],
    text: Bytes,
    port: MemPort,
    faults: Faults<'_>,
) -> Result<Stage, NoMemory>
    ensures { IfOk result (λ stage. stage.port ≡ port) }
{
    let line = line_of(alloc, words)?;
    let source = MemSource::new(text, numbers(alloc, faults.reads)?);
    let sink = MemSink::new(alloc, faults.room, numbers(alloc, faults.writes)?)?;
    Ok(Stage {
        line,
        source,
        sink,
        port,
    })
}

/// Runs what stands on the stage, with a port that is new.
pub fn play<R: Threads + Wait + Sync>(rt: &R, alloc: Global, stage: Stage) -> Ran
    requires { IsNewPort (record { faults = stage.port.plan.faults; opened_with = stage.port.opened_with; given = stage.port.given; is_ended = stage.port.is_ended; retired_count = stage.port.retired_count; retired = Some stage.port.retired }) }
{
    let Stage {
        line,
        mut source,
        mut sink,
        port,
    } = stage;
    let clock = MemClock::new(0, 1);
    let exit = run(
        rt,
        alloc,
        line.as_slice(),
        &mut source,
        &mut sink,
        port,
        clock,
    );
    Ran {
        code: exit.code,
        has_account: exit.account.is_some(),
        sink,
    }
}

/// Runs these words on a trace, over a port without links: a replay and a storm use neither port nor clock.
pub fn run_with<R: Threads + Wait + Sync>(
    rt: &R,
    alloc: Global,
    words: &[&str],
    text: Bytes,
    faults: Faults<'_>,
) -> Result<Ran, NoMemory> {
    let port = MemPort::new(alloc, List::new(alloc), List::new(alloc))?;
    let stage = stage_of(alloc, words, text, port, faults)?;
    Ok(play(rt, alloc, stage))
}

/// Runs the words on a trace of these pieces.
pub fn run_pieces<R: Threads + Wait + Sync>(
    rt: &R,
    alloc: Global,
    words: &[&str],
    pieces: &[&str],
    faults: Faults<'_>,
) -> Result<Ran, NoMemory> {
    let text = joined(alloc, pieces)?;
    run_with(rt, alloc, words, text, faults)
}
