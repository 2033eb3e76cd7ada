//! `run_lines`, `run_load` and `print_lines`, which the programs call: a broker is made and dealt to workers, their threads are started, and what they hand
//! back is closed.
ghost use Rattle.std.specs.Prelude.{◌≡◌, ◌≤◌, ◌∷◌, [], Bool, true, false, All, IfOk, length, max, min};
ghost use Rattle.audit.specs.Printed.{IsPrintOf};
ghost use Rattle.storm.specs.Lines.{storm_lines};
ghost use Rattle.storm.specs.declared.load.TheConstants.{MOST_REQUESTS};
ghost use Rattle.trace_file.specs.Contents.{configuration_of, sessions_of};
ghost use Rattle.trace_workers.specs.Sessions.{HasLines};
ghost use Rattle.trace_workers.specs.Workers.{AllKeep, HasAll, HasDone, IsSameWorker};
ghost use Rattle.trace_workers.specs.Playable.{AreTraced};
ghost use Rattle.trace_workers.specs.ToPlay.{HasFew, lines_in};
ghost use Rattle.trace_workers.specs.Dealt.{AreDealt, AreWorked};
ghost use Rattle.trace_workers.specs.Telling.{HasKept, HaveDesks, joined};
ghost use Rattle.trace_workers.specs.WorkerRun.{IsWorkerRun};

use crate::dealing::{deal, gather};
use crate::giving_back::give_back;
use crate::played::{Played, print_parts};
use crate::{Gate, NoGate, PrintPart, Worker};
use audit::Account;
use kbytes::{List, NoMemory};
use kwire::Config;
use shared_broker::Broker;
use std::alloc::Global;
use std::sync::Wait;
use std::thread;
use std::thread::Threads;
use storm::{Load, MOST_REQUESTS, load_config, loads_are_traces, sessions_in};
use trace_file::{Line, REPLAY_PORT, config_of};

// One more than the session that the line names, or 0.
fn session_past(line: &Line) -> u32
    requires { sessions_of (line.now ∷ []) ≤ 64 }
    ensures { result ≡ sessions_of (line.now ∷ []) }
{
    match line {
        Line::Feed { session, .. } | Line::Shut { session } => *session + 1,
        Line::Topic { .. } | Line::Clock { .. } | Line::End => 0,
    }
}

// One more than the greatest session that is named, or 0.
fn sessions_of(lines: &[Line]) -> u32
    requires { AreTraced lines.now }
    ensures { result ≡ sessions_of lines.now }
{
    let mut count = 0;
    for line in lines {
        count = count.max(session_past(line));
    }
    count
}

// Each worker plays its lines, in a thread of its own if one can be started.
fn work_all<R: Threads + Wait + Sync, G: Gate + Sync>(
    rt: &R,
    broker: &Broker,
    gate: &G,
    lines: &[Line],
    workers: &mut [Worker],
)
    requires traced { AreTraced lines.now }
    requires some { 1 ≤ length workers.old }
    requires dealt { AreDealt broker.now (sessions_of lines.now) (length workers.old) workers.old }
    ensures worked { AreWorked broker.now lines.now (sessions_of lines.now) (length workers.old) workers.new }
    ensures kept { (keeps : Bool) → All (AllKeep keeps) workers.old → All (AllKeep keeps) workers.new }
{
    let threads = workers.len();
    let work = |_at: usize, worker: &mut Worker|
        requires traced { AreTraced lines.now }
        requires begun { HasDone broker.now [] worker.old }
        requires all { HasAll (sessions_of lines.now) worker.old }
        requires running { worker.old.is_stopped ≡ false }
        ensures same { IsSameWorker worker.old worker.new }
        ensures done { worker.new.is_stopped ≡ false → HasDone broker.entry.now lines.entry.now worker.new }
    { worker.work(rt, broker, gate, lines) };
    thread::for_each_mut(rt, workers, threads, &work);
}

// The same, of lines that are given back: by a worker that plays alone as it goes on, and else once all are played.
fn work_given<R: Threads + Wait + Sync, G: Gate + Sync>(
    rt: &R,
    broker: &Broker,
    gate: &G,
    lines: List<Line>,
    workers: &mut [Worker],
)
    requires traced { AreTraced lines }
    requires some { 1 ≤ length workers.old }
    requires dealt { AreDealt broker.now (sessions_of lines) (length workers.old) workers.old }
    ensures worked { AreWorked broker.now lines (sessions_of lines) (length workers.old) workers.new }
    ensures kept { (keeps : Bool) → All (AllKeep keeps) workers.old → All (AllKeep keeps) workers.new }
{
    if workers.len() == 1 {
        workers[0].work_given(rt, broker, gate, lines);
    } else {
        work_all(rt, broker, gate, lines.as_slice(), workers);
        give_back(rt, lines);
    }
}

// The same, of the lines of a load, which each worker makes as it comes to them.
fn work_load<R: Threads + Wait + Sync, G: Gate + Sync>(
    rt: &R,
    alloc: Global,
    broker: &Broker,
    gate: &G,
    load: Load,
    workers: &mut [Worker],
)
    requires most { load.requests ≤ MOST_REQUESTS }
    requires traced { AreTraced (storm_lines load.seed load.requests) }
    requires some { 1 ≤ length workers.old }
    requires dealt { AreDealt broker.now (sessions_of (storm_lines load.seed load.requests)) (length workers.old) workers.old }
    ensures worked { AreWorked broker.now (storm_lines load.seed load.requests) (sessions_of (storm_lines load.seed load.requests)) (length workers.old) workers.new }
    ensures kept { (keeps : Bool) → All (AllKeep keeps) workers.old → All (AllKeep keeps) workers.new }
{
    let threads = workers.len();
    let work = |_at: usize, worker: &mut Worker|
        requires most { load.requests ≤ MOST_REQUESTS }
        requires traced { AreTraced (storm_lines load.seed load.requests) }
        requires begun { HasDone broker.now [] worker.old }
        requires all { HasAll (sessions_of (storm_lines load.seed load.requests)) worker.old }
        requires running { worker.old.is_stopped ≡ false }
        ensures same { IsSameWorker worker.old worker.new }
        ensures done { worker.new.is_stopped ≡ false → HasDone broker.entry.now (storm_lines load.seed load.requests) worker.new }
    { worker.work_load(rt, alloc, broker, gate, load) };
    thread::for_each_mut(rt, workers, threads, &work);
}

// The lines that are played: lent, given away, or those of a load. A worker that plays alone gives back line by line what was given away. The
// lines of a load are in no list: each worker makes its own.
#[derive(Drop)]
enum LinesToPlay<'a> {
    Lent(&'a [Line]),
    Given(List<Line>),
    Made(Load),
}

impl<'a> LinesToPlay<'a> {
    // The configuration that they declare.
    fn config(&self, alloc: Global, port: u16) -> Result<Config, NoMemory>
        requires { AreTraced (lines_in self.now) }
        ensures { IfOk result (λ config. config ≡ configuration_of port (lines_in self.now)) }
    {
        match self {
            LinesToPlay::Lent(lines) => config_of(alloc, lines, port),
            LinesToPlay::Given(lines) => config_of(alloc, lines.as_slice(), port),
            LinesToPlay::Made(_) => load_config(alloc, port),
        }
    }

    // One more than the greatest session that they name, or 0.
    fn sessions(&self) -> u32
        requires { AreTraced (lines_in self.now) }
        ensures { result ≡ sessions_of (lines_in self.now) }
    {
        match self {
            LinesToPlay::Lent(lines) => sessions_of(lines),
            LinesToPlay::Given(lines) => sessions_of(lines.as_slice()),
            LinesToPlay::Made(load) => sessions_in(load.requests),
        }
    }

    // The workers play them.
    fn play_by<R: Threads + Wait + Sync, G: Gate + Sync>(
        self,
        rt: &R,
        alloc: Global,
        broker: &Broker,
        gate: &G,
        workers: &mut [Worker],
    )
        requires most { HasFew self }
        requires traced { AreTraced (lines_in self) }
        requires some { 1 ≤ length workers.old }
        requires dealt { AreDealt broker.now (sessions_of (lines_in self)) (length workers.old) workers.old }
        ensures worked { AreWorked broker.now (lines_in self.entry) (sessions_of (lines_in self.entry)) (length workers.old) workers.new }
        ensures kept { (keeps : Bool) → All (AllKeep keeps) workers.old → All (AllKeep keeps) workers.new }
    {
        match self {
            LinesToPlay::Lent(lines) => work_all(rt, broker, gate, lines, workers),
            LinesToPlay::Given(lines) => work_given(rt, broker, gate, lines, workers),
            LinesToPlay::Made(load) => work_load(rt, alloc, broker, gate, load, workers),
        }
    }
}

// How many workers play that many sessions, where so many workers are asked for. Session S is worker S mod W's and the clock is the first worker's, so
// one more than there are sessions would have nothing to play.
fn with_sessions(worker_count: u32, sessions: u32) -> u32
    requires { 1 ≤ worker_count }
    ensures is { result ≡ max 1 (min worker_count sessions) }
    ensures some { 1 ≤ result }
    ensures few { result ≤ worker_count }
{
    worker_count.min(sessions).max(1)
}

// How lines are played: with which port in the replies to Metadata, on how many workers, whether the clock goes on after them, and whether each
// session keeps the lines of its replies.
#[derive(Clone, Copy)]
struct Manner {
    port: u16,
    worker_count: u32,
    drain: bool,
    keeps_lines: bool,
}

// Plays the lines in this manner.
fn play<R: Threads + Wait + Sync, G: Gate + Sync>(
    rt: &R,
    alloc: Global,
    to_play: LinesToPlay<'_>,
    manner: Manner,
    gate: &G,
) -> Result<Played, NoMemory>
    requires most { HasFew to_play }
    requires traced { AreTraced (lines_in to_play) }
    requires worker_count { (1 ≤ manner.worker_count) × (manner.worker_count ≤ 16) }
    ensures run { IfOk result (λ played. IsWorkerRun (lines_in to_play.entry) manner.port manner.drain played.account) }
    ensures kept { IfOk result (λ played. All (HasKept played.account) played.desks) }
    ensures lines { IfOk result (λ played. All (HasLines manner.keeps_lines) played.desks) }
    ensures desks { IfOk result (λ played. HaveDesks played.account played.desks) }
{
    let config = to_play.config(alloc, manner.port)?;
    let count = to_play.sessions();
    let (broker, passes) = Broker::make(alloc, config, count + 1)?;
    let worker_count = with_sessions(manner.worker_count, count);
    let mut workers = deal(alloc, passes, worker_count, manner.keeps_lines)?;
    to_play.play_by(rt, alloc, &broker, gate, workers.as_mut_slice());
    let joined = gather(alloc, workers)?;
    joined.close(rt, alloc, broker, manner.drain)
}

/// Plays the lines on that many workers, from 1 to 16, with this port in the replies to Metadata, and answers the account of the run. A worker that
/// would have neither a session nor the clock isn't started. If `drain` is true, the clock goes on by the second after the lines until no request
/// waits; if one waits past the greatest moment, that is forever. Each worker passes the gate before each line that it plays. An error if memory ran
/// out, here or in a session.
pub fn run_lines<R: Threads + Wait + Sync, G: Gate + Sync>(
    rt: &R,
    alloc: Global,
    lines: &[Line],
    port: u16,
    worker_count: u32,
    drain: bool,
    gate: &G,
) -> Result<Account, NoMemory>
    requires traced { AreTraced lines.now }
    requires worker_count { (1 ≤ worker_count) × (worker_count ≤ 16) }
    ensures { IfOk result (IsWorkerRun lines.now port drain) }
{
    let manner = Manner {
        port,
        worker_count,
        drain,
        keeps_lines: false,
    };
    let to_play = LinesToPlay::Lent(lines);
    let Played { account, .. } = play(rt, alloc, to_play, manner, gate)?;
    Ok(account)
}

/// Plays the lines of a load as `run_lines` does, with a drain and with the port of a replay. The lines are never in a list: each worker makes the
/// frame of a request as it comes to it, over that of an earlier one.
pub fn run_load<R: Threads + Wait + Sync, G: Gate + Sync>(
    rt: &R,
    alloc: Global,
    load: Load,
    worker_count: u32,
    gate: &G,
) -> Result<Account, NoMemory>
    requires most { load.requests ≤ MOST_REQUESTS }
    requires worker_count { (1 ≤ worker_count) × (worker_count ≤ 16) }
    ensures { IfOk result (IsWorkerRun (storm_lines load.seed load.requests) REPLAY_PORT true) }
{
    // a law: it does nothing
    loads_are_traces();
    let manner = Manner {
        port: REPLAY_PORT,
        worker_count,
        drain: true,
        keeps_lines: false,
    };
    let to_play = LinesToPlay::Made(load);
    let Played { account, .. } = play(rt, alloc, to_play, manner, gate)?;
    Ok(account)
}

/// Plays the lines as `run_lines` does, without a drain or a gate, and answers the account together with what is printed of it, in parts: session
/// by session what it was sent and how it ended, and then the summary. The line of a reply is made as its session is answered, in its worker's thread.
/// One worker gives each line back as soon as it has played it; more leave that to a thread for which nobody waits.
pub fn print_lines<R: Threads + Wait + Sync>(
    rt: &R,
    alloc: Global,
    lines: List<Line>,
    port: u16,
    worker_count: u32,
) -> Result<(Account, List<PrintPart>), NoMemory>
    requires traced { AreTraced lines }
    requires worker_count { (1 ≤ worker_count) × (worker_count ≤ 16) }
    ensures run { IfOk result (λ printed. IsWorkerRun lines port false printed.0) }
    ensures text { IfOk result (λ printed. IsPrintOf printed.0 (joined printed.0 printed.1)) }
{
    let manner = Manner {
        port,
        worker_count,
        drain: false,
        keeps_lines: true,
    };
    let to_play = LinesToPlay::Given(lines);
    let Played { account, mut desks } = play(rt, alloc, to_play, manner, &NoGate)?;
    let parts = print_parts(alloc, &account, desks.as_mut_slice())?;
    Ok((account, parts))
}
