//! `run_lines` deals the passes of a new broker to workers by `deal`, and has their sessions and the clock back from `gather` once all threads
//! are joined.
ghost use Rattle.std.specs.Prelude.{◌≡◌, ◌+◌, ◌<◌, ◌≤◌, ◌++◌, ◌∷◌, Bool, ℕ, [], false, All, Some, List as Items, IfOk, OnOk, length};
ghost use Rattle.std.specs.List.{flat_map};
ghost use Rattle.std.specs.Option.{option_or};
ghost use Rattle.shared_broker.specs.Making.{fresh_pass, fresh_passes};
ghost use Rattle.shared_broker.specs.Passes.{BrokerView};
ghost use Rattle.trace_file.specs.declared.line.Line.{Line as TheLine};
ghost use Rattle.trace_workers.specs.Dealing.{AreDealing, empty_worker, empty_workers};
ghost use Rattle.trace_workers.specs.Dealt.{AreDealt, AreWorked};
ghost use Rattle.trace_workers.specs.Gathered.{IsRunning, first_clock, sessions_in};
ghost use Rattle.trace_workers.specs.Joined.{HasJoined};
ghost use Rattle.trace_workers.specs.Sessions.{KeepsLines};
ghost use Rattle.trace_workers.specs.Workers.{AllKeep};

use crate::joined::JoinedSessions;
use crate::reply_lines::lines_if;
use crate::{TraceSession, Worker};
use kbytes::{List, NoMemory};
use shared_broker::Pass;
use std::alloc::Global;

// A worker with no sessions and no clock.
fn empty_worker(alloc: Global, number: u32, worker_count: u32) -> Worker
    requires { number < worker_count }
    ensures { result ≡ empty_worker worker_count number }
{
    Worker {
        number,
        worker_count,
        sessions: List::new(alloc),
        clock: None,
        is_stopped: false,
    }
}

// That many workers, with no sessions and no clock.
fn empty_workers(alloc: Global, worker_count: u32) -> Result<List<Worker>, NoMemory>
    ensures { IfOk result (λ workers. workers ≡ empty_workers worker_count) }
{
    let mut workers = List::new(alloc);
    for number in 0..worker_count {
        workers.push(empty_worker(alloc, number, worker_count))?;
    }
    Ok(workers)
}

// Gives the worker one more session.
fn add_session(worker: &mut Worker, session: TraceSession) -> Result<(), NoMemory>
    ensures { OnOk result (worker.new ≡ record worker.old { sessions = worker.old.sessions ++ session ∷ [] }) }
{
    worker.sessions.push(session)
}

// Gives the worker the clock.
fn set_clock(worker: &mut Worker, clock: Pass)
    ensures { worker.new ≡ record worker.old { clock = Some clock } }
{
    worker.clock = Some(clock);
}

// Gives the session of this number to its worker.
fn deal_session(
    alloc: Global,
    workers: &mut [Worker],
    number: u32,
    pass: Pass,
    keeps_lines: bool,
) -> Result<(), NoMemory>
    requires some { 1 ≤ length workers.old }
    ensures dealt { OnOk result ((broker : BrokerView) → pass ≡ fresh_pass broker number
        → AreDealing broker number (length workers.old) workers.old → AreDealing broker (number + 1) (length workers.old) workers.new) }
    ensures kept { OnOk result (All (AllKeep keeps_lines) workers.old → All (AllKeep keeps_lines) workers.new) }
{
    let at = number as usize % workers.len();
    let kept = lines_if(alloc, keeps_lines)?;
    add_session(
        &mut workers[at],
        TraceSession::new(alloc, number, pass, kept),
    )
}

// Makes a session of each pass, by their numbers, and gives it to its worker.
fn deal_sessions(
    alloc: Global,
    workers: &mut [Worker],
    passes: List<Pass>,
    keeps_lines: bool,
) -> Result<(), NoMemory>
    requires some { 1 ≤ length workers.old }
    requires few { length passes ≤ 64 }
    ensures dealt { OnOk result ((broker : BrokerView) (count : ℕ) → passes ≡ fresh_passes broker count
        → AreDealing broker 0 (length workers.old) workers.old → AreDealing broker count (length workers.old) workers.new) }
    ensures kept { OnOk result (All (AllKeep keeps_lines) workers.old → All (AllKeep keeps_lines) workers.new) }
{
    let mut number = 0;
    for pass in passes.into_vec() {
        deal_session(alloc, workers, number, pass, keeps_lines)?;
        number += 1;
    }
    Ok(())
}

// Gives the clock to the first worker.
fn deal_clock(workers: &mut [Worker], clock: Pass)
    requires some { 1 ≤ length workers.old }
    ensures dealt { (broker : BrokerView) (count : ℕ) → clock ≡ fresh_pass broker count
        → AreDealing broker count (length workers.old) workers.old → AreDealt broker count (length workers.old) workers.new }
    ensures kept { (keeps : Bool) → All (AllKeep keeps) workers.old → All (AllKeep keeps) workers.new }
{
    set_clock(&mut workers[0], clock);
}

/// Deals the passes to that many workers: the last pass is the clock's, and each other one is a session's, which keeps the lines of its
/// replies if `keeps_lines` is true.
pub fn deal(
    alloc: Global,
    passes: List<Pass>,
    worker_count: u32,
    keeps_lines: bool,
) -> Result<List<Worker>, NoMemory>
    requires worker_count { (1 ≤ worker_count) × (worker_count ≤ 16) }
    requires fresh { (broker : BrokerView) × (count : ℕ) × (passes ≡ fresh_passes broker (count + 1)) × (count ≤ 64) }
    ensures dealt { IfOk result (λ workers. (broker : BrokerView) (count : ℕ) → passes ≡ fresh_passes broker (count + 1) → AreDealt broker count worker_count workers) }
    ensures kept { IfOk result (All (AllKeep keeps_lines)) }
{
    let mut workers = empty_workers(alloc, worker_count)?;
    let mut passes = passes;
    let Some(clock) = passes.pop() else {
        unreachable!()
    };
    deal_sessions(alloc, workers.as_mut_slice(), passes, keeps_lines)?;
    deal_clock(workers.as_mut_slice(), clock);
    Ok(workers)
}

// The worker's sessions, and the clock if it has that. An error if it ran out of memory.
fn take_worker(worker: Worker) -> Result<(List<TraceSession>, Option<Pass>), NoMemory>
    ensures running { IfOk result (λ parts. worker.is_stopped ≡ false) }
    ensures sessions { IfOk result (λ parts. parts.0 ≡ worker.sessions) }
    ensures clock { IfOk result (λ parts. parts.1 ≡ worker.clock) }
{
    let Worker {
        sessions,
        clock,
        is_stopped,
        ..
    } = worker;
    if is_stopped {
        return Err(NoMemory);
    }
    Ok((sessions, clock))
}

// Appends these sessions to the others.
fn append(sessions: &mut List<TraceSession>, more: List<TraceSession>) -> Result<(), NoMemory>
    ensures { OnOk result (sessions.new ≡ sessions.old ++ more) }
{
    for session in more.into_vec() {
        sessions.push(session)?;
    }
    Ok(())
}

// Keeps this clock, if there is none yet.
fn keep_clock(clock: &mut Option<Pass>, more: Option<Pass>)
    ensures { clock.new ≡ option_or clock.old more }
{
    *clock = clock.take().or(more);
}

// What was had back from workers: their sessions, and the clock once one had that.
#[derive(Drop)]
struct Gathered {
    sessions: List<TraceSession>,
    clock: Option<Pass>,
}

// Has one more worker's sessions and clock back. An error if it ran out of memory.
fn gather_worker(gathered: &mut Gathered, worker: Worker) -> Result<(), NoMemory>
    ensures running { OnOk result (IsRunning worker) }
    ensures sessions { OnOk result (gathered.new.sessions ≡ gathered.old.sessions ++ worker.sessions) }
    ensures clock { OnOk result (gathered.new.clock ≡ option_or gathered.old.clock worker.clock) }
{
    let (own, clock) = take_worker(worker)?;
    keep_clock(&mut gathered.clock, clock);
    append(&mut gathered.sessions, own)
}

// The sessions of all workers, and the first clock that there is. An error if one of them ran out of memory.
fn gather_all(alloc: Global, workers: List<Worker>) -> Result<Gathered, NoMemory>
    ensures running { IfOk result (λ gathered. All IsRunning workers) }
    ensures sessions { IfOk result (λ gathered. gathered.sessions ≡ flat_map sessions_in workers) }
    ensures clock { IfOk result (λ gathered. gathered.clock ≡ first_clock workers) }
{
    let mut gathered = Gathered {
        sessions: List::new(alloc),
        clock: None,
    };
    for worker in workers.into_vec() {
        gather_worker(&mut gathered, worker)?;
    }
    Ok(gathered)
}

/// The sessions and the clock of all workers. An error if one of them ran out of memory.
pub fn gather(alloc: Global, workers: List<Worker>) -> Result<JoinedSessions, NoMemory>
    requires { (broker : BrokerView) × (lines : Items TheLine) × (count : ℕ) × (worker_count : ℕ) × (1 ≤ worker_count) × AreWorked broker lines count worker_count workers }
    ensures joined { IfOk result (λ joined. (broker : BrokerView) (lines : Items TheLine) (count worker_count : ℕ) → 1 ≤ worker_count → AreWorked broker lines count worker_count workers
        → HasJoined broker lines count joined) }
    ensures kept { IfOk result (λ joined. (keeps : Bool) → All (AllKeep keeps) workers → All (KeepsLines keeps) joined.sessions) }
{
    let Gathered { sessions, clock } = gather_all(alloc, workers)?;
    let Some(clock) = clock else { unreachable!() };
    Ok(JoinedSessions { sessions, clock })
}
