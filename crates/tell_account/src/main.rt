//! Plays a trace on workers, or serves links on lanes, and prints the whole account of the run, so that it can be checked without any proof.
//!
//! `tell_account W [drain]` reads the trace on standard input, plays it on W workers, 1 to 16, and prints the account: one fact a line,
//! words separated by one space, numbers in decimal, bytes as pairs of hex digits, or `-` if there are none.
//!
//! `tell_account lanes L` serves links on L lanes, 1 to 64, with the topics of the trace. Each line `bytes` is a link, in order: its client
//! sends these bytes and no more. The other lines count for nothing. What is printed of the account is then that of a service.
//!
//! ```text
//! port PORT
//! topic NAME PARTITIONS FOLLOWERS MIN each topic; the name in hex
//! part FOLLOWERS LOG                  each partition, with its entries in order after it:
//! append BY SEQ COUNT LEN
//! follow BY SEQ REPLICA OFFSET MOMENT
//! look BY SEQ
//! shrink BY REPLICA MOMENT
//! clock                               the clock, with its entries in order after it:
//! tick MOMENT
//! look BY SEQ
//! pass                                each pass, with its transcripts after it:
//! transcript NUMBER FIRST
//! call HOW FRAME                      HOW: quiet, at-once, satisfied WINNER, expired WINNER, parked, cut or cut WINNER
//! accept PART PLACE                   the call's entries; part 64 is the clock
//! finish PART PLACE
//! end CAUSE                           if the transcript has an end; CAUSE as a replay prints it
//! wins COUNT                          each winner
//! printed
//! ...                                 what is printed of the account, to the end of the output
//! ```
//!
//! If it fails, it reports why in one line on standard error, and ends with code 1.
#![tactic(auto)]

ghost use Rattle.std.specs.Prelude.{◌≤◌, IfOk};
ghost use Rattle.trace_workers.specs.Playable.{AreTraced};

mod fault;
mod lanes;
mod order;
mod telling;
mod words;

use audit::Account;
use audit::retelling::print_workers;
use fault::Fault;
use kbytes::{Bytes, List};
use lanes::{Told, serve_lines};
use link_lanes::MOST_LANES;
use order::{Order, lanes_of, order_of};
use std::alloc::Global;
use std::io::{BufWriter, Read, Write};
use std::process::ExitCode;
use std::sync::Wait;
use std::thread::Threads;
use std::{env, io};
use telling::tell;
use trace_file::{Line, REPLAY_PORT, read_trace};
use trace_workers::{NoGate, run_lines};

// The words of the command line.
fn words_of(rt: &HostRuntime) -> Result<Vec<String>, Fault> {
    let mut words = Vec::new(rt.alloc());
    for word in env::args(rt)?.skip(1) {
        words.push(word)?;
    }
    Ok(words)
}

// The lines of the trace on standard input.
fn read_lines(rt: &impl Input, alloc: Global) -> Result<List<Line>, Fault>
    ensures { IfOk result AreTraced }
{
    let mut text = Vec::new(alloc);
    rt.reader().read_to_end(&mut text)?;
    let lines = read_trace(alloc, text.as_slice(), false)?;
    Ok(lines)
}

// Writes the account, and what is printed of it.
fn write_account<W: Write>(out: &mut W, account: &Account, text: &Bytes) -> io::Result<()> {
    tell(out, account)?;
    writeln!(out, "printed")?;
    out.write_all(text.as_slice())?;
    out.flush()
}

// Plays the trace on workers.
fn play<R>(rt: &R, alloc: Global, order: Order) -> Result<Told, Fault>
where
    R: Threads + Wait + Sync + Input,
    requires { (1 ≤ order.workers) × (order.workers ≤ 16) }
{
    let lines = read_lines(rt, alloc)?;
    let account = run_lines(
        rt,
        alloc,
        lines.as_slice(),
        REPLAY_PORT,
        order.workers,
        order.drain,
        &NoGate,
    )?;
    let mut text = Bytes::new(alloc);
    print_workers(alloc, &account, &mut text)?;
    Ok(Told { account, text })
}

// Serves the links of the trace on lanes.
fn serve<R>(rt: &R, alloc: Global, lanes: u32) -> Result<Told, Fault>
where
    R: Threads + Wait + Sync + Input,
    requires { (1 ≤ lanes) × (lanes ≤ MOST_LANES) }
{
    let lines = read_lines(rt, alloc)?;
    let told = serve_lines(rt, alloc, lines.as_slice(), lanes)?;
    Ok(told)
}

// Does what the words ask for, and prints the account.
fn run<R>(rt: &R, alloc: Global, words: &[String]) -> Result<(), Fault>
where
    R: Threads + Wait + Sync + Input + Print,
{
    let told = match lanes_of(words) {
        Some(lanes) => serve(rt, alloc, lanes)?,
        None => play(rt, alloc, order_of(words)?)?,
    };
    let mut out = BufWriter::new(alloc, io::writer(rt))?;
    write_account(&mut out, &told.account, &told.text)?;
    Ok(())
}

fn main(rt: HostRuntime) -> ExitCode {
    let done = match words_of(&rt) {
        Ok(words) => run(&rt, rt.alloc(), words.as_slice()),
        Err(fault) => Err(fault),
    };
    match done {
        Ok(()) => ExitCode::SUCCESS,
        Err(fault) => {
            let _ = rt.eprintln(format_args!("tell_account: {fault}"));
            ExitCode::FAILURE
        }
    }
}
