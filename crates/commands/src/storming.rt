//! `storm`: a generated load is played by workers, each in a thread of its own, until nobody waits, and what it came to is
//! written once, after the run.

ghost use Rattle.std.specs.Prelude.{◌≡◌, ◌⊎◌, Some, true, IfOk, IfErr};
ghost use Rattle.outside.specs.Causes.{Rose};
ghost use Rattle.audit.specs.Printed.{storm_summary_of};
ghost use Rattle.storm.specs.Lines.{storm_lines};
ghost use Rattle.trace_file.specs.declared.line.TheConstants.{REPLAY_PORT};
ghost use Rattle.trace_workers.specs.WorkerRun.{IsWorkerRun};
ghost use Rattle.commands.specs.Codes.{exit_code_of, stop_in, account_in};
ghost use Rattle.commands.specs.Commands.{IsLoad};
ghost use Rattle.commands.specs.Stormed.{IsStormed};

use crate::command::Load;
use crate::exit::{Stop, Unfinished};
use crate::streams::write_all;
use audit::{Account, print_storm};
use kbytes::{Bytes, NoMemory};
use outside::Sink;
use std::alloc::Global;
use std::sync::Wait;
use std::thread::Threads;
use trace_workers::{Gate, run_load};

// Plays the load until nobody waits, and makes the text of the run.
fn play<R: Threads + Wait + Sync, G: Gate + Sync>(
    rt: &R,
    alloc: Global,
    load: Load,
    gate: &G,
) -> Result<(Account, Bytes), NoMemory>
    requires { IsLoad load }
    ensures run { IfOk result (λ came. IsWorkerRun (storm_lines load.seed load.requests) REPLAY_PORT true came.0) }
    ensures told { IfOk result (λ came. came.1 ≡ storm_summary_of came.0) }
{
    let made = storm::Load {
        seed: load.seed,
        requests: load.requests,
    };
    let account = run_load(rt, alloc, made, load.workers, gate)?;
    let mut text = Bytes::new(alloc);
    print_storm(alloc, &account, &mut text)?;
    Ok((account, text))
}

/// Plays a load, and writes what it came to. A write fault or running out of memory may stop it, and nothing else.
#[tactic(auto, using(crate::proofs::Stormings::all_written, crate::proofs::Stormings::part_written, crate::proofs::Stormings::none_written))]
pub fn play_storm<R: Threads + Wait + Sync, K: Sink, G: Gate + Sync>(
    rt: &R,
    alloc: Global,
    load: Load,
    sink: &mut K,
    gate: &G,
) -> Result<Account, Unfinished>
    requires { IsLoad load }
    ensures done { IfOk result (λ account. IsStormed load 0 (Some account) (K.written sink.old) (K.written sink.new)) }
    ensures unfinished { IfErr result (λ why. IsStormed load (exit_code_of (stop_in why)) (account_in why) (K.written sink.old) (K.written sink.new)) }
    ensures stops { IfErr result (λ why. (stop_in why ≡ Stop.WriteFault) ⊎ (stop_in why ≡ Stop.NoMemory)) }
    ensures write_fault { IfErr result (λ why. stop_in why ≡ Stop.WriteFault → Rose (K.faults sink.old) (K.faults sink.new)) }
{
    let (account, text) = play(rt, alloc, load, gate)?;
    match write_all(sink, text.as_slice()) {
        Ok(()) => Ok(account),
        Err(_) => Err(Unfinished::Unwritten(account)),
    }
}
