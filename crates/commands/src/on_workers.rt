//! `replay --workers`: the trace is played by workers, each in a thread of its own, and the text is written after the run.

ghost use Rattle.std.specs.Prelude.{◌≡◌, ◌≢◌, ◌≤◌, ◌↔◌, ℕ, false, List as Items, take, IfOk, IfErr, OnOk, IfSome, IsSome, IsNone};
ghost use Rattle.std.specs.Io.KnownBytes.{Appends, Keeps, IsAtEnd};
ghost use Rattle.outside.specs.Causes.{Rose};
ghost use Rattle.audit.specs.Printed.{IsPrintOf};
ghost use Rattle.commands.specs.Codes.{bad_line_of, stop_in, account_in};
ghost use Rattle.commands.specs.Replay.{IsFirstBadOf};
ghost use Rattle.commands.specs.Worked.{IsWorked};

use crate::command::MOST_WORKERS;
use crate::exit::{Stop, Unfinished};
use crate::printing::write_parts;
use crate::trace::read_lines;
use audit::Account;
use outside::{Sink, Source};
use std::alloc::Global;
use std::sync::Wait;
use std::thread::Threads;
use trace_file::{Digits, REPLAY_PORT};
use trace_workers::{give_back, print_lines};

/// Replays the source's trace on `workers` threads. It never stops with `Usage`.
pub fn replay_on_workers<R: Threads + Wait + Sync, S: Source, K: Sink>(
    rt: &R,
    alloc: Global,
    source: &mut S,
    sink: &mut K,
    workers: u32,
) -> Result<Account, Unfinished>
    requires { (1 ≤ workers) × (workers ≤ MOST_WORKERS) }
    ensures worked { IfOk result (IsWorked (S.left source.old)) }
    ensures told { IfOk result (λ account. (text : Items ℕ) × IsPrintOf account text × Appends (K.written sink.old) (K.written sink.new) text) }
    ensures end { OnOk result (IsAtEnd (S.left source.new)) }
    ensures words { IfErr result (λ why. stop_in why ≢ Stop.Usage) }
    // An account whose text wasn't written whole is that of the trace too, and a prefix of its text was written.
    ensures unwritten { IfErr result (λ why. IsSome (account_in why) ↔ (stop_in why ≡ Stop.WriteFault)) }
    ensures unwritten_worked { IfErr result (λ why. IfSome (account_in why) (IsWorked (S.left source.old))) }
    ensures told_in_part { IfErr result (λ why. IfSome (account_in why) (λ account. (text : Items ℕ) × (count : ℕ) × IsPrintOf account text
        × Appends (K.written sink.old) (K.written sink.new) (take count text))) }
    ensures silent { IfErr result (λ why. IsNone (account_in why) → Keeps (K.written sink.old) (K.written sink.new)) }
    ensures end_written { IfErr result (λ why. stop_in why ≡ Stop.WriteFault → IsAtEnd (S.left source.new)) }
    ensures read_fault { IfErr result (λ why. stop_in why ≡ Stop.ReadFault → Rose (S.faults source.old) (S.faults source.new)) }
    ensures write_fault { IfErr result (λ why. stop_in why ≡ Stop.WriteFault → Rose (K.faults sink.old) (K.faults sink.new)) }
    ensures bad_line { IfErr result (λ why. IfSome (bad_line_of (stop_in why)) (IsFirstBadOf (S.left source.old) false)) }
{
    let lines = read_lines(rt, alloc, source, false, workers)?;
    let (account, parts) = print_lines(rt, alloc, lines, REPLAY_PORT, workers)?;
    let digits = Digits::make(alloc)?;
    let wrote = write_parts(sink, &digits, &account, parts.as_slice());
    give_back(rt, parts);
    match wrote {
        Ok(()) => Ok(account),
        Err(_) => Err(Unfinished::Unwritten(account)),
    }
}
