//! `replay`: the trace is played by the one-thread broker, and what each line prints is written before the next is played.

ghost use Rattle.std.specs.Prelude.{◌≡◌, ◌≤◌, ℕ, false, List as Items, Some, IfOk, IfErr, OnOk, OnErr, IsErrOf, IfSome, IsSome, ◌⊎◌};
ghost use Rattle.std.specs.List.{AllByRecursion};
ghost use Rattle.std.specs.Io.KnownBytes.{Appends, Keeps, IsAtEnd};
ghost use Rattle.outside.specs.Causes.{Rose};
ghost use Rattle.audit.specs.IsLawful.{IsLawful};
ghost use Rattle.trace_file.specs.Trace.{IsTrace};
ghost use Rattle.lone_broker.specs.Kept.{IsPlayable};
ghost use Rattle.commands.specs.Codes.{bad_line_of};
ghost use Rattle.commands.specs.LinesFront.{LinesPlayed, LinesFront};
ghost use Rattle.commands.specs.Replay.{IsReplayOf, IsReplay, IsReplayFront, IsFirstBadOf};

use crate::exit::Stop;
use crate::streams::write_all;
use crate::trace::read_lines;
use audit::{Account, print_replay};
use kbytes::{Bytes, List};
use lone_broker::Lone;
use outside::{Sink, Source};
use std::alloc::Global;
use std::thread::Threads;
use trace_file::{Line, REPLAY_PORT, config_of};

// Plays the lines one after the other, and writes what each prints before the next. A line is freed once it is
// played, and the account, which grows with each line, reuses its memory.
fn play_lines<K: Sink>(
    alloc: Global,
    lines: List<Line>,
    lone: &mut Lone,
    sink: &mut K,
) -> Result<(), Stop>
    requires { AllByRecursion IsPlayable lines }
    ensures played { OnOk result (LinesPlayed (K.written sink.old) (K.written sink.new) lone.old.kept lone.new.kept lines) }
    ensures front { OnErr result (LinesFront (K.written sink.old) (K.written sink.new) lone.old.kept lines) }
    ensures later { K.faults sink.old ≤ K.faults sink.new }
    ensures failed { IsErrOf result Stop.WriteFault → Rose (K.faults sink.old) (K.faults sink.new) }
    ensures only { IfErr result (λ stop. (stop ≡ Stop.WriteFault) ⊎ (stop ≡ Stop.NoMemory)) }
{
    let mut text = Bytes::new(alloc);
    for line in lines.into_vec() {
        text.truncate(0);
        lone.event(&line, &mut text)?;
        write_all(sink, text.as_slice())?;
    }
    Ok(())
}

// Plays a trace to its end, and writes the summary after the lines' text.
fn play<K: Sink>(alloc: Global, lines: List<Line>, sink: &mut K) -> Result<Account, Stop>
    requires { (text : Items ℕ) × IsTrace text lines }
    ensures replay { IfOk result (λ account. (text : Items ℕ) × IsReplayOf lines account text
        × Appends (K.written sink.old) (K.written sink.new) text) }
    ensures front { (text : Items ℕ) → IsTrace text lines → OnErr result ((written : Items ℕ) × IsReplayFront (Some text) written
        × Appends (K.written sink.old) (K.written sink.new) written) }
    ensures failed { IsErrOf result Stop.WriteFault → Rose (K.faults sink.old) (K.faults sink.new) }
    ensures only { IfErr result (λ stop. (stop ≡ Stop.WriteFault) ⊎ (stop ≡ Stop.NoMemory)) }
{
    let config = config_of(alloc, lines.as_slice(), REPLAY_PORT)?;
    let mut lone = Lone::make(alloc, config)?;
    play_lines(alloc, lines, &mut lone, sink)?;
    let account = lone.close()?;
    let mut summary = Bytes::new(alloc);
    print_replay(alloc, &account, &mut summary)?;
    write_all(sink, summary.as_slice())?;
    Ok(account)
}

/// Replays the trace that the source has. It is never stopped by its words.
pub fn replay<R: Threads + Sync, S: Source, K: Sink>(
    rt: &R,
    alloc: Global,
    source: &mut S,
    sink: &mut K,
) -> Result<Account, Stop>
    ensures words { IsErrOf result Stop.Usage → ⊥ }
    ensures lawful { IfOk result IsLawful }
    ensures done { IfOk result (λ account. (text : Items ℕ) × IsReplay (S.left source.old) account text
        × Appends (K.written sink.old) (K.written sink.new) text) }
    ensures front { IsErrOf result Stop.WriteFault → (written : Items ℕ) × IsReplayFront (S.left source.old) written
        × Appends (K.written sink.old) (K.written sink.new) written }
    ensures stopped { IsErrOf result Stop.NoMemory → Keeps (K.written sink.old) (K.written sink.new)
        ⊎ ((written : Items ℕ) × IsReplayFront (S.left source.old) written × Appends (K.written sink.old) (K.written sink.new) written) }
    ensures end { OnOk result (IsAtEnd (S.left source.new)) }
    ensures end_written { IsErrOf result Stop.WriteFault → IsAtEnd (S.left source.new) }
    ensures silent { IfErr result (λ stop. (stop ≡ Stop.ReadFault) ⊎ IsSome (bad_line_of stop)
        → Keeps (K.written sink.old) (K.written sink.new)) }
    ensures read_fault { IsErrOf result Stop.ReadFault → Rose (S.faults source.old) (S.faults source.new) }
    ensures write_fault { IsErrOf result Stop.WriteFault → Rose (K.faults sink.old) (K.faults sink.new) }
    ensures bad_line { IfErr result (λ stop. IfSome (bad_line_of stop) (IsFirstBadOf (S.left source.old) false)) }
{
    let lines = read_lines(rt, alloc, source, false, 1)?;
    play(alloc, lines, sink)
}
