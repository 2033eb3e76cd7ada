//! All that the program does, over the source, sink, port and clock that it is handed: those of the process, or in a test others.

ghost use Rattle.std.specs.Prelude.{◌≡◌, ◌∷◌, [], ◌↔◌, ◌⊎◌, ℕ, false, true, List, Some, take, codes, IfSome, IsSome, option_map};
ghost use Rattle.std.specs.Io.KnownBytes.{Appends, Keeps, IsAtEnd};
ghost use Rattle.outside.specs.Causes.{Rose};
ghost use Rattle.audit.specs.IsLawful.{IsLawful};
ghost use Rattle.audit.specs.Printed.{IsPrintOf};
ghost use Rattle.outside.specs.shared.port.History.{IsNewPort};
ghost use Rattle.link_lanes.specs.Seen.{seen_by};
ghost use Rattle.commands.specs.Commands.{IsCommand, IsOnWorkers, IsServe, IsStorm, IsThreaded, ReadsSource, ReadsTrace, said};
ghost use Rattle.commands.specs.Replay.{IsReplay, IsReplayFront, IsFirstBadOf, HasTrace, IsSilent};
ghost use Rattle.commands.specs.Worked.{IsWorked};
ghost use Rattle.commands.specs.Stormed.{IsStormed};
ghost use Rattle.commands.specs.Served.{AreLinksTold, HasTopics, IsServed, facts_by};
ghost use Rattle.commands.specs.declared.command.Command.{Command as TheCommand};
ghost use Rattle.commands.specs.declared.command.Load.{Load as TheLoad};
ghost use Rattle.commands.specs.declared.command.Service.{Service as TheService};

use crate::command::Command;
use crate::exit::{Exit, Stop};
use crate::on_workers::replay_on_workers;
use crate::replay::replay;
use crate::serving::serve;
use crate::storming::play_storm;
use outside::{Clock, Port, Sink, Source};
use std::alloc::Global;
use std::sync::Wait;
use std::thread::Threads;
use trace_workers::NoGate;

/// Does what the words of the command line say, with the source, the sink, the port and the clock that are handed in. The
/// port is new: it was never opened, it gave and got back no link, and it didn't report that no more come.
pub fn run<R, S, K, P, C>(
    rt: &R,
    alloc: Global,
    words: &[String],
    source: &mut S,
    sink: &mut K,
    port: P,
    clock: C,
) -> Exit<P, C>
where
    R: Threads + Wait + Sync,
    S: Source,
    K: Sink,
    P: Port + Send + Drop,
    P::Link: Send + Drop,
    C: Clock + Send + Drop,
    requires { IsNewPort (facts_by P.faults P.opened_with P.given P.is_ended P.retired_count P.retired port) }
    // The account of the run is lawful. It is there exactly where all was done and written, where a run on several threads was done and not written,
    // and where the port failed.
    ensures account { IsSome result.account ↔ ((result.code ≡ 0) ⊎ ((result.code ≡ 4) × IsThreaded (said words.now)) ⊎ (result.code ≡ 5)) }
    ensures lawful { IfSome result.account IsLawful }
    // On one thread it is that of the trace, and exactly its printed lines were written.
    ensures printed { said words.now ≡ codes "replay" ∷ [] → IfSome result.account (λ account. (text : List ℕ) × IsReplay (S.left source.old) account text
        × Appends (K.written sink.old) (K.written sink.new) text) }
    // After a write fault, a prefix of such lines was written.
    ensures prefix { said words.now ≡ codes "replay" ∷ [] → result.code ≡ 4 → (written : List ℕ) × IsReplayFront (S.left source.old) written
        × Appends (K.written sink.old) (K.written sink.new) written }
    // Out of memory, nothing was written, or a prefix of such lines.
    ensures stopped { said words.now ≡ codes "replay" ∷ [] → result.code ≡ 6 → Keeps (K.written sink.old) (K.written sink.new)
        ⊎ ((written : List ℕ) × IsReplayFront (S.left source.old) written × Appends (K.written sink.old) (K.written sink.new) written) }
    // If a trace is replayed on workers, it is that of a run of the trace.
    ensures worked { IsOnWorkers (said words.now) → IfSome result.account (IsWorked (S.left source.old)) }
    // Exactly what is printed of it was written, and after a write fault a prefix of that.
    ensures told { IsOnWorkers (said words.now) → result.code ≡ 0 → IfSome result.account (λ account. (text : List ℕ) × IsPrintOf account text
        × Appends (K.written sink.old) (K.written sink.new) text) }
    ensures told_in_part { IsOnWorkers (said words.now) → result.code ≡ 4 → IfSome result.account (λ account. (text : List ℕ) × (count : ℕ)
        × IsPrintOf account text × Appends (K.written sink.old) (K.written sink.new) (take count text)) }
    // Out of memory, nothing was written.
    ensures untold { IsThreaded (said words.now) → result.code ≡ 6 → Keeps (K.written sink.old) (K.written sink.new) }
    // If a load is played, it is that of a run of the load that goes on until nobody waits, and what is printed of that was written.
    ensures stormed { (load : TheLoad) → IsCommand (said words.now) (TheCommand.Storm load)
        → IsStormed load result.code result.account (K.written sink.old) (K.written sink.new) }
    // If connections are served, it is that of a run of lanes with the topics that the source declares, over the port and the clock, and what is printed
    // of that was written.
    ensures served { (service : TheService) → IsCommand (said words.now) (TheCommand.Serve service)
        → IsServed (seen_by P.Link.taken P.Link.left P.Link.written P.Link.faults P.Link.is_shut) service (P.faults port) (S.left source.old)
        result.code result.account (option_map (facts_by P.faults P.opened_with P.given P.is_ended P.retired_count P.retired) result.port)
        (option_map C.moment result.clock) }
    ensures links_told { IsServe (said words.now)
        → AreLinksTold result.code result.account (K.written sink.old) (K.written sink.new) (K.faults sink.old) (K.faults sink.new) }
    // For a load the source isn't read; a trace or topics were read to the source's end.
    ensures unread { IsStorm (said words.now) → source.new ≡ source.old }
    ensures end { ReadsSource (said words.now) → (result.code ≡ 0) ⊎ (result.code ≡ 4) ⊎ (result.code ≡ 5) → IsAtEnd (S.left source.new) }
    // With any other code nothing was written.
    ensures silent { IsSilent result.code → Keeps (K.written sink.old) (K.written sink.new) }
    // When each code comes. With 0, 4 and 5 the text is a trace, or one of topics, by what was printed, and such a text has no bad line.
    ensures codes { (result.code ≡ 1) ⊎ (result.code ≡ 2) ⊎ (result.code ≡ 0) ⊎ (result.code ≡ 4) ⊎ (result.code ≡ 3) ⊎ (result.code ≡ 6)
        ⊎ ((result.code ≡ 5) × IsServe (said words.now)) }
    ensures usage { (result.code ≡ 1) ↔ ((command : TheCommand) → IsCommand (said words.now) command → ⊥) }
    ensures read_fault { result.code ≡ 3 → Rose (S.faults source.old) (S.faults source.new) }
    ensures write_fault { result.code ≡ 4 → Rose (K.faults sink.old) (K.faults sink.new) }
    ensures port_fault { result.code ≡ 5 → IfSome result.port (λ p. Rose (P.faults port) (P.faults p)) }
    // A trace is replayed to its end, unless a fault of the source or the sink or running out of memory stops it. A load is played
    // to its end, unless a fault of the sink or running out of memory stops it. Connections are served to the last, unless a fault of the source,
    // the sink or the port or running out of memory stops that.
    ensures played { IsStorm (said words.now) → (Rose (K.faults sink.old) (K.faults sink.new) → ⊥) → (result.code ≡ 0) ⊎ (result.code ≡ 6) }
    ensures complete { ReadsTrace (said words.now) → HasTrace (S.left source.old)
        → (Rose (S.faults source.old) (S.faults source.new) → ⊥) → (Rose (K.faults sink.old) (K.faults sink.new) → ⊥)
        → (result.code ≡ 0) ⊎ (result.code ≡ 6) }
    ensures serves { IsServe (said words.now) → HasTopics (S.left source.old)
        → (Rose (S.faults source.old) (S.faults source.new) → ⊥) → (Rose (K.faults sink.old) (K.faults sink.new) → ⊥)
        → IfSome result.port (λ p. Rose (P.faults port) (P.faults p) → ⊥) → (result.code ≡ 0) ⊎ (result.code ≡ 6) }
    // A bad line is reported exactly with code 2: it is the first one of the text, where topics alone are read if connections are served.
    ensures line { IsSome result.line ↔ (result.code ≡ 2) }
    ensures bad_line { IfSome result.line (λ fault. (IsServe (said words.now) → IsFirstBadOf (S.left source.old) true fault)
        × ((IsServe (said words.now) → ⊥) → IsFirstBadOf (S.left source.old) false fault)) }
    // A port and a clock that weren't used are handed back as they were. Those over which connections were served are handed back too, unless memory
    // ran out.
    ensures port { (IsServe (said words.now) → ⊥) ⊎ IsSilent result.code → result.port ≡ Some port }
    ensures clock { (IsServe (said words.now) → ⊥) ⊎ IsSilent result.code → result.clock ≡ Some clock }
    ensures handed_back { (IsSome result.port × IsSome result.clock) ⊎ (result.code ≡ 6) }
{
    let Some(command) = Command::of(words) else {
        return Exit::stopped(Stop::Usage, port, clock);
    };
    match command {
        Command::Replay => match replay(rt, alloc, source, sink) {
            Ok(account) => Exit::done(account, port, clock),
            Err(stop) => Exit::stopped(stop, port, clock),
        },
        Command::Workers(count) => match replay_on_workers(rt, alloc, source, sink, count) {
            Ok(account) => Exit::done(account, port, clock),
            Err(why) => Exit::unfinished(why, port, clock),
        },
        Command::Storm(load) => match play_storm(rt, alloc, load, sink, &NoGate) {
            Ok(account) => Exit::done(account, port, clock),
            Err(why) => Exit::unfinished(why, port, clock),
        },
        Command::Serve(service) => serve(rt, alloc, service, source, sink, port, clock),
    }
}
