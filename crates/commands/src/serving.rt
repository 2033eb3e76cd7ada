//! `serve`: the source declares the topics, connections are served by lanes, each in a thread of its own, and what became of them is
//! written once, after the run.

ghost use Rattle.std.specs.Prelude.{◌≡◌, ◌⊎◌, ◌↔◌, ℕ, true, List as Items, Some, None, IfOk, IfErr, OnOk, IsErrOf, IfSome, IsSome, option_map};
ghost use Rattle.std.specs.Io.KnownBytes.{Keeps, IsAtEnd};
ghost use Rattle.outside.specs.Causes.{Rose};
ghost use Rattle.audit.specs.IsLawful.{IsLawful};
ghost use Rattle.audit.specs.Printable.{IsPrintable};
ghost use Rattle.trace_file.specs.declared.line.Line.{Line as TheLine};
ghost use Rattle.trace_file.specs.Contents.{configuration_of};
ghost use Rattle.outside.specs.shared.port.History.{IsNewPort};
ghost use Rattle.link_lanes.specs.Seen.{seen_by};
ghost use Rattle.commands.specs.Codes.{bad_line_of};
ghost use Rattle.commands.specs.Commands.{IsService};
ghost use Rattle.commands.specs.Finish.{IsFinish};
ghost use Rattle.commands.specs.Replay.{IsFirstBadOf, IsSilent};
ghost use Rattle.commands.specs.Served.{AreLinksTold, AreTopicsOf, HasTopics, IsServed, IsTold, IsToldInPart, facts_by};

use crate::command::Service;
use crate::exit::{Exit, Stop};
use crate::streams::write_all;
use crate::trace::read_lines;
use audit::{Account, print_serve};
use kbytes::Bytes;
use kwire::Config;
use link_lanes::{LaneRun, Serving, serve_links, served_accounts_are_printable};
use outside::{Clock, Port, Sink, Source};
use std::alloc::Global;
use std::sync::Wait;
use std::thread::Threads;
use trace_file::config_of;

// The configuration of the topics that the source declares, with this port.
fn read_config<R: Threads + Sync, S: Source>(
    rt: &R,
    alloc: Global,
    source: &mut S,
    port: u16,
) -> Result<Config, Stop>
    ensures topics { IfOk result (λ config. (lines : Items TheLine) × AreTopicsOf (S.left source.old) lines × (config ≡ configuration_of port lines)) }
    ensures end { OnOk result (IsAtEnd (S.left source.new)) }
    ensures read_fault { IsErrOf result Stop.ReadFault → Rose (S.faults source.old) (S.faults source.new) }
    ensures bad_line { IfErr result (λ stop. IfSome (bad_line_of stop) (IsFirstBadOf (S.left source.old) true)) }
    ensures only { IfErr result (λ stop. (stop ≡ Stop.ReadFault) ⊎ (stop ≡ Stop.NoMemory) ⊎ IsSome (bad_line_of stop)) }
{
    let lines = read_lines(rt, alloc, source, true, 1)?;
    let config = config_of(alloc, lines.as_slice(), port)?;
    Ok(config)
}

// Prints what became of the connections, and writes it.
fn tell<K: Sink>(alloc: Global, account: &Account, sink: &mut K) -> Result<(), Stop>
    requires { IsPrintable account.now }
    ensures told { OnOk result (IsTold account.now (K.written sink.old) (K.written sink.new)) }
    ensures told_in_part { IsErrOf result Stop.WriteFault → IsToldInPart account.now (K.written sink.old) (K.written sink.new) }
    ensures untold { IsErrOf result Stop.NoMemory → Keeps (K.written sink.old) (K.written sink.new) }
    ensures write_fault { IsErrOf result Stop.WriteFault → Rose (K.faults sink.old) (K.faults sink.new) }
    ensures only { IfErr result (λ stop. (stop ≡ Stop.WriteFault) ⊎ (stop ≡ Stop.NoMemory)) }
{
    let mut text = Bytes::new(alloc);
    print_serve(alloc, account, &mut text)?;
    write_all(sink, text.as_slice())?;
    Ok(())
}

// Writes what became of the connections, and ends the run.
fn finish<K: Sink, P: Drop, C: Drop>(alloc: Global, run: LaneRun<P, C>, sink: &mut K) -> Exit<P, C>
    requires { IsPrintable run.account }
    ensures finished { IsFinish run.has_failed run.account result.code result.account }
    ensures told { AreLinksTold result.code result.account (K.written sink.old) (K.written sink.new) (K.faults sink.old) (K.faults sink.new) }
    ensures write_fault { result.code ≡ 4 → Rose (K.faults sink.old) (K.faults sink.new) }
    ensures line { result.line ≡ None }
    ensures port { result.port ≡ Some run.port }
    ensures clock { result.clock ≡ Some run.clock }
{
    let LaneRun {
        account,
        port,
        clock,
        has_failed,
    } = run;
    match tell(alloc, &account, sink) {
        Err(Stop::NoMemory) => Exit::stopped(Stop::NoMemory, port, clock),
        _ if has_failed => Exit::port_failed(account, port, clock),
        Ok(()) => Exit::done(account, port, clock),
        Err(_) => Exit::unwritten(account, port, clock),
    }
}

/// Opens the port and serves the connections that it gives, with the topics that the source declares, and writes what became of them.
pub fn serve<R, S, K, P, C>(
    rt: &R,
    alloc: Global,
    service: Service,
    source: &mut S,
    sink: &mut K,
    port: P,
    clock: C,
) -> Exit<P, C>
where
    R: Threads + Wait + Sync,
    S: Source,
    K: Sink,
    P: Port + Send + Drop,
    P::Link: Send + Drop,
    C: Clock + Send + Drop,
    requires service { IsService service }
    requires new { IsNewPort (facts_by P.faults P.opened_with P.given P.is_ended P.retired_count P.retired port) }
    ensures served { IsServed (seen_by P.Link.taken P.Link.left P.Link.written P.Link.faults P.Link.is_shut) service (P.faults port) (S.left source.old)
        result.code result.account (option_map (facts_by P.faults P.opened_with P.given P.is_ended P.retired_count P.retired) result.port)
        (option_map C.moment result.clock) }
    ensures lawful { IfSome result.account IsLawful }
    ensures told { AreLinksTold result.code result.account (K.written sink.old) (K.written sink.new) (K.faults sink.old) (K.faults sink.new) }
    ensures silent { IsSilent result.code → Keeps (K.written sink.old) (K.written sink.new) }
    ensures end { (result.code ≡ 0) ⊎ (result.code ≡ 4) ⊎ (result.code ≡ 5) → IsAtEnd (S.left source.new) }
    ensures codes { (result.code ≡ 2) ⊎ (result.code ≡ 0) ⊎ (result.code ≡ 4) ⊎ (result.code ≡ 3) ⊎ (result.code ≡ 6) ⊎ (result.code ≡ 5) }
    ensures read_fault { result.code ≡ 3 → Rose (S.faults source.old) (S.faults source.new) }
    ensures write_fault { result.code ≡ 4 → Rose (K.faults sink.old) (K.faults sink.new) }
    ensures port_fault { result.code ≡ 5 → IfSome result.port (λ p. Rose (P.faults port) (P.faults p)) }
    ensures complete { HasTopics (S.left source.old) → (Rose (S.faults source.old) (S.faults source.new) → ⊥)
        → (Rose (K.faults sink.old) (K.faults sink.new) → ⊥) → IfSome result.port (λ p. Rose (P.faults port) (P.faults p) → ⊥)
        → (result.code ≡ 0) ⊎ (result.code ≡ 6) }
    ensures line { IsSome result.line ↔ (result.code ≡ 2) }
    ensures bad_line { IfSome result.line (IsFirstBadOf (S.left source.old) true) }
    ensures port { IsSilent result.code → result.port ≡ Some port }
    ensures clock { IsSilent result.code → result.clock ≡ Some clock }
{
    let config = match read_config(rt, alloc, source, service.port) {
        Ok(config) => config,
        Err(stop) => return Exit::stopped(stop, port, clock),
    };
    let serving = Serving {
        number: service.port,
        lanes: service.lanes,
        most: u64::from(service.connections),
    };
    let Ok(run) = serve_links(rt, alloc, config, port, clock, serving) else {
        return Exit::lost();
    };
    // a law: it does nothing
    served_accounts_are_printable();
    finish(alloc, run, sink)
}
