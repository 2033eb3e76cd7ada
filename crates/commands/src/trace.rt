//! Reads the trace of a source, for both replays, or the topics that it declares, for a service.

ghost use Rattle.std.specs.Prelude.{◌≡◌, ◌<◌, ◌≤◌, ℕ, List as Items, IfOk, IfErr, OnOk, IsErrOf, IfSome, IsSome, ◌⊎◌, vec_len};
ghost use Rattle.std.specs.Io.KnownBytes.{IsAtEnd};
ghost use Rattle.outside.specs.Causes.{Rose};
ghost use Rattle.trace_file.specs.FirstBad.{IsTraceRead};
ghost use Rattle.commands.specs.Codes.{bad_line_of};
ghost use Rattle.commands.specs.Replay.{IsFirstBadOf};

use crate::exit::Stop;
use crate::streams::fill;
use kbytes::List;
use outside::Source;
use std::alloc::{AllocError, Global};
use std::thread::Threads;
use trace_file::{Line, TraceReader};

/// How many bytes of a trace are read at a time where one thread reads its lines.
const PART: usize = 65_536;

/// How many where several do: for each of them.
const SHARE: usize = 524_288;

// Room for the part of a trace that so many threads read at a time.
fn make_room(alloc: Global, threads: u32) -> Result<Vec<u8>, AllocError>
    requires { 1 ≤ threads }
    ensures { IfOk result (λ room. 0 < vec_len room) }
{
    let size = if threads == 1 {
        PART
    } else {
        SHARE * threads as usize
    };
    vec![in alloc; 0u8; size]
}

/// Reads the lines of the source's trace, or with `only_topics` those of its topics, which are lines `topic` and `end` alone, by `threads` threads.
/// The source is read until it ends, fails, or has given one byte more than a trace may have. The text isn't kept.
pub fn read_lines<R: Threads + Sync, S: Source>(
    rt: &R,
    alloc: Global,
    source: &mut S,
    only_topics: bool,
    threads: u32,
) -> Result<List<Line>, Stop>
    requires { 1 ≤ threads }
    ensures trace { IfOk result (λ lines. (text : Items ℕ) × IsTraceRead text only_topics lines × IfSome (S.left source.old) (λ t. t ≡ text)) }
    ensures end { OnOk result (IsAtEnd (S.left source.new)) }
    ensures read_fault { IsErrOf result Stop.ReadFault → Rose (S.faults source.old) (S.faults source.new) }
    ensures bad_line { IfErr result (λ stop. IfSome (bad_line_of stop) (IsFirstBadOf (S.left source.old) only_topics)) }
    ensures only { IfErr result (λ stop. (stop ≡ Stop.ReadFault) ⊎ (stop ≡ Stop.NoMemory) ⊎ IsSome (bad_line_of stop)) }
{
    let mut reader = TraceReader::new(alloc, only_topics);
    let mut room = make_room(alloc, threads)?;
    'parts: loop {
        let want = room.len().min(reader.room());
        let Ok(part) = fill(source, &mut room[..want]) else {
            return Err(Stop::ReadFault);
        };
        let came = part.len();
        reader = reader.take(rt, alloc, part, threads)?;
        if came < want || reader.room() == 0 {
            return Ok(reader.lines(alloc)?);
        }
    }
}
