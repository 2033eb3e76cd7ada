//! Reading the lines of a part in shares, each share in a thread of its own.

ghost use Rattle.std.specs.Prelude.{Bool, ◌≡◌, ◌<◌, ◌≤◌, ◌++◌, ◌+◌, ℕ, length, vec_len, List as Items, IfOk, OnOk};
ghost use denote.Param.Send.{IsSync};
ghost use denote.Ref.{Bor};
ghost use Rattle.std.specs.List.{AllZip};
ghost use Rattle.trace_file.specs.Sees.{AreRead};
ghost use Rattle.trace_file.specs.Shares.{IsShareRead, pieces_in};
ghost use Rattle.trace_file.specs.TextRead.{AreLinesOf, HasRead};
ghost use Rattle.trace_file.specs.Trace.{pieces_of};

use crate::digit_values::DigitValues;
use crate::reading::{PartLines, Reading, part_lines};
use kbytes::NoMemory;
use memchr::memchr;
use std::alloc::Global;
use std::thread;
use std::thread::Threads;

/// A part with fewer bytes is read by one thread: more wouldn't be done sooner.
const LEAST_SHARED_BYTES: usize = 65_536;

// Cuts a text after the first line feed at this place or behind it. Where there is none, all is before the cut.
fn cut_after(text: &[u8], place: usize) -> (&[u8], &[u8])
    requires { place < length text.now }
    ensures pieces { pieces_of text.now ≡ pieces_of result.0.now ++ pieces_of result.1.now }
    ensures shorter { place + length result.1.now < length text.now }
{
    match memchr(b'\n', &text[place..]) {
        Some(at) => text.split_at(place + at + 1),
        None => text.split_at(text.len()),
    }
}

// Cuts a text after line feeds into at most so many shares, of about the same length.
fn shares_of(alloc: Global, text: &[u8], threads: u32) -> Result<Vec<&[u8]>, NoMemory>
    requires { 1 ≤ threads }
    ensures pieces { IfOk result (λ shares. pieces_in shares.items ≡ pieces_of text.now) }
    ensures few { IfOk result (λ shares. vec_len shares ≤ threads) }
{
    let size = text.len().div_ceil(threads as usize);
    let mut shares = Vec::new(alloc);
    let mut rest = text;
    while rest.len() > size {
        let (share, after) = cut_after(rest, size);
        shares.push(share)?;
        rest = after;
    }
    shares.push(rest)?;
    Ok(shares)
}

// The lines of each share, each but the first read in a thread of its own if one can be started. The caller's thread starts them all, so that none
// waits until another one runs and starts it, and reads the first share itself.
#[cycle(reading)]
fn read_shares<R: Threads + Sync>(
    rt: &R,
    alloc: Global,
    values: &DigitValues,
    mut shares: Vec<&[u8]>,
) -> Result<Vec<Result<PartLines, NoMemory>>, NoMemory>
    ensures { IfOk result (λ reads. AllZip IsShareRead shares.entry.items reads.items) }
{
    let Some(last) = shares.pop() else {
        return Ok(Vec::new(alloc));
    };
    if shares.is_empty() {
        let mut reads = Vec::new(alloc);
        reads.push(part_lines(alloc, values, last))?;
        return Ok(reads);
    }
    let theirs = move || -> Result<PartLines, NoMemory>
        ensures { IfOk result (AreLinesOf (pieces_of last.entry.now)) }
    { part_lines(alloc, values, last) };
    let ours = move || -> Result<Vec<Result<PartLines, NoMemory>>, NoMemory>
        requires { IsSync R.row }
        ensures { IfOk result (λ reads. AllZip IsShareRead shares.entry.items reads.items) }
    { read_shares(rt, alloc, values, shares) };
    let (read, reads) = thread::join(rt, theirs, ours);
    let mut reads = reads?;
    reads.push(read)?;
    Ok(reads)
}

// Takes the lines of one share after the other.
fn join(reading: &mut Reading, reads: Vec<Result<PartLines, NoMemory>>) -> Result<(), NoMemory>
    requires read { AreRead reading.old.only_topics reading.old }
    requires shares { (shares : Items (Bor (Items ℕ))) × AllZip IsShareRead shares reads.items }
    ensures read { OnOk result (AreRead reading.new.only_topics reading.new) }
    ensures taken { OnOk result ((only_topics : Bool) (before : Items (Items ℕ)) (shares : Items (Bor (Items ℕ))) → HasRead only_topics before reading.old
        → AllZip IsShareRead shares reads.items → HasRead only_topics (before ++ pieces_in shares) reading.new) }
{
    for read in reads {
        let lines = read?;
        reading.take(lines)?;
    }
    Ok(())
}

/// Takes the lines of the part that comes next, which begins where a line does. They are read by `threads` threads, the caller's among them: the
/// part is cut after line feeds into at most that many shares, and the lines of each are read in a thread of its own if one can be started.
/// Out of memory, the reading may only be dropped.
pub fn take_shares<R: Threads + Sync>(
    rt: &R,
    alloc: Global,
    reading: &mut Reading,
    part: &[u8],
    threads: u32,
) -> Result<(), NoMemory>
    requires threads { 1 ≤ threads }
    requires read { AreRead reading.old.only_topics reading.old }
    ensures read { OnOk result (AreRead reading.new.only_topics reading.new) }
    ensures taken { OnOk result ((only_topics : Bool) (before : Items (Items ℕ)) → HasRead only_topics before reading.old
        → HasRead only_topics (before ++ pieces_of part.now) reading.new) }
{
    if threads == 1 || part.len() < LEAST_SHARED_BYTES {
        return reading.read(alloc, part);
    }
    let shares = shares_of(alloc, part, threads)?;
    let reads = read_shares(rt, alloc, reading.values(), shares)?;
    join(reading, reads)
}
