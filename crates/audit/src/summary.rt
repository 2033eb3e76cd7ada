//! Printing the summary of an account, after the `end` of a trace.

ghost use Rattle.std.specs.Prelude.{◌≡◌, ◌∷◌, ◌++◌, [], codes, length, OnOk, OnErr};
ghost use Rattle.std.specs.Fmt.{decimal};
ghost use Rattle.std.specs.List.{All, flat_map};
ghost use Rattle.audit.specs.Printable.{IsPrintable};
ghost use Rattle.audit.specs.Printed.{part_line, session_line, summary_of, numbered};
ghost use Rattle.audit.specs.Trackable.{IsTrackable};

use crate::account::{Account, PartAccount, Transcript};
use crate::numbers::{high_watermark, log_end};
use crate::tally::{batch_count, parked_count, reply_count};
use itoa::Buffer;
use kbytes::{Bytes, List, NoMemory};
use kwire::MOST_PARTITIONS;
use std::alloc::Global;

/// Adds a word and a number at the end. If memory runs out, a part of them may be there.
pub fn put_number(out: &mut Bytes, word: &[u8], number: u64) -> Result<(), NoMemory>
    ensures { OnOk result (out.new ≡ out.old ++ (word.now ++ decimal number)) }
{
    let mut buffer = Buffer::new();
    out.extend(word)?;
    out.extend(buffer.format(number).as_bytes())
}

// Adds the line of a partition at the end.
fn put_part(
    alloc: Global,
    out: &mut Bytes,
    number: usize,
    part: &PartAccount,
) -> Result<(), NoMemory>
    requires { IsTrackable part.now.followers part.now.events }
    ensures { OnOk result (out.new ≡ out.old ++ part_line (number, part.now)) }
{
    let events = part.events.as_slice();
    let end = log_end(events);
    let high = high_watermark(alloc, events, part.followers)?;
    put_number(out, b"part ", number as u64)?;
    put_number(out, b" end ", end)?;
    put_number(out, b" high ", high)?;
    put_number(out, b" batches ", batch_count(events) as u64)?;
    put_number(out, b" bytes ", part.log.len() as u64)?;
    out.push(b'\n')
}

// Adds the line of a session at the end.
fn put_session(out: &mut Bytes, transcript: &Transcript) -> Result<(), NoMemory>
    ensures { OnOk result (out.new ≡ out.old ++ session_line transcript.now) }
{
    let calls = transcript.calls.as_slice();
    put_number(out, b"session ", transcript.number)?;
    put_number(out, b" calls ", calls.len() as u64)?;
    put_number(out, b" replies ", reply_count(calls) as u64)?;
    put_number(out, b" parked ", parked_count(calls) as u64)?;
    out.push(b'\n')
}

/// Adds the line of each partition at the end, numbered from 0. If memory runs out, a part of them may be there.
pub fn put_parts(alloc: Global, out: &mut Bytes, parts: &[PartAccount]) -> Result<(), NoMemory>
    requires { All (λ part. IsTrackable part.followers part.events) parts.now }
    ensures { OnOk result (out.new ≡ out.old ++ flat_map part_line (numbered 0 parts.now)) }
{
    for (number, part) in parts.iter().enumerate() {
        put_part(alloc, out, number, part)?;
    }
    Ok(())
}

// The same for each session of a pass.
fn put_sessions(out: &mut Bytes, transcripts: &[Transcript]) -> Result<(), NoMemory>
    ensures { OnOk result (out.new ≡ out.old ++ flat_map session_line transcripts.now) }
{
    for transcript in transcripts {
        put_session(out, transcript)?;
    }
    Ok(())
}

// The same for each session of each pass.
fn put_passes(out: &mut Bytes, passes: &[List<Transcript>]) -> Result<(), NoMemory>
    ensures { OnOk result (out.new ≡ out.old ++ flat_map session_line (flat_map (λ transcripts. transcripts) passes.now)) }
{
    for transcripts in passes {
        put_sessions(out, transcripts.as_slice())?;
    }
    Ok(())
}

/// Adds what is printed after the `end` of a trace: each partition, each session, and `done`. If memory runs out, the bytes
/// are as before.
pub fn print_replay(alloc: Global, account: &Account, out: &mut Bytes) -> Result<(), NoMemory>
    requires { IsPrintable account.now }
    ensures ok { OnOk result (out.new ≡ out.old ++ summary_of account.now) }
    ensures err { OnErr result (out.new ≡ out.old) }
{
    // there are too few partitions for one to have the clock's number
    prove!(account.config.parts() <= MOST_PARTITIONS);
    let mut text = Bytes::new(alloc);
    put_parts(alloc, &mut text, account.parts.as_slice())?;
    put_passes(&mut text, account.passes.as_slice())?;
    text.extend(b"done\n".as_slice())?;
    out.extend(text.as_slice())
}
