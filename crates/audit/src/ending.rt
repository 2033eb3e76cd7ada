//! Printing the line `end S ..` when a session ends. The one-thread broker calls it while it plays, the part `retelling` afterwards.

ghost use Rattle.std.specs.Prelude.{◌≡◌, [], ◌∷◌, ◌++◌, Some, OnOk};
ghost use Rattle.std.specs.Fmt.{decimal, signed_decimal};
ghost use Rattle.audit.specs.Printed.{refusal_words, end_words, end_line};
ghost use Rattle.trace_file.specs.PrintedLine.{line_of};

use crate::account::SessionEnd;
use crate::summary::put_number;
use itoa::Buffer;
use kbytes::{Bytes, NoMemory};
use kwire::WireFault;

// Like `put_number`, for a number that may be below 0.
fn put_signed(out: &mut Bytes, word: &[u8], number: i32) -> Result<(), NoMemory>
    ensures { OnOk result (out.new ≡ out.old ++ (word.now ++ signed_decimal number)) }
{
    let mut buffer = Buffer::new();
    out.extend(word)?;
    out.extend(buffer.format(number).as_bytes())
}

// Adds a word and a number that end a line.
fn put_last_number(out: &mut Bytes, word: &[u8], number: u64) -> Result<(), NoMemory>
    ensures { OnOk result (out.new ≡ out.old ++ (word.now ++ (decimal number ++ 10 ∷ []))) }
{
    put_number(out, word, number)?;
    out.push(b'\n')
}

fn put_last_signed(out: &mut Bytes, word: &[u8], number: i32) -> Result<(), NoMemory>
    ensures { OnOk result (out.new ≡ out.old ++ (word.now ++ (signed_decimal number ++ 10 ∷ []))) }
{
    put_signed(out, word, number)?;
    out.push(b'\n')
}

// Adds why a request was refused, as the last words of a line.
fn put_refusal(out: &mut Bytes, why: &WireFault) -> Result<(), NoMemory>
    ensures { OnOk result (out.new ≡ out.old ++ line_of (refusal_words why.now)) }
{
    match *why {
        WireFault::BadRequest { at } => put_last_number(out, b"bad-request ", at as u64),
        WireFault::UnknownApi { key } => put_last_signed(out, b"unknown-api ", i32::from(key)),
        WireFault::Unsupported { key, version } => {
            put_signed(out, b"unsupported ", i32::from(key))?;
            put_last_signed(out, b" ", i32::from(version))
        }
        WireFault::TooMany { count } => put_last_number(out, b"too-many ", u64::from(count)),
        WireFault::Twice { topic, partition } => {
            put_number(out, b"twice ", u64::from(topic))?;
            put_last_signed(out, b" ", partition)
        }
        WireFault::NoMemory => out.extend(b"no-memory\n".as_slice()),
    }
}

/// Adds how a session ended, as the last words of a line. If memory runs out, a part of them may be there.
pub fn put_end(out: &mut Bytes, end: &SessionEnd) -> Result<(), NoMemory>
    ensures { OnOk result (out.new ≡ out.old ++ line_of (end_words end.now)) }
{
    match end {
        SessionEnd::Closed => out.extend(b"closed\n".as_slice()),
        SessionEnd::Truncated { got } => put_last_number(out, b"truncated ", u64::from(*got)),
        SessionEnd::FrameTooLong { size } => put_last_signed(out, b"too-long ", *size),
        SessionEnd::Refused { why } => {
            out.extend(b"refused ".as_slice())?;
            put_refusal(out, why)
        }
        SessionEnd::CallsFull => out.extend(b"calls-full\n".as_slice()),
        SessionEnd::ReadFault => out.extend(b"read-fault\n".as_slice()),
        SessionEnd::WriteFault => out.extend(b"write-fault\n".as_slice()),
        SessionEnd::NoMemory => out.extend(b"no-memory\n".as_slice()),
    }
}

/// Adds the line that says how a session of a trace ended. If memory runs out, a part of it may be there.
pub fn put_end_line(out: &mut Bytes, session: u32, end: &SessionEnd) -> Result<(), NoMemory>
    ensures { OnOk result (out.new ≡ out.old ++ end_line session (Some end.now)) }
{
    put_number(out, b"end ", u64::from(session))?;
    out.push(b' ')?;
    put_end(out, end)
}
