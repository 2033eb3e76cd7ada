//! Writes what is printed of a run on workers. It takes no memory, as nothing may be missing once something was written: the digits of the
//! frames are made in a room that is there already.

ghost use Rattle.std.specs.Prelude.{◌≡◌, ◌≤◌, ◌++◌, OnOk, OnErr};
ghost use Rattle.std.specs.Io.KnownBytes.{Appends};
ghost use Rattle.hex.specs.Hex.{encode_lower};
ghost use Rattle.outside.specs.Causes.{Rose};
ghost use Rattle.trace_workers.specs.Telling.{frame_line, joined, part_text};
ghost use Rattle.commands.specs.Streams.{HasWrittenFront, line_head};

use crate::streams::write_all;
use audit::Account;
use itoa::Buffer;
use outside::{Failed, Sink};
use trace_file::Digits;
use trace_workers::PrintPart;

// The number of bytes whose digits are written at a time.
const AT_A_TIME: usize = 1_024;

// Writes the digits of the bytes. If a write fails, a front of them was written.
fn write_digits<K: Sink>(sink: &mut K, digits: &Digits, bytes: &[u8]) -> Result<(), Failed>
    ensures written { OnOk result (Appends (K.written sink.old) (K.written sink.new) (encode_lower bytes.now)) }
    ensures front { OnErr result (HasWrittenFront (K.written sink.old) (K.written sink.new) (encode_lower bytes.now)) }
    ensures later { K.faults sink.old ≤ K.faults sink.new }
    ensures failed { OnErr result (Rose (K.faults sink.old) (K.faults sink.new)) }
{
    let mut room = [0; 2 * AT_A_TIME];
    let mut done = 0;
    while done < bytes.len() {
        let count = AT_A_TIME.min(bytes.len() - done);
        digits.write(&bytes[done..done + count], &mut room[..2 * count]);
        write_all(sink, &room[..2 * count])?;
        done += count;
    }
    Ok(())
}

// Writes the digits of these bytes and of those behind them. If a write fails, a front of them was written.
fn write_both<K: Sink>(
    sink: &mut K,
    digits: &Digits,
    head: &[u8],
    tail: &[u8],
) -> Result<(), Failed>
    ensures written { OnOk result (Appends (K.written sink.old) (K.written sink.new) (encode_lower (head.now ++ tail.now))) }
    ensures front { OnErr result (HasWrittenFront (K.written sink.old) (K.written sink.new) (encode_lower (head.now ++ tail.now))) }
    ensures later { K.faults sink.old ≤ K.faults sink.new }
    ensures failed { OnErr result (Rose (K.faults sink.old) (K.faults sink.new)) }
{
    write_digits(sink, digits, head)?;
    write_digits(sink, digits, tail)
}

// Writes the words of a reply's line before its digits. If a write fails, a front of them was written.
fn write_head<K: Sink>(sink: &mut K, session: u32) -> Result<(), Failed>
    ensures written { OnOk result (Appends (K.written sink.old) (K.written sink.new) (line_head session)) }
    ensures front { OnErr result (HasWrittenFront (K.written sink.old) (K.written sink.new) (line_head session)) }
    ensures later { K.faults sink.old ≤ K.faults sink.new }
    ensures failed { OnErr result (Rose (K.faults sink.old) (K.faults sink.new)) }
{
    let mut buffer = Buffer::new();
    write_all(sink, b"reply ".as_slice())?;
    write_all(sink, buffer.format(session).as_bytes())?;
    write_all(sink, b" ".as_slice())
}

// Writes the line of a frame that a session was sent, whose bytes are these and those behind them. If a write fails, a front of it was written.
fn write_reply<K: Sink>(
    sink: &mut K,
    digits: &Digits,
    session: u32,
    head: &[u8],
    tail: &[u8],
) -> Result<(), Failed>
    ensures written { OnOk result (Appends (K.written sink.old) (K.written sink.new) (frame_line session (head.now ++ tail.now))) }
    ensures front { OnErr result (HasWrittenFront (K.written sink.old) (K.written sink.new) (frame_line session (head.now ++ tail.now))) }
    ensures later { K.faults sink.old ≤ K.faults sink.new }
    ensures failed { OnErr result (Rose (K.faults sink.old) (K.faults sink.new)) }
{
    write_head(sink, session)?;
    write_both(sink, digits, head, tail)?;
    write_all(sink, b"\n".as_slice())
}

// Writes a part, of a run that has this account. If a write fails, a front of it was written.
fn write_part<K: Sink>(
    sink: &mut K,
    digits: &Digits,
    account: &Account,
    part: &PrintPart,
) -> Result<(), Failed>
    ensures written { OnOk result (Appends (K.written sink.old) (K.written sink.new) (part_text account.now part.now)) }
    ensures front { OnErr result (HasWrittenFront (K.written sink.old) (K.written sink.new) (part_text account.now part.now)) }
    ensures later { K.faults sink.old ≤ K.faults sink.new }
    ensures failed { OnErr result (Rose (K.faults sink.old) (K.faults sink.new)) }
{
    match part {
        PrintPart::Text(text) => write_all(sink, text.as_slice()),
        PrintPart::Reply { session, frame } => {
            write_reply(sink, digits, *session, frame.as_slice(), &[])
        }
        PrintPart::Stored {
            session,
            head,
            range,
        } => {
            let records = range.bytes_in(account);
            write_reply(sink, digits, *session, head.as_slice(), records)
        }
    }
}

/// Writes these parts whole, one after the other, of a run that has this account. If a write fails, a front of what they print was written.
pub fn write_parts<K: Sink>(
    sink: &mut K,
    digits: &Digits,
    account: &Account,
    parts: &[PrintPart],
) -> Result<(), Failed>
    ensures written { OnOk result (Appends (K.written sink.old) (K.written sink.new) (joined account.now parts.now)) }
    ensures front { OnErr result (HasWrittenFront (K.written sink.old) (K.written sink.new) (joined account.now parts.now)) }
    ensures later { K.faults sink.old ≤ K.faults sink.new }
    ensures failed { OnErr result (Rose (K.faults sink.old) (K.faults sink.new)) }
{
    for part in parts {
        write_part(sink, digits, account, part)?;
    }
    Ok(())
}
