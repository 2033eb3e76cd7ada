//! Printing what a storm came to: every partition, the sums over all sessions, and `done`.

ghost use Rattle.std.specs.Prelude.{◌≡◌, ◌<◌, ◌^◌, ◌++◌, OnOk, OnErr};
ghost use Rattle.std.specs.List.{All, flat_map};
ghost use Rattle.partlog.specs.Added.{log_end_of};
ghost use Rattle.audit.specs.Printable.{IsPrintable};
ghost use Rattle.audit.specs.Printed.{numbered, sessions_line, short_part_line, storm_summary_of, transcripts_of};

use crate::account::{Account, PartAccount};
use crate::numbers::log_end;
use crate::summary::put_number;
use crate::tally::batch_count;
use crate::totals::Totals;
use kbytes::{Bytes, NoMemory};
use kwire::MOST_PARTITIONS;
use std::alloc::Global;

// Adds the line of a partition at the end. It has no high watermark.
fn put_part(out: &mut Bytes, number: usize, part: &PartAccount) -> Result<(), NoMemory>
    requires { log_end_of part.now.events < 2 ^ 64 }
    ensures { OnOk result (out.new ≡ out.old ++ short_part_line (number, part.now)) }
{
    let events = part.events.as_slice();
    put_number(out, b"part ", number as u64)?;
    put_number(out, b" end ", log_end(events))?;
    put_number(out, b" batches ", batch_count(events) as u64)?;
    put_number(out, b" bytes ", part.log.len() as u64)?;
    out.push(b'\n')
}

// The same for each partition, numbered from 0.
fn put_parts(out: &mut Bytes, parts: &[PartAccount]) -> Result<(), NoMemory>
    requires { All (λ part. log_end_of part.events < 2 ^ 64) parts.now }
    ensures { OnOk result (out.new ≡ out.old ++ flat_map short_part_line (numbered 0 parts.now)) }
{
    for (number, part) in parts.iter().enumerate() {
        put_part(out, number, part)?;
    }
    Ok(())
}

// Adds the line of all sessions at the end.
fn put_sessions(out: &mut Bytes, account: &Account) -> Result<(), NoMemory>
    ensures { OnOk result (out.new ≡ out.old ++ sessions_line (transcripts_of account.now)) }
{
    let totals = Totals::of(account.passes.as_slice())?;
    put_number(out, b"sessions ", totals.sessions)?;
    put_number(out, b" calls ", totals.calls)?;
    put_number(out, b" replies ", totals.replies)?;
    put_number(out, b" parked ", totals.parked)?;
    out.push(b'\n')
}

/// Adds what a storm prints: each partition without its high watermark, the sums over all sessions, and `done`. If memory runs
/// out, the bytes are as before.
pub fn print_storm(alloc: Global, account: &Account, out: &mut Bytes) -> Result<(), NoMemory>
    requires { IsPrintable account.now }
    ensures ok { OnOk result (out.new ≡ out.old ++ storm_summary_of account.now) }
    ensures err { OnErr result (out.new ≡ out.old) }
{
    // there are too few partitions for one to have the clock's number
    prove!(account.config.parts() <= MOST_PARTITIONS);
    let mut text = Bytes::new(alloc);
    put_parts(&mut text, account.parts.as_slice())?;
    put_sessions(&mut text, account)?;
    text.extend(b"done\n".as_slice())?;
    out.extend(text.as_slice())
}
