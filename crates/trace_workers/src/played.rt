//! A run that came to its end: its account, and the lines that its sessions kept of their replies. `print_lines` prints it.
ghost use Rattle.std.specs.Prelude.{◌≡◌, ◌≢◌, ◌+◌, ◌<◌, ◌++◌, true, All, None, IfNone, IfOk, IfSome, OnOk, length, slice_index_or};
ghost use Rattle.audit.specs.Printable.{IsPrintable};
ghost use Rattle.audit.specs.Printed.{IsPrintOf, end_line, transcripts_of};
ghost use Rattle.audit.specs.retelling.Shares.{IsTextOf};
ghost use Rattle.trace_workers.specs.Sessions.{DeskView, HasLines};
ghost use Rattle.trace_workers.specs.Telling.{HasKept, HasPutPass, HaveDesks, HaveLinesFrom, joined};

use crate::{Desk, PrintPart};
use audit::{Account, SessionEnd, print_replay, put_end_line};
use kbytes::{Bytes, List, NoMemory};
use std::alloc::Global;

/// The account of a run, and the rest of each of its sessions.
#[derive(Drop)]
pub struct Played {
    pub account: Account,
    pub desks: List<Desk>,
}

// The place of the desk of the session of this number.
fn place_of(desks: &[Desk], number: usize) -> Option<usize>
    ensures there { IfSome result (λ at. at < length desks.now) }
    ensures number { IfSome result (λ at. (d : DeskView) → (slice_index_or desks.now at d).number ≡ number) }
    ensures none { IfNone result (All (λ (d : DeskView). d.number ≢ number) desks.now) }
{
    for at in 0..desks.len() {
        if desks[at].number() as usize == number {
            return Some(at);
        }
    }
    None
}

// Puts these parts after the others.
fn put_all(parts: &mut List<PrintPart>, more: List<PrintPart>) -> Result<(), NoMemory>
    ensures { OnOk result (parts.new ≡ parts.old ++ more) }
{
    for part in more.into_vec() {
        parts.push(part)?;
    }
    Ok(())
}

// The line that says how a session ended, if it ended.
fn end_text(alloc: Global, session: u32, end: &Option<SessionEnd>) -> Result<Bytes, NoMemory>
    ensures { IfOk result (λ text. text ≡ end_line session end.now) }
{
    let mut text = Bytes::new(alloc);
    if let Some(end) = end {
        put_end_line(&mut text, session, end)?;
    }
    Ok(text)
}

// Puts what is printed of the pass of this number after the parts. The lines that its session kept are taken from its desk.
fn put_pass(
    alloc: Global,
    account: &Account,
    desks: &mut [Desk],
    number: usize,
    parts: &mut List<PrintPart>,
) -> Result<(), NoMemory>
    requires kept { All (HasKept account.now) desks.old }
    requires desks { HaveDesks account.now desks.old }
    requires lines { HaveLinesFrom number desks.old }
    requires there { number < length account.now.passes }
    ensures kept { All (HasKept account.now) desks.new }
    ensures desks { OnOk result (HaveDesks account.now desks.new) }
    ensures lines { OnOk result (HaveLinesFrom (number + 1) desks.new) }
    ensures put { OnOk result (HasPutPass account.now number (joined account.now parts.old) (joined account.now parts.new)) }
{
    let transcripts = account.passes.as_slice()[number].as_slice();
    let Some(transcript) = transcripts.first() else {
        return Ok(());
    };
    let Some(at) = place_of(&*desks, number) else {
        unreachable!()
    };
    let session = desks[at].number();
    let Some(lines) = desks[at].take_lines() else {
        unreachable!()
    };
    put_all(parts, lines.into_parts()?)?;
    let end = end_text(alloc, session, &transcript.end)?;
    parts.push(PrintPart::Text(end))
}

// What is printed of all sessions, in parts.
fn kept_parts(
    alloc: Global,
    account: &Account,
    desks: &mut [Desk],
) -> Result<List<PrintPart>, NoMemory>
    requires kept { All (HasKept account.now) desks.old }
    requires desks { HaveDesks account.now desks.old }
    requires lines { All (HasLines true) desks.old }
    ensures { IfOk result (λ parts. IsTextOf account.now (transcripts_of account.now) (joined account.now parts)) }
{
    let mut parts = List::new(alloc);
    for number in 0..account.passes.len() {
        put_pass(alloc, account, &mut *desks, number, &mut parts)?;
    }
    Ok(parts)
}

/// What is printed of the account, in parts: of each session the lines that it kept, and how it ended, and then the summary.
pub fn print_parts(
    alloc: Global,
    account: &Account,
    desks: &mut [Desk],
) -> Result<List<PrintPart>, NoMemory>
    requires kept { All (HasKept account.now) desks.old }
    requires desks { HaveDesks account.now desks.old }
    requires lines { All (HasLines true) desks.old }
    requires printable { IsPrintable account.now }
    ensures { IfOk result (λ parts. IsPrintOf account.now (joined account.now parts)) }
{
    let mut parts = kept_parts(alloc, account, desks)?;
    let mut summary = Bytes::new(alloc);
    print_replay(alloc, account, &mut summary)?;
    parts.push(PrintPart::Text(summary))?;
    Ok(parts)
}
