//! Prints a run of several threads: session by session what it was sent, and then the summary.

ghost use Rattle.std.specs.Prelude.{ℕ, ◌≡◌, ◌<◌, ◌^◌, ◌∷◌, [], ◌++◌, map, List as Items, OnOk, OnErr, IfOk};
ghost use Rattle.std.specs.List.{AllByRecursion, AllZip, flat_map, zip};
ghost use Rattle.kwire.specs.declared.reply.Reply.{Reply as TheReply};
ghost use Rattle.trace_file.specs.PrintedLine.{reply_line};
ghost use Rattle.audit.specs.Fits.{HasReplies, is_answered};
ghost use Rattle.audit.specs.Histories.{history_of};
ghost use Rattle.audit.specs.IsLawful.{HasLogs};
ghost use Rattle.audit.specs.LawfulCall.{IsLawfulCall};
ghost use Rattle.audit.specs.Printable.{IsPrintable};
ghost use Rattle.audit.specs.Printed.{IsPrintOf, session_text, summary_of};
ghost use Rattle.audit.specs.retelling.Shares.{IsTextOf, sessions_in};
ghost use Rattle.audit.specs.retelling.Tellable.{IsTellable, IsTold};

use crate::retelling::past::{Past, pasts_of};
use crate::retelling::reply::reply_to;
use crate::{Account, Call, CallHow, Transcript, print_replay, put_end_line};
use kbytes::{Bytes, List, NoMemory};
use kwire::reply_bytes;
use std::alloc::Global;
use trace_file::Digits;

fn is_answered(how: CallHow) -> bool
    ensures { result ≡ is_answered how }
{
    match how {
        CallHow::AtOnce | CallHow::Satisfied { .. } | CallHow::Expired { .. } => true,
        CallHow::Quiet | CallHow::Parked | CallHow::Cut { .. } => false,
    }
}

// An account, the past of each of its partitions, and the digits of the bytes.
#[derive(Clone, Copy)]
struct Teller<'a> {
    alloc: Global,
    account: &'a Account,
    pasts: &'a [Past],
    digits: &'a Digits,
}

// Puts the line of a call's reply if it was answered.
fn put_reply(
    teller: &Teller<'_>,
    session: u32,
    call: &Call,
    out: &mut Bytes,
) -> Result<(), NoMemory>
    requires lawful { IsLawfulCall teller.now.account.now call.now }
    requires logs { HasLogs teller.now.account.now }
    requires pasts { teller.now.pasts.now ≡ map history_of teller.now.account.now.parts }
    ensures { OnOk result ((replies : Items TheReply) × HasReplies teller.now.account.now (call.now ∷ []) replies
        × (out.new ≡ out.old ++ flat_map (reply_line session) replies)) }
{
    if !is_answered(call.how) {
        return Ok(());
    }
    let reply = reply_to(teller.alloc, teller.account, teller.pasts, call)?;
    let frame = reply_bytes(teller.alloc, &reply)?;
    teller.digits.put_reply_line(out, session, frame.as_slice())
}

// Puts the lines of these calls' replies.
fn put_replies(
    teller: &Teller<'_>,
    session: u32,
    calls: &[Call],
    out: &mut Bytes,
) -> Result<(), NoMemory>
    requires lawful { AllByRecursion (IsLawfulCall teller.now.account.now) calls.now }
    requires logs { HasLogs teller.now.account.now }
    requires pasts { teller.now.pasts.now ≡ map history_of teller.now.account.now.parts }
    ensures { OnOk result ((replies : Items TheReply) × HasReplies teller.now.account.now calls.now replies
        × (out.new ≡ out.old ++ flat_map (reply_line session) replies)) }
{
    for call in calls {
        put_reply(teller, session, call, out)?;
    }
    Ok(())
}

// Puts the lines of a session: its replies, and how it ended.
fn put_session(
    teller: &Teller<'_>,
    transcript: &Transcript,
    out: &mut Bytes,
) -> Result<(), NoMemory>
    requires told { IsTold teller.now.account.now transcript.now }
    requires logs { HasLogs teller.now.account.now }
    requires pasts { teller.now.pasts.now ≡ map history_of teller.now.account.now.parts }
    ensures { OnOk result ((replies : Items TheReply) × HasReplies teller.now.account.now transcript.now.calls replies
        × (out.new ≡ out.old ++ session_text (transcript.now, replies))) }
{
    let session = transcript.number as u32;
    put_replies(teller, session, transcript.calls.as_slice(), out)?;
    match &transcript.end {
        Some(end) => put_end_line(out, session, end),
        None => Ok(()),
    }
}

// The same of each session of a pass.
fn put_pass(
    teller: &Teller<'_>,
    transcripts: &[Transcript],
    out: &mut Bytes,
) -> Result<(), NoMemory>
    requires told { AllByRecursion (IsTold teller.now.account.now) transcripts.now }
    requires logs { HasLogs teller.now.account.now }
    requires pasts { teller.now.pasts.now ≡ map history_of teller.now.account.now.parts }
    ensures { OnOk result ((all : Items (Items TheReply))
        × AllZip (λ transcript sent. HasReplies teller.now.account.now transcript.calls sent) transcripts.now all
        × (out.new ≡ out.old ++ flat_map session_text (zip transcripts.now all))) }
{
    for transcript in transcripts {
        put_session(teller, transcript, out)?;
    }
    Ok(())
}

// The same of each session of these passes.
fn put_passes(
    teller: &Teller<'_>,
    passes: &[List<Transcript>],
    out: &mut Bytes,
) -> Result<(), NoMemory>
    requires told { AllByRecursion (IsTold teller.now.account.now) (sessions_in passes.now) }
    requires logs { HasLogs teller.now.account.now }
    requires pasts { teller.now.pasts.now ≡ map history_of teller.now.account.now.parts }
    ensures { OnOk result ((all : Items (Items TheReply))
        × AllZip (λ transcript sent. HasReplies teller.now.account.now transcript.calls sent) (sessions_in passes.now) all
        × (out.new ≡ out.old ++ flat_map session_text (zip (sessions_in passes.now) all))) }
{
    for transcripts in passes {
        put_pass(teller, transcripts.as_slice(), out)?;
    }
    Ok(())
}

// The lines of each session of these passes.
fn passes_text(
    alloc: Global,
    account: &Account,
    pasts: &[Past],
    passes: &[List<Transcript>],
) -> Result<Bytes, NoMemory>
    requires told { AllByRecursion (IsTold account.now) (sessions_in passes.now) }
    requires logs { HasLogs account.now }
    requires pasts { pasts.now ≡ map history_of account.now.parts }
    ensures { IfOk result (λ text. IsTextOf account.now (sessions_in passes.now) text) }
{
    let digits = Digits::make(alloc)?;
    let teller = Teller {
        alloc,
        account,
        pasts,
        digits: &digits,
    };
    let mut text = Bytes::new(alloc);
    put_passes(&teller, passes, &mut text)?;
    Ok(text)
}

// Puts the lines of all sessions at the end of the bytes, and the summary after them.
fn put_with_summary(
    alloc: Global,
    account: &Account,
    mut text: Bytes,
    out: &mut Bytes,
) -> Result<(), NoMemory>
    requires { IsPrintable account.now }
    ensures ok { OnOk result (out.new ≡ out.old ++ (text ++ summary_of account.now)) }
    ensures err { OnErr result (out.new ≡ out.old) }
{
    print_replay(alloc, account, &mut text)?;
    out.extend(text.as_slice())
}

/// Puts what is printed of a run with several threads at the end of the bytes: of each session its replies in order and how it
/// ended, and then the summary. If memory runs out, the bytes are as before.
pub fn print_workers(alloc: Global, account: &Account, out: &mut Bytes) -> Result<(), NoMemory>
    requires { IsTellable account.now }
    ensures ok { OnOk result ((text : Items ℕ) × IsPrintOf account.now text × (out.new ≡ out.old ++ text)) }
    ensures err { OnErr result (out.new ≡ out.old) }
{
    let pasts = pasts_of(alloc, account)?;
    let text = passes_text(alloc, account, pasts.as_slice(), account.passes.as_slice())?;
    put_with_summary(alloc, account, text, out)
}
