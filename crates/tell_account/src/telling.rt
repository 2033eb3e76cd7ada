//! Prints an account, one fact a line, in the words of `words.rt`.

use crate::words::{At, Cause, ClockEntry, Entry, Hex, How};
use audit::{Account, Call, PartAccount, Transcript};
use kwire::Config;
use partlog::ClockEvent;
use std::io::{self, Write};

fn tell_config<W: Write>(out: &mut W, config: &Config) -> io::Result<()> {
    writeln!(out, "port {}", config.port())?;
    for topic in config.topics() {
        writeln!(
            out,
            "topic {} {} {} {}",
            Hex(topic.name.as_slice()),
            topic.partitions,
            topic.followers,
            topic.min_insync
        )?;
    }
    Ok(())
}

fn tell_part<W: Write>(out: &mut W, part: &PartAccount) -> io::Result<()> {
    writeln!(out, "part {} {}", part.followers, Hex(part.log.as_slice()))?;
    for event in part.events.as_slice() {
        writeln!(out, "{}", Entry(*event))?;
    }
    Ok(())
}

fn tell_clock<W: Write>(out: &mut W, events: &[ClockEvent]) -> io::Result<()> {
    writeln!(out, "clock")?;
    for event in events {
        writeln!(out, "{}", ClockEntry(*event))?;
    }
    Ok(())
}

fn tell_accept<W: Write>(out: &mut W, call: &Call) -> io::Result<()> {
    for point in call.accept.as_slice() {
        writeln!(out, "accept {}", At(*point))?;
    }
    Ok(())
}

fn tell_call<W: Write>(out: &mut W, call: &Call) -> io::Result<()> {
    writeln!(out, "call {} {}", How(call.how), Hex(call.frame.as_slice()))?;
    tell_accept(out, call)?;
    for point in call.finish.as_slice() {
        writeln!(out, "finish {}", At(*point))?;
    }
    Ok(())
}

fn tell_transcript<W: Write>(out: &mut W, transcript: &Transcript) -> io::Result<()> {
    writeln!(out, "transcript {} {}", transcript.number, transcript.first)?;
    for call in transcript.calls.as_slice() {
        tell_call(out, call)?;
    }
    match transcript.end {
        Some(end) => writeln!(out, "end {}", Cause(end)),
        None => Ok(()),
    }
}

fn tell_pass<W: Write>(out: &mut W, transcripts: &[Transcript]) -> io::Result<()> {
    writeln!(out, "pass")?;
    for transcript in transcripts {
        tell_transcript(out, transcript)?;
    }
    Ok(())
}

fn tell_passes<W: Write>(out: &mut W, account: &Account) -> io::Result<()> {
    for transcripts in account.passes.as_slice() {
        tell_pass(out, transcripts.as_slice())?;
    }
    Ok(())
}

fn tell_parts<W: Write>(out: &mut W, account: &Account) -> io::Result<()> {
    for part in account.parts.as_slice() {
        tell_part(out, part)?;
    }
    Ok(())
}

/// Prints the whole account.
pub fn tell<W: Write>(out: &mut W, account: &Account) -> io::Result<()> {
    tell_config(out, &account.config)?;
    tell_parts(out, account)?;
    tell_clock(out, account.clock.as_slice())?;
    tell_passes(out, account)?;
    for wins in account.wins.as_slice() {
        writeln!(out, "wins {wins}")?;
    }
    Ok(())
}
