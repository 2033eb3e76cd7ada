//! A follower of one partition: `kafka_follower PORT TOPIC INDEX REPLICA ROUNDS` copies the partition's log from the leader that listens at
//! the port, and so lets produces with acks all be answered.
#![tactic(auto)]

mod usage;
mod watched;

use follower::{TcpDial, run_follower};
use outside::StdSink;
use std::io::IsTerminal;
use std::process::ExitCode;
use std::{env, io};
use usage::{HELP, VERSION, WrongWords, status_text};
use watched::WatchedDial;

// The text that a word alone asks for.
fn text_asked(word: &str) -> Option<&'static str> {
    if word == "--help" || word == "-h" {
        Some(HELP)
    } else if word == "--version" || word == "-V" {
        Some(VERSION)
    } else {
        None
    }
}

// The words of the command line after the program's name.
fn words(rt: &HostRuntime) -> io::Result<Vec<String>> {
    let mut words = Vec::new(rt.alloc());
    for word in env::args(rt)?.skip(1) {
        words.push(word)?;
    }
    Ok(words)
}

// Ends with a status, and reports what it means if it isn't 0.
fn ended(rt: &HostRuntime, status: u8) -> ExitCode {
    if status != 0 {
        let text = status_text(status);
        let _ = rt.eprintln(format_args!("kafka_follower: {text}"));
    }
    ExitCode::from(status)
}

// Ends because the words order nothing, and reports what is wrong with them.
fn ended_words(rt: &HostRuntime, words: &[String]) -> ExitCode {
    let wrong = WrongWords::of(words);
    let _ = rt.eprintln(format_args!("kafka_follower: {wrong}: see kafka_follower --help"));
    ExitCode::from(1)
}

fn main(rt: HostRuntime) -> ExitCode {
    let words = match words(&rt) {
        Ok(words) => words,
        Err(error) if error.kind() == io::ErrorKind::OutOfMemory => return ended(&rt, 6),
        // A word that isn't UTF-8.
        Err(_) => return ended(&rt, 1),
    };
    if let [word] = words.as_slice()
        && let Some(text) = text_asked(word.as_str())
    {
        return ended(&rt, if rt.print(text).is_ok() { 0 } else { 4 });
    }
    let mut sink = StdSink::new(io::writer(&rt));
    let mut dial = WatchedDial::new(&rt, TcpDial::new(&rt), rt.stderr().is_terminal());
    match run_follower(rt.alloc(), words.as_slice(), &mut sink, &mut dial) {
        1 => ended_words(&rt, words.as_slice()),
        status => ended(&rt, status),
    }
}
