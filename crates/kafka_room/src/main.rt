//! The request purgatory of a Kafka broker: `kafka_room replay` replays a recorded trace, on one thread or on several,
//! `kafka_room storm` plays a load that it generates, and `kafka_room serve` serves the connections of clients.
#![tactic(auto)]

ghost use Rattle.std.specs.Prelude.{◌≡◌, ◌≢◌, []};
ghost use Rattle.std.specs.Io.Buffered.{writer_buffer};

mod announce;
mod usage;

use announce::{KeptSource, SpokenPort};
use commands::{Command, Service, Stop, exit_text, run};
use outside::{StdSink, StdSource, SystemClock, TcpPort};
use std::alloc::Global;
use std::fmt::Display;
use std::io::{BufWriter, Write};
use std::net::{Net, TcpListener, TcpStream};
use std::process::ExitCode;
use std::sync::{OnceLock, Wait};
use std::thread::Threads;
use std::time::Clock;
use std::{env, io, mem};
use trace_file::{LineFault, LineKind};
use usage::WrongWords;

const HELP: &str = "\
kafka_room: the request purgatory of a Kafka broker

Usage:
  kafka_room replay              replays the trace on standard input
  kafka_room replay --workers W  replays it on W threads, 1 to 16
  kafka_room storm SEED N W      plays a generated load of N requests, 1 to
                                 200000, on W threads, until nobody waits
  kafka_room serve --port N --lanes L --connections C
                                 serves the topics on standard input to
                                 clients, at port N of 127.0.0.1
  kafka_room --help or -h        prints this text
  kafka_room --version or -V     prints the version

A trace has topics first and its end last, one space between two words, and
numbers without sign or leading zeros. It has at most 67108864 bytes.
  topic NAME N F  a topic with N partitions, at most 64 with all others, and F
                  followers, 0 to 8. NAME is new: 1 to 249 of A-Z a-z 0-9 . _ -
                  One word more is the least number of its in-sync replicas,
                  the leader counted, 1 to F + 1. Without it that is 1
  bytes S HEX     session S, 0 to 63, receives bytes, as pairs of hex digits
  close S         the input of session S ended: no more lines name it
  clock T         the moment is T ms, 0 to 10^15. It never goes back
  end             the trace ends

The bytes of a session are frames, which lines may cut anywhere: Produce v3 to
v5, Fetch v4 and v5, Metadata v1 and ApiVersions v0. A produce with acks -1
waits until all followers in sync have fetched past it, a fetch until there are
its least bytes, and each no longer than its own time. The session's next frame
waits with it. A follower that has lagged for 30000 ms leaves those in sync as
the moment rises, and comes back by a fetch from the high watermark or above it.
A produce with acks -1 is refused while fewer replicas are in sync than the
least number.

Printed after each line:
  reply S HEX     a reply of session S, the whole frame
  end S CAUSE     session S ended: closed, truncated BYTES, too-long SIZE, or
                  refused bad-request AT, unknown-api KEY, unsupported KEY
                  VERSION, too-many COUNT or twice TOPIC PARTITION
and after the last, for each partition and each session that a line named:
  part P end LOG_END high HIGH_WATERMARK batches COUNT bytes BYTES
  session S calls COUNT replies COUNT parked 1-OR-0, which is 1 where it waits
  done
With --workers nothing is printed before all is done: then session by session,
in rising number, its replies in order and its end, and after them the summary.

A storm reads no input. SEED, 0 to 18446744073709551615, sets what is drawn.
Sixteen sessions produce to eight partitions and fetch from them, and after the
last request the clock goes on until all are answered. Then this is printed:
  part P end LOG_END batches COUNT bytes BYTES
  sessions COUNT calls COUNT replies COUNT parked 0
  done

A service reads lines topic and then end. It accepts C connections, 1 to 65536,
and serves each until its client ends it, on one of L lanes, 1 to 64, which are
threads: with all lanes at work the next connection waits. N is 1 to 65535. A
line on standard error says where it listens. After the last connection this is
printed, link by link in the order in which they were accepted:
  link N calls COUNT replies COUNT CAUSE
  part P end LOG_END high HIGH_WATERMARK batches COUNT bytes BYTES
  done
CAUSE is as above, or calls-full, read-fault, write-fault or no-memory.

Exit codes:
  0  all was done and written        3  the input can't be read
  1  the command line is faulty      4  the output can't be written
  2  the input is no trace: its      5  the port failed, or can't be opened
     first bad line is reported      6  out of memory

Examples: kafka_room replay < examples/produce.trace
          kafka_room replay < examples/acks_all.trace
          kafka_room replay --workers 4 < examples/two_sessions.trace
          kafka_room storm 7 20000 4
          printf 'topic orders 3 0\\nend\\n' |
            kafka_room serve --port 9092 --lanes 4 --connections 100
";

const VERSION: &str = "kafka_room 0.1.0\n";

// The text that a word alone asks for.
fn text_asked(word: &str) -> Option<&'static str> {
    if word == "--help" || word == "-h" {
        Some(HELP)
    } else if word == "--version" || word == "-V" {
        Some(VERSION)
    } else {
        None
    }
}

// The words of the command line after the program's name.
fn words(rt: &HostRuntime) -> io::Result<Vec<String>> {
    let mut words = Vec::new(rt.alloc());
    for word in env::args(rt)?.skip(1) {
        words.push(word)?;
    }
    Ok(words)
}

// Ends with a code, and reports what it means if it isn't 0.
fn ended(rt: &HostRuntime, code: u8) -> ExitCode {
    if code != 0 {
        let text = exit_text(code);
        let _ = rt.eprintln(format_args!("kafka_room: {text}"));
    }
    ExitCode::from(code)
}

// Ends because the words say no command, and reports what is wrong with them.
fn ended_words<D: Display>(rt: &HostRuntime, wrong: &D) -> ExitCode {
    let _ = rt.eprintln(format_args!("kafka_room: {wrong}: see kafka_room --help"));
    ExitCode::from(Stop::Usage.code())
}

// Ends as the run did, and reports the first bad line if there is one.
fn ended_run(rt: &HostRuntime, code: u8, line: Option<LineFault>) -> ExitCode {
    match line {
        Some(fault) => {
            let _ = rt.eprintln(format_args!("kafka_room: {fault}"));
            ExitCode::from(code)
        }
        None => ended(rt, code),
    }
}

fn shown(rt: &HostRuntime, text: &str) -> ExitCode {
    ended(
        rt,
        if rt.print(text).is_ok() {
            0
        } else {
            Stop::WriteFault.code()
        },
    )
}

// How a run ended.
#[derive(Clone, Copy)]
struct Outcome {
    code: u8,
    line: Option<LineFault>,
    // its port couldn't be opened, and has said why
    was_refused: bool,
}

// How many bytes of the output are held back at most: a replay writes after each line, and would else call the system for each. What is longer, as
// the longest blocks of lines of a replay on workers, goes to the system as it is, and isn't copied before.
const MOST_HELD: usize = 32_768;

// Writes what is held back of the output of a run that answered this code, and answers the code to end with.
fn flush_held<W: Write + Drop>(output: &mut BufWriter<W>, code: u8) -> u8
    ensures kept { code ≢ 0 → result ≡ code }
    ensures written { result ≡ 0 → writer_buffer output.new ≡ [] }
{
    if output.flush().is_err() && code == 0 {
        Stop::WriteFault.code()
    } else {
        code
    }
}

// Does what the words say, over the input, the output, the port and the clock of the process. The service is theirs, if they say one.
fn run_words<R>(rt: &R, alloc: Global, words: &[String], service: Option<Service>) -> Outcome
where
    R: Threads + Wait + Sync,
    R: Net<Listener = TcpListener, Stream = TcpStream> + Clock + Input + Print + Eprint,
{
    let Ok(mut output) = BufWriter::with_capacity(alloc, MOST_HELD, io::writer(rt)) else {
        return Outcome {
            code: Stop::NoMemory.code(),
            line: None,
            was_refused: false,
        };
    };
    let topics = OnceLock::new();
    let mut source = KeptSource::new(alloc, StdSource::new(rt.reader()), service, &topics);
    let mut sink = StdSink::new(&mut output);
    let port = SpokenPort::new(rt, alloc, TcpPort::new(rt), service, &topics);
    let clock = SystemClock::new(rt);
    let exit = run(rt, alloc, words, &mut source, &mut sink, port, clock);
    let (code, line) = (exit.code, exit.line);
    let was_refused = match &exit.port {
        Some(port) => port.was_refused(),
        None => false,
    };
    // The process ends: the system takes all memory of the account at once.
    mem::forget(exit);
    Outcome {
        code: flush_held(&mut output, code),
        line,
        was_refused,
    }
}

// Ends as the service did. What isn't a topic or the end is no fault of a trace's order to it.
fn ended_service(rt: &HostRuntime, came: Outcome) -> ExitCode {
    match came.line {
        Some(
            LineFault {
                line,
                kind: LineKind::Order,
            },
        ) => {
            let _ = rt.eprintln(format_args!(
                "kafka_room: line {line}: serve reads lines topic and then end, and nothing after it"
            ));
            ExitCode::from(came.code)
        }
        _ if came.was_refused => ExitCode::from(came.code),
        line => ended_run(rt, came.code, line),
    }
}

fn main(rt: HostRuntime) -> ExitCode {
    let words = match words(&rt) {
        Ok(words) => words,
        Err(error) if error.kind() == io::ErrorKind::OutOfMemory => return ended(
            &rt,
            Stop::NoMemory.code(),
        ),
        // A word that isn't UTF-8.
        Err(_) => return ended_words(&rt, &exit_text(Stop::Usage.code())),
    };
    if let [word] = words.as_slice()
        && let Some(text) = text_asked(word.as_str())
    {
        return shown(&rt, text);
    }
    let service = match Command::of(words.as_slice()) {
        Some(Command::Serve(service)) => Some(service),
        _ => None,
    };
    let came = run_words(&rt, rt.alloc(), words.as_slice(), service);
    if came.code == Stop::Usage.code() {
        return ended_words(&rt, &WrongWords::of(words.as_slice()));
    }
    if service.is_some() {
        return ended_service(&rt, came);
    }
    ended_run(&rt, came.code, came.line)
}
