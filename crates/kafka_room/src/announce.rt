//! What a service says on standard error: where it listens and with which topics, or why it can't be opened. `main` puts the port and the source
//! of this file around the real ones.

ghost use Rattle.std.specs.Prelude.{◌≡◌};

use commands::Service;
use kbytes::Bytes;
use outside::{Failed, Port, Source};
use std::alloc::{AllocError, Global};
use std::fmt::Write;
use std::io::ErrorKind;
use std::net::{Ipv4Addr, Net, SocketAddr, SocketAddrV4};
use std::str;
use std::sync::OnceLock;
use trace_file::{Line, read_trace};

/// The longest text that is kept for the port. Sixty-four topics with the longest names take a third of it.
const MOST_KEPT: usize = 65_536;

/// A source that keeps the text that it gives, and at its end puts it where the port finds it.
#[derive(Drop)]
pub struct KeptSource<'a, S: Drop> {
    inner: S,
    // what came so far; `None` once it is put there, or where it isn't kept
    text: Option<Bytes>,
    topics: &'a OnceLock<Bytes>,
}

impl<'a, S: Source + Drop> KeptSource<'a, S> {
    /// A source over this one. If it is to declare the topics of a service, its text is put into `topics`.
    pub fn new(
        alloc: Global,
        inner: S,
        service: Option<Service>,
        topics: &'a OnceLock<Bytes>,
    ) -> KeptSource<'a, S> {
        KeptSource {
            inner,
            text: match service {
                Some(_) => Some(Bytes::new(alloc)),
                None => None,
            },
            topics,
        }
    }

    // Keeps a piece. Where it is empty the source has ended.
    fn keep(&mut self, piece: &[u8])
        ensures { self.new.inner ≡ self.old.inner }
    {
        let Some(mut text) = self.text.take() else {
            return;
        };
        if piece.is_empty() {
            let _ = self.topics.try_set(text);
        } else if piece.len() <= MOST_KEPT.saturating_sub(text.len())
            && text.extend(piece).is_ok()
        {
            self.text = Some(text);
        }
    }
}

impl<S: Source + Drop> Source for KeptSource<'_, S> {
    ghost left = { λ s. S.left s.inner };

    ghost faults = { λ s. S.faults s.inner };

    fn read(&mut self, into: &mut [u8]) -> Result<usize, Failed> {
        match self.inner.read(into) {
            Ok(count) => {
                self.keep(&into[..count]);
                Ok(count)
            }
            Err(failed) => Err(failed),
        }
    }
}

/// A port that says where it listens once it is open, or why it can't be opened.
#[derive(Drop)]
pub struct SpokenPort<'a, R, P: Drop> {
    inner: P,
    rt: &'a R,
    alloc: Global,
    service: Option<Service>,
    topics: &'a OnceLock<Bytes>,
    was_refused: bool,
}

impl<'a, R: Net + Eprint, P: Port + Drop> SpokenPort<'a, R, P> {
    /// A port over this one, for a service whose topics come to be in `topics`. A command that serves nobody doesn't open it.
    pub fn new(
        rt: &'a R,
        alloc: Global,
        inner: P,
        service: Option<Service>,
        topics: &'a OnceLock<Bytes>,
    ) -> SpokenPort<'a, R, P>
        ensures { result.inner ≡ inner }
    {
        SpokenPort {
            inner,
            rt,
            alloc,
            service,
            topics,
            was_refused: false,
        }
    }

    /// Whether it couldn't be opened. Then it has said why.
    pub fn was_refused(&self) -> bool {
        self.was_refused
    }

    // The topics in words, where they are known.
    fn topics_in_words(&self) -> Option<String> {
        let text = self.topics.get()?;
        let lines = read_trace(self.alloc, text.as_slice(), true).ok()?;
        in_words(self.alloc, lines.as_slice()).ok()
    }

    fn say_where(&self, number: u16) {
        let Some(
            Service {
                lanes,
                connections,
                ..
            },
        ) = self.service
        else {
            return;
        };
        let (lane, connection) = (
            plural(lanes, "lane", "lanes"),
            plural(connections, "connection", "connections"),
        );
        let _ = match self.topics_in_words() {
            Some(topics) => self.rt.eprintln(format_args!(
                "kafka_room: listening on 127.0.0.1:{number}, {lanes} {lane}, up to {connections} {connection}, {topics}"
            )),
            None => self.rt.eprintln(format_args!(
                "kafka_room: listening on 127.0.0.1:{number}, {lanes} {lane}, up to {connections} {connection}"
            )),
        };
    }

    // The error itself isn't kept by the port: to ask for the address once more tells it.
    fn say_why(&self, number: u16) {
        let addr = SocketAddr::V4(SocketAddrV4::new(Ipv4Addr::LOCALHOST, number));
        let _ = match self.rt.bind(addr) {
            Ok(_) => self.rt.eprintln(format_args!(
                "kafka_room: 127.0.0.1:{number} can't be opened: the address was in use, and is free now"
            )),
            Err(error) => match reason(error.kind()) {
                Some(reason) => self.rt.eprintln(format_args!(
                    "kafka_room: 127.0.0.1:{number} can't be opened: {reason}"
                )),
                None => self.rt.eprintln(format_args!(
                    "kafka_room: 127.0.0.1:{number} can't be opened: {error}"
                )),
            },
        };
    }
}

impl<R: Net + Eprint, P: Port + Drop> Port for SpokenPort<'_, R, P> {
    type Link = P::Link;

    ghost faults = { λ p. P.faults p.inner };

    ghost opened_with = { λ p. P.opened_with p.inner };

    ghost given = { λ p. P.given p.inner };

    ghost is_ended = { λ p. P.is_ended p.inner };

    ghost retired_count = { λ p. P.retired_count p.inner };

    ghost retired = { λ p. P.retired p.inner };

    fn open(&mut self, number: u16) -> Result<(), Failed> {
        match self.inner.open(number) {
            Ok(()) => {
                self.say_where(number);
                Ok(())
            }
            Err(failed) => {
                self.say_why(number);
                self.was_refused = true;
                Err(failed)
            }
        }
    }

    fn accept(&mut self) -> Result<Option<P::Link>, Failed> {
        self.inner.accept()
    }

    fn retire(&mut self, number: u64, link: P::Link) {
        self.inner.retire(number, link);
    }
}

fn plural(count: u32, one: &'static str, several: &'static str) -> &'static str {
    if count == 1 { one } else { several }
}

// `topics orders (3), payments (1)`, or `no topics`.
fn in_words(alloc: Global, lines: &[Line]) -> Result<String, AllocError> {
    let mut text = String::new(alloc);
    for line in lines {
        if let Line::Topic {
            name,
            partitions,
            ..
        } = line
        {
            let before = if text.is_empty() { "topics" } else { "," };
            let name = str::from_utf8(name.as_slice()).unwrap_or("?");
            write!(text, "{before} {name} ({partitions})")?;
        }
    }
    if text.is_empty() {
        text.push_str("no topics")?;
    }
    Ok(text)
}

// Why an address can't be had, in words. For other kinds the system's own are better.
fn reason(kind: ErrorKind) -> Option<&'static str> {
    match kind {
        ErrorKind::AddrInUse => Some("the address is in use"),
        ErrorKind::PermissionDenied => Some("permission denied"),
        ErrorKind::AddrNotAvailable => Some("this machine has no such address"),
        _ => None,
    }
}
