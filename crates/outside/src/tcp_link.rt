ghost use Rattle.std.specs.Prelude.{◌≡◌, ◌≤◌, false, None};
ghost use Rattle.std.specs.Io.{ReadsAtMost, WritesAtMost};
ghost use Rattle.outside.specs.Count.{one_more};

use crate::failed::Failed;
use crate::link::Link;
use std::io::{self, ErrorKind, Read, Write};
use std::marker::Model;
use std::net::{OpenStream, Shutdown};

/// A link over a stream of std's network, to a peer that a port accepted or that was dialled.
#[derive(Drop)]
pub struct TcpLink<S> {
    stream: S,
    faults: u64,
    is_shut: bool,
}

impl<S> Model for TcpLink<S> {
    ghost use Rattle.outside.specs.Connected.{Connection};

    ghost Value = { Connection };

    ghost view = { λ l. record { faults = l.faults; is_shut = l.is_shut } };
}

// A read that a signal interrupted is begun again.
fn read_from<S: Read>(stream: &mut S, into: &mut [u8]) -> io::Result<usize>
    ensures { ReadsAtMost result into.new }
{
    for _ in 0..u64::MAX {
        match stream.read(into) {
            Err(e) if e.kind() == ErrorKind::Interrupted => {}
            ended => return ended,
        }
    }
    Err(io::Error::from(ErrorKind::Interrupted))
}

// And so is a write.
fn write_to<S: Write>(stream: &mut S, part: &[u8]) -> io::Result<usize>
    ensures { WritesAtMost result part.now }
{
    for _ in 0..u64::MAX {
        match stream.write(part) {
            Err(e) if e.kind() == ErrorKind::Interrupted => {}
            ended => return ended,
        }
    }
    Err(io::Error::from(ErrorKind::Interrupted))
}

impl<S> TcpLink<S> {
    /// A link over a stream of which nothing was read yet, and to which nothing was written.
    pub fn new(stream: S) -> TcpLink<S>
        ensures { result ≡ record { faults = 0; is_shut = false } }
    {
        TcpLink {
            stream,
            faults: 0,
            is_shut: false,
        }
    }

    fn fail(&mut self) -> Failed
        ensures counted { self.new ≡ record self.old { faults = one_more self.old.faults } }
        ensures later { self.old.faults ≤ self.new.faults }
    {
        self.faults = self.faults.saturating_add(1);
        Failed
    }
}

impl<S: Read + Write + OpenStream> Link for TcpLink<S> {
    ghost taken = { λ _. None };

    ghost left = { λ _. None };

    ghost written = { λ _. None };

    ghost faults = { λ l. l.faults };

    ghost is_shut = { λ l. l.is_shut };

    /// One read of the stream. Each error of it is counted.
    fn read(&mut self, into: &mut [u8]) -> Result<usize, Failed> {
        match read_from(&mut self.stream, into) {
            Ok(count) => Ok(count),
            Err(_) => Err(self.fail()),
        }
    }

    /// One write to the stream. Each error of it, and a write that took nothing of a part that isn't empty, is counted.
    fn write(&mut self, part: &[u8]) -> Result<usize, Failed> {
        match write_to(&mut self.stream, part) {
            Ok(0) if !part.is_empty() => Err(self.fail()),
            Ok(count) => Ok(count),
            Err(_) => Err(self.fail()),
        }
    }

    /// Ends both directions. Where the peer has ended them before, the system's error says no more than that.
    fn shut(&mut self) {
        let _ = self.stream.shutdown(Shutdown::Both);
        self.is_shut = true;
    }
}
