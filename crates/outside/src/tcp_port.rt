ghost use Rattle.std.specs.Prelude.{◌≡◌, ◌≤◌, false, None};
ghost use Rattle.outside.specs.Count.{one_more};

use crate::failed::Failed;
use crate::port::Port;
use crate::tcp_link::TcpLink;
use std::io::{self, ErrorKind};
use std::marker::Model;
use std::net::{Ipv4Addr, Net, OpenListener, OpenStream, SocketAddr, SocketAddrV4};

/// A port of std's network, bound to this machine alone, at 127.0.0.1.
#[derive(Drop)]
pub struct TcpPort<N: Net> {
    net: N,
    listener: Option<N::Listener>,
    number: Option<u16>,
    faults: u64,
    given: u64,
    retired: u64,
}

impl<N: Net> Model for TcpPort<N> {
    ghost use Rattle.outside.specs.Connected.{Listening};

    ghost Value = { Listening };

    ghost view = { λ p. record { faults = p.faults; opened_with = p.number; given = p.given; retired_count = p.retired } };
}

// The peer has left before its link was accepted, or a signal came: no fault of the port, which accepts the next one.
fn is_passing(error: &io::Error) -> bool {
    matches!(
        error.kind(),
        ErrorKind::Interrupted
            | ErrorKind::ConnectionAborted
            | ErrorKind::ConnectionReset
            | ErrorKind::HostUnreachable
            | ErrorKind::NetworkUnreachable
            | ErrorKind::NetworkDown
    )
}

fn next_stream<L: OpenListener>(listener: &L) -> io::Result<L::Stream> {
    for stream in listener.incoming() {
        match stream {
            Err(e) if is_passing(&e) => {}
            ended => return ended,
        }
    }
    Err(io::Error::from(ErrorKind::Interrupted))
}

impl<N: Net> TcpPort<N> {
    /// A port over the network, which isn't opened yet.
    pub fn new(net: N) -> TcpPort<N>
        ensures { result ≡ record { faults = 0; opened_with = None; given = 0; retired_count = 0 } }
    {
        TcpPort {
            net,
            listener: None,
            number: None,
            faults: 0,
            given: 0,
            retired: 0,
        }
    }

    fn fail(&mut self) -> Failed
        ensures counted { self.new ≡ record self.old { faults = one_more self.old.faults } }
        ensures later { self.old.faults ≤ self.new.faults }
    {
        self.faults = self.faults.saturating_add(1);
        Failed
    }

    // The next stream. Small writes aren't held back: where that can't be set, the link is slower and no worse.
    fn accepted(&self) -> io::Result<N::Stream> {
        let Some(listener) = &self.listener else {
            return Err(io::Error::from(ErrorKind::NotConnected));
        };
        let stream = next_stream(listener)?;
        let _ = stream.set_nodelay(true);
        Ok(stream)
    }
}

impl<N: Net> Port for TcpPort<N> {
    type Link = TcpLink<N::Stream>;

    ghost faults = { λ p. p.faults };

    ghost opened_with = { λ p. p.opened_with };

    ghost given = { λ p. p.given };

    ghost is_ended = { λ _. false };

    ghost retired_count = { λ p. p.retired_count };

    ghost retired = { λ _. None };

    /// Listens at 127.0.0.1 under this number.
    fn open(&mut self, number: u16) -> Result<(), Failed> {
        let addr = SocketAddr::V4(SocketAddrV4::new(Ipv4Addr::LOCALHOST, number));
        match self.net.bind(addr) {
            Ok(listener) => {
                self.listener = Some(listener);
                self.number = Some(number);
                Ok(())
            }
            Err(_) => Err(self.fail()),
        }
    }

    /// Waits for the next peer. It never answers `None`, and fails where the port isn't open.
    fn accept(&mut self) -> Result<Option<TcpLink<N::Stream>>, Failed> {
        match self.accepted() {
            Ok(stream) => {
                self.given = self.given.saturating_add(1);
                Ok(Some(TcpLink::new(stream)))
            }
            Err(_) => Err(self.fail()),
        }
    }

    /// Closes the link's stream.
    fn retire(&mut self, _number: u64, link: TcpLink<N::Stream>) {
        drop(link);
        self.retired = self.retired.saturating_add(1);
    }
}
