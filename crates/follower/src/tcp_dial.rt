//! A dial to peers over std's network. Its links tell no bytes: this is the trusted edge.
ghost use Rattle.std.specs.Prelude.{◌≡◌, None};

use crate::dial::Dial;
use outside::{Failed, TcpLink};
use std::io;
use std::marker::Model;
use std::net::{Ipv4Addr, Net, OpenStream, SocketAddr, SocketAddrV4};

/// A dial of std's network, to this machine alone, at 127.0.0.1.
#[derive(Drop)]
pub struct TcpDial<N: Net> {
    net: N,
    dialled: u16,
    faults: u64,
}

impl<N: Net> Model for TcpDial<N> {
    ghost use Rattle.follower.specs.Dialling.{Dialler};

    ghost Value = { Dialler };

    ghost view = { λ d. record { faults = d.faults; dialled = d.dialled } };
}

impl<N: Net> TcpDial<N> {
    /// A dial over the network.
    pub fn new(net: N) -> TcpDial<N>
        ensures { result ≡ record { faults = 0; dialled = 0 } }
    {
        TcpDial {
            net,
            dialled: 0,
            faults: 0,
        }
    }

    // A stream to whoever listens at this port. Small writes aren't held back: where that can't be set, the link is slower and no worse.
    fn connected(&self, port: u16) -> io::Result<N::Stream> {
        let addr = SocketAddr::V4(SocketAddrV4::new(Ipv4Addr::LOCALHOST, port));
        let stream = self.net.connect(addr)?;
        let _ = stream.set_nodelay(true);
        Ok(stream)
    }
}

impl<N: Net> Dial for TcpDial<N> {
    type Link = TcpLink<N::Stream>;

    ghost faults = { λ d. d.faults };

    ghost dialled = { λ d. d.dialled };

    ghost retired = { λ _. None };

    /// Connects at 127.0.0.1.
    fn dial(&mut self, port: u16) -> Result<TcpLink<N::Stream>, Failed> {
        self.dialled = port;
        match self.connected(port) {
            Ok(stream) => Ok(TcpLink::new(stream)),
            Err(_) => {
                self.faults = self.faults.saturating_add(1);
                Err(Failed)
            }
        }
    }

    /// Closes the link's stream.
    fn retire(&mut self, link: TcpLink<N::Stream>) {
        drop(link);
    }
}
