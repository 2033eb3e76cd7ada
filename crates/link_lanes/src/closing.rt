//! A hall is closed: the port and the clock come out of it, and the account of what its servers did.
//!
//! What is closed by a step of its own has a function of its own, so that few values are alive where memory may run out.
ghost use Rattle.std.specs.Prelude.{◌≡◌, ◌≤◌, ◌+◌, ◌++◌, ◌∷◌, [], All, IfOk, OnOk, length};
ghost use Rattle.outside.specs.shared.clock.ClockViews as clock_views;
ghost use Rattle.shared_broker.specs.Closing.{IsAccountOf};
ghost use Rattle.shared_broker.specs.Passes.{made_with};
ghost use Rattle.outside.specs.shared.port.Closed.{IsClosed};
ghost use Rattle.outside.specs.shared.port.PortViews.{IsPassOf};
ghost use Rattle.link_lanes.specs.Closed.{HaveClosed, keys_of, passes_of, seats_of};
ghost use Rattle.link_lanes.specs.Seen.{seen_by};
ghost use Rattle.link_lanes.specs.Together.{AreIdle};

use crate::hall::Hall;
use crate::server::Server;
use crate::server_parts::ServerParts;
use audit::Account;
use kbytes::{List, NoMemory};
use outside::shared::port::{PortPass, SharedPort};
use outside::{Clock, Port};
use session::{ClockPass, Shared};
use shared_broker::{Broker, BrokerEnd, Pass};
use std::alloc::Global;
use std::sync::Wait;

// What one more server has.
fn add<P: Port, C: Clock>(
    parts: &mut ServerParts<P, C>,
    server: Server<P, C>,
) -> Result<(), NoMemory>
    ensures passes { OnOk result (parts.new.passes ≡ parts.old.passes ++ server.pass ∷ []) }
    ensures seats { OnOk result (parts.new.seats ≡ parts.old.seats ++ server.seat ∷ []) }
    ensures keys { OnOk result (parts.new.keys ≡ parts.old.keys ++ server.key ∷ []) }
{
    let Server { pass, seat, key } = server;
    parts.passes.push(pass)?;
    parts.seats.push(seat)?;
    parts.keys.push(key)
}

// The servers, taken apart.
fn take_apart<P: Port, C: Clock>(
    alloc: Global,
    servers: List<Server<P, C>>,
) -> Result<ServerParts<P, C>, NoMemory>
    ensures passes { IfOk result (λ parts. parts.passes ≡ passes_of servers) }
    ensures seats { IfOk result (λ parts. parts.seats ≡ seats_of servers) }
    ensures keys { IfOk result (λ parts. parts.keys ≡ keys_of servers) }
{
    let mut parts = ServerParts {
        passes: List::new(alloc),
        seats: List::new(alloc),
        keys: List::new(alloc),
    };
    for server in servers.into_vec() {
        add(&mut parts, server)?;
    }
    Ok(parts)
}

// The servers, taken apart, and the pass that opened the port after theirs.
fn take_all_apart<P: Port, C: Clock>(
    alloc: Global,
    servers: List<Server<P, C>>,
    opener: PortPass<P>,
) -> Result<ServerParts<P, C>, NoMemory>
    ensures passes { IfOk result (λ parts. parts.passes ≡ passes_of servers) }
    ensures seats { IfOk result (λ parts. parts.seats ≡ seats_of servers) }
    ensures keys { IfOk result (λ parts. parts.keys ≡ keys_of servers ++ opener ∷ []) }
{
    let mut parts = take_apart(alloc, servers)?;
    parts.keys.push(opener)?;
    Ok(parts)
}

// Closes the port, and then the clock.
fn close_outside<P: Port + Drop, C: Clock + Drop>(
    port: SharedPort<P>,
    keys: List<PortPass<P>>,
    clock: Shared<C>,
    seats: List<ClockPass<C>>,
) -> Result<(P, C), NoMemory>
    requires all_keys { length keys ≡ port.passes }
    requires keys { All (IsPassOf port) keys }
    requires all_seats { length seats ≡ clock.passes }
    requires seats { All (clock_views.IsPassOf clock) seats }
    ensures port { IfOk result (λ closed. IsClosed port
        (record { faults = P.faults closed.0; opened_with = P.opened_with closed.0; given = P.given closed.0; is_ended = P.is_ended closed.0; retired_count = P.retired_count closed.0; retired = P.retired closed.0 })
        keys) }
    ensures clock { IfOk result (λ closed. All (λ (seat : clock_views.PassView). seat.told ≤ C.moment closed.1) seats) }
{
    let port = port.close(keys)?;
    let clock = clock.close(seats)?;
    Ok((port, clock))
}

// Closes the broker. If a request was won and waits to be collected, which none does between sessions, it asks again.
fn close_broker(rt: &impl Wait, broker: Broker, passes: List<Pass>) -> Result<Account, NoMemory>
    requires all { length passes ≡ broker.logs.room.table.shape.passes }
    requires made { All (λ pass. made_with pass ≡ broker) passes }
    ensures { IfOk result (IsAccountOf broker passes) }
{
    let mut broker = broker;
    let mut passes = passes;
    for _ in rt.forever() {
        match broker.close(rt, passes) {
            BrokerEnd::Closed(account) => return Ok(account),
            BrokerEnd::Untaken {
                broker: again,
                passes: back,
            } => {
                broker = again;
                passes = back;
            }
            BrokerEnd::NoMemory => return Err(NoMemory),
        }
    }
    unreachable!()
}

impl<P: Port + Drop, C: Clock + Drop> Hall<P, C>
where
    P::Link: Drop,
{
    // Closes the port, the clock and the broker, with these passes, which are all.
    fn close_with(
        self,
        rt: &impl Wait,
        parts: ServerParts<P, C>,
    ) -> Result<(Account, P, C), NoMemory>
        requires all_keys { length parts.keys ≡ self.port.passes }
        requires keys { All (IsPassOf self.port) parts.keys }
        requires all_seats { length parts.seats ≡ self.clock.passes }
        requires seats { All (clock_views.IsPassOf self.clock) parts.seats }
        requires all_passes { length parts.passes ≡ self.broker.logs.room.table.shape.passes }
        requires passes { All (λ pass. made_with pass ≡ self.broker) parts.passes }
        ensures account { IfOk result (λ closed. IsAccountOf self.broker parts.passes closed.0) }
        ensures port { IfOk result (λ closed. IsClosed self.port
            (record { faults = P.faults closed.1; opened_with = P.opened_with closed.1; given = P.given closed.1; is_ended = P.is_ended closed.1; retired_count = P.retired_count closed.1; retired = P.retired closed.1 })
            parts.keys) }
        ensures clock { IfOk result (λ closed. All (λ (seat : clock_views.PassView). seat.told ≤ C.moment closed.2) parts.seats) }
    {
        let Hall {
            alloc: _,
            broker,
            clock,
            port,
            queue: _,
        } = self;
        let ServerParts {
            passes,
            seats,
            keys,
        } = parts;
        let (port, clock) = close_outside(port, keys, clock, seats)?;
        let account = close_broker(rt, broker, passes)?;
        Ok((account, port, clock))
    }

    /// Closes the port, the clock and the broker, with all passes that there are. An error if memory ran out.
    pub fn close(
        self,
        rt: &impl Wait,
        servers: List<Server<P, C>>,
        opener: PortPass<P>,
    ) -> Result<(Account, P, C), NoMemory>
        requires idle { AreIdle (seen_by P.Link.taken P.Link.left P.Link.written P.Link.faults P.Link.is_shut) self servers }
        requires opener { IsPassOf self.port opener }
        requires passes { self.broker.logs.room.table.shape.passes ≡ length servers }
        requires seats { self.clock.passes ≡ length servers }
        requires keys { self.port.passes ≡ length servers + 1 }
        ensures { IfOk result (λ closed. HaveClosed self servers opener closed.0
            (record { faults = P.faults closed.1; opened_with = P.opened_with closed.1; given = P.given closed.1; is_ended = P.is_ended closed.1; retired_count = P.retired_count closed.1; retired = P.retired closed.1 })
            (C.moment closed.2)) }
    {
        let parts = take_all_apart(self.alloc, servers, opener)?;
        self.close_with(rt, parts)
    }
}
