//! The lanes of a hall as they are made.
ghost use Rattle.std.specs.Prelude.{◌≡◌, ◌<◌, ◌-◌, IfOk, OnOk, length, map};
ghost use Rattle.outside.specs.shared.queue.QueueViews.{IsPassOf};
ghost use Rattle.link_lanes.specs.Made.{new_lane, seated, with_fewer_parts};

use crate::hall::Hall;
use crate::lane::Lane;
use crate::server::Server;
use crate::server_parts::ServerParts;
use kbytes::{List, NoMemory};
use outside::shared::port::PortPass;
use outside::shared::queue::QueuePass;
use outside::{Clock, Port};
use session::ClockPass;
use shared_broker::Pass;
use std::alloc::Global;

/// A server of each pass of the broker, with a pass of the clock and one of the port, in their order.
pub fn seat_servers<P: Port, C: Clock>(
    alloc: Global,
    passes: List<Pass>,
    seats: List<ClockPass<C>>,
    keys: List<PortPass<P>>,
) -> Result<List<Server<P, C>>, NoMemory>
    requires seats { length seats ≡ length passes }
    requires keys { length keys ≡ length passes }
    ensures { IfOk result (λ servers. servers ≡ seated passes seats keys) }
{
    let mut seats_left = seats.into_vec().into_iter();
    let mut keys_left = keys.into_vec().into_iter();
    let mut servers = List::new(alloc);
    for pass in passes.into_vec() {
        let Some(seat) = seats_left.next() else {
            unreachable!()
        };
        let Some(key) = keys_left.next() else {
            unreachable!()
        };
        servers.push(Server { pass, seat, key })?;
    }
    Ok(servers)
}

/// A lane for each server, in their order, each with one part of the first pass of the queue.
pub fn make_lanes<P: Port, C: Clock>(
    hall: &Hall<P, C>,
    first: &mut QueuePass<P::Link>,
    servers: List<Server<P, C>>,
) -> Result<List<Lane<P, C>>, NoMemory>
    requires queue { IsPassOf hall.now.queue first.old }
    requires parts { length servers < first.old.parts }
    ensures lanes { IfOk result (λ lanes. lanes ≡ map (new_lane hall.now.queue) servers) }
    ensures first { OnOk result (first.new ≡ with_fewer_parts (length servers) first.old) }
{
    let mut lanes = List::new(hall.alloc);
    for server in servers.into_vec() {
        let hand = hall.queue.another(first);
        lanes.push(Lane {
            server,
            hand,
            is_stopped: false,
        })?;
    }
    Ok(lanes)
}

/// A lane for each server that has its share of these parts, in their order, each with one part of the first pass of the queue.
pub fn seat_lanes<P: Port, C: Clock>(
    hall: &Hall<P, C>,
    first: &mut QueuePass<P::Link>,
    parts: ServerParts<P, C>,
) -> Result<List<Lane<P, C>>, NoMemory>
    requires seats { length parts.seats ≡ length parts.passes }
    requires keys { length parts.keys ≡ length parts.passes }
    requires queue { IsPassOf hall.now.queue first.old }
    requires room { length parts.passes < first.old.parts }
    ensures lanes { IfOk result (λ lanes. lanes ≡ map (new_lane hall.now.queue) (seated parts.passes parts.seats parts.keys)) }
    ensures first { OnOk result (first.new ≡ with_fewer_parts (length parts.passes) first.old) }
{
    let ServerParts {
        passes,
        seats,
        keys,
    } = parts;
    let servers = seat_servers(hall.alloc, passes, seats, keys)?;
    make_lanes(hall, first, servers)
}
