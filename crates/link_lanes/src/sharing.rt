//! What lanes share, as it is made: the broker, the clock, the port and the queue, each with its passes.
//!
//! Each step where memory may run out has few values to drop: what was made before it is in one struct.
ghost use Rattle.std.specs.Prelude.{◌≡◌, ◌≤◌, ◌+◌, IfOk};
ghost use Rattle.outside.specs.shared.port.Fresh.{fresh_passes};
ghost use Rattle.outside.specs.shared.port.History.{IsNewPort};
ghost use Rattle.link_lanes.specs.Begun.{AreWithin, HasHall};
ghost use Rattle.link_lanes.specs.declared.runs.TheConstants.{MOST_LANES};

use crate::hall::Hall;
use crate::server_parts::ServerParts;
use kbytes::{List, NoMemory};
use kwire::Config;
use outside::shared::port::{PortPass, SharedPort};
use outside::shared::queue::{LinkQueue, QueuePass};
use outside::{Clock, Port};
use session::{ClockPass, Shared};
use shared_broker::{Broker, Pass};
use std::alloc::Global;

// The broker and the clock.
#[derive(Drop)]
struct Within<C: Clock> {
    broker: Broker,
    passes: List<Pass>,
    clock: Shared<C>,
    seats: List<ClockPass<C>>,
}

// The broker, the clock and the port.
#[derive(Drop)]
struct Shares<P: Port, C: Clock> {
    within: Within<C>,
    port: SharedPort<P>,
    keys: List<PortPass<P>>,
}

/// A hall, and the passes of what it has: those of which servers are made, the one that opens the port, and the first one of the queue.
#[derive(Drop)]
pub struct NewHall<P: Port, C: Clock> {
    pub hall: Hall<P, C>,
    pub parts: ServerParts<P, C>,
    pub opener: PortPass<P>,
    pub first: QueuePass<P::Link>,
}

// Shares a new broker and a clock among so many lanes.
fn share_within<C: Clock + Drop>(
    alloc: Global,
    config: Config,
    clock: C,
    lanes: u32,
) -> Result<Within<C>, NoMemory>
    requires lanes { (1 ≤ lanes) × (lanes ≤ MOST_LANES) }
    ensures { IfOk result (λ made. AreWithin config lanes made.broker made.passes made.clock made.seats) }
{
    let (broker, passes) = Broker::make(alloc, config, lanes)?;
    let (clock, seats) = Shared::make(alloc, clock, lanes)?;
    Ok(Within {
        broker,
        passes,
        clock,
        seats,
    })
}

// Shares the port too, among one pass more.
fn share<P: Port + Drop, C: Clock + Drop>(
    alloc: Global,
    config: Config,
    port: P,
    clock: C,
    lanes: u32,
    most: u64,
) -> Result<Shares<P, C>, NoMemory>
    requires new { IsNewPort (record { faults = P.faults port; opened_with = P.opened_with port; given = P.given port; is_ended = P.is_ended port; retired_count = P.retired_count port; retired = P.retired port }) }
    requires lanes { (1 ≤ lanes) × (lanes ≤ MOST_LANES) }
    ensures within { IfOk result (λ made. AreWithin config lanes made.within.broker made.within.passes made.within.clock made.within.seats) }
    ensures terms { IfOk result (λ made. made.port.terms ≡ record { before = P.faults port; most = most }) }
    ensures size { IfOk result (λ made. made.port.passes ≡ lanes + 1) }
    ensures keys { IfOk result (λ made. made.keys ≡ fresh_passes made.port.id made.port.terms (lanes + 1)) }
{
    let within = share_within(alloc, config, clock, lanes)?;
    let (port, keys) = SharedPort::make(alloc, port, most, lanes + 1)?;
    Ok(Shares { within, port, keys })
}

/// Makes a hall for so many lanes, whose port gives so many links at most. An error if memory ran out.
pub fn make_hall<P: Port + Drop, C: Clock + Drop>(
    alloc: Global,
    config: Config,
    port: P,
    clock: C,
    lanes: u32,
    most: u64,
) -> Result<NewHall<P, C>, NoMemory>
where
    P::Link: Drop,
    requires new { IsNewPort (record { faults = P.faults port; opened_with = P.opened_with port; given = P.given port; is_ended = P.is_ended port; retired_count = P.retired_count port; retired = P.retired port }) }
    requires lanes { (1 ≤ lanes) × (lanes ≤ MOST_LANES) }
    ensures { IfOk result (λ made. HasHall config lanes most (P.faults port) made.hall made.parts.passes made.parts.seats made.parts.keys made.opener made.first) }
{
    let shares = share(alloc, config, port, clock, lanes, most)?;
    let (queue, first) = LinkQueue::make(alloc, lanes as usize)?;
    let Shares {
        within,
        port,
        mut keys,
    } = shares;
    let Within {
        broker,
        passes,
        clock,
        seats,
    } = within;
    let Some(opener) = keys.pop() else {
        unreachable!()
    };
    Ok(NewHall {
        hall: Hall {
            alloc,
            broker,
            clock,
            port,
            queue,
        },
        parts: ServerParts {
            passes,
            seats,
            keys,
        },
        opener,
        first,
    })
}
