//! The lanes once their threads are joined: their passes of the queue become one, and what is left in the queue is served.
ghost use Rattle.std.specs.Prelude.{◌≡◌, ◌≤◌, false, All, IfOk, OnOk, length, map};
ghost use Rattle.outside.specs.shared.queue.Passes.{joined};
ghost use Rattle.outside.specs.shared.queue.QueueViews.{IsPassOf};
ghost use Rattle.link_lanes.specs.Gathered.{AreGathered, IsOver, with_all};
ghost use Rattle.link_lanes.specs.Halls.{LaneView};
ghost use Rattle.link_lanes.specs.Seen.{seen_by};
ghost use Rattle.link_lanes.specs.Together.{AreIdle};

use crate::hall::Hall;
use crate::lane::{Lane, LaneEnd};
use crate::server::Server;
use kbytes::{List, NoMemory};
use outside::shared::queue::QueuePass;
use outside::{Clock, Port};
use std::sync::Wait;

// The server of a lane, whose pass of the queue joins the first one.
fn dismiss<P: Port, C: Clock>(
    hall: &Hall<P, C>,
    first: &mut QueuePass<P::Link>,
    lane: Lane<P, C>,
) -> Server<P, C>
    requires queue { IsPassOf hall.now.queue first.old × IsPassOf hall.now.queue lane.hand }
    ensures server { result ≡ lane.server }
    ensures first { first.new ≡ joined first.old lane.hand }
{
    let Lane {
        server,
        hand,
        is_stopped: _,
    } = lane;
    hall.queue.absorb(first, hand);
    server
}

/// The servers of all lanes, whose passes of the queue join the first one. An error if one of them ran out of memory.
pub fn gather<P: Port, C: Clock>(
    hall: &Hall<P, C>,
    first: &mut QueuePass<P::Link>,
    lanes: List<Lane<P, C>>,
) -> Result<List<Server<P, C>>, NoMemory>
    requires queue { IsPassOf hall.now.queue first.old }
    requires each { All (λ (lane : LaneView P.Link). lane.is_stopped ≡ false → IsPassOf hall.now.queue lane.hand) lanes }
    ensures running { OnOk result (All (λ (lane : LaneView P.Link). lane.is_stopped ≡ false) lanes) }
    ensures servers { IfOk result (λ servers. servers ≡ map (λ (lane : LaneView P.Link). lane.server) lanes) }
    ensures first { OnOk result (first.new ≡ with_all first.old lanes) }
{
    let mut servers = List::new(hall.alloc);
    for lane in lanes.into_vec() {
        if lane.is_stopped {
            return Err(NoMemory);
        }
        servers.push(dismiss(hall, first, lane))?;
    }
    Ok(servers)
}

/// Serves what is left in the queue, and answers whether the port failed. An error if memory ran out.
pub fn finish<P: Port, C: Clock>(
    rt: &impl Wait,
    hall: &Hall<P, C>,
    servers: List<Server<P, C>>,
    first: QueuePass<P::Link>,
) -> Result<(List<Server<P, C>>, bool), NoMemory>
where
    P::Link: Drop,
    requires some { 1 ≤ length servers }
    requires gathered { AreGathered (seen_by P.Link.taken P.Link.left P.Link.written P.Link.faults P.Link.is_shut) hall.now servers first }
    ensures idle { IfOk result (λ done. AreIdle (seen_by P.Link.taken P.Link.left P.Link.written P.Link.faults P.Link.is_shut) hall.now done.0) }
    ensures size { IfOk result (λ done. length done.0 ≡ length servers) }
    ensures over { IfOk result (λ done. IsOver hall.now done.1 done.0) }
{
    let mut servers = servers;
    let Some(server) = servers.pop() else {
        unreachable!()
    };
    let mut lane = Lane {
        server,
        hand: first,
        is_stopped: false,
    };
    let end = lane.run(rt, hall);
    servers.push(lane.server)?;
    match end {
        LaneEnd::Over => Ok((servers, false)),
        LaneEnd::Failed => Ok((servers, true)),
        LaneEnd::NoMemory => Err(NoMemory),
    }
}
