//! `serve_links`, which a program calls: it makes the hall, opens the port, runs the lanes in threads, and closes all that they shared.
ghost use Rattle.std.specs.Prelude.{◌≡◌, ◌≤◌, [], false, All, IfOk, length};
ghost use Rattle.outside.specs.shared.port.History.{IsNewPort};
ghost use Rattle.outside.specs.shared.port.PortViews.{IsPassOf};
ghost use Rattle.link_lanes.specs.Begun.{AreNew, HasBegun};
ghost use Rattle.link_lanes.specs.Closed.{HasOpened, HasStopped};
ghost use Rattle.link_lanes.specs.Gathered.{IsOver};
ghost use Rattle.link_lanes.specs.Going.{HasGone, IsReady};
ghost use Rattle.link_lanes.specs.Halls.{ServerView};
ghost use Rattle.link_lanes.specs.LaneRun.{IsLaneRun};
ghost use Rattle.link_lanes.specs.Seen.{seen_by};
ghost use Rattle.link_lanes.specs.Together.{AreIdle, AreReady, HaveGone};
ghost use Rattle.link_lanes.specs.declared.runs.TheConstants.{MOST_LANES};

use crate::books::books_are_served;
use crate::gathering::{finish, gather};
use crate::hall::Hall;
use crate::lane::Lane;
use crate::making::seat_lanes;
use crate::server::Server;
use crate::sharing::{NewHall, make_hall};
use audit::Account;
use kbytes::{List, NoMemory};
use kwire::Config;
use outside::shared::port::{Opening, PortPass};
use outside::shared::queue::QueuePass;
use outside::{Clock, Port};
use std::alloc::Global;
use std::sync::Wait;
use std::thread;
use std::thread::Threads;

/// The most lanes of a run.
pub const MOST_LANES: u32 = 64;

/// What is to be served: the number under which the port is opened, on how many lanes, and how many links at most.
#[derive(Clone, Copy, PartialEq, Eq)]
pub struct Serving {
    pub number: u16,
    /// 1 to `MOST_LANES`.
    pub lanes: u32,
    pub most: u64,
}

/// What a run came to. The port and the clock are those that were handed in.
#[derive(Drop)]
pub struct LaneRun<P: Drop, C: Drop> {
    pub account: Account,
    pub port: P,
    pub clock: C,
    /// Whether the port failed. If it didn't, it gave as many links as it might, or no more came.
    pub has_failed: bool,
}

// All that a run begins with: what its lanes share, the lanes, the pass that opens the port, and the rest of the first pass of the queue.
#[derive(Drop)]
struct Begun<P: Port, C: Clock> {
    hall: Hall<P, C>,
    lanes: List<Lane<P, C>>,
    opener: PortPass<P>,
    first: QueuePass<P::Link>,
}

// Makes all that.
fn begin<P: Port + Drop, C: Clock + Drop>(
    alloc: Global,
    config: Config,
    port: P,
    clock: C,
    serving: Serving,
) -> Result<Begun<P, C>, NoMemory>
where
    P::Link: Drop,
    requires new { IsNewPort (record { faults = P.faults port; opened_with = P.opened_with port; given = P.given port; is_ended = P.is_ended port; retired_count = P.retired_count port; retired = P.retired port }) }
    requires lanes { (1 ≤ serving.lanes) × (serving.lanes ≤ MOST_LANES) }
    ensures { IfOk result (λ begun. HasBegun config serving.lanes serving.most (P.faults port) begun.hall begun.lanes begun.opener begun.first) }
{
    let NewHall {
        hall,
        parts,
        opener,
        mut first,
    } = make_hall(alloc, config, port, clock, serving.lanes, serving.most)?;
    let lanes = seat_lanes(&hall, &mut first, parts)?;
    Ok(Begun {
        hall,
        lanes,
        opener,
        first,
    })
}

// Each lane serves links, in a thread of its own if one can be started.
fn run_lanes<R: Threads + Wait + Sync, P: Port + Send, C: Clock + Send>(
    rt: &R,
    hall: &Hall<P, C>,
    lanes: &mut [Lane<P, C>],
)
where
    P::Link: Send + Drop,
    requires some { 1 ≤ length lanes.old }
    requires ready { AreReady (seen_by P.Link.taken P.Link.left P.Link.written P.Link.faults P.Link.is_shut) hall.now lanes.old }
    ensures { HaveGone (seen_by P.Link.taken P.Link.left P.Link.written P.Link.faults P.Link.is_shut) hall.now lanes.old lanes.new }
{
    let threads = lanes.len();
    let work = |_at: usize, lane: &mut Lane<P, C>|
        requires ready { IsReady (seen_by P.Link.taken P.Link.left P.Link.written P.Link.faults P.Link.is_shut) hall.now lane.old }
        requires running { lane.old.is_stopped ≡ false }
        ensures gone { lane.new.is_stopped ≡ false → HasGone (seen_by P.Link.taken P.Link.left P.Link.written P.Link.faults P.Link.is_shut) hall.entry.now lane.old lane.new }
    { lane.work(rt, hall) };
    thread::for_each_mut(rt, lanes, threads, &work);
}

// The lanes serve all links that come, and what they left in the queue is served. Answers whether the port failed.
fn serve_all<R: Threads + Wait + Sync, P: Port + Send, C: Clock + Send>(
    rt: &R,
    hall: &Hall<P, C>,
    lanes: List<Lane<P, C>>,
    first: QueuePass<P::Link>,
) -> Result<(List<Server<P, C>>, bool), NoMemory>
where
    P::Link: Send + Drop,
    requires new { AreNew hall.now lanes first }
    ensures idle { IfOk result (λ done. AreIdle (seen_by P.Link.taken P.Link.left P.Link.written P.Link.faults P.Link.is_shut) hall.now done.0) }
    ensures size { IfOk result (λ done. length done.0 ≡ length lanes) }
    ensures over { IfOk result (λ done. IsOver hall.now done.1 done.0) }
{
    let mut lanes = lanes;
    let mut first = first;
    run_lanes(rt, hall, lanes.as_mut_slice());
    let servers = gather(hall, &mut first, lanes)?;
    finish(rt, hall, servers, first)
}

// No link is served.
fn serve_none<P: Port, C: Clock>(
    hall: &Hall<P, C>,
    lanes: List<Lane<P, C>>,
    first: QueuePass<P::Link>,
) -> Result<List<Server<P, C>>, NoMemory>
    requires new { AreNew hall.now lanes first }
    ensures idle { IfOk result (AreIdle (seen_by P.Link.taken P.Link.left P.Link.written P.Link.faults P.Link.is_shut) hall.now) }
    ensures size { IfOk result (λ servers. length servers ≡ length lanes) }
    ensures unasked { IfOk result (All (λ (server : ServerView P.Link). server.key.own ≡ [])) }
{
    let mut first = first;
    gather(hall, &mut first, lanes)
}

// Opens the port, and serves the links that come if that succeeds. Answers whether the port failed.
fn serve<R: Threads + Wait + Sync, P: Port + Send, C: Clock + Send>(
    rt: &R,
    hall: &Hall<P, C>,
    number: u16,
    opener: &mut PortPass<P>,
    lanes: List<Lane<P, C>>,
    first: QueuePass<P::Link>,
) -> Result<(List<Server<P, C>>, bool), NoMemory>
where
    P::Link: Send + Drop,
    requires new { AreNew hall.now lanes first }
    requires opener { IsPassOf hall.now.port opener.old }
    requires fresh { opener.old.own ≡ [] }
    ensures idle { IfOk result (λ done. AreIdle (seen_by P.Link.taken P.Link.left P.Link.written P.Link.faults P.Link.is_shut) hall.now done.0) }
    ensures size { IfOk result (λ done. length done.0 ≡ length lanes) }
    ensures opened { IfOk result (λ done. HasOpened number opener.new done.0) }
    ensures over { IfOk result (λ done. HasStopped hall.now opener.new done.1 done.0) }
    ensures opener { IsPassOf hall.now.port opener.new }
{
    match hall.port.open(rt, opener, number) {
        Opening::Opened => serve_all(rt, hall, lanes, first),
        Opening::Faulted => Ok((serve_none(hall, lanes, first)?, true)),
        Opening::NoMemory => Err(NoMemory),
    }
}

/// Opens the port under its number, and serves its links on that many lanes, each in a thread of its own if one can be started, until it gave as
/// many as it may, no more come, or it fails. The port is new: it was never opened, it gave and took back no link, and it didn't say that no
/// more come. An error if memory ran out, here or as a session was ended.
pub fn serve_links<R: Threads + Wait + Sync, P: Port + Send + Drop, C: Clock + Send + Drop>(
    rt: &R,
    alloc: Global,
    config: Config,
    port: P,
    clock: C,
    serving: Serving,
) -> Result<LaneRun<P, C>, NoMemory>
where
    P::Link: Send + Drop,
    requires new { IsNewPort (record { faults = P.faults port; opened_with = P.opened_with port; given = P.given port; is_ended = P.is_ended port; retired_count = P.retired_count port; retired = P.retired port }) }
    requires lanes { (1 ≤ serving.lanes) × (serving.lanes ≤ MOST_LANES) }
    ensures { IfOk result (λ run. IsLaneRun (seen_by P.Link.taken P.Link.left P.Link.written P.Link.faults P.Link.is_shut)
        (record { config = config; number = serving.number; most = serving.most; before = P.faults port }) run.account
        (record { faults = P.faults run.port; opened_with = P.opened_with run.port; given = P.given run.port; is_ended = P.is_ended run.port; retired_count = P.retired_count run.port; retired = P.retired run.port })
        (C.moment run.clock) run.has_failed) }
{
    let Begun {
        hall,
        lanes,
        mut opener,
        first,
    } = begin(alloc, config, port, clock, serving)?;
    let (servers, has_failed) = serve(rt, &hall, serving.number, &mut opener, lanes, first)?;
    // a law: it does nothing
    books_are_served();
    let (account, port, clock) = hall.close(rt, servers, opener)?;
    Ok(LaneRun {
        account,
        port,
        clock,
        has_failed,
    })
}
