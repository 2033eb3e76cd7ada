//! Runs of lanes over links in memory, some of which fail, and a fetch that waits in one lane for the produce of another.
ghost use Rattle.std.specs.Prelude.{◌≡◌, ◌≤◌, [], Some, IfOk, All};
ghost use Rattle.outside.specs.Wire.{IsNewWire};
ghost use Rattle.outside.specs.shared.port.History.{IsNewPort};

use crate::frames::{FETCH, FETCHED, PRODUCE, PRODUCED};
use crate::slow_link::SlowLink;
use crate::slow_port::SlowPort;
use crate::standing_clock::StandingClock;
use audit::print_serve;
use kbytes::{Bytes, List, NoMemory, copied};
use kwire::Config;
use link_lanes::{LaneRun, MOST_LANES, Serving, serve_links, served_accounts_are_printable};
use outside::{Clock, MemClock, MemLink, MemPort, Port};
use std::alloc::Global;
use std::sync::Wait;
use std::sync::atomic::AtomicBool;
use std::test::*;
use std::thread::Threads;
use std::time;

// The topic `t` with two partitions.
fn config(alloc: Global) -> Result<Config, NoMemory> {
    let mut config = Config::new(alloc, 9092);
    match config.add(b"t", 2, 0, 1) {
        Ok(()) => Ok(config),
        Err(_) => Err(NoMemory),
    }
}

// The calls of these numbers fail.
fn failing(alloc: Global, numbers: &[u64]) -> Result<List<u64>, NoMemory> {
    let mut list = List::new(alloc);
    for number in numbers {
        list.push(*number)?;
    }
    Ok(list)
}

// A run over a port and a clock, and what is printed of it.
#[derive(Drop)]
struct Told<P: Drop, C: Drop> {
    run: LaneRun<P, C>,
    text: Bytes,
}

// Port 9092, so many lanes, and at most so many links.
fn serving(lanes: u32, most: u64) -> Serving
    ensures { (result.lanes ≡ lanes) × (result.most ≡ most) }
{
    Serving {
        number: 9092,
        lanes,
        most,
    }
}

// Serves links of the port on lanes, at the topic `t` with one partition.
fn tell<R: Threads + Wait + Sync, P: Port + Send + Drop, C: Clock + Send + Drop>(
    rt: &R,
    alloc: Global,
    port: P,
    clock: C,
    serving: Serving,
) -> Result<Told<P, C>, NoMemory>
where
    P::Link: Send + Drop,
    requires new { IsNewPort (record { faults = P.faults port; opened_with = P.opened_with port; given = P.given port; is_ended = P.is_ended port; retired_count = P.retired_count port; retired = P.retired port }) }
    requires lanes { (1 ≤ serving.lanes) × (serving.lanes ≤ MOST_LANES) }
{
    let run = serve_links(rt, alloc, config(alloc)?, port, clock, serving)?;
    // a law: it does nothing
    served_accounts_are_printable();
    let mut text = Bytes::new(alloc);
    print_serve(alloc, &run.account, &mut text)?;
    Ok(Told { run, text })
}

// What a link in memory sends before it ends, and the numbers of its calls that fail.
#[derive(Clone, Copy)]
struct Sent<'a> {
    bytes: &'a [u8],
    fails: &'a [u64],
}

const A_PRODUCE: Sent<'static> = Sent {
    bytes: &PRODUCE,
    fails: &[],
};

const A_FETCH: Sent<'static> = Sent {
    bytes: &FETCH,
    fails: &[],
};

impl Sent<'_> {
    fn link(&self, alloc: Global) -> Result<MemLink, NoMemory>
        ensures { IfOk result (λ link. IsNewWire link) }
    {
        MemLink::new(
            alloc,
            copied(alloc, self.bytes)?,
            200,
            failing(alloc, self.fails)?,
        )
    }
}

// What comes of some links in memory.
#[derive(Clone, Copy)]
struct Case<'a> {
    links: &'a [Sent<'a>],
    // the numbers of the calls of the port that fail
    fails: &'a [u64],
    most: u64,
    has_failed: bool,
    // how many bytes each link that is handed back was sent: none, or a whole reply
    sent: &'a [usize],
    text: &'a str,
}

impl Case<'_> {
    fn port(&self, alloc: Global) -> Result<MemPort, NoMemory>
        ensures { IfOk result (λ port. IsNewPort (record { faults = port.plan.faults; opened_with = port.opened_with; given = port.given; is_ended = port.is_ended; retired_count = port.retired_count; retired = Some port.retired })) }
    {
        let mut links = List::new(alloc);
        for sent in self.links {
            links.push(sent.link(alloc)?)?;
        }
        MemPort::new(alloc, links, failing(alloc, self.fails)?)
    }

    // Whether each link comes back once, shut, and was sent so much.
    fn comes_back(&self, mut port: MemPort) -> bool {
        let mut seen = [false; 8];
        for _link in self.sent {
            let Some((number, link)) = port.pop_retired() else {
                return false;
            };
            let is_right = link.was_shut()
                && self.sent.get(number as usize) == Some(&link.bytes().len());
            match seen.get_mut(number as usize) {
                Some(before) if !*before && is_right => *before = true,
                _ => return false,
            }
        }
        port.pop_retired().is_none()
    }

    // Whether two lanes serve the links so.
    fn is_served<R: Threads + Wait + Sync>(&self, rt: &R, alloc: Global) -> bool {
        let Ok(port) = self.port(alloc) else {
            return false;
        };
        match tell(rt, alloc, port, MemClock::new(0, 1), serving(2, self.most)) {
            Ok(Told { run, text }) => {
                text.as_slice() == self.text.as_bytes()
                    && run.has_failed == self.has_failed
                    && self.comes_back(run.port)
            }
            Err(_) => false,
        }
    }
}

const FIVE: &str = "\
link 0 calls 1 replies 1 closed
link 1 calls 1 replies 1 closed
link 2 calls 1 replies 1 closed
link 3 calls 1 replies 1 closed
link 4 calls 1 replies 1 closed
part 0 end 5 high 5 batches 5 bytes 345
part 1 end 0 high 0 batches 0 bytes 0
done
";

const WITH_FAULTS: &str = "\
link 0 calls 1 replies 1 write-fault
link 1 calls 1 replies 1 closed
link 2 calls 0 replies 0 read-fault
part 0 end 2 high 2 batches 2 bytes 138
part 1 end 0 high 0 batches 0 bytes 0
done
";

const ONE: &str = "\
link 0 calls 1 replies 1 closed
part 0 end 1 high 1 batches 1 bytes 69
part 1 end 0 high 0 batches 0 bytes 0
done
";

// All links are served, to the end of the port.
const WHOLE: Case<'static> = Case {
    links: &[A_PRODUCE; 5],
    fails: &[],
    most: 9,
    has_failed: false,
    sent: &[PRODUCED.len(); 5],
    text: FIVE,
};

// The first link's first write fails and the third link's first read; no more links are asked for than may come.
const WITH_TWO_FAULTS: Case<'static> = Case {
    links: &[
        Sent {
            bytes: &PRODUCE,
            fails: &[1],
        },
        A_PRODUCE,
        Sent {
            bytes: &PRODUCE,
            fails: &[0],
        },
        A_PRODUCE,
    ],
    most: 3,
    sent: &[0, PRODUCED.len(), 0],
    text: WITH_FAULTS,
    ..WHOLE
};

// An accept fails after the first link.
const ACCEPT_FAILS: Case<'static> = Case {
    links: &[A_PRODUCE; 3],
    fails: &[2],
    has_failed: true,
    sent: &[PRODUCED.len()],
    text: ONE,
    ..WHOLE
};

#[test]
fn links_are_served_and_come_back_once(rt: HostRuntime) {
    for case in [WHOLE, WITH_TWO_FAULTS, ACCEPT_FAILS] {
        assert!(rt; case.is_served(&rt, rt.alloc()), "{}", case.text);
    }
}

const MET: &str = "\
link 0 calls 1 replies 1 closed
link 1 calls 1 replies 1 closed
part 0 end 1 high 1 batches 1 bytes 69
part 1 end 0 high 0 batches 0 bytes 0
done
";

// A link that sends this once that is due.
fn slow<'a, R>(
    rt: &'a R,
    alloc: Global,
    sent: Sent<'_>,
    is_due: &'a AtomicBool,
) -> Result<SlowLink<'a, R>, NoMemory> {
    Ok(SlowLink {
        rt,
        inner: sent.link(alloc)?,
        is_due,
        faults: 0,
    })
}

// Two links, the last first.
fn both<'a, R>(
    rt: &'a R,
    alloc: Global,
    is_due: &'a AtomicBool,
    has_rested: &'a AtomicBool,
) -> Result<Vec<SlowLink<'a, R>>, NoMemory> {
    let mut links = Vec::new(alloc);
    links.push(slow(rt, alloc, A_PRODUCE, has_rested)?)?;
    links.push(slow(rt, alloc, A_FETCH, is_due)?)?;
    Ok(links)
}

// The first fetches and waits. The second produces, once the clock was let rest, which is while the fetch waits.
fn meet<'a, R: Threads + Wait + time::Clock + Sync>(
    rt: &'a R,
    alloc: Global,
    is_due: &'a AtomicBool,
    has_rested: &'a AtomicBool,
) -> bool {
    let Ok(links) = both(rt, alloc, is_due, has_rested) else {
        return false;
    };
    let port = SlowPort::new(alloc, links);
    let clock = StandingClock::new(has_rested);
    match tell(rt, alloc, port, clock, serving(2, 2)) {
        Ok(Told { run, text }) => text.as_slice() == MET.as_bytes()
            && run.port.was_sent(0, &FETCHED)
            && run.port.was_sent(1, &PRODUCED),
        Err(_) => false,
    }
}

#[test]
fn two_lanes_run_beside_each_other(rt: HostRuntime) {
    let is_due = AtomicBool::new(true);
    let has_rested = AtomicBool::new(false);
    assert!(rt; meet(&rt, rt.alloc(), &is_due, &has_rested));
}
