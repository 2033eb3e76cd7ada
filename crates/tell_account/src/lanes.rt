//! The lines of a trace that bring bytes as links in memory, one a line, which lanes serve beside each other. `main` tells the account.

ghost use Rattle.std.specs.Prelude.{◌≤◌, IfOk, All};
ghost use Rattle.outside.specs.Wire.{IsNewWire};
ghost use Rattle.trace_file.specs.IsInOrder.{AreNewTopics};

use audit::{Account, print_serve};
use kbytes::{Bytes, List, NoMemory, copied};
use link_lanes::{LaneRun, MOST_LANES, Serving, serve_links, served_accounts_are_printable};
use outside::{MemClock, MemLink, MemPort};
use std::alloc::Global;
use std::sync::Wait;
use std::thread::Threads;
use trace_file::{Line, REPLAY_PORT, config_of};

/// The bytes that may be written to a link.
const ROOM: u64 = 65_536;

/// The most links of a run.
const MOST_LINKS: u64 = 65_536;

/// An account, and what is printed of it.
#[derive(Drop)]
pub struct Told {
    pub account: Account,
    pub text: Bytes,
}

// A link that brings these bytes and then ends.
fn link_of(alloc: Global, bytes: &[u8]) -> Result<MemLink, NoMemory>
    ensures { IfOk result (λ link. IsNewWire link) }
{
    MemLink::new(alloc, copied(alloc, bytes)?, ROOM, List::new(alloc))
}

// A link for each line that brings bytes, in order.
fn links_of(alloc: Global, lines: &[Line]) -> Result<List<MemLink>, NoMemory>
    ensures { IfOk result (λ links. All IsNewWire links) }
{
    let mut links = List::new(alloc);
    for line in lines {
        if let Line::Feed { bytes, .. } = line {
            links.push(link_of(alloc, bytes.as_slice())?)?;
        }
    }
    Ok(links)
}

/// Serves the links on that many lanes, with the topics of the lines. The clock goes on by a millisecond each time that it is let rest.
pub fn serve_lines<R: Threads + Wait + Sync>(
    rt: &R,
    alloc: Global,
    lines: &[Line],
    lanes: u32,
) -> Result<Told, NoMemory>
    requires lanes { (1 ≤ lanes) × (lanes ≤ MOST_LANES) }
    requires topics { AreNewTopics lines.now }
{
    let config = config_of(alloc, lines, REPLAY_PORT)?;
    let port = MemPort::new(alloc, links_of(alloc, lines)?, List::new(alloc))?;
    let serving = Serving {
        number: REPLAY_PORT,
        lanes,
        most: MOST_LINKS,
    };
    let run = serve_links(rt, alloc, config, port, MemClock::new(0, 1), serving)?;
    // a law: it does nothing
    served_accounts_are_printable();
    let mut text = Bytes::new(alloc);
    print_serve(alloc, &run.account, &mut text)?;
    let LaneRun { account, .. } = run;
    Ok(Told { account, text })
}
