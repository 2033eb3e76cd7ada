//! A service over a port in memory that fails as it is opened and later, whose source fails, and whose sink is full.

ghost use Rattle.std.specs.Prelude.{◌≡◌, Some, IfOk};
ghost use Rattle.outside.specs.shared.port.History.{IsNewPort};

use crate::runs::{Faults, NONE, Ran, Wanted, ended_as, joined, numbers, play, prefix, stage_of};
use kbytes::{Bytes, List, NoMemory};
use outside::{MemLink, MemPort};
use std::alloc::Global;
use std::sync::Wait;
use std::test::*;
use std::thread::Threads;

const SERVICE: &[&str] = &[
    "serve",
    "--port",
    "9092",
    "--lanes",
    "2",
    "--connections",
    "3",
];

/// What is printed of one link that is closed at once.
const CLOSED_LINK: &[u8] = b"link 0 calls 0 replies 0 closed\n\
part 0 end 0 high 0 batches 0 bytes 0\ndone\n";

/// What is printed where there is no link.
const NO_LINK: &[u8] = b"part 0 end 0 high 0 batches 0 bytes 0\ndone\n";

// A port with one link, which is closed at once. The port's calls with these numbers fail: the first opens it.
fn port_of(alloc: Global, fails: &[u64]) -> Result<MemPort, NoMemory>
    ensures { IfOk result (λ port. IsNewPort (record { faults = port.plan.faults; opened_with = port.opened_with; given = port.given; is_ended = port.is_ended; retired_count = port.retired_count; retired = Some port.retired })) }
{
    let link = MemLink::new(alloc, Bytes::new(alloc), 4096, List::new(alloc))?;
    let mut links = List::new(alloc);
    links.push(link)?;
    MemPort::new(alloc, links, numbers(alloc, fails)?)
}

// Runs the service over such a port.
fn run_service<R: Threads + Wait + Sync>(
    rt: &R,
    alloc: Global,
    topics: &str,
    fails: &[u64],
    faults: Faults<'_>,
) -> Result<Ran, NoMemory> {
    let text = joined(alloc, &[topics])?;
    let port = port_of(alloc, fails)?;
    let stage = stage_of(alloc, SERVICE, text, port, faults)?;
    Ok(play(rt, alloc, stage))
}

#[test]
fn a_service_is_summed_up_as_far_as_the_sink_takes_it(rt: HostRuntime) {
    for (fails, room, code, printed) in [
        ([].as_slice(), 4096, 0, CLOSED_LINK),
        (&[], 20, 4, CLOSED_LINK),
        // it can't be opened
        (&[0], 4096, 5, NO_LINK),
        (&[0], 20, 5, NO_LINK),
        // the second accept fails
        (&[2], 4096, 5, CLOSED_LINK),
    ] {
        let faults = Faults { room, ..NONE };
        let wanted = Wanted {
            code,
            has_account: true,
            written: prefix(printed, room as usize),
        };
        let ran = run_service(&rt, rt.alloc(), "topic t 1 0\nend\n", fails, faults);
        assert!(rt; ended_as(ran, wanted), "with code {code}");
    }
}

#[test]
fn a_service_without_topics_serves_nothing(rt: HostRuntime) {
    for (topics, reads, code) in [
        ("topic t 1 0\nend\n", [0].as_slice(), 3),
        ("topic t 1 0\nclock 1\nend\n", &[], 2),
    ] {
        let faults = Faults { reads, ..NONE };
        let wanted = Wanted {
            code,
            has_account: false,
            written: b"",
        };
        let ran = run_service(&rt, rt.alloc(), topics, &[], faults);
        assert!(rt; ended_as(ran, wanted));
    }
}
