//! Links and ports in memory, with faults where they are planned.
ghost use Rattle.std.specs.Prelude.{◌≡◌, IfOk};
ghost use Rattle.outside.specs.Wire.{IsNewWire};

use crate::streams::failing;
use kbytes::{List, NoMemory, copied};
use outside::{Failed, Link, MemLink, MemPort, Port};
use std::alloc::Global;
use std::test::*;

// A link from which these bytes come, with room for `room` bytes, whose calls with these numbers fail.
fn link_of(alloc: Global, input: &[u8], room: u64, fails: &[u64]) -> Result<MemLink, NoMemory>
    ensures { IfOk result (λ link. IsNewWire link) }
{
    MemLink::new(alloc, copied(alloc, input)?, room, failing(alloc, fails)?)
}

// What becomes of each read into three bytes, and what stands there after it, where the second call fails.
const READS: &[(Result<usize, Failed>, [u8; 3])] = &[
    (Ok(3), *b"hel"),
    (Err(Failed), *b"hel"),
    (Ok(2), *b"lol"),
    (Ok(0), *b"lol"),
];

// What becomes of each write, of which the first fails, where there is room for 4 bytes.
const WRITES: &[(&[u8], Result<usize, Failed>)] = &[
    (b"abc", Err(Failed)),
    (b"abc", Ok(3)),
    (b"de", Ok(1)),
    (b"e", Err(Failed)),
    (b"", Ok(0)),
];

#[test]
fn a_link_gives_and_takes_its_bytes_and_fails_where_planned(rt: HostRuntime) {
    let mut link = link_of(rt.alloc(), b"hello", 4, &[1, 4]).expect(&rt, "memory");
    let mut into = [0; 3];
    for (want, bytes) in READS {
        assert!(rt; (link.read(&mut into), into) == (*want, *bytes));
    }
    for (part, want) in WRITES {
        assert!(rt; link.write(part) == *want);
    }
    assert!(rt; (link.bytes(), link.was_shut()) == (b"abcd".as_slice(), false));
    link.shut();
    assert!(rt; link.was_shut());
}

// A port with the links `a` and `b`, whose calls with these numbers fail.
fn port_of(alloc: Global, fails: &[u64]) -> Result<MemPort, NoMemory> {
    let mut links = List::new(alloc);
    links.push(link_of(alloc, b"a", 1, &[])?)?;
    links.push(link_of(alloc, b"b", 1, &[])?)?;
    MemPort::new(alloc, links, failing(alloc, fails)?)
}

// The next link gives this byte, and is retired under this number.
fn serves(port: &mut MemPort, number: u64) -> Result<Option<u8>, Failed> {
    let Some(mut link) = port.accept()? else {
        return Ok(None);
    };
    let mut into = [0; 1];
    link.read(&mut into)?;
    link.write(&into)?;
    port.retire(number, link);
    Ok(Some(into[0]))
}

// Whether the last retired link has this number, and these bytes were written to it.
fn hands_back(port: &mut MemPort, number: u64, written: &[u8]) -> bool {
    match port.pop_retired() {
        Some((under, link)) => under == number && link.bytes() == written,
        None => false,
    }
}

const SERVED: &[(u64, Result<Option<u8>, Failed>)] = &[
    (5, Ok(Some(b'a'))),
    (6, Err(Failed)),
    (7, Ok(Some(b'b'))),
    (8, Ok(None)),
];

#[test]
fn a_port_gives_its_links_and_fails_where_planned(rt: HostRuntime) {
    let mut port = port_of(rt.alloc(), &[0, 3]).expect(&rt, "memory");
    assert!(rt; (port.open(9092), port.open(9092)) == (Err(Failed), Ok(())));
    for (number, want) in SERVED {
        assert!(rt; serves(&mut port, *number) == *want);
    }
    assert!(rt; hands_back(&mut port, 7, b"b") && hands_back(&mut port, 5, b"a"));
    assert!(rt; port.pop_retired().is_none());
}
