//! A follower over links in memory and over a socket. The frames were made apart from this repository's code, from the layouts in
//! `docs/protocol.md`.
ghost use Rattle.std.specs.Prelude.{IfOk};
ghost use Rattle.outside.specs.Wire.{IsNewWire};

use follower::{Dial, FollowEnd, MemDial, Replica, TakeFault, TcpDial, follow, run_follower};
use kbytes::{List, NoMemory, copied};
use outside::{Failed, Link, MemLink, MemSink, Port, TcpPort};
use std::alloc::{AllocError, Global};
use std::net::{Net, TcpListener, TcpStream};
use std::test::*;

/// The request of follower 1 of `t`/0 with correlation id 2, of an empty copy.
const ASKED: [u8; 58] = [
    0, 0, 0, 54, 0, 1, 0, 4, 0, 0, 0, 2, 255, 255, 0, 0, 0, 1, 0, 0, 1, 244, 0, 0, 0, 1, 0, 16, 0,
    0, 0, 0, 0, 0, 1, 0, 1, 116, 0, 0, 0, 1, 0, 0, 0, 0, 0, 0, 0, 0, 0, 0, 0, 0, 0, 16, 0, 0,
];

/// The reply to the request with correlation id 0: a batch of one record, and the high watermark 1.
const BROUGHT: [u8; 122] = [
    0, 0, 0, 118, 0, 0, 0, 0, 0, 0, 0, 0, 0, 0, 0, 1, 0, 1, 116, 0, 0, 0, 1, 0, 0, 0, 0, 0, 0, 0,
    0, 0, 0, 0, 0, 0, 1, 0, 0, 0, 0, 0, 0, 0, 1, 255, 255, 255, 255, 0, 0, 0, 69, 0, 0, 0, 0, 0, 0,
    0, 0, 0, 0, 0, 57, 0, 0, 0, 0, 2, 219, 233, 200, 118, 0, 0, 0, 0, 0, 0, 0, 0, 0, 0, 0, 0, 0, 0,
    0, 0, 0, 0, 0, 0, 0, 0, 255, 255, 255, 255, 255, 255, 255, 255, 255, 255, 255, 255, 255, 255,
    0, 0, 0, 1, 14, 0, 0, 0, 1, 2, 97, 0,
];

/// The reply to the request with correlation id 1 that brings nothing: the high watermark is 1.
const NOTHING: [u8; 53] = [
    0, 0, 0, 49, 0, 0, 0, 1, 0, 0, 0, 0, 0, 0, 0, 1, 0, 1, 116, 0, 0, 0, 1, 0, 0, 0, 0, 0, 0, 0, 0,
    0, 0, 0, 0, 0, 1, 0, 0, 0, 0, 0, 0, 0, 1, 255, 255, 255, 255, 0, 0, 0, 0,
];

/// Where the batch begins in the body of the first reply, and how many bytes it has.
const BATCH_AT: usize = 49;

// Follower 1 of the partition 0 of the topic `t`, with an empty copy.
fn replica(alloc: Global) -> Result<Replica, NoMemory> {
    Replica::new(alloc, b"t", 0, 1)
}

#[test]
fn a_copy_takes_a_batch_once(rt: HostRuntime) {
    let mut replica = replica(rt.alloc()).expect(&rt, "memory");
    let asked = replica.ask(2).expect(&rt, "memory");
    assert!(rt; asked.as_slice() == ASKED.as_slice());
    let gap = TakeFault::Gap { kept: 1, found: 0 };
    for (correlation, body, taken) in [
        (0, &BROUGHT[4..], Ok(1)),
        (0, &BROUGHT[4..], Err(gap)),
        (1, &NOTHING[4..], Ok(0)),
    ] {
        assert!(rt; replica.take(correlation, body) == taken);
        assert!(rt; (replica.end(), replica.high()) == (1, 1));
    }
    assert!(rt; replica.log() == &BROUGHT[4 + BATCH_AT..]);
}

// A link to a leader that brings a batch, and then nothing.
fn leader(alloc: Global) -> Result<MemLink, NoMemory>
    ensures { IfOk result (λ link. IsNewWire link) }
{
    let mut input = copied(alloc, &BROUGHT)?;
    input.extend(&NOTHING)?;
    MemLink::new(alloc, input, 1000, List::new(alloc))
}

#[test]
fn two_rounds_ask_from_two_offsets(rt: HostRuntime) {
    let mut replica = replica(rt.alloc()).expect(&rt, "memory");
    let mut link = leader(rt.alloc()).expect(&rt, "memory");
    assert!(rt; follow(rt.alloc(), &mut link, &mut replica, 2) == FollowEnd::Done);
    assert!(rt; (link.bytes().len(), replica.end(), replica.high()) == (116, 1, 1));
    assert!(rt; link.bytes().get(46..54) == Some([0u8; 8].as_slice()));
    assert!(rt; link.bytes().get(104..112) == Some([0u8, 0, 0, 0, 0, 0, 0, 1].as_slice()));
}

// The words of a command line.
fn words_of(alloc: Global, words: &[&str]) -> Result<Vec<String>, AllocError> {
    let mut list = Vec::new(alloc);
    for word in words {
        list.push(String::from_str(alloc, word)?)?;
    }
    Ok(list)
}

fn dial(alloc: Global) -> Result<MemDial, NoMemory> {
    let mut links = List::new(alloc);
    links.push(leader(alloc)?)?;
    MemDial::new(alloc, links, List::new(alloc))
}

// Whether a run in two rounds prints this, and hands its link back.
fn prints(alloc: Global, dial: &mut MemDial, sink: &mut MemSink, text: &[u8]) -> bool {
    let Ok(words) = words_of(alloc, &["9092", "t", "0", "1", "2"]) else {
        return false;
    };
    run_follower(alloc, words.as_slice(), sink, dial) == 0
        && sink.bytes() == text
        && dial.pop_retired().is_some()
}

#[test]
fn a_run_prints_how_far_it_came(rt: HostRuntime) {
    let mut dial = dial(rt.alloc()).expect(&rt, "memory");
    let mut sink = MemSink::new(rt.alloc(), 100, List::new(rt.alloc())).expect(&rt, "memory");
    assert!(rt;
        prints(
            rt.alloc(),
            &mut dial,
            &mut sink,
            b"follower end 1 bytes 69\n"
        )
    );
}

// Opens a port under the first of these numbers that is free, dials it, and answers whether a byte passes each way.
fn talks<R>(rt: &R) -> Result<bool, Failed>
where
    R: Net<Listener = TcpListener, Stream = TcpStream>,
{
    let mut port = TcpPort::new(rt);
    let number = (29_192..29_292)
        .find(|number| port.open(*number).is_ok())
        .ok_or(Failed)?;
    let mut dial = TcpDial::new(rt);
    let mut near = dial.dial(number)?;
    let mut far = port.accept()?.ok_or(Failed)?;
    let mut into = [0; 4];
    let sent = near.write(b"ask")?;
    let came = far.read(&mut into)?;
    let answered = far.write(b"told")?;
    let back = near.read(&mut into)?;
    near.shut();
    dial.retire(near);
    port.retire(0, far);
    Ok((sent, came, answered, back) == (3, 3, 4, 4))
}

#[test]
fn a_dial_reaches_a_port_of_this_machine(rt: HostRuntime) {
    assert!(rt; talks(&rt) == Ok(true));
}
