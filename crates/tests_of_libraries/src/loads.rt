//! Generated loads have the lines that the independent model gives them (`model/traces/storm.py`).

use kbatch::crc32c;
use kbytes::{Bytes, NoMemory};
use std::alloc::Global;
use std::test::*;
use storm::{MOST_REQUESTS, storm};
use trace_file::put_line;

// A seed, a number of requests, and the size and the CRC-32C of the text.
const LOADS: &[(u64, u32, usize, u32)] = &[
    (7, 1, 296, 0xF35C5EFC),
    (7, 20, 4848, 0x97D7E9F7),
    (7, 64, 12880, 0x5D92C1B9),
    (7, 20_000, 4021413, 0x6BFCB898),
    (0, 100, 20387, 0x3AFB2956),
    (u64::MAX, 333, 67815, 0x6ED5BEF6),
];

// The text of a load.
fn text(alloc: Global, seed: u64, n: u32) -> Result<Bytes, NoMemory> {
    let mut text = Bytes::new(alloc);
    if 1 <= n && n <= MOST_REQUESTS {
        for line in storm(alloc, seed, n)?.as_slice() {
            put_line(&mut text, line)?;
        }
    }
    Ok(text)
}

#[test]
fn loads_are_those_of_the_model(rt: HostRuntime) {
    for (seed, n, size, crc) in LOADS {
        let text = text(rt.alloc(), *seed, *n).expect(&rt, "memory");
        assert!(rt; (text.len(), crc32c(text.as_slice())) == (*size, *crc));
    }
}
