//! Requests that are read and written again. The bytes were made apart from this repository's crates.

use kbytes::Bytes;
use kwire::{Ask, Frame, next_frame, read_request, request_bytes};
use std::alloc::Global;
use std::test::*;

const PRODUCE: [u8; 43] = [
    0, 0, 0, 3, 0, 0, 0, 1, 0, 1, 99, 255, 255, 0, 1, 0, 0, 3, 232, 0, 0, 0, 1, 0, 1, 116, 0, 0, 0,
    1, 0, 0, 0, 0, 0, 0, 0, 5, 104, 101, 108, 108, 111,
];

const FETCH: [u8; 55] = [
    0, 1, 0, 4, 0, 0, 0, 2, 0, 1, 99, 255, 255, 255, 255, 0, 0, 0, 100, 0, 0, 0, 1, 3, 32, 0, 0, 0,
    0, 0, 0, 1, 0, 1, 116, 0, 0, 0, 1, 0, 0, 0, 0, 0, 0, 0, 0, 0, 0, 0, 0, 0, 16, 0, 0,
];

// The same in version 5, with where the asker's log starts.
const FETCH_5: [u8; 63] = [
    0, 1, 0, 5, 0, 0, 0, 2, 0, 1, 99, 255, 255, 255, 255, 0, 0, 0, 100, 0, 0, 0, 1, 3, 32, 0, 0, 0,
    0, 0, 0, 1, 0, 1, 116, 0, 0, 0, 1, 0, 0, 0, 0, 0, 0, 0, 0, 0, 0, 0, 0, 0, 0, 0, 0, 0, 0, 0, 7,
    0, 16, 0, 0,
];

const METADATA: [u8; 15] = [0, 3, 0, 1, 0, 0, 0, 7, 0, 1, 99, 255, 255, 255, 255];

const VERSIONS: [u8; 11] = [0, 18, 0, 0, 0, 0, 0, 5, 0, 1, 99];

const BODIES: [&[u8]; 5] = [&PRODUCE, &FETCH, &FETCH_5, &METADATA, &VERSIONS];

// The frame of the request that a body is. `None` for a request for versions in another version, which can't be written.
fn written_again(alloc: Global, body: &[u8]) -> Option<Bytes> {
    let request = read_request(alloc, body).ok()?;
    let is_written = match &request.ask {
        Ask::Versions { version } => *version == 0,
        _ => true,
    };
    if !is_written || body.len() > 1_000 {
        return None;
    }
    request_bytes(alloc, &request).ok()
}

// Whether that ends with the body, and is one frame.
fn is_written_again(alloc: Global, body: &[u8]) -> bool {
    match written_again(alloc, body) {
        Some(frame) => frame.as_slice().ends_with(body)
            && next_frame(frame.as_slice()) == Frame::Whole { end: frame.len() },
        None => false,
    }
}

#[test]
fn requests_are_read_and_written_again(rt: HostRuntime) {
    for body in BODIES {
        assert!(rt; is_written_again(rt.alloc(), body));
    }
}
