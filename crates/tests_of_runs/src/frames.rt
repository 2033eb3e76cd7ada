//! Requests and replies, byte by byte. They were made apart from this repository's code, from the layouts in `docs/protocol.md`.

/// A produce, version 3, with correlation id 1 and client `c`: acks 1, within 1000 ms, a batch of one record for partition 0 of `t`.
pub(crate) const PRODUCE: [u8; 111] = [
    0, 0, 0, 107, 0, 0, 0, 3, 0, 0, 0, 1, 0, 1, 99, 255, 255, 0, 1, 0, 0, 3, 232, 0, 0, 0, 1, 0, 1,
    116, 0, 0, 0, 1, 0, 0, 0, 0, 0, 0, 0, 69, 0, 0, 0, 0, 0, 0, 0, 0, 0, 0, 0, 57, 0, 0, 0, 0, 2,
    219, 233, 200, 118, 0, 0, 0, 0, 0, 0, 0, 0, 0, 0, 0, 0, 0, 0, 0, 0, 0, 0, 0, 0, 0, 0, 255, 255,
    255, 255, 255, 255, 255, 255, 255, 255, 255, 255, 255, 255, 0, 0, 0, 1, 14, 0, 0, 0, 1, 2, 97,
    0,
];

/// Its reply: the batch got the base offset 0.
pub(crate) const PRODUCED: [u8; 45] = [
    0, 0, 0, 41, 0, 0, 0, 1, 0, 0, 0, 1, 0, 1, 116, 0, 0, 0, 1, 0, 0, 0, 0, 0, 0, 0, 0, 0, 0, 0, 0,
    0, 0, 255, 255, 255, 255, 255, 255, 255, 255, 0, 0, 0, 0,
];

/// A fetch, version 4, with correlation id 2 and client `c`: at least 1 byte from the start of partition 0 of `t`, within 100 ms.
pub(crate) const FETCH: [u8; 59] = [
    0, 0, 0, 55, 0, 1, 0, 4, 0, 0, 0, 2, 0, 1, 99, 255, 255, 255, 255, 0, 0, 0, 100, 0, 0, 0, 1, 3,
    32, 0, 0, 0, 0, 0, 0, 1, 0, 1, 116, 0, 0, 0, 1, 0, 0, 0, 0, 0, 0, 0, 0, 0, 0, 0, 0, 0, 16, 0,
    0,
];

/// Its reply with the batch: the high watermark is 1.
pub(crate) const FETCHED: [u8; 122] = [
    0, 0, 0, 118, 0, 0, 0, 2, 0, 0, 0, 0, 0, 0, 0, 1, 0, 1, 116, 0, 0, 0, 1, 0, 0, 0, 0, 0, 0, 0,
    0, 0, 0, 0, 0, 0, 1, 0, 0, 0, 0, 0, 0, 0, 1, 255, 255, 255, 255, 0, 0, 0, 69, 0, 0, 0, 0, 0, 0,
    0, 0, 0, 0, 0, 57, 0, 0, 0, 0, 2, 219, 233, 200, 118, 0, 0, 0, 0, 0, 0, 0, 0, 0, 0, 0, 0, 0, 0,
    0, 0, 0, 0, 0, 0, 0, 0, 255, 255, 255, 255, 255, 255, 255, 255, 255, 255, 255, 255, 255, 255,
    0, 0, 0, 1, 14, 0, 0, 0, 1, 2, 97, 0,
];
