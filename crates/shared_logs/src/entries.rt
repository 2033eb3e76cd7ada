//! What a lock sees of the histories. No value of these types is made.
use kbytes::Bytes;
use partlog::{ClockEvent, PartEvent};

/// One entry of a partition's history.
#[derive(Drop)]
pub struct LogEntry {
    pub event: PartEvent,
    /// The batch of an append as it is in the log; else no bytes.
    pub bytes: Bytes,
}

/// One entry of the clock's history.
#[derive(Drop)]
pub struct ClockEntry {
    pub event: ClockEvent,
    /// The number of the pass that left it.
    pub by: u32,
}
