/// One entry of a partition's history. `by` is the number of the pass that made it, and `seq` the number of the call among
/// those of the pass.
#[derive(Clone, Copy, PartialEq, Eq)]
pub enum PartEvent {
    /// A batch of `count` records in `len` bytes was appended to the log.
    Append {
        by: u32,
        seq: u32,
        count: u32,
        len: u32,
    },
    /// A follower fetched from an offset between 0 and the log end, at this moment in milliseconds.
    Follow {
        by: u32,
        seq: u32,
        replica: i32,
        offset: u64,
        t: u64,
    },
    /// The log was looked at, and nothing changed.
    Look {
        by: u32,
        seq: u32,
    },
    /// A follower that lagged at this moment, in milliseconds, was taken out of the in-sync set. It is nobody's call.
    Shrink {
        by: u32,
        replica: i32,
        t: u64,
    },
}
