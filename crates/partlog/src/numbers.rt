ghost use Rattle.std.specs.Prelude.{◌≡◌};

use crate::batch_start::BatchStart;

/// A partition's offsets and gauges.
#[derive(Clone, Copy, PartialEq, Eq)]
pub struct Numbers {
    /// The log end offset: the offset of the next record.
    pub end: u64,
    /// The high watermark: the offset up to which every replica in sync has fetched.
    pub high: u64,
    /// The bytes of the batches wholly below the high watermark.
    pub visible: u64,
    /// The bytes of all batches.
    pub bytes: u64,
    /// How many replicas are in sync, the leader among them.
    pub insync: u32,
}

impl Numbers {
    // Where the next batch will begin.
    pub(crate) fn next_start(&self) -> BatchStart
        ensures { result ≡ record { base = self.now.end; place = self.now.bytes } }
    {
        BatchStart {
            base: self.end,
            place: self.bytes,
        }
    }
}
