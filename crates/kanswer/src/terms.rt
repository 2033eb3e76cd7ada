ghost use Rattle.std.specs.Prelude.{◌≡◌};
ghost use Rattle.kanswer.specs.Decisions.{full_code, is_acks, needed_insync};

use kbatch::BatchView;
use kwire::codes;

/// The first version of a produce that knows `KAFKA_STORAGE_ERROR` (Kafka protocol guide: Produce v4).
pub const STORAGE_ERROR_VERSION: i16 = 4;

/// The terms of a produce: its version, whether it has a transactional id, and its acks.
#[derive(Clone, Copy)]
pub struct Terms {
    pub version: i16,
    pub is_transactional: bool,
    pub acks: i16,
}

impl Terms {
    // The acks are -1, 0 or 1.
    pub(crate) fn has_known_acks(&self) -> bool
        ensures { result ≡ is_acks self.now.acks }
    {
        self.acks == -1 || self.acks == 0 || self.acks == 1
    }

    // How many replicas have to be in sync, where the topic asks for so many at least: none without acks -1.
    pub(crate) fn needed_insync(&self, least: u32) -> u32
        ensures { result ≡ needed_insync self.now.acks least }
    {
        if self.acks == -1 { least } else { 0 }
    }
}

/// A batch for a partition, as a produce in this version sent it.
#[derive(Drop)]
pub struct SentBatch<'a> {
    pub version: i16,
    /// How many replicas have to be in sync for it to be taken, the leader counted.
    pub least: u32,
    pub batch: BatchView<'a>,
}

impl SentBatch<'_> {
    /// The code for a log that is full.
    pub fn full_code(&self) -> i16
        ensures { result ≡ full_code self.now.version }
    {
        if STORAGE_ERROR_VERSION <= self.version {
            codes::KAFKA_STORAGE_ERROR
        } else {
            codes::NOT_LEADER_OR_FOLLOWER
        }
    }
}
