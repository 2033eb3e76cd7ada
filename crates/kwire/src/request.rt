//! A request as data, with names and records of its own. `view` has the same types with borrowed bytes.

use kbytes::{Bytes, List};

/// The most topics that a request may name, and the most partitions.
pub const MOST_NAMED: u32 = 64;

/// What a produce brings for one partition: the bytes of a record batch, or null.
#[derive(Drop)]
pub struct ProducePart {
    pub index: i32,
    pub records: Option<Bytes>,
}

#[derive(Drop)]
pub struct ProduceTopic {
    pub name: Bytes,
    pub parts: List<ProducePart>,
}

/// What a fetch asks of one partition: the records from `offset` on, at most `most` bytes. `log_start` is where the asker's
/// own log starts, which changes no answer; it is -1 where the version doesn't tell it.
#[derive(Drop)]
pub struct FetchPart {
    pub index: i32,
    pub offset: i64,
    pub log_start: i64,
    pub most: i32,
}

#[derive(Drop)]
pub struct FetchTopic {
    pub name: Bytes,
    pub parts: List<FetchPart>,
}

/// The fields of a request, by its kind. Times are in milliseconds. A produce and a fetch are in one of the versions that are
/// read whole.
#[derive(Drop)]
pub enum Ask {
    Produce {
        version: i16,
        transactional: Option<Bytes>,
        acks: i16,
        timeout: i32,
        topics: List<ProduceTopic>,
    },
    Fetch {
        version: i16,
        replica: i32,
        max_wait: i32,
        min_bytes: i32,
        max_bytes: i32,
        isolation: i8,
        topics: List<FetchTopic>,
    },
    /// The named topics, or all of them.
    Metadata {
        topics: Option<List<Bytes>>,
    },
    /// Asks for the api versions, in this version of that request.
    Versions {
        version: i16,
    },
}

#[derive(Drop)]
pub struct Request {
    pub correlation: i32,
    pub client: Option<Bytes>,
    pub ask: Ask,
}
